//! From gates to a formula, its closure and its first model.

mod closures;
mod formulas;
mod nets;
mod searches;

/// Numbers in a fixed sequence that looks random.
#[derive(Drop)]
struct Sequence {
    state: u64,
}

impl Sequence {
    fn next(&mut self) -> u64 {
        self.state = self
            .state
            .wrapping_mul(6364136223846793005)
            .wrapping_add(1442695040888963407);
        self.state >> 33
    }
}

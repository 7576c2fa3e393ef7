//! What a folder was asked for, which proofs alone read.

ghost use Rattle.std.specs.Prelude.{◌≡◌, List, [], ◌∷◌, ◌++◌};
ghost use Rattle.std.specs.Borrow.{ftrue};
ghost use Rattle.fault_io.specs.Requests.{Request};

use std::marker::Model;

/// What a folder was asked for, in order. It takes no memory, and its methods do nothing at run
/// time.
#[derive(Debug, Drop)]
pub(crate) struct Requests {
    pub(crate) ghost items: { List Request },
}

impl Model for Requests {
    ghost also_owns = { λ _. ftrue };
}

impl Requests {
    /// Nothing was asked for.
    pub(crate) fn new() -> Self
        ensures { result.items ≡ [] }
    {
        Requests {}
    }

    /// One more file was asked for.
    pub(crate) fn add(&mut self, _name: &str, _limit: u32)
        ensures { self.new.items ≡ self.old.items ++ record { name = _name.now; limit = _limit } ∷ [] }
    {}
}

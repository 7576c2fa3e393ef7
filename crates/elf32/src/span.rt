//! Ranges of addresses.

ghost use Rattle.std.specs.Prelude.{◌≡◌, ◌+◌};
ghost use Rattle.elf32.specs.Spans.{stack, share};

/// The addresses from `base` up to but not including `base + size`.
#[derive(Clone, Copy)]
pub struct Span {
    pub base: u32,
    pub size: u32,
}

/// The addresses of the stack.
pub fn stack() -> Span
    ensures { result ≡ stack }
{
    Span {
        base: 0x7ff0_0000,
        size: 0x0010_0000,
    }
}

impl Span {
    /// The address after the last.
    pub fn end(&self) -> u64
        ensures { result ≡ self.now.base + self.now.size }
    {
        u64::from(self.base) + u64::from(self.size)
    }

    /// Whether some address lies in both.
    pub fn shares(&self, other: &Span) -> bool
        ensures { result ≡ share self.now other.now }
    {
        u64::from(self.base.max(other.base)) < self.end().min(other.end())
    }
}

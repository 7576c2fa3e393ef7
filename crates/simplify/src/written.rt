//! What a rule writes.

use term_arena::Term;
use term_model::Op;

/// What a rule writes in place of an operation.
#[derive(Clone, Copy, Debug)]
pub(crate) enum Written {
    /// A term that is there.
    Known(Term),
    /// A constant.
    Constant(u32),
    /// An operation on two terms that are there.
    Operation(Op, Term, Term),
    /// An operation on a term that is there and a constant.
    WithConstant(Op, Term, u32),
    /// Whether a term isn't 0, as `Eq(Eq(t, 0), 0)`.
    NotZero(Term),
}

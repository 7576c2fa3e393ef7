//! Symbolic replay: from a program and what its run tells to the conditions that another input has to meet for the
//! program to run the same. The input that the run was made with is not needed, and not asked for.
//!
//! Symbolic execution (King, CACM 19(7), 1976) along a path that is known. Each register and each byte of memory is a
//! number, or a term over the input (`state`). Of each event in turn its conditions are added: the fetched word, a
//! branch's outcome, a jump's target, a data address, a call's values (`pins`); then what it leaves is put into the
//! state (`effects`). An operation on numbers is computed and asks the arena for nothing; any other makes a normal
//! form.
//!
//! Invariant (`IsState`, `terms_of`): the state stands for that of the definition after the same events. Registers
//! and bytes have its trees, a byte that is no term is memory's, and rights and break are the run's. So the
//! conditions are those of `conditions_of`, one for one, and no clause speaks of the numbers.
#![tactic(auto)]

mod effects;
mod pins;
mod state;
mod value;
mod whole;

pub use whole::replay;

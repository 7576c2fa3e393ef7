//! Making a report: of a program and the trace of a run on some input, and never of the input.
//!
//! [`made`] is the whole way from a program and an input to the report; past the trace, [`make_report`]
//! is not handed the input.
#![tactic(auto)]

mod error;
mod fill;
mod lists;
mod maker;
mod making;
mod mask;
mod put;

pub use error::{MakeError, ReportError};
pub use lists::Bytes;
pub use maker::{Made, make_report};
pub use making::made;
pub use mask::order_mask;

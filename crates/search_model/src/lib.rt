//! The closure of clauses under unit propagation, and the clause-learning search, for any literals
//! that have negations. The crate has definitions alone: `Literals`, `Closure` (the least closed
//! set), `Tests` (the closure by passes), `Search` (turn by turn), `Growing` (trimming by passes)
//! and `Model`.
#![tactic(auto)]

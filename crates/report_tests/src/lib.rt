//! What a report doesn't say of how it was made, and texts that are read and written.
#![tactic(auto)]

#[cfg(test)]
mod programs;
#[cfg(test)]
mod tests;
#[cfg(test)]
mod texts;

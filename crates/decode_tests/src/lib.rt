//! Operations, words and instructions against what other tools say of them.
#![tactic(auto)]

#[cfg(test)]
mod tests;
#[cfg(test)]
mod values;
#[cfg(test)]
mod words;

//! What the lower crates answer, by rows of worked cases.

mod files;
mod lines;
mod numbers;
mod runs;
mod sets;
mod sinks;

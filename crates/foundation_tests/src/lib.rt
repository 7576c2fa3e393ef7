//! Numbers, lines, runs, watches, byte sets, files and sinks as a caller makes them.
#![tactic(auto)]

#[cfg(test)]
mod tests;

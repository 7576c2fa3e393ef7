//! Files of programs and the machine's memory, by the calls of their libraries: what no run of the tool tells.
#![tactic(auto)]

#[cfg(test)]
mod demos;
#[cfg(test)]
mod files;
#[cfg(test)]
mod images;
#[cfg(test)]
mod linked;
#[cfg(test)]
mod memory;
#[cfg(test)]
mod tests;

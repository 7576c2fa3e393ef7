//! The one refusal that any call which takes memory may give.
#![tactic(auto)]

use std::alloc::AllocError;

/// Memory could not be had. What stands after such a refusal is said where the call stands.
pub type NoMemory = AllocError;

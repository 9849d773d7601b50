// Registers and states as bytes, as they cross the C boundary.
#![tactic(auto)]

pub mod a64_state;
pub mod rv64_hart;

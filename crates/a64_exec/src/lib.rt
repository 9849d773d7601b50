// The A64 machine: its state, and what each form does.
#![tactic(auto)]

pub mod exec;
pub mod state;

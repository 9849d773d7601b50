// The run of a block on the A64 machine.
#![tactic(auto)]

pub mod run;

// The run of a block by the RISC-V Unprivileged ISA.
#![tactic(auto)]

pub mod run;

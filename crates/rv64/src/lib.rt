// RV64I, M and Zbb by the RISC-V Unprivileged ISA: decoding, and what one instruction does.
#![tactic(auto)]

pub mod alu;
pub mod decode;
pub mod execute;
pub mod zbb;

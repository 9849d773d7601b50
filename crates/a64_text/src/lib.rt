// The assembler text of the A64 forms, written into lent bytes.
#![tactic(auto)]

pub mod assembly;
pub mod operand;
pub mod text;

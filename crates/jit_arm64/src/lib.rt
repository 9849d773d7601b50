// `compile_native_block` of jit_arm64.rs: RV64 guest blocks in, A64 words out.
#![tactic(auto)]

pub mod block;
pub mod fetch;

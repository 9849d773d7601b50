// Bytes and numbers written one after the other.
#![tactic(auto)]

mod digits;
mod writer;

pub use writer::Writer;

// The machine's registers and flags. Memory is lent.
use a64_alu::Flags;

// X0 to X30, SP and the flags.
#[derive(Drop)]
pub struct A64State {
    pub x: [u64; 31],
    pub sp: u64,
    pub flags: Flags,
}

// What an instruction does to the registers, and how the block goes on.
ghost use Rattle.std.specs.Prelude.{◌≡◌, ◌<◌};
ghost use Rattle.rv64.specs.Execute as X;
ghost use Rattle.rv64.specs.Parts as S;

#[derive(Clone, Copy, PartialEq, Eq, Debug)]
pub enum Flow {
    // goes on at this PC
    Next(u64),
    // a jump, a branch or FENCE.I ended the block; goes on at this PC
    Ended(u64),
    Helper,
    Uncovered,
}

// What an instruction does, by the registers before it.
#[derive(Clone, Copy, PartialEq, Eq, Debug)]
pub enum Effect {
    // the register of this number set to this value, and goes on after the instruction
    Set(u32, u64),
    // the register of this number set to the address after the instruction, and the block's end; goes on at this PC
    Link(u32, u64),
    // the block's end; goes on at this PC
    Ended(u64),
    // goes on after the instruction
    Next,
    Helper,
    Uncovered,
}

// Kept: n < 32 in three contracts: no plainer as a type, which each caller would make of a remainder.
#[tactic(auto, unfolding(crate::specs::Execute::read))]
pub fn read(x: &[u64; 32], n: u32) -> u64
    requires { n < 32 }
    ensures { result ≡ X.read x.now n }
{
    if n == 0 {
        return 0;
    }
    let i = n as usize;
    x[i]
}

// Register rd set to v.
#[tactic(auto, unfolding(crate::specs::Execute::write))]
pub fn set(x: &mut [u64; 32], rd: u32, v: u64)
    requires { rd < 32 }
    ensures { x.new ≡ X.write x.old rd v }
{
    if rd == 0 {
        return;
    }
    let i = rd as usize;
    x[i] = v;
}

// What is computed put in register rd.
#[tactic(auto, unfolding(crate::specs::Parts::put))]
pub fn put(rd: u32, c: Option<u64>) -> Effect
    ensures { result ≡ S.put c rd }
{
    match c {
        Some(v) => Effect::Set(rd, v),
        None => Effect::Uncovered,
    }
}

// The block's end at one of two places.
pub fn ended(taken: bool, to: u64, next: u64) -> Effect
    ensures { result ≡ S.ended taken to next }
{
    if taken {
        Effect::Ended(to)
    } else {
        Effect::Ended(next)
    }
}

// The effect of an instruction on the registers; next is the address after it.
#[tactic(auto, unfolding(crate::specs::Parts::applied))]
pub fn apply(x: &mut [u64; 32], e: Effect, next: u64) -> Flow
    requires { S.sets e < 32 }
    ensures { S.Does (S.applied e next x.old) result x.new }
{
    match e {
        Effect::Set(rd, v) => {
            set(x, rd, v);
            Flow::Next(next)
        }
        Effect::Link(rd, to) => {
            set(x, rd, next);
            Flow::Ended(to)
        }
        Effect::Ended(to) => Flow::Ended(to),
        Effect::Next => Flow::Next(next),
        Effect::Helper => Flow::Helper,
        Effect::Uncovered => Flow::Uncovered,
    }
}

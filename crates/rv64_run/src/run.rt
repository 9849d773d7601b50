// A block's run, and the operation RV64 run.
ghost use Rattle.std.specs.Prelude.{◌≡◌, ◌≤◌, length, drop, IfErr};
ghost use Rattle.rv64_run.specs.Run as Rv64;
ghost use Rattle.rv64_run.specs.Parts as S;

use rules::MAX_INSTRS;
use rules::refusals::{Refusal, Refused};
use rv64::decode::step32;
use rv64::execute::Flow;
use rvc::step16;

#[derive(Drop)]
pub struct Hart {
    pub x: [u64; 32],
    pub pc: u64,
}

// The bits of an instruction.
#[derive(Clone, Copy, PartialEq, Eq, Debug)]
pub enum Encoding {
    Half(u16),
    Word(u32),
}

// Why a run stops.
// Kept: a rule of the project: this run and the translator's walk, whose `Stop` looks alike, do not lean on each other.
#[derive(Clone, Copy, PartialEq, Eq, Debug)]
pub enum Stop {
    Limit,
    Ended,
    Helper,
    Uncovered,
    NotFetched,
}

#[derive(Drop)]
pub struct Ran {
    pub hart: Hart,
    pub count: u32,
    pub stop: Stop,
}

// The instruction at a place in the guest bytes; none where fewer bytes are left than it has.
pub fn fetch(guest: &[u8], at: usize) -> Option<Encoding>
    requires { at ≤ length guest.now }
    ensures { result ≡ S.encoding (drop at guest.now) }
{
    let left = guest.len() - at;
    if left < 2 {
        return None;
    }
    let low = le::load::<u16>(guest, at);
    if low % 4 != 3 {
        return Some(Encoding::Half(low));
    }
    if left < 4 {
        return None;
    }
    Some(Encoding::Word(le::load(guest, at)))
}

// The instruction at a place in the guest bytes, and at pc, on the registers: how the block goes on, and the
// instruction's length in bytes.
fn step(
    x: &mut [u64; 32],
    guest: &[u8],
    at: usize,
    ignore_ebreak: bool,
    pc: u64,
) -> Option<(Flow, usize)>
    requires { at ≤ length guest.now }
    ensures { (result ≡ S.stepped (Rv64.fetch ignore_ebreak (drop at guest.now)) pc x.old) × (x.new ≡ S.after (Rv64.fetch ignore_ebreak (drop at guest.now)) pc x.old) }
{
    match fetch(guest, at)? {
        Encoding::Half(w) => Some((step16(x, w, ignore_ebreak, pc), 2)),
        Encoding::Word(w) => Some((step32(x, w, pc), 4)),
    }
}

// At most limit instructions, the first at the hart's PC.
pub fn run(guest: &[u8], limit: u32, ignore_ebreak: bool, hart: Hart) -> Ran
    ensures { result ≡ Rv64.run ignore_ebreak limit 0 guest.now hart }
{
    let mut h = hart;
    let mut at: usize = 0;
    let mut n: u32 = 0;
    // Kept: a loop, no plainer as a for: the place moves by the instruction's length, and the run breaks with an enum.
    let stop = loop {
        if n == limit {
            break Stop::Limit;
        }
        let pc = h.pc;
        let Some((flow, size)) = step(&mut h.x, guest, at, ignore_ebreak, pc) else {
            break Stop::NotFetched;
        };
        match flow {
            Flow::Next(to) => {
                h.pc = to;
                at += size;
            }
            Flow::Ended(to) => {
                h.pc = to;
                n += 1;
                break Stop::Ended;
            }
            Flow::Helper => break Stop::Helper,
            Flow::Uncovered => break Stop::Uncovered,
        }
        n += 1;
    };
    Ran {
        hart: h,
        count: n,
        stop,
    }
}

// Why a run that stopped before the first instruction's end is refused.
#[tactic(auto, unfolding(crate::specs::Parts::at_first))]
fn at_first(stop: Stop) -> Refusal
    ensures { result ≡ S.at_first stop }
{
    match stop {
        Stop::NotFetched => Refusal::NotFetched,
        _ => Refusal::NotCovered,
    }
}

// The operation RV64 run. No instruction reads register 0's entry or writes it: it is given back as 0 (document 02,
// No. 6).
pub fn rv64_run(
    guest: &[u8],
    hart: Hart,
    limit: u32,
    ignore_ebreak: bool,
) -> Result<Ran, Refused<Hart>>
    ensures numbers { Rv64.numbers result ≡ Rv64.answer guest.now hart limit ignore_ebreak }
    ensures given { IfErr result (λ e. e.given ≡ hart) }
{
    if limit == 0 {
        return Err(Refused {
            refusal: Refusal::LimitZero,
            given: hart,
        });
    }
    if hart.pc % 2 != 0 {
        return Err(Refused {
            refusal: Refusal::OddPc,
            given: hart,
        });
    }
    let mut ran = run(guest, limit.min(MAX_INSTRS), ignore_ebreak, hart);
    if ran.count == 0 {
        return Err(Refused {
            refusal: at_first(ran.stop),
            given: ran.hart,
        });
    }
    ran.hart.x[0] = 0;
    Ok(ran)
}

// Replays what an Arm machine was recorded to do, and document 01's own rules (machines/README.md has the format).
#![tactic(auto)]

use a64_alu::Flags;
use a64_exec::state::A64State;
use a64_run::run;
use a64_run::run::Ran;
use rules::refusals::Refused;
use std::io;

// Whether the answer is the recorded one: every register, SP, NZCV, every memory byte, end and steps.
// `x` is as at entry.
fn answers(
    file: &mut &[u8],
    answer: Result<Ran, Refused<A64State>>,
    x: &mut [u64; 31],
    memory: &[u8],
    after: &mut [u8],
) -> bool {
    replay::read_registers(file, x);
    let sp = replay::read_number(file);
    let nzcv = replay::read_byte(file) as u64;
    replay::read_full(file, after);
    let end = replay::read_byte(file) as u32;
    let steps = replay::read_byte(file) as u64;
    let Ok(ran) = answer else {
        return false;
    };
    ran.state.x == *x
        && u32::from(ran.end) == end
        && ran.steps == steps
        && ran.state.sp == sp
        && u64::from(ran.state.flags) == nzcv
        && memory == &*after
}

// Runs the next case, whose words have been read into `block`.
fn agrees(file: &mut &[u8], block: &[u8], memory: &mut [u8], after: &mut [u8]) -> bool {
    let address = replay::read_number(file);
    let budget = replay::read_number(file);
    let mut x = [0u64; 31];
    replay::unnamed(&mut x);
    replay::read_registers(file, &mut x);
    let sp = replay::read_number(file);
    let flags = Flags::from(u64::from(replay::read_byte(file)));
    let base = replay::read_number(file);
    let size = replay::read_size(file, 64);
    if memory.len() < size || after.len() < size {
        return false;
    }
    let memory = &mut memory[..size];
    let after = &mut after[..size];
    replay::read_full(file, memory);
    let state = A64State { x, sp, flags };
    let answer = run::a64_run(block, address, state, budget, memory, base);
    answers(file, answer, &mut x, memory, after)
}

fn replay_case(file: &mut &[u8]) -> bool {
    let mut block = [0u8; 256];
    let mut memory = [0u8; 64];
    let mut after = [0u8; 64];
    let size = replay::read_size(file, 64) * 4;
    let words = &mut block[..size];
    replay::read_full(file, words);
    agrees(file, words, &mut memory, &mut after)
}

// "A64CASES"
const MAGIC: u64 = 0x5345_5341_4334_3641;

fn main(rt: HostRuntime) -> io::Result<()> {
    for path in ["a64.bin", "a64_rules.bin"] {
        replay::replay_file(
            &rt,
            path,
            Some(MAGIC),
            " cases, ",
            |file| Some(replay_case(file)),
        )?;
    }
    Ok(())
}

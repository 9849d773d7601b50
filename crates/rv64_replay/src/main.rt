// Replays what a RISC-V machine was recorded to do, and document 01's own rules (machines/README.md has the formats).
#![tactic(auto)]

use rv64_run::run;
use rv64_run::run::Hart;
use std::io;

// Runs the next case, whose guest bytes have been read, and compares every register, the next PC, the count and the
// refusal. `read_rule` reads a field that only the rules' cases have, and gives 0 in the others.
fn agrees<F: Fn(&mut &[u8]) -> u8>(file: &mut &[u8], read_rule: F, guest: &[u8]) -> bool
    requires { F.IsAlwaysCallable read_rule }
{
    let pc = replay::read_number(file);
    let limit = u32::from(replay::read_byte(file));
    let ignore_ebreak = read_rule(file) != 0;
    let mut x = [0u64; 32];
    replay::unnamed(&mut x);
    replay::read_registers(file, &mut x);
    let hart = Hart { x, pc };
    let answer = run::rv64_run(guest, hart, limit, ignore_ebreak);
    replay::read_registers(file, &mut x);
    let next_pc = replay::read_number(file);
    let count = u32::from(replay::read_byte(file));
    let expected = u32::from(read_rule(file));
    match answer {
        Ok(ran) => {
            ran.hart.x == x && expected == 0 && ran.hart.pc == next_pc && ran.count == count
        }
        Err(refused) => {
            refused.given.x == x
                && u32::from(refused.refusal) == expected
                && next_pc == 0
                && count == 0
        }
    }
}

fn replay_case<F: Fn(&mut &[u8]) -> u8>(file: &mut &[u8], read_rule: F) -> bool
    requires { F.IsAlwaysCallable read_rule }
{
    let mut bytes = [0u8; 64];
    let size = replay::read_size(file, 64);
    let guest = &mut bytes[..size];
    replay::read_full(file, guest);
    agrees(file, read_rule, guest)
}

// "RV64CASE"
const CASES: u64 = 0x4553_4143_3436_5652;

// "RV64RULE"
const RULES: u64 = 0x454c_5552_3436_5652;

fn main(rt: HostRuntime) -> io::Result<()> {
    replay::replay_file(&rt, "rv64.bin", Some(CASES), " cases, ", |file| {
        Some(replay_case(file, |_| 0))
    })?;
    replay::replay_file(&rt, "rv64_rules.bin", Some(RULES), " cases, ", |file| {
        Some(replay_case(file, replay::read_byte))
    })
}

// Replays what the Rust's `alloc` was recorded to do (rust/oracle/README.md has the format).
#![tactic(auto)]

use std::io;

// Places the code as the record has it, and compares the answer and every byte of the store.
fn agrees(file: &mut &[u8], store: &mut [u8], code: &mut [u8], after: &mut [u8]) -> bool {
    replay::read_full(file, store);
    let used = replay::read_number(file);
    let len = usize::from(replay::read_byte(file));
    if code.len() < len {
        return false;
    }
    let code = &mut code[..len];
    replay::read_full(file, code);
    let answer = match code_cache::place(store, used, code) {
        Ok(placed) => (0, placed.start, placed.used),
        Err(refusal) => (u64::from(refusal), 0, 0),
    };
    let refusal = u64::from(replay::read_byte(file));
    let start = replay::read_number(file);
    let used = replay::read_number(file);
    let whole = replay::read_full(file, after) == after.len();
    whole && answer == (refusal, start, used) && &*store == &*after
}

fn replay_case(file: &mut &[u8]) -> Option<bool> {
    let mut size = [0u8; 1];
    if replay::read_full(file, &mut size) < 1 {
        return None;
    }
    let n = usize::from(size[0]);
    let mut store = [0u8; 256];
    let mut code = [0u8; 256];
    let mut after = [0u8; 256];
    Some(agrees(file, &mut store[..n], &mut code, &mut after[..n]))
}

fn main(rt: HostRuntime) -> io::Result<()> {
    replay::replay_file(&rt, "place.bin", None, " cases, ", replay_case)
}

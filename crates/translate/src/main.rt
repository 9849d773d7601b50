// Document 01's program: Translate on what standard input holds.
#![tactic(auto)]

use emit_native::Host;
use rules::refusals::Refusal;
use std::io;
use std::io::Read;
use translator::Translated;

// How many bytes come before the guest bytes.
const HEADER: usize = 13;

// How many guest bytes are read at most.
const MOST: usize = 256;

// Each word of the block on a line, as eight digits.
fn print_words(rt: &impl Print, block: &[u8]) -> io::Result<()> {
    for word in block.chunks_exact(4) {
        println!(rt; "{:08x}", le::load::<u32>(word, 0))?;
    }
    Ok(())
}

fn print_line(rt: &impl Print, number: u32) -> io::Result<()> {
    println!(rt; "{number}")
}

fn print_answer(
    rt: &impl Print,
    answer: Result<Translated, Refusal>,
    output: &[u8],
) -> io::Result<()> {
    match answer {
        Err(refusal) => {
            print!(rt; "refused ")?;
            print_line(rt, u32::from(refusal))
        }
        Ok(block) => {
            let length = block.length as usize;
            if length <= output.len() {
                print_words(rt, &output[..length])?;
            }
            print_line(rt, block.count)
        }
    }
}

// PC (8 bytes), limit (4), flag (1), then the guest bytes, of which at most 256 are read.
// The slot offset is 0; the helpers are those for memory, 32-bit and 16-bit instructions.
fn main(rt: HostRuntime) -> io::Result<()> {
    let mut input = Vec::new(rt.alloc());
    rt.stdin()
        .take((HEADER + MOST) as u64)
        .read_to_end(&mut input)?;
    if input.len() < HEADER {
        return println!(rt; "short input");
    }
    let pc = le::load::<u64>(&input, 0);
    let limit = le::load::<u32>(&input, 8);
    let host = Host {
        slot_offset: 0,
        memory_helper: 0x10000,
        helper32: 0x20000,
        helper16: 0x30000,
        ignore_ebreak: input[12] != 0,
    };
    let mut output = [0u8; 4 * rules::MAX_WORDS];
    let answer = translator::translate(&input[HEADER..], pc, limit, host, &mut output);
    print_answer(&rt, answer, &output)
}

// Document 02's listing: List on what standard input holds.
#![tactic(auto)]

use listing::ListRefusal;
use rules::refusals::Refusal;
use std::io;
use std::io::{Read, Write};

// How many bytes a block can have here.
const MOST: usize = 65536;

// How many bytes its lines can have.
const ROOM: usize = MOST / 4 * rules::LONGEST_LINE;

// The number; beside 13 the offset too, as in a line.
fn print_refusal(rt: &impl Print, refusal: ListRefusal) -> io::Result<()> {
    let number = u32::from(Refusal::from(refusal));
    match refusal {
        ListRefusal::OutsideForms(offset) => println!(rt; "refused {number} {offset:08x}"),
        ListRefusal::Length | ListRefusal::Short => println!(rt; "refused {number}"),
    }
}

// The lines, by way of the output; or the refusal.
fn print_listing(rt: &impl Print, block: &[u8], output: &mut [u8]) -> io::Result<()> {
    match listing::list(block, output) {
        Ok(length) if length <= output.len() => io::writer(rt).write_all(&output[..length]),
        Ok(_) => Ok(()),
        Err(refusal) => print_refusal(rt, refusal),
    }
}

fn main(rt: HostRuntime) -> io::Result<()> {
    let mut block = Vec::new(rt.alloc());
    rt.stdin().take(MOST as u64 + 1).read_to_end(&mut block)?;
    if block.len() > MOST {
        return println!(rt; "long input");
    }
    let mut output = vec![in rt.alloc(); 0u8; ROOM]?;
    print_listing(&rt, &block, &mut output)
}

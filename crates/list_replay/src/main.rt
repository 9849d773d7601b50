// Replays List: blocks whose words GNU as made of the lines' texts (machines/README.md has the format).
#![tactic(auto)]

use listing::ListRefusal;
use rules::refusals::Refusal;
use std::io;

// Every byte of an output before List; no line has it.
const FILL: u8 = 0xA5;

// How many bytes an output can have here.
const ROOM: usize = 16384;

// How many bytes a block can have here.
const MOST: usize = 1024;

// The refusal of a short output.
const SHORT: u64 = 14;

// An answer as numbers: the refusal, the length, the offset.
type Numbers = (u64, u64, u64);

fn numbers(answer: Result<usize, ListRefusal>) -> Numbers {
    match answer {
        Ok(length) => (0, length as u64, 0),
        Err(refusal) => (
            u64::from(Refusal::from(refusal)),
            0,
            refusal.offset() as u64,
        ),
    }
}

// Whether List gives this answer, and leaves the expected bytes.
fn lists(block: &[u8], answer: Numbers, output: &mut [u8], expected: &[u8]) -> bool {
    numbers(listing::list(block, output)) == answer && &*output == expected
}

// The output has as many bytes as are expected.
fn agrees(block: &[u8], answer: Numbers, expected: &[u8]) -> bool {
    let room = expected.len();
    if room > ROOM {
        return false;
    }
    let mut output = [FILL; ROOM];
    lists(block, answer, &mut output[..room], expected)
}

// One byte less than the lines have.
fn short(block: &[u8], length: usize) -> bool {
    if length == 0 {
        return true;
    }
    if length > ROOM {
        return false;
    }
    let untouched = [FILL; ROOM];
    agrees(block, (SHORT, 0, 0), &untouched[..length - 1])
}

// Reads the recorded lines to the front of `expected`, and says whether the file has them all.
fn read_lines(file: &mut &[u8], expected: &mut [u8], length: usize) -> bool {
    if length > expected.len() {
        return false;
    }
    let lines = &mut expected[..length];
    replay::read_full(file, lines) == length
}

// The lines, before bytes that must stay. The output has many bytes more than the lines, as many, and one less.
fn accepted(block: &[u8], expected: &[u8], length: usize) -> bool {
    if length > expected.len() {
        return false;
    }
    let lines = &expected[..length];
    let answer = (0, length as u64, 0);
    agrees(block, answer, expected) && agrees(block, answer, lines) && short(block, length)
}

// No byte changes, also where the output has none.
fn refused(block: &[u8], refusal: u64, offset: u64) -> bool {
    let untouched = [FILL; ROOM];
    let answer = (refusal, 0, offset);
    agrees(block, answer, &untouched) && agrees(block, answer, &untouched[..0])
}

// Compares what List answers with what the file has after the block.
fn replay_block(file: &mut &[u8], block: &[u8]) -> bool {
    let mut found = [0u8; 7];
    if replay::read_full(file, &mut found) < 7 {
        return false;
    }
    let refusal = u64::from(found[0]);
    let offset = u64::from(le::load::<u32>(&found, 1));
    let length = usize::from(le::load::<u16>(&found, 5));
    if refusal != 0 {
        return length == 0 && refused(block, refusal, offset);
    }
    let mut expected = [FILL; ROOM];
    if !read_lines(file, &mut expected, length) {
        return false;
    }
    offset == 0 && accepted(block, &expected, length)
}

// Whether the next case is as recorded; a file that ends within it is not.
fn replay_case(file: &mut &[u8]) -> bool {
    let mut size = [0u8; 2];
    if replay::read_full(file, &mut size) < 2 {
        return false;
    }
    let n = usize::from(le::load::<u16>(&size, 0));
    if n > MOST {
        return false;
    }
    let mut bytes = [0u8; MOST];
    let block = &mut bytes[..n];
    if replay::read_full(file, block) < n {
        return false;
    }
    replay_block(file, block)
}

// "A64LISTS"
const MAGIC: u64 = 0x5354_5349_4c34_3641;

fn main(rt: HostRuntime) -> io::Result<()> {
    replay::replay_file(
        &rt,
        "lists.bin",
        Some(MAGIC),
        " cases, ",
        |file| Some(replay_case(file)),
    )
}

// Operation List: a block's words, one line each.
#![tactic(auto)]

ghost use Rattle.std.specs.Prelude.{◌≡◌, true, false, ◌+◌, ◌^◌, ◌≤◌, ltb, length, is_some, IfSome};
ghost use Rattle.ascii.specs.Parts.{Put, Room, Wrote};
ghost use Rattle.listing.specs.Listing as L;
ghost use Rattle.listing.specs.Parts.{outside_count, line_of, Listable};

mod forms;
mod refusals;

use a64_text::text;
use ascii::Writer;
pub use refusals::ListRefusal;

// How many words are outside the forms.
fn count_outside(block: &[u8]) -> u32
    requires { length block.now ≤ 2 ^ 32 }
    ensures { result ≡ outside_count (L.block_lines block.now) }
{
    let mut n: u32 = 0;
    for i in 0..block.len() / 4 {
        n += forms::is_outside(le::load(block, 4 * i));
    }
    n
}

// The byte offset of the first of them. Counting is quicker than looking for one.
fn first_outside(block: &[u8]) -> Option<usize>
    requires { length block.now ≤ 2 ^ 32 }
    ensures none { L.any_outside (L.block_lines block.now) ≡ is_some result }
    ensures some { IfSome result (L.Outside block.now) }
{
    if count_outside(block) == 0 {
        return None;
    }
    for i in 0..block.len() / 4 {
        if forms::is_outside(le::load(block, 4 * i)) == 1 {
            return Some(4 * i);
        }
    }
    None
}

// Offset and word in hexadecimal, the text, a line feed.
fn put_line(out: &mut Writer, offset: u32, w: u32)
    requires { Room out.old (L.line (line_of offset w)) × (L.is_outside (line_of offset w).form ≡ false) }
    ensures { Wrote out.old (L.line (line_of offset w)) out.new }
{
    out.hex8(offset);
    out.byte(b' ');
    out.hex8(w);
    out.byte(b' ');
    text::put_text(out, a64::decode_readable(w));
    out.byte(b'\n');
}

// How many bytes the lines have: each is written over the one before it.
// Kept: `Listable` in three contracts, no plainer as a type: it would hold the block and be built once.
fn listing_length(block: &[u8]) -> usize
    requires { Listable block.now }
    ensures { result ≡ length (L.listing (L.block_lines block.now)) }
{
    let mut line = [0u8; rules::LONGEST_LINE];
    let mut total = 0;
    for i in 0..block.len() / 4 {
        let offset = 4 * i;
        let mut out = Writer::new(&mut line);
        put_line(&mut out, offset as u32, le::load(block, offset));
        total += out.at;
    }
    total
}

// The lines at the front, and how many bytes they have.
fn put_lines(block: &[u8], out: &mut [u8]) -> usize
    requires { (length (L.listing (L.block_lines block.now)) ≤ length out.old) × Listable block.now }
    ensures { Put out.old 0 (L.listing (L.block_lines block.now)) out.new result }
{
    let mut lines = Writer::new(out);
    for i in 0..block.len() / 4 {
        let offset = 4 * i;
        put_line(&mut lines, offset as u32, le::load(block, offset));
    }
    lines.at
}

// Whether `room` bytes are too few for the lines. Where each may be the longest, they need not be measured.
fn too_short(block: &[u8], room: usize) -> bool
    requires { Listable block.now }
    ensures { result ≡ ltb room (length (L.listing (L.block_lines block.now))) }
{
    room / rules::LONGEST_LINE < block.len() / 4 && room < listing_length(block)
}

// List (document 02, No. 1): the words of `block`, one line each, at the front of `output`; how many bytes they have.
pub fn list(block: &[u8], output: &mut [u8]) -> Result<usize, ListRefusal>
    ensures { L.Lists block.now output.old (L.answer result) output.new }
{
    if block.len() % 4 != 0 || block.len() > 0x1_0000_0000 {
        return Err(ListRefusal::Length);
    }
    // no word: nothing to measure
    if block.len() == 0 {
        return Ok(0);
    }
    if let Some(offset) = first_outside(block) {
        return Err(ListRefusal::OutsideForms(offset));
    }
    if too_short(block, output.len()) {
        return Err(ListRefusal::Short);
    }
    Ok(put_lines(block, output))
}

// The index of blocks by address space and PC (document 02, No. 2), in bytes that are lent; block_log has their layout.
#![tactic(auto)]

ghost use Rattle.std.specs.Prelude.{◌≡◌, ◌≢◌, ◌+◌, ◌-◌, ◌^◌, ◌≤◌, ◌<◌, min, ltb, MatchOption};
ghost use Rattle.block_log.specs.Log as L;
ghost use Rattle.block_index.specs.Model as Model;
ghost use Rattle.block_index.specs.Index as I;
ghost use Rattle.block_index.specs.History.{Looks, Places};

use block_log::{Entry, Index, Slot};
use rules::refusals::Refusal;

// ---- lookup

// Kept: tried, misses the bar of speed: with && or || here and in sweep_at, placing takes 1.8 times the time.
// Kept: space and pc side by side, by the C interface and by what may not change: `lookup` of specs/Model.antt.
fn key_at(m: &Index, space: u64, pc: u64, p: Slot) -> bool
    ensures { result ≡ I.key_at m.now space pc p.number }
{
    if block_log::entry_at(m, p).space != space {
        return false;
    }
    block_log::entry_at(m, p).pc == pc
}

// Whether the block under a key stands at a slot.
fn block_at(m: &Index, space: u64, pc: u64, p: Slot) -> bool
    ensures { result ≡ I.block_at m.now space pc p.number }
{
    key_at(m, space, pc, p) && block_log::entry_at(m, p).length != 0
}

// The slot of the block under a key. In a log that the calls made, the slots of a chain fall.
fn slot_of(m: &Index, space: u64, pc: u64) -> Option<Slot>
    ensures { MatchOption result (I.slot_of m.now space pc ≡ 0) (λ p. (p.number ≡ I.slot_of m.now space pc) × (p.number ≢ 0)) }
{
    let mut p = block_log::cell(m, block_log::bucket(space, pc));
    // Kept: a while, no plainer as a for: it goes down a chain.
    while p.number != 0 {
        if block_at(m, space, pc, p) {
            return Some(p);
        }
        let next = block_log::next_at(m, p);
        if p.number <= next.number {
            return None;
        }
        p = next;
    }
    None
}

pub fn lookup(m: &Index, space: u64, pc: u64) -> Result<Entry, Refusal>
    ensures { Looks m.now space pc (Model.lookup_answer result) }
{
    match slot_of(m, space, pc) {
        Some(p) => Ok(block_log::entry_at(m, p)),
        None => Err(Refusal::NoBlock),
    }
}

// ---- placing

pub fn refused(size: u64, n: u64) -> bool
    ensures { result ≡ Model.refused size n }
{
    n == 0 || n % 4 != 0 || size < n
}

// Where the last block placed ends, 0 where there is none that ends at the bound or before. Nothing overflows: what
// is left is compared.
// Kept: 0 and no Option, no plainer: 0 is the store's front, where the next block then goes.
pub fn last_end(m: &Index, bound: u64) -> u64
    ensures { (result ≡ I.last_end m.now bound) × (result ≤ bound) }
{
    let last = block_log::used(m);
    if last.number == 0 {
        return 0;
    }
    let e = block_log::entry_at(m, last);
    if bound < e.start {
        return 0;
    }
    if bound - e.start < e.length {
        return 0;
    }
    e.start + e.length
}

// Where a block of n bytes goes: after the last one placed, or to the store's front.
fn start_for(m: &Index, size: u64, n: u64) -> u64
    requires { n ≤ size }
    ensures { (result ≡ I.start_for m.now size n) × (result + n ≤ size) }
{
    let last = last_end(m, size);
    if size - last < n {
        return 0;
    }
    last
}

// Whether the block at a slot shares a byte with those from start on, of which the last is given: a block after it is
// passed by one comparison.
// Kept: the clause on `last` here and below, no plainer as a type: it would hold the entry and be built once.
fn overlap_at(m: &Index, start: u64, length: u64, last: u64, p: Slot) -> bool
    requires { last ≡ min (start + (length - 1)) (2 ^ 64 - 1) }
    ensures { result ≡ I.overlap_at m.now start (start + length) p.number }
{
    let other = block_log::entry_at(m, p);
    if last < other.start {
        return false;
    }
    if start < other.start {
        return true;
    }
    if other.length <= start - other.start {
        return false;
    }
    other.start < start || 0 < length
}

// Whether a new block evicts the one at a slot: it has its key or shares a byte.
fn evicts(m: &Index, e: Entry, last: u64, p: Slot) -> bool
    requires { last ≡ min (e.start + (e.length - 1)) (2 ^ 64 - 1) }
    ensures { result ≡ I.evicts m.now e p.number }
{
    key_at(m, e.space, e.pc, p) || overlap_at(m, e.start, e.length, last, p)
}

// Drops the block at a slot if it is evicted or there is no room for it; for how many others there is room then.
fn sweep_at(m: &mut Index, e: Entry, last: u64, room: u64, p: Slot) -> u64
    requires { last ≡ min (e.start + (e.length - 1)) (2 ^ 64 - 1) }
    ensures { (m.new ≡ I.swept_at m.old e room p.number) × (result ≡ I.room_at m.old e room p.number) }
{
    if block_log::entry_at(m, p).length == 0 {
        return room;
    }
    if room == 0 {
        block_log::drop_at(m, p);
        return room;
    }
    if evicts(m, e, last, p) {
        block_log::drop_at(m, p);
        return room;
    }
    room - 1
}

// Drops the blocks that are evicted, from the last slot to the first; for how many others there is room then.
#[tactic(auto, using(crate::proofs::Steps::swept_step, crate::proofs::Steps::room_left_step), unfolding(crate::specs::Index::swept, crate::specs::Index::room_left))]
fn sweep(m: &mut Index, e: Entry, room: u64) -> u64
    ensures { (m.new ≡ I.swept m.old e room (L.used m.old)) × (result ≡ I.room_left m.old e room (L.used m.old)) }
{
    // the last byte that the new block takes, in the whole of 64 bits
    let last = e.start.saturating_add(e.length.saturating_sub(1));
    let mut room = room;
    for p in (1..=block_log::used(m).number).rev() {
        room = sweep_at(m, e, last, room, Slot { number: p });
    }
    room
}

// Pushes the block of a slot again, if it has one.
fn reinsert_at(m: &mut Index, p: Slot)
    ensures { m.new ≡ I.reinserted_at m.old p.number }
{
    let e = block_log::entry_at(m, p);
    if e.length != 0 {
        block_log::push(m, e);
    }
}

// Moves the blocks of a log together.
fn compact(m: &mut Index)
    ensures { m.new ≡ I.reinserted (L.emptied m.old) (L.used m.old) 1 }
{
    let n = block_log::used(m).number;
    block_log::empty(m);
    for p in 1..=n {
        reinsert_at(m, Slot { number: p });
    }
}

// The slots that may be used before the blocks move together: twice the blocks, and a few.
fn slack(entries: u64, room: u64) -> u16
    ensures { (result ≡ I.slack entries room) × (result < 1023) }
{
    let blocks = entries.saturating_sub(room);
    if blocks < 480 {
        return (2 * blocks + 62) as u16;
    }
    1022
}

// Moves the blocks of a log together where more than so many slots are used.
fn make_room(m: &mut Index, most: u16)
    ensures { m.new ≡ I.compacted most m.old }
{
    if most < block_log::used(m).number {
        compact(m);
    }
}

// The new block after those that stay.
pub fn insert(m: &mut Index, entries: u64, e: Entry)
    requires { 1 ≤ entries }
    ensures { m.new ≡ I.placed entries m.old e }
{
    let room = sweep(m, e, entries - 1);
    make_room(m, slack(entries, room));
    block_log::push(m, e);
}

// Where the code then starts.
pub fn place(
    m: &mut Index,
    store: &mut [u8],
    space: u64,
    pc: u64,
    count: u8,
    code: &[u8],
) -> Result<u64, Refusal>
    ensures { Places m.old store.old space pc count code.now (Model.place_answer result) m.new store.new }
{
    let size = store.len() as u64;
    let length = code.len() as u64;
    if refused(size, length) {
        return Err(Refusal::CodeLength);
    }
    let start = start_for(m, size, length);
    let e = Entry {
        space,
        pc,
        start,
        length,
        count,
    };
    insert(m, rules::INDEX_ENTRIES, e);
    code_cache::copy(store, start as usize, code);
    Ok(start)
}

pub fn empty(m: &mut Index)
    ensures { m.new ≡ L.emptied m.old }
{
    block_log::empty(m);
}

// The bytes of an index: a log of slots, and a chain of slots for each bucket. specs/Log.antt has the layout.
#![tactic(auto)]

ghost use Rattle.std.specs.Prelude.{◌≡◌, ◌+◌, ◌<◌, ◌≤◌, ◌%◌};
ghost use Rattle.le.specs.Le.{store};
ghost use Rattle.block_log.specs.Log as L;

pub const INDEX_BYTES: usize = 45056;

// The bytes of an index.
// Kept: slots by number in lent bytes, by the C interface and a rule of the project: no heap.
pub type Index = [u8; INDEX_BYTES];

pub const BUCKETS: usize = 2048;

// With slot 0, which is no slot.
pub const SLOTS: u16 = 1024;

// Where slot 0 starts, and the bytes of a slot.
const LOG: usize = 2 * BUCKETS;

const SLOT_BYTES: usize = 40;

// A slot by its number. A chain ends at slot 0.
// Kept: 0 and no Option, by what may not change: `unlinked` of specs/Log.antt writes slot 0 where a chain lacks a slot.
#[derive(Clone, Copy, PartialEq, Eq, Debug)]
pub struct Slot {
    pub number: u16,
    pub ghost in_log: { number < 1024 },
}

impl Slot {
    // Any number is a slot's, modulo their count.
    pub fn new(number: u16) -> Slot
        ensures { result.number ≡ number % L.slots }
    {
        Slot {
            number: number % SLOTS,
        }
    }

    // Where the slot starts.
    fn at(self) -> usize
        ensures { result ≡ L.at self.number }
    {
        LOG + SLOT_BYTES * self.number as usize
    }
}

// What the index holds of a block.
#[derive(Clone, Copy, PartialEq, Eq, Debug)]
pub struct Entry {
    pub space: u64,
    pub pc: u64,
    pub start: u64,
    pub length: u64,
    pub count: u8,
}

// The bucket of a key.
#[tactic(auto, using(fnv1a::proofs::Laws::more_append), unfolding(crate::specs::Log::bucket))]
pub fn bucket(space: u64, pc: u64) -> usize
    ensures { (result ≡ L.bucket space pc) × (result < 2048) }
{
    let hash = fnv1a::more64(fnv1a::more64(fnv1a::BASIS, space), pc);
    hash as usize % BUCKETS
}

pub fn cell(m: &Index, b: usize) -> Slot
    requires { b ≤ L.buckets }
    ensures { result.number ≡ L.cell m.now b }
{
    Slot::new(le::load(m, 2 * b))
}

// The last slot used.
pub fn used(m: &Index) -> Slot
    ensures { result.number ≡ L.used m.now }
{
    cell(m, BUCKETS)
}

pub fn next_at(m: &Index, p: Slot) -> Slot
    ensures { result.number ≡ L.next_at m.now p.number }
{
    Slot::new(le::load(m, p.at() + 32))
}

pub fn entry_at(m: &Index, p: Slot) -> Entry
    ensures { result ≡ L.entry_at m.now p.number }
{
    let at = p.at();
    Entry {
        space: le::load(m, at),
        pc: le::load(m, at + 8),
        start: le::load(m, at + 16),
        length: le::load(m, at + 24),
        count: le::load(m, at + 34),
    }
}

#[tactic(auto, unfolding(crate::specs::Log::put))]
fn put(m: &mut Index, p: Slot, e: Entry, next: Slot)
    ensures { m.new ≡ L.put m.old p.number e next.number }
{
    let at = p.at();
    le::store(m, at, e.space);
    le::store(m, at + 8, e.pc);
    le::store(m, at + 16, e.start);
    le::store(m, at + 24, e.length);
    le::store(m, at + 32, next.number);
    le::store(m, at + 34, e.count);
}

// The slot before p in the chain with this head, 0 where there is none. In a log that the calls made, the slots of a
// chain fall.
fn previous(m: &Index, head: Slot, p: Slot) -> Slot
    ensures { result.number ≡ L.previous m.now head.number p.number }
{
    let mut q = head;
    // Kept: a while, no plainer as a for: it goes down a chain.
    while q.number != 0 {
        let next = next_at(m, q);
        if next.number == p.number {
            return q;
        }
        if q.number <= next.number {
            return Slot::new(0);
        }
        q = next;
    }
    q
}

// Takes slot p out of bucket b's chain.
fn unlink(m: &mut Index, b: usize, p: Slot)
    requires { b < L.buckets }
    ensures { m.new ≡ L.unlinked m.old b p.number }
{
    let next = next_at(m, p);
    let head = cell(m, b);
    if head.number == p.number {
        le::store(m, 2 * b, next.number);
        return;
    }
    let q = previous(m, head, p);
    le::store(m, q.at() + 32, next.number);
}

// The block at a slot is dropped: the slot is a tombstone, and in no chain. A sweep passes by most slots.
#[cold]
pub fn drop_at(m: &mut Index, p: Slot)
    ensures { m.new ≡ L.dropped m.old p.number }
{
    let e = entry_at(m, p);
    unlink(m, bucket(e.space, e.pc), p);
    le::store(m, p.at() + 24, 0u64);
}

// No slot used, no slot in a chain.
pub fn empty(m: &mut Index)
    ensures { m.new ≡ L.emptied m.old }
{
    m[..LOG + 2].fill(0);
}

// An entry after the last slot used, the head of its chain.
#[tactic(auto, unfolding(crate::specs::Log::pushed))]
pub fn push(m: &mut Index, e: Entry)
    ensures { m.new ≡ L.pushed m.old e }
{
    let p = Slot {
        number: used(m).number % (SLOTS - 1) + 1,
    };
    let b = bucket(e.space, e.pc);
    let next = cell(m, b);
    put(m, p, e, next);
    le::store(m, 2 * b, p.number);
    le::store(m, LOG, p.number);
}

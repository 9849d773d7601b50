// The operations over the C boundary: numbers and byte slices.
#![tactic(auto)]

ghost use Rattle.std.specs.Prelude.{◌≡◌, length, take};
ghost use Rattle.translation.specs.Demand3.{HelperFree, Demand3};
ghost use Rattle.translation.specs.HelperBlock.{HelperEnded, HelperBlock};
ghost use Rattle.translation.specs.RustBlock.{ZbbFree, RustBlock};
ghost use Rattle.translation.specs.Size.{Size};
ghost use Rattle.listing.specs.Listing.{Lists};
ghost use Rattle.listing.specs.Listing as Listing;
ghost use Rattle.block_log.specs.Log.{emptied};
ghost use Rattle.block_index.specs.History.{Looks, Places};
ghost use Rattle.block_index.specs.Model as Model;
ghost use Rattle.code_cache.specs.Place as P;
ghost use Rattle.hilofanur.specs.Answers as Answers;

use block_log::Entry;
use code_cache::Placed;
use emit_native::Host;
use listing::ListRefusal;
use rules::refusals::Refusal;
use state_bytes::{a64_state, rv64_hart};

// The refusal, 0 where the block was written; its length in bytes; its count of instructions; the number of its end
// kind.
// Kept: the refusal beside the values, here and in the six answers below, by the C interface.
#[repr(C)]
#[derive(Drop)]
pub struct TranslateAnswer {
    pub refusal: u32,
    pub length: u32,
    pub count: u32,
    pub end: u32,
}

// The refusal, 0 where the code was placed; where it starts; how much of the store is then used.
#[repr(C)]
#[derive(Drop)]
pub struct PlaceAnswer {
    pub refusal: u64,
    pub start: u64,
    pub used: u64,
}

impl From<Result<Placed, Refusal>> for PlaceAnswer {
    ghost from_gives = { λ r a. a ≡ Answers.place_numbers (P.answer r) };

    fn from(answer: Result<Placed, Refusal>) -> PlaceAnswer {
        match answer {
            Ok(placed) => PlaceAnswer {
                refusal: 0,
                start: placed.start,
                used: placed.used,
            },
            Err(refusal) => PlaceAnswer {
                refusal: u64::from(refusal),
                start: 0,
                used: 0,
            },
        }
    }
}

// The refusal; the end's number, 0 where refused; the steps done.
#[repr(C)]
#[derive(Drop)]
pub struct A64RunAnswer {
    pub refusal: u32,
    pub end: u32,
    pub steps: u64,
}

// The refusal; the instructions done; the PC after them.
#[repr(C)]
#[derive(Drop)]
pub struct Rv64RunAnswer {
    pub refusal: u32,
    pub count: u32,
    pub next_pc: u64,
}

// The refusal, 0 where the lines were written; how many bytes they have; beside refusal 13 the offset of a word outside
// the forms.
#[repr(C)]
#[derive(Drop)]
pub struct ListAnswer {
    pub refusal: u64,
    pub length: u64,
    pub offset: u64,
}

impl From<Result<usize, ListRefusal>> for ListAnswer {
    ghost from_gives = { λ r a. Answers.listed a ≡ Listing.answer r };

    fn from(answer: Result<usize, ListRefusal>) -> ListAnswer {
        match answer {
            Ok(length) => ListAnswer {
                refusal: 0,
                length: length as u64,
                offset: 0,
            },
            Err(refusal) => ListAnswer {
                refusal: u64::from(Refusal::from(refusal)),
                length: 0,
                offset: refusal.offset() as u64,
            },
        }
    }
}

// The refusal, 0 where the code was placed; where it starts in the store.
#[repr(C)]
#[derive(Drop)]
pub struct IndexPlaceAnswer {
    pub refusal: u64,
    pub start: u64,
}

impl From<Result<u64, Refusal>> for IndexPlaceAnswer {
    ghost from_gives = { λ r a. Answers.placed a ≡ Model.place_answer r };

    fn from(answer: Result<u64, Refusal>) -> IndexPlaceAnswer {
        match answer {
            Ok(start) => IndexPlaceAnswer { refusal: 0, start },
            Err(refusal) => IndexPlaceAnswer {
                refusal: u64::from(refusal),
                start: 0,
            },
        }
    }
}

// The refusal, 0 where the block was found; where its code starts in the store, its length, its count of guest
// instructions.
#[repr(C)]
#[derive(Drop)]
pub struct IndexLookupAnswer {
    pub refusal: u64,
    pub start: u64,
    pub length: u64,
    pub count: u64,
}

impl From<Result<Entry, Refusal>> for IndexLookupAnswer {
    ghost from_gives = { λ r a. Answers.found a ≡ Model.lookup_answer r };

    fn from(answer: Result<Entry, Refusal>) -> IndexLookupAnswer {
        match answer {
            Ok(e) => IndexLookupAnswer {
                refusal: 0,
                start: e.start,
                length: e.length,
                count: u64::from(e.count),
            },
            Err(refusal) => IndexLookupAnswer {
                refusal: u64::from(refusal),
                start: 0,
                length: 0,
                count: 0,
            },
        }
    }
}

#[unsafe(no_mangle)]
pub extern "C" fn hilofanur_translate(
    guest: &[u8],
    pc: u64,
    limit: u32,
    ignore_ebreak: bool,
    slot_offset: u64,
    memory_helper: u64,
    helper32: u64,
    helper16: u64,
    output: &mut [u8],
) -> TranslateAnswer
    ensures answer { Answers.translate_result result output.new ≡ Answers.translate guest.now pc limit (Answers.host ignore_ebreak slot_offset memory_helper helper32 helper16) output.old }
    ensures demand3 { HelperFree result.end → Demand3 guest.now pc limit ignore_ebreak slot_offset (take result.length output.new) result.count }
    ensures helper_block { HelperEnded result.end → HelperBlock (Answers.host ignore_ebreak slot_offset memory_helper helper32 helper16) guest.now pc limit (take result.length output.new) result.count }
    ensures rust_block { result.refusal ≡ 0 → ZbbFree guest.now pc result.count 0 → RustBlock (Answers.host ignore_ebreak slot_offset memory_helper helper32 helper16) guest.now pc limit (take result.length output.new) result.count }
    ensures size { Size (Answers.host ignore_ebreak slot_offset memory_helper helper32 helper16) limit (length output.old) result.refusal result.length }
{
    let host = Host {
        slot_offset,
        memory_helper,
        helper32,
        helper16,
        ignore_ebreak,
    };
    match translation::translate(guest, pc, limit, host, output) {
        Ok(block) => TranslateAnswer {
            refusal: 0,
            length: block.length,
            count: block.count,
            end: u32::from(block.end),
        },
        Err(refusal) => TranslateAnswer {
            refusal: u32::from(refusal),
            length: 0,
            count: 0,
            end: 0,
        },
    }
}

#[unsafe(no_mangle)]
pub extern "C" fn hilofanur_place(store: &mut [u8], used: u64, code: &[u8]) -> PlaceAnswer
    ensures { Answers.place_result result store.new ≡ Answers.place store.old used code.now }
{
    PlaceAnswer::from(code_cache::place(store, used, code))
}

// state: X0 to X30, SP and NZCV, eight bytes each.
#[unsafe(no_mangle)]
pub extern "C" fn hilofanur_a64_run(
    block: &[u8],
    address: u64,
    state: &mut [u8; 264],
    budget: u64,
    memory: &mut [u8],
    base: u64,
) -> A64RunAnswer
    ensures { Answers.a64_result result state.new memory.new ≡ Answers.a64_run block.now address state.old budget memory.old base }
{
    hilofanur_a64_run_from(block, address, 0, state, budget, memory, base)
}

// first: the number of the word to begin at, counted from 0; address stays that of word 0.
#[unsafe(no_mangle)]
pub extern "C" fn hilofanur_a64_run_from(
    block: &[u8],
    address: u64,
    first: u64,
    state: &mut [u8; 264],
    budget: u64,
    memory: &mut [u8],
    base: u64,
) -> A64RunAnswer
    ensures { Answers.a64_result result state.new memory.new ≡ Answers.a64_run_from block.now address first state.old budget memory.old base }
{
    let before = a64_state::from_bytes(state);
    match a64_run::run::a64_run_from(block, address, first, before, budget, memory, base) {
        Ok(ran) => {
            a64_state::to_bytes(&ran.state, state);
            A64RunAnswer {
                refusal: 0,
                end: u32::from(ran.end),
                steps: ran.steps,
            }
        }
        Err(refused) => A64RunAnswer {
            refusal: u32::from(refused.refusal),
            end: 0,
            steps: 0,
        },
    }
}

// registers: the 32 of them, eight bytes each.
#[tactic(auto, unfolding(rv64_run::specs::Run::number))]
#[unsafe(no_mangle)]
pub extern "C" fn hilofanur_rv64_run(
    guest: &[u8],
    pc: u64,
    limit: u32,
    ignore_ebreak: bool,
    registers: &mut [u8; 256],
) -> Rv64RunAnswer
    ensures { Answers.rv64_result result registers.new ≡ Answers.rv64_run guest.now pc limit ignore_ebreak registers.old }
{
    let before = rv64_hart::from_bytes(registers, pc);
    match rv64_run::run::rv64_run(guest, before, limit, ignore_ebreak) {
        Ok(ran) => {
            rv64_hart::to_bytes(&ran.hart, registers);
            Rv64RunAnswer {
                refusal: 0,
                count: ran.count,
                next_pc: ran.hart.pc,
            }
        }
        Err(refused) => Rv64RunAnswer {
            refusal: u32::from(refused.refusal),
            count: 0,
            next_pc: 0,
        },
    }
}

#[unsafe(no_mangle)]
pub extern "C" fn hilofanur_list(block: &[u8], output: &mut [u8]) -> ListAnswer
    ensures { Lists block.now output.old (Answers.listed result) output.new }
{
    ListAnswer::from(listing::list(block, output))
}

// index: block_log's layout. Emptied once, it is the calls' own.
#[unsafe(no_mangle)]
pub extern "C" fn hilofanur_index_empty(index: &mut [u8; block_log::INDEX_BYTES])
    ensures { index.new ≡ emptied index.old }
{
    block_index::empty(index);
}

#[unsafe(no_mangle)]
pub extern "C" fn hilofanur_index_place(
    index: &mut [u8; block_log::INDEX_BYTES],
    store: &mut [u8],
    space: u64,
    pc: u64,
    count: u8,
    code: &[u8],
) -> IndexPlaceAnswer
    ensures { Places index.old store.old space pc count code.now (Answers.placed result) index.new store.new }
{
    IndexPlaceAnswer::from(block_index::place(index, store, space, pc, count, code))
}

#[unsafe(no_mangle)]
pub extern "C" fn hilofanur_index_lookup(
    index: &[u8; block_log::INDEX_BYTES],
    space: u64,
    pc: u64,
) -> IndexLookupAnswer
    ensures { Looks index.now space pc (Answers.found result) }
{
    IndexLookupAnswer::from(block_index::lookup(index, space, pc))
}

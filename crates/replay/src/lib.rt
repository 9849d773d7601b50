// What the programs share that replay recorded cases: reading a file of them, counting, and the report.
#![tactic(auto)]

ghost use Rattle.std.specs.Prelude.{◌≡◌, ◌≢◌, ◌+◌, ◌%◌, ◌^◌, ◌<◌, ◌≤◌, ◌++◌, min, length, take, drop, slice_index, if◌then◌else◌, true, false, Some, None};
ghost use Rattle.le.specs.Le.{load};

use std::fs::File;
use std::io;
use std::io::Read;
use std::rt::Files;

// The system's words for an error, without the number that its text ends in.
fn words_of(text: &str) -> &str {
    text.split_once(" (os error ")
        .map_or(text, |(words, _)| words)
}

// The file's bytes; none where it cannot be opened, which is then said on standard error.
pub fn open(rt: &(impl Files + Eprint + AllocGlobal), path: &str) -> io::Result<Option<Vec<u8>>> {
    match File::open(rt, path) {
        Ok(mut file) => {
            let mut bytes = Vec::new(rt.alloc());
            file.read_to_end(&mut bytes)?;
            Ok(Some(bytes))
        }
        Err(error) => {
            let text = error.to_string(rt.alloc())?;
            eprintln!(rt; "{path}: {}", words_of(&text))?;
            Ok(None)
        }
    }
}

// ---- reading what is left of a file

// Fills the front of `buf`, and says how many bytes there were.
pub fn read_full(file: &mut &[u8], buf: &mut [u8]) -> usize
    ensures count { result ≡ min (length file.old.now) (length buf.old) }
    ensures bytes { buf.new ≡ take result file.old.now ++ drop result buf.old }
    ensures rest { file.new.now ≡ drop result file.old.now }
{
    file.read(buf).unwrap()
}

// A number of a record; 0 where the record ends before it.
pub fn number_at(record: &[u8], at: usize) -> u64
    ensures inside { at < 4096 → at + 8 ≤ length record.now → result ≡ load 8 record.now at }
    ensures outside { length record.now < at + 8 → result ≡ 0 }
    ensures beyond { 4096 ≤ at → result ≡ 0 }
{
    if at < 4096 && at + 8 <= record.len() {
        return le::load::<u64>(record, at);
    }
    0
}

pub fn read_number(file: &mut &[u8]) -> u64
    ensures number { 8 ≤ length file.old.now → result ≡ load 8 file.old.now 0 }
    ensures rest { file.new.now ≡ drop 8 file.old.now }
{
    let mut bytes = [0; 8];
    read_full(file, &mut bytes);
    number_at(&bytes, 0)
}

pub fn read_byte(file: &mut &[u8]) -> u8
    ensures byte { result ≡ slice_index file.old.now 0 }
    ensures rest { file.new.now ≡ drop 1 file.old.now }
{
    let mut bytes = [0; 1];
    read_full(file, &mut bytes);
    bytes[0]
}

// A number that a byte holds, and no more than `most`.
pub fn read_size(file: &mut &[u8], most: usize) -> usize
    ensures most { result ≤ most }
    ensures size { result ≡ min (slice_index file.old.now 0) most }
    ensures rest { file.new.now ≡ drop 1 file.old.now }
{
    (read_byte(file) as usize).min(most)
}

// ---- registers

// Pairs of a register and its value, over x.
pub fn read_registers(file: &mut &[u8], x: &mut [u64]) {
    for _ in 0..read_byte(file) {
        let n = read_byte(file) as usize;
        let value = read_number(file);
        if let Some(register) = x.get_mut(n) {
            *register = value;
        }
    }
}

// Each register as it is where a case does not name it.
pub fn unnamed(x: &mut [u64]) {
    let mut value: u64 = 0;
    for register in x.iter_mut() {
        *register = value;
        value = value.wrapping_add(0x0101_0101_0101_0101);
    }
}

// ---- counting

// How many cases there were, and how many of them differ.
#[derive(Clone, Copy, PartialEq, Eq, Debug, Default)]
pub struct Tally {
    pub cases: u32,
    pub wrong: u32,
}

impl Tally {
    // One case more.
    pub fn count(&mut self, equal: bool)
        ensures cases { self.new.cases ≡ (self.old.cases + 1) % 2 ^ 32 }
        ensures wrong { self.new.wrong ≡ (if equal then self.old.wrong else (self.old.wrong + 1) % 2 ^ 32) }
    {
        self.cases = self.cases.wrapping_add(1);
        if !equal {
            self.wrong = self.wrong.wrapping_add(1);
        }
    }

    // One case more where there is one, and whether there is: the file's end counts as nothing.
    pub fn count_next(&mut self, case: Option<bool>) -> bool
        ensures cases { case ≢ None → (result ≡ true) × (self.new.cases ≡ (self.old.cases + 1) % 2 ^ 32) }
        ensures equal { case ≡ Some true → self.new.wrong ≡ self.old.wrong }
        ensures differs { case ≡ Some false → self.new.wrong ≡ (self.old.wrong + 1) % 2 ^ 32 }
        ensures end { case ≡ None → (result ≡ false) × (self.new ≡ self.old) }
    {
        let Some(equal) = case else {
            return false;
        };
        self.count(equal);
        true
    }
}

// How many cases the file has, by its header; none where that begins with another number.
pub fn read_header(file: &mut &[u8], magic: u64) -> u32
    ensures other { 8 ≤ length file.old.now → load 8 file.old.now 0 ≢ magic → result ≡ 0 }
    ensures cases { 12 ≤ length file.old.now → load 8 file.old.now 0 ≡ magic → result ≡ load 4 file.old.now 8 }
    ensures rest { file.new.now ≡ drop 12 file.old.now }
{
    let mut header = [0; 12];
    read_full(file, &mut header);
    if le::load::<u64>(&header, 0) != magic {
        return 0;
    }
    le::load(&header, 8)
}

// Replays cases, `most` of them or up to the file's end: a case says whether it is as recorded, or that there is none.
pub fn replay_cases<F: FnMut(&mut &[u8]) -> Option<bool>>(
    file: &mut &[u8],
    most: u32,
    mut replay_case: F,
) -> Tally
    requires { F.IsAlwaysCallable replay_case }
    ensures most { result.cases ≤ most }
    ensures wrong { result.wrong ≤ result.cases }
{
    let mut tally = Tally::default();
    for _ in 0..most {
        if !tally.count_next(replay_case(file)) {
            break;
        }
    }
    tally
}

// Says how many there were, by this name, and how many differ, and whether the file goes on after them.
pub fn report(rt: &impl Print, rest: &[u8], tally: Tally, name: &str) -> io::Result<()> {
    println!(rt; "{}{name}{} differ", tally.cases, tally.wrong)?;
    if !rest.is_empty() {
        println!(rt; "more bytes after them")?;
    }
    Ok(())
}

// Replays a file's cases and says how many there were and how many differ. Where it has no header, they go on to its
// end.
// A file that goes on after them differs too.
pub fn replay_file<F: FnMut(&mut &[u8]) -> Option<bool>>(
    rt: &(impl Files + Print + Eprint + AllocGlobal),
    path: &str,
    magic: Option<u64>,
    name: &str,
    replay_case: F,
) -> io::Result<()>
    requires { F.IsAlwaysCallable replay_case }
{
    let Some(bytes) = open(rt, path)? else {
        return Ok(());
    };
    let mut file = bytes.as_slice();
    let most = match magic {
        Some(magic) => read_header(&mut file, magic),
        None => u32::MAX,
    };
    let tally = replay_cases(&mut file, most, replay_case);
    report(rt, file, tally, name)
}

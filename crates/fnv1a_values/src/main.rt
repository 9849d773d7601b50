// The hashes of texts whose FNV-1a of 32 bits is published (test_fnv.c of the FNV reference code by Noll).
// `stdout` has the values printed there.
#![tactic(auto)]

use std::io;

const TEXTS: [&[u8]; 16] = [
    b"",
    b"a",
    b"b",
    b"c",
    b"d",
    b"e",
    b"f",
    b"fo",
    b"foo",
    b"foob",
    b"fooba",
    b"foobar",
    b"\0",
    b"a\0",
    b"foobar\0",
    b"chongo was here!\n",
];

fn main(rt: HostRuntime) -> io::Result<()> {
    for text in TEXTS {
        println!(rt; "{:08x}", fnv1a::fnv1a(text))?;
    }
    Ok(())
}

// Replays the fields and immediates that the Rust's decoder was recorded to give.
// rust/oracle/README.md has the format.
#![tactic(auto)]

use isa::decode;
use std::io;

fn byte(record: &[u8], at: usize) -> u8 {
    record.get(at).copied().unwrap_or(0)
}

// Kept: field by field, no plainer as ==: a record is no Decoded32, and one would be built for it.
fn fields_agree(record: &[u8], instr: u32) -> bool {
    let d = decode::decode32(instr);
    d.opcode == byte(record, 4)
        && d.rd == byte(record, 5)
        && d.funct3 == byte(record, 6)
        && d.rs1 == byte(record, 7)
        && d.rs2 == byte(record, 8)
        && d.funct7 == byte(record, 9)
        && d.funct5 == byte(record, 10)
        && u64::from(d.imm12) == replay::number_at(record, 12) % 65536
}

fn immediates_agree(record: &[u8], instr: u32) -> bool {
    decode::imm_i(instr) == replay::number_at(record, 14)
        && decode::imm_s(instr) == replay::number_at(record, 22)
        && decode::imm_b(instr) == replay::number_at(record, 30)
        && decode::imm_u(instr) == replay::number_at(record, 38)
        && decode::imm_j(instr) == replay::number_at(record, 46)
}

fn compressed_agree(record: &[u8], instr: u16) -> bool {
    decode::imm_ciw(instr) == replay::number_at(record, 2)
        && decode::imm_ci(instr) == replay::number_at(record, 10)
        && decode::imm_ci16(instr) == replay::number_at(record, 18)
        && decode::imm_cj(instr) == replay::number_at(record, 26)
        && decode::imm_cb(instr) == replay::number_at(record, 34)
        && decode::shamt_c(instr) == replay::number_at(record, 42)
}

fn replay_word(file: &mut &[u8]) -> Option<bool> {
    let mut record = [0u8; 54];
    if replay::read_full(file, &mut record) < 54 {
        return None;
    }
    let instr = (replay::number_at(&record, 0) % 0x1_0000_0000) as u32;
    Some(fields_agree(&record, instr) && immediates_agree(&record, instr))
}

fn replay_halfword(file: &mut &[u8]) -> Option<bool> {
    let mut record = [0u8; 50];
    if replay::read_full(file, &mut record) < 50 {
        return None;
    }
    let instr = (replay::number_at(&record, 0) % 65536) as u16;
    Some(compressed_agree(&record, instr))
}

fn main(rt: HostRuntime) -> io::Result<()> {
    replay::replay_file(&rt, "decode.bin", None, " records, ", replay_word)?;
    replay::replay_file(&rt, "compressed.bin", None, " records, ", replay_halfword)
}

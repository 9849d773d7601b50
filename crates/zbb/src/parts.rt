// What several bodies share: from X9 and X10 into X11, by way of X12 to X14.
ghost use Rattle.std.specs.Prelude.{◌≡◌, ◌<◌};
ghost use Rattle.emit_native.specs.Parts.{held, after};
ghost use Rattle.zbb.specs.Words.{bytes_of, shifted, low_word, rotated, trailing, ones};

use a64_emitter::A64Emitter;
use emit_native::InstrEmitter;

// X13 is c in each byte; X12 has 1 in each.
pub fn emit_bytes_of(em: InstrEmitter<'_>, c: u64) -> InstrEmitter<'_>
    ensures { held result ≡ after (held em.entry) (bytes_of c) }
{
    em.mov_imm64(13, c).emit(A64Emitter::mul_x(13, 12, 13))
}

// X11 is Xn shifted right by s.
pub fn emit_shifted(em: InstrEmitter<'_>, n: u8, s: u64) -> InstrEmitter<'_>
    requires { n < 32 }
    ensures { held result ≡ after (held em.entry) (shifted n s) }
{
    em.mov_imm64(14, s).emit(A64Emitter::lsrv_x(11, n, 14))
}

// X9 is its low word alone.
pub fn emit_low_word(em: InstrEmitter<'_>) -> InstrEmitter<'_>
    ensures { held result ≡ after (held em.entry) low_word }
{
    em.mov_imm64(12, 0xFFFF_FFFF)
        .emit(A64Emitter::and_x(9, 9, 12))
}

// X11 is the low word of X9 rotated: by the low five bits of X10 one way, and by 32 less those the other.
pub fn emit_rotated(em: InstrEmitter<'_>, there: u32, back: u32) -> InstrEmitter<'_>
    ensures { held result ≡ after (held em.entry) (rotated there back) }
{
    let em = emit_low_word(em);
    em.mov_imm64(12, 31)
        .emit(A64Emitter::and_x(10, 10, 12))
        .emit(there)
        .mov_imm64(12, 32)
        .emit(A64Emitter::sub_x(12, 12, 10))
        .emit(back)
        .emit(A64Emitter::orr_x(11, 11, 12))
        .emit(A64Emitter::sxtw_x(11, 11))
}

// X11 is how many zeros are below the lowest one of X9.
pub fn emit_trailing(em: InstrEmitter<'_>) -> InstrEmitter<'_>
    ensures { held result ≡ after (held em.entry) trailing }
{
    em.mov_imm64(12, 1)
        .emit(A64Emitter::sub_x(11, 9, 12))
        .emit(A64Emitter::bic_x(11, 11, 9))
        .emit(A64Emitter::clz_x(11, 11))
        .mov_imm64(12, 64)
        .emit(A64Emitter::sub_x(11, 12, 11))
}

// X11 is how many ones X9 has, by the mask sequence: of two bits, of four, of a byte, and of all bytes.
// In its callers, where the compiler knows the count: elsewhere it would ask before each word whether that fits.
#[inline(always)]
pub fn emit_ones(em: InstrEmitter<'_>) -> InstrEmitter<'_>
    ensures { held result ≡ after (held em.entry) ones }
{
    let em = em.mov_imm64(12, 0x0101_0101_0101_0101);
    let em = emit_bytes_of(em, 0x55);
    let em = emit_shifted(em, 9, 1);
    let em = em
        .emit(A64Emitter::and_x(11, 11, 13))
        .emit(A64Emitter::sub_x(9, 9, 11));
    let em = emit_bytes_of(em, 0x33);
    let em = emit_shifted(em, 9, 2);
    let em = em
        .emit(A64Emitter::and_x(11, 11, 13))
        .emit(A64Emitter::and_x(9, 9, 13))
        .emit(A64Emitter::add_x(9, 9, 11));
    let em = emit_bytes_of(em, 0x0F);
    let em = emit_shifted(em, 9, 4);
    let em = em
        .emit(A64Emitter::add_x(9, 9, 11))
        .emit(A64Emitter::and_x(9, 9, 13))
        .emit(A64Emitter::mul_x(9, 9, 12));
    emit_shifted(em, 9, 56)
}

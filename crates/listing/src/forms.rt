// Whether a word is outside the forms, as a number, by the tests of `decode` without its branches. Every word of a
// block is asked before one is written, and the compiler asks several at once.
// Kept: tried, misses the bar of speed: by `decode` a listing takes 1.4 times the time.
ghost use Rattle.std.specs.Prelude.{◌≡◌, cond};
ghost use Rattle.a64.specs.Forms.{decode, decode_op, decode_register, ops};
ghost use Rattle.listing.specs.Parts.{outside};

// Kept: no plainer as one with rv64's: a line over another width, in a crate that it does not use.
fn pick(test: bool, yes: u32, no: u32) -> u32
    ensures { result ≡ cond test yes no }
{
    if test { yes } else { no }
}

// The operations of the three-register forms, by bits 31 to 21 and 15 to 10.
fn outside_op(w: u32) -> u32
    ensures { result ≡ outside (decode_op ops w) }
{
    let bits = w / 0x20_0000 * 64 + w / 1024 % 64;
    let r = pick(bits == 0x1_3583, 0, 1);
    let r = pick(bits == 0x1_3582, 0, r);
    let r = pick(bits == 0x1_379F, 0, r);
    let r = pick(bits == 0x1_369F, 0, r);
    let r = pick(bits == 0x1_361F, 0, r);
    let r = pick(bits == 0x1_358B, 0, r);
    let r = pick(bits == 0x1_358A, 0, r);
    let r = pick(bits == 0x1_3589, 0, r);
    let r = pick(bits == 0x1_3588, 0, r);
    let r = pick(bits == 0x1_9440, 0, r);
    let r = pick(bits == 0x1_5440, 0, r);
    let r = pick(bits == 0x1_1440, 0, r);
    let r = pick(bits == 0x1_9400, 0, r);
    let r = pick(bits == 0x1_5400, 0, r);
    let r = pick(bits == 0x1_1400, 0, r);
    let r = pick(bits == 0x1_9600, 0, r);
    pick(bits == 0x1_1600, 0, r)
}

// The forms without an immediate.
fn outside_register(w: u32) -> u32
    ensures { result ≡ outside (decode_register w) }
{
    let top = w / 0x20_0000;
    let r = outside_op(w);
    let clz = pick(w / 1024 % 2048 == 4, 0, 1);
    let r = pick(top == 0x6D6, pick(w / 1024 % 2048 == 3, 0, clz), r);
    let r = pick(top == 0x6B2, pick(w % 0x20_0000 == 0x1F_03C0, 0, 1), r);
    let blr = pick(w % 32 == 0, 0, 1);
    let r = pick(top == 0x6B1, pick(w / 1024 % 2048 == 0x7C0, blr, 1), r);
    let r = pick(top == 0x49A, pick(w / 1024 % 2048 == 31, 0, 1), r);
    let r = pick(top == 0x4D4, pick(w / 1024 % 4 == 0, 0, 1), r);
    let cmp = pick(w % 32 == 31, 0, 1);
    pick(top == 0x758, pick(w / 1024 % 64 == 0, cmp, 1), r)
}

// 1 where it is, else 0.
pub fn is_outside(w: u32) -> u32
    ensures { result ≡ outside (decode w) }
{
    let top = w / 0x40_0000;
    let sp = pick(w % 1024 == 0x3FF, 0, 1);
    let r = outside_register(w);
    let r = pick(top == 0x344, sp, r);
    let r = pick(top == 0x244, sp, r);
    let r = pick(top == 0x3E4, 0, r);
    let r = pick(top == 0x3E5, 0, r);
    let r = pick(w / 0x80_0000 == 0x1E5, 0, r);
    pick(w / 0x80_0000 == 0x1A5, 0, r)
}

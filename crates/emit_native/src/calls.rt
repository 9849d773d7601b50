// Calls of the emitter.
ghost use Rattle.std.specs.Prelude.{◌≡◌, [], ◌∷◌, ◌+◌, ◌<◌, ◌≤◌, length};
ghost use Rattle.rules.specs.Limits.{instr_words, max_slot_offset};
ghost use Rattle.a64_emitter.specs.Parts.{Added};
ghost use Rattle.emit_native.specs.Calls.{Call, Dialect, load_word, reg_off, if_not_0, continue, terminate, none};
ghost use Rattle.emit_native.specs.Parts.{held, nothing, at_slots, after, emit_if, answer, emitted, stores, stored};

use crate::{EmitFlow, Emitted, InstrEmitter};
use a64_emitter::A64Emitter;
use rules::INSTR_WORDS;

impl<'a> InstrEmitter<'a> {
    #[tactic(auto, unfolding(crate::specs::Parts::held))]
    pub fn new(words: &'a mut [u32; INSTR_WORDS]) -> Self
        ensures held { held result ≡ nothing words.entry.ghost_name 0 }
        ensures words_unchanged { result.words.now ≡ words.entry.now }
    {
        InstrEmitter {
            words,
            len: 0,
            slot_offset: 0,
        }
    }

    // The emitter with the slots at an offset from X0.
    #[tactic(auto, unfolding(crate::specs::Parts::held))]
    pub fn with_slots(self, slot_offset: u64) -> Self
        requires { slot_offset ≤ max_slot_offset }
        ensures held { held result ≡ at_slots slot_offset (held self.entry) }
        ensures words_unchanged { result.words.now ≡ self.entry.words.now }
    {
        let InstrEmitter { words, len, .. } = self;
        InstrEmitter {
            words,
            len,
            slot_offset,
        }
    }

    // One word more, or unchanged where it does not fit.
    #[tactic(auto, unfolding(crate::specs::Parts::held))]
    pub fn emit(mut self, w: u32) -> Self
        ensures { held result ≡ after (held self.entry) (Call.emit w ∷ []) }
    {
        let at = self.len;
        let words = &mut *self.words;
        self.len = a64_emitter::emit_at(words, at, w);
        self
    }

    // One word more where the test holds, or unchanged where it does not or the word does not fit.
    // Kept: a test as a parameter, by a named form of document 01; a branch around it would copy the emitter.
    #[tactic(auto, unfolding(crate::specs::Parts::held))]
    pub fn emit_if(mut self, test: bool, w: u32) -> Self
        ensures { held result ≡ after (held self.entry) (emit_if «test» w) }
    {
        let at = self.len;
        let words = &mut *self.words;
        self.len = a64_emitter::emit_at_if(words, at, test, w);
        self
    }

    // A constant more, or unchanged where its words do not all fit.
    #[tactic(auto, unfolding(crate::specs::Parts::held))]
    pub fn mov_imm64(mut self, rd: u8, val: u64) -> Self
        requires { rd < 32 }
        ensures { held result ≡ after (held self.entry) (Call.mov_imm64 rd val ∷ []) }
    {
        let at = self.len;
        let words = &mut *self.words;
        self.len = a64_emitter::mov_imm64_at(words, at, rd, val);
        self
    }

    // Rule 9.
    #[tactic(auto, unfolding(crate::specs::Parts::held))]
    fn reg_off(&self, n: u8) -> u16
        requires { n < 32 }
        ensures { (result ≡ reg_off (held self.now).slot_offset n) × (result < 32768) }
    {
        (self.slot_offset + 8 * (n as u64)) as u16
    }

    // The word of a load: MOVZ with 0 for register 0, whose slot is never read (document 02, No. 6).
    fn load_word(&self, rt: u8, n: u8) -> u32
        requires { (rt < 32) × (n < 32) }
        ensures { result ≡ load_word Dialect.product (held self.now).slot_offset rt n }
    {
        if n == 0 {
            return A64Emitter::movz(rt, 0);
        }
        A64Emitter::ldr_x(rt, 0, self.reg_off(n))
    }

    // Guest register n into Xt.
    pub fn load(self, rt: u8, n: u8) -> Self
        requires { (rt < 32) × (n < 32) }
        ensures { held result ≡ after (held self.entry) (Call.load rt n ∷ []) }
    {
        let w = self.load_word(rt, n);
        self.emit(w)
    }

    // Xt into guest register n.
    pub fn store(self, rt: u8, n: u8) -> Self
        requires { (rt < 32) × (n < 32) }
        ensures { held result ≡ after (held self.entry) (Call.store rt n ∷ []) }
    {
        let w = A64Emitter::str_x(rt, 0, self.reg_off(n));
        self.emit(w)
    }

    // Guest registers rs1 and rs2 into X9 and X10.
    pub fn load_both(self, rs1: u8, rs2: u8) -> Self
        requires { (rs1 < 32) × (rs2 < 32) }
        ensures { held result ≡ after (held self.entry) (Call.load 9 rs1 ∷ Call.load 10 rs2 ∷ []) }
    {
        self.load(9, rs1).load(10, rs2)
    }

    // A constant into a guest register that is not 0.
    pub fn mov_reg(self, rd: u8, val: u64) -> Self
        requires { rd < 32 }
        ensures { held result ≡ after (held self.entry) (if_not_0 rd (Call.mov_imm64 11 val ∷ Call.store 11 rd ∷ [])) }
    {
        if rd == 0 {
            return self;
        }
        self.mov_imm64(11, val).store(11, rd)
    }

    // Guest register rs and a constant into X9 and X10, the word of a form on them, and X11 into guest register rd.
    #[inline(always)]
    pub fn with_imm(self, rs: u8, imm: u64, w: u32, rd: u8) -> Self
        requires { (rs < 32) × (rd < 32) }
        ensures { held result ≡ after (held self.entry) (Call.load 9 rs ∷ Call.mov_imm64 10 imm ∷ Call.emit w ∷ Call.store 11 rd ∷ []) }
    {
        self.load(9, rs).mov_imm64(10, imm).emit(w).store(11, rd)
    }

    // The words after the first `at` of a block, where there is room for the whole array: all of that is moved, and as
    // many count as are held; the new count.
    #[tactic(auto, unfolding(crate::specs::Parts::held))]
    pub fn append_to(self, words: &mut [u32], at: usize) -> usize
        requires { at + instr_words ≤ length words.old }
        ensures { Added words.old at words.new result (held self.entry).words }
    {
        let len = self.len;
        let part = &*self.words;
        a64_emitter::append_at(words, at, part, len)
    }

    // `Some(EmitFlow::Continue)`, `Some(EmitFlow::Terminate)` and `None`.
    // Kept: three methods, no plainer with the flow as a parameter: an emitter's last call says what the block does.
    #[tactic(auto, unfolding(crate::specs::Parts::answer))]
    pub fn go_on(self) -> Emitted<'a>
        ensures answers { answer result ≡ emitted (held self.entry) (continue []) }
        ensures words_unchanged { result.em.words.now ≡ self.entry.words.now }
    {
        Emitted {
            em: self,
            flow: Some(EmitFlow::Continue),
        }
    }

    #[tactic(auto, unfolding(crate::specs::Parts::answer))]
    pub fn terminate(self) -> Emitted<'a>
        ensures answers { answer result ≡ emitted (held self.entry) (terminate []) }
        ensures words_unchanged { result.em.words.now ≡ self.entry.words.now }
    {
        Emitted {
            em: self,
            flow: Some(EmitFlow::Terminate),
        }
    }

    #[tactic(auto, unfolding(crate::specs::Parts::answer))]
    pub fn none(self) -> Emitted<'a>
        ensures answers { answer result ≡ emitted (held self.entry) (none []) }
        ensures words_unchanged { result.em.words.now ≡ self.entry.words.now }
    {
        Emitted {
            em: self,
            flow: None,
        }
    }
}

// Whether a match is followed by a store to rd.
#[tactic(auto, unfolding(crate::specs::Parts::stores))]
fn stores(flow: Option<EmitFlow>, rd: u8) -> bool
    ensures { result ≡ stores flow rd }
{
    match flow {
        Some(EmitFlow::Continue) => rd != 0,
        Some(EmitFlow::Terminate) | None => false,
    }
}

impl<'a> Emitted<'a> {
    // X11 into a guest register that is not 0, after a match whose arm was found.
    pub fn store_rd(self, rd: u8) -> Self
        requires { rd < 32 }
        ensures { answer result ≡ stored (answer self.entry) rd }
    {
        let Emitted { em, flow } = self;
        let w = A64Emitter::str_x(11, 0, em.reg_off(rd));
        let em = em.emit_if(stores(flow, rd), w);
        Emitted { em, flow }
    }
}

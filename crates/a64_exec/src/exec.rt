// What each form does.
ghost use Rattle.std.specs.Prelude.{◌≡◌, ◌+◌, ◌<◌, ◌≤◌, length, if◌then◌else◌, slice_index, slice_set};
ghost use Rattle.a64_exec.specs.Exec.{reg, with_reg, after, next, exec};
ghost use Rattle.a64_exec.specs.Parts.{Within, Reached, held};
ghost use Rattle.le.specs.Le.{load};
ghost use Rattle.a64.specs.Parts.{InRange};
ghost use Rattle.a64.specs.declared.Form as DeclaredForm;

use a64::Form;
use a64_alu::{Flags, compare, get, holds, insert, op_value, op1_value};

// How a form left the machine.
#[derive(Clone, Copy, PartialEq, Eq, Debug)]
pub enum Outcome {
    Next,
    Fault,
    Call,
    Return,
    Unreadable,
}

// The machine: X0 to X30, SP, the flags, and memory from the address `base` on.
// Registers and memory are lent: by value the registers would be copied on the way out.
#[derive(Drop)]
pub struct Machine<'a> {
    pub x: &'a mut [u64; 31],
    pub sp: u64,
    pub flags: Flags,
    pub memory: &'a mut [u8],
    pub base: u64,
}

// Register n as a result: what goes to 31 is lost.
fn set(x: &mut [u64; 31], n: u32, v: u64)
    ensures { x.new ≡ slice_set x.old n v }
{
    let i = n as usize;
    if i < 31 {
        x[i] = v;
    }
}

// Where the eight bytes at the address a lie in the len bytes from base on.
fn within(a: u64, base: u64, len: usize) -> Option<usize>
    ensures { Within a base len result }
{
    if a % 8 != 0 {
        return None;
    }
    let i = a.checked_sub(base)? as usize;
    let last = len.checked_sub(8)?;
    (i <= last).then_some(i)
}

impl Machine<'_> {
    // Register n as an operand.
    fn register(&self, n: u32) -> u64
        ensures { result ≡ reg (held self.now) n }
    {
        get(self.x, n)
    }

    // The eight bytes at i in memory.
    fn read(&self, i: usize) -> u64
        requires { i + 8 ≤ length self.now.memory.now }
        ensures { result ≡ load 8 (held self.now).mem i }
    {
        le::load::<u64>(self.memory, i)
    }

    // Where an access through register n at the offset imm * 8 lies. Register 31 is SP.
    fn locate(&self, n: u32, imm: u32) -> Option<usize>
        requires { imm < 4096 }
        ensures { Reached (held self.now) n imm result }
    {
        let offset = u64::from(imm) * 8;
        let len = self.memory.len();
        if n == 31 {
            if self.sp % 16 != 0 {
                return None;
            }
            return within(self.sp.wrapping_add(offset), self.base, len);
        }
        within(self.register(n).wrapping_add(offset), self.base, len)
    }

    // A form that leaves v in register rd.
    // Kept: what stays lent, in five contracts: no plainer in a record, which a caller's check would not look into.
    fn put(&mut self, rd: u32, v: u64) -> Outcome
        ensures goes { after result (held self.new) ≡ next (with_reg (held self.old) rd v) }
        ensures x_lent { self.new.x.ghost_name ≡ self.old.x.ghost_name }
        ensures memory_lent { self.new.memory.ghost_name ≡ self.old.memory.ghost_name }
    {
        set(self.x, rd, v);
        Outcome::Next
    }

    #[tactic(auto, unfolding(crate::specs::Exec::exec))]
    fn load(&mut self, rt: u32, rn: u32, imm: u32) -> Outcome
        requires { imm < 4096 }
        ensures goes { exec (Form.Ldr rt rn imm) (held self.old) ≡ after result (held self.new) }
        ensures x_lent { self.new.x.ghost_name ≡ self.old.x.ghost_name }
        ensures memory_lent { self.new.memory.ghost_name ≡ self.old.memory.ghost_name }
        ensures size { length self.new.memory.now ≡ length self.old.memory.now }
    {
        let Some(i) = self.locate(rn, imm) else {
            return Outcome::Fault;
        };
        let v = self.read(i);
        self.put(rt, v)
    }

    #[tactic(auto, unfolding(crate::specs::Exec::exec))]
    fn store(&mut self, rt: u32, rn: u32, imm: u32) -> Outcome
        requires { imm < 4096 }
        ensures goes { exec (Form.Str rt rn imm) (held self.old) ≡ after result (held self.new) }
        ensures x_lent { self.new.x.ghost_name ≡ self.old.x.ghost_name }
        ensures memory_lent { self.new.memory.ghost_name ≡ self.old.memory.ghost_name }
        ensures size { length self.new.memory.now ≡ length self.old.memory.now }
    {
        let Some(i) = self.locate(rn, imm) else {
            return Outcome::Fault;
        };
        let v = self.register(rt);
        let memory = &mut *self.memory;
        le::store(memory, i, v);
        Outcome::Next
    }

    // Register n where the test holds, else register m.
    fn select(&self, test: bool, n: u32, m: u32) -> u64
        ensures { result ≡ (if test then reg (held self.now) n else reg (held self.now) m) }
    {
        if test {
            self.register(n)
        } else {
            self.register(m)
        }
    }

    // X30 set to the address after a call.
    pub fn link(&mut self, address: u64)
        ensures held { held self.new ≡ with_reg (held self.old) 30 address }
        ensures x_lent { self.new.x.ghost_name ≡ self.old.x.ghost_name }
        ensures memory_lent { self.new.memory.ghost_name ≡ self.old.memory.ghost_name }
    {
        set(self.x, 30, address);
    }

    // What the form f does.
    #[tactic(auto, using(crate::proofs::Reach::form_results), unfolding(crate::specs::Exec::exec))]
    pub fn exec(&mut self, f: Form) -> Outcome
        requires { InRange f }
        ensures goes { exec f (held self.old) ≡ after result (held self.new) }
        ensures x_lent { self.new.x.ghost_name ≡ self.old.x.ghost_name }
        ensures memory_lent { self.new.memory.ghost_name ≡ self.old.memory.ghost_name }
        ensures size { length self.new.memory.now ≡ length self.old.memory.now }
    {
        match f {
            Form::DataProcessing(op, rd, rn, rm) => {
                let v = op_value(op, self.x, rn, rm);
                self.put(rd, v)
            }
            Form::Ldr(rt, rn, imm) => self.load(rt, rn, imm),
            Form::Str(rt, rn, imm) => self.store(rt, rn, imm),
            Form::Movz(rd, hw, imm) => self.put(rd, insert(0, hw, u64::from(imm))),
            Form::Movk(rd, hw, imm) => {
                let v = insert(self.register(rd), hw, u64::from(imm));
                self.put(rd, v)
            }
            Form::Cmp(rn, rm) => {
                self.flags = compare(self.register(rn), self.register(rm));
                Outcome::Next
            }
            Form::Csel(rd, rn, rm, k) => {
                let v = self.select(holds(k, self.flags), rn, rm);
                self.put(rd, v)
            }
            Form::Sxtw(rd, rn) => {
                let v = word::sext(self.register(rn), 32);
                self.put(rd, v)
            }
            Form::AddSp(imm) => {
                self.sp = self.sp.wrapping_add(u64::from(imm));
                Outcome::Next
            }
            Form::SubSp(imm) => {
                self.sp = self.sp.wrapping_sub(u64::from(imm));
                Outcome::Next
            }
            Form::Blr(_) => Outcome::Call,
            Form::Ret => Outcome::Return,
            Form::Unreadable => Outcome::Unreadable,
            Form::OneSource(op, rd, rn) => {
                let v = op1_value(op, self.register(rn));
                self.put(rd, v)
            }
        }
    }
}

//! The machine and its steps.

ghost use Rattle.std.specs.Prelude.{◌≡◌, ◌+◌, ◌*◌, ◌/◌, ◌%◌, ◌^◌, ◌<◌, ◌≤◌, None, nat_le, length, option_map, IfOk, IsTrue};
ghost use Rattle.rv_isa.specs.Decoding.{instr_of};
ghost use Rattle.rv_isa.specs.Immediates.{sign_12};
ghost use Rattle.rv_semantics.specs.Arithmetic.{sum_32};
ghost use Rattle.rv_semantics.specs.Layout.{memory_bytes, text_start, text_word, in_text};
ghost use Rattle.rv_semantics.specs.State.{Image, at, with_reg, start, given};
ghost use Rattle.rv_semantics.specs.Step.{Answer, seen, next_pc, traps, writes, puts, jumps, branches, loads, stores, calls, act, step};
ghost use Rattle.object_format.specs.Fields.{is_placed};
ghost use Rattle.rv_machine.specs.Machine.{image_of, state_of};
ghost use Rattle.rv_machine.specs.Objects.{object_image, object_start};

use crate::text::DecodedText;
use crate::words::Words;
use crate::{compute, memory};
use object_format::Object;
use rv_isa::{Imm12, Instr, LoadOp, Reg, StoreOp};
use rv_semantics::{MEMORY_BYTES, Seen, Stepped, TEXT_START, TrapWhy};
use std::alloc::{AllocError, Global};
use std::marker::Model;

/// The numbers of the environment calls.
const CALL_GET: u32 = 1;

const CALL_PUT: u32 = 2;

const CALL_END: u32 = 3;

/// A machine with the text of an object: the program counter, the registers and the memory.
pub struct Machine<'a> {
    text: DecodedText<'a>,
    exceptions: usize,
    pc: u32,
    registers: [u32; 32],
    memory: Words,
}

// Written out: a derived drop is proved anew in each crate above.
impl Drop for Machine<'_> {
    fn drop(self) {
        let Machine {
            text: _,
            exceptions: _,
            pc: _,
            registers: _,
            memory: _,
        } = self;
    }
}

impl<'a> Model for Machine<'a> {
    ghost use Rattle.rv_machine.specs.Machine.{Loaded};

    ghost Value = { Loaded };

    ghost view = { λ m. record {
      text = m.text;
      exceptions = m.exceptions;
      pc = m.pc;
      registers = m.registers;
      memory = m.memory;
    } };
}

impl<'a> Machine<'a> {
    /// The machine before the first instruction. `entry` and `init_at` are the addresses of the
    /// first instruction and of the data `init`, and `exceptions` is the greatest number of an
    /// exception. Memory may be wanting for the 32 MiB.
    #[tactic(auto, unfolding(rv_semantics::specs::State::start))]
    pub fn of_image(
        alloc: Global,
        entry: u32,
        text: &'a [u32],
        init_at: u32,
        init: &[u32],
        exceptions: usize,
    ) -> Result<Self, AllocError>
        requires text_fits { text_start + 4 * length text.now ≤ memory_bytes }
        requires init_fits { init_at + 4 * length init.now ≤ memory_bytes }
        ensures image { IfOk result (λ m. image_of m ≡ record { text = text.now; exceptions = exceptions }) }
        ensures state { IfOk result (λ m. state_of m ≡
            start (record { text = text.now; exceptions = exceptions }) entry init_at init.now) }
    {
        let memory = Words::loaded_with(alloc, text, init_at, init)?;
        let text = DecodedText::of(alloc, text)?;
        let mut registers = [0; 32];
        registers[2] = MEMORY_BYTES;
        Ok(Machine {
            text,
            exceptions,
            pc: entry,
            registers,
            memory,
        })
    }
}

impl<'a> Machine<'a> {
    /// The machine before the first instruction of an object whose text and data lie in memory.
    /// Memory may be wanting for the 32 MiB.
    pub fn new(alloc: Global, object: &'a Object) -> Result<Self, AllocError>
        requires { IsTrue (is_placed object.now) }
        ensures image { IfOk result (λ m. image_of m ≡ object_image object.now) }
        ensures state { IfOk result (λ m. state_of m ≡ object_start object.now) }
    {
        Machine::of_image(
            alloc,
            object.entry,
            object.text.as_slice(),
            object.init_at,
            object.init.as_slice(),
            object.obligations.exceptions.len(),
        )
    }
}

impl Machine<'_> {
    /// Executes the instruction at the program counter, or traps there.
    #[tactic(auto, unfolding(rv_semantics::specs::Step::step))]
    pub fn step(&mut self) -> Stepped
        ensures image { image_of self.new ≡ image_of self.old }
        ensures answer { (result, state_of self.new) ≡ step (image_of self.old) (state_of self.old) }
    {
        match self.instruction() {
            Some(Some(instr)) => self.act(&instr),
            Some(None) => self.trap(TrapWhy::BadWord),
            None => self.trap(TrapWhy::Outside),
        }
    }

    /// Hands over the input word that `Stepped::Get` asked for, or none at the end of the input.
    #[tactic(auto, unfolding(rv_semantics::specs::State::given))]
    pub fn give(&mut self, word: Option<i32>)
        ensures image { image_of self.new ≡ image_of self.old }
        ensures state { state_of self.new ≡ given (state_of self.old) word }
    {
        let (value, is_over) = match word {
            Some(value) => (value.cast_unsigned(), 0),
            None => (0, 1),
        };
        self.write(Reg::a0(), value);
        self.write(Reg::a1(), is_over);
    }

    /// Executes an instruction.
    #[tactic(auto, unfolding(rv_semantics::specs::Step::act))]
    fn act(&mut self, instr: &Instr) -> Stepped
        ensures image { image_of self.new ≡ image_of self.old }
        ensures answer { (result, state_of self.new) ≡ act (image_of self.old) (state_of self.old) instr.now }
    {
        match *instr {
            Instr::Upper { op, rd, imm } => {
                self.write_and_go_on(rd, compute::upper(op, self.pc(), imm.upper_value()))
            }
            Instr::Jal { rd, halves } => {
                self.jump(rd, self.pc().wrapping_add(halves.jump_offset()))
            }
            Instr::Jalr { rd, rs1, imm } => self.jump(rd, self.address(rs1, imm) / 2 * 2),
            Instr::Branch {
                op,
                rs1,
                rs2,
                halves,
            } => {
                let taken = compute::taken(op, self.register(rs1), self.register(rs2));
                self.branch(taken, self.pc().wrapping_add(halves.branch_offset()))
            }
            Instr::Load { op, rd, rs1, imm } => self.load(op, rd, self.address(rs1, imm)),
            Instr::Store { op, rs1, rs2, imm } => {
                self.store(op, self.address(rs1, imm), self.register(rs2))
            }
            Instr::Immediate { op, rd, rs1, imm } => {
                let value = compute::immediate(op, self.register(rs1), imm.sign_extended());
                self.write_and_go_on(rd, value)
            }
            Instr::Shift { op, rd, rs1, by } => {
                let value = compute::shift(op, self.register(rs1), u32::from(by.amount()));
                self.write_and_go_on(rd, value)
            }
            Instr::Register { op, rd, rs1, rs2 } => {
                let value = compute::register(op, self.register(rs1), self.register(rs2));
                self.write_and_go_on(rd, value)
            }
            Instr::Fence { .. } => self.do_nothing(),
            Instr::Ecall => self.call(),
            Instr::Ebreak => self.trap(TrapWhy::Break),
        }
    }

    /// The sum of a register and an immediate.
    fn address(&self, rs1: Reg, imm: Imm12) -> u32
        ensures { result ≡ sum_32 ((state_of self.now).reg rs1) (sign_12 imm) }
    {
        self.register(rs1).wrapping_add(imm.sign_extended())
    }

    /// Traps at the program counter.
    fn trap(&self, why: TrapWhy) -> Stepped
        ensures { (result, state_of self.now) ≡ traps (state_of self.now) why }
    {
        Stepped::Trap { pc: self.pc, why }
    }

    /// Goes on to the next instruction.
    fn do_nothing(&mut self) -> Stepped
        ensures image { image_of self.new ≡ image_of self.old }
        ensures went { result ≡ Stepped.Went (seen (state_of self.old) None) }
        ensures state { state_of self.new ≡ record (state_of self.old) { pc = next_pc (state_of self.old) } }
    {
        let seen = self.seen(None);
        self.go_on();
        Stepped::Went(seen)
    }

    /// Writes a register and goes on to the next instruction.
    #[tactic(auto, unfolding(rv_semantics::specs::Step::writes))]
    fn write_and_go_on(&mut self, rd: Reg, value: u32) -> Stepped
        ensures image { image_of self.new ≡ image_of self.old }
        ensures answer { (result, state_of self.new) ≡ writes (state_of self.old) rd value }
    {
        let seen = self.seen(None);
        self.write(rd, value);
        self.go_on();
        Stepped::Went(seen)
    }

    /// Writes a word of memory and goes on to the next instruction.
    #[tactic(auto, unfolding(rv_semantics::specs::Step::puts))]
    fn put_and_go_on(&mut self, place: usize, word: u32) -> Stepped
        requires { place < 2 ^ 23 }
        ensures image { image_of self.new ≡ image_of self.old }
        ensures answer { (result, state_of self.new) ≡ puts (state_of self.old) place word }
    {
        let seen = self.seen(None);
        self.put_word(place, word);
        self.go_on();
        Stepped::Went(seen)
    }

    /// Writes the address of the next instruction to a register and goes to a target.
    #[tactic(auto, unfolding(rv_semantics::specs::Step::jumps))]
    fn jump(&mut self, rd: Reg, target: u32) -> Stepped
        ensures image { image_of self.new ≡ image_of self.old }
        ensures answer { (result, state_of self.new) ≡ jumps (state_of self.old) rd target }
    {
        if target % 4 != 0 {
            return self.trap(TrapWhy::Misaligned);
        }
        let seen = self.seen(None);
        self.write(rd, self.pc().wrapping_add(4));
        self.go_to(target);
        Stepped::Went(seen)
    }

    /// Goes to a target where the branch is taken, else on to the next instruction.
    #[tactic(auto, unfolding(rv_semantics::specs::Step::branches))]
    fn branch(&mut self, taken: bool, target: u32) -> Stepped
        ensures image { image_of self.new ≡ image_of self.old }
        ensures answer { (result, state_of self.new) ≡ branches (state_of self.old) taken target }
    {
        let seen = self.seen(Some(taken));
        if !taken {
            self.go_on();
            return Stepped::Went(seen);
        }
        if target % 4 != 0 {
            return self.trap(TrapWhy::Misaligned);
        }
        self.go_to(target);
        Stepped::Went(seen)
    }

    /// Loads from an address into a register.
    #[tactic(auto, unfolding(rv_semantics::specs::Step::loads))]
    fn load(&mut self, op: LoadOp, rd: Reg, address: u32) -> Stepped
        ensures image { image_of self.new ≡ image_of self.old }
        ensures answer { (result, state_of self.new) ≡ loads (state_of self.old) op rd address }
    {
        let size = memory::size_of_load(op);
        if address % size != 0 {
            return self.trap(TrapWhy::Misaligned);
        }
        if address > MEMORY_BYTES - size {
            return self.trap(TrapWhy::Outside);
        }
        let value = memory::load_from(op, self.word((address / 4) as usize), address);
        self.write_and_go_on(rd, value)
    }

    /// Stores a value at an address.
    #[tactic(auto, unfolding(rv_semantics::specs::Step::stores))]
    fn store(&mut self, op: StoreOp, address: u32, value: u32) -> Stepped
        ensures image { image_of self.new ≡ image_of self.old }
        ensures answer { (result, state_of self.new) ≡
            stores (image_of self.old) (state_of self.old) op address value }
    {
        let size = memory::size_of_store(op);
        if address % size != 0 {
            return self.trap(TrapWhy::Misaligned);
        }
        if address > MEMORY_BYTES - size {
            return self.trap(TrapWhy::Outside);
        }
        if self.is_text(address) {
            return self.trap(TrapWhy::Store);
        }
        let place = (address / 4) as usize;
        let word = memory::store_into(op, self.word(place), address, value);
        self.put_and_go_on(place, word)
    }

    /// Executes the environment call whose number is in x17.
    #[tactic(auto, unfolding(rv_semantics::specs::Step::calls))]
    fn call(&mut self) -> Stepped
        ensures image { image_of self.new ≡ image_of self.old }
        ensures answer { (result, state_of self.new) ≡ calls (image_of self.old) (state_of self.old) }
    {
        let seen = self.seen(None);
        let argument = self.register(Reg::a0());
        match self.register(Reg::a7()) {
            CALL_GET => {
                self.go_on();
                Stepped::Get(seen)
            }
            CALL_PUT => {
                self.go_on();
                Stepped::Put(seen, argument.cast_signed())
            }
            CALL_END if self.holds_ending(argument) => Stepped::End(seen, argument),
            _ => self.trap(TrapWhy::BadCall),
        }
    }

    /// The instruction at the program counter: nothing outside the text, and an empty place where
    /// the word there holds none.
    fn instruction(&self) -> Option<Option<Instr>>
        ensures { result ≡ option_map instr_of (text_word (image_of self.now).text (state_of self.now).pc) }
    {
        self.text.at(self.pc)
    }

    /// The program counter.
    fn pc(&self) -> u32
        ensures { result ≡ (state_of self.now).pc }
    {
        self.pc
    }

    /// Whether a run may end with this number.
    fn holds_ending(&self, number: u32) -> bool
        ensures { result ≡ nat_le number (image_of self.now).exceptions }
    {
        number as usize <= self.exceptions
    }

    /// What a recorder sees of the instruction at the program counter.
    fn seen(&self, edge: Option<bool>) -> Seen
        ensures { result ≡ seen (state_of self.now) edge }
    {
        Seen {
            pc: self.pc,
            edge,
            x8: self.register(Reg::fp()),
        }
    }

    /// The value of a register.
    fn register(&self, register: Reg) -> u32
        ensures { result ≡ (state_of self.now).reg register }
    {
        self.registers[usize::from(register.number())]
    }

    /// Writes a register. The register x0 stays 0.
    fn write(&mut self, rd: Reg, value: u32)
        ensures image { image_of self.new ≡ image_of self.old }
        ensures state { state_of self.new ≡
            record (state_of self.old) { reg = with_reg (state_of self.old).reg rd value } }
    {
        if rd != Reg::zero() {
            self.registers[usize::from(rd.number())] = value;
        }
    }

    fn go_on(&mut self)
        ensures image { image_of self.new ≡ image_of self.old }
        ensures state { state_of self.new ≡ record (state_of self.old) { pc = next_pc (state_of self.old) } }
    {
        self.pc = self.pc.wrapping_add(4);
    }

    fn go_to(&mut self, target: u32)
        ensures image { image_of self.new ≡ image_of self.old }
        ensures state { state_of self.new ≡ record (state_of self.old) { pc = target } }
    {
        self.pc = target;
    }

    /// Whether an address lies in the text.
    fn is_text(&self, address: u32) -> bool
        ensures { result ≡ in_text (image_of self.now).text address }
    {
        address >= TEXT_START && (((address - TEXT_START) / 4) as usize) < self.text.len()
    }

    /// A word of the memory, by its number.
    fn word(&self, place: usize) -> u32
        requires { place < 2 ^ 23 }
        ensures { result ≡ (state_of self.now).mem place }
    {
        self.memory.word(place)
    }

    fn put_word(&mut self, place: usize, word: u32)
        requires { place < 2 ^ 23 }
        ensures image { image_of self.new ≡ image_of self.old }
        ensures state { state_of self.new ≡
            record (state_of self.old) { mem = at (state_of self.old).mem place word } }
    {
        self.memory.store(place, word);
    }
}

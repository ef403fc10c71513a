//! Code that reads and writes memory.

ghost use Rattle.std.specs.Prelude.{◌≡◌, ◌+◌, ◌-◌, ◌*◌, ◌/◌, ◌^◌, ◌<◌, ◌++◌, [], ◌∷◌, map, OnOk};
ghost use Rattle.rv_isa.specs.declared.ops.UpperOp.TheVariants.{Lui};
ghost use Rattle.rv_isa.specs.declared.ops.BranchOp.TheVariants.{Beq, Bltu};
ghost use Rattle.rv_isa.specs.declared.ops.ShiftOp.TheVariants as shifts;
ghost use Rattle.rv_isa.specs.declared.ops.RegisterOp.TheVariants as registers;
ghost use Rattle.rv_isa.specs.declared.ops.LoadOp.TheVariants.{Lw};
ghost use Rattle.rv_isa.specs.declared.ops.StoreOp.TheVariants.{Sw};
ghost use Rattle.rv_isa.specs.declared.instr.Instr.TheVariants.{Upper, Load, Store, Shift, Register};
ghost use Rattle.kernel_code.specs.Line.{plain, jump, checks};
ghost use Rattle.kernel_code.specs.Words.{high, low, load_slot, store_slot, load_constant};
ghost use Rattle.kernel_code.specs.SimpleCode.{branch, call_piece, checked, raising, measure, library_byte, copy_loop};

use crate::emitter::Emitter;
use crate::instructions::{a3, a4, addi, high, load, low, lui, register, shift, store};
use cov_base::number_after;
use kernel_ir::Slot;
use rv_isa::{BranchOp, Reg, RegisterOp, ShiftOp};
use std::alloc::AllocError;

impl Emitter {
    /// The address of a slot.
    #[tactic(auto, using(crate::proofs::Lines::lines_assoc))]
    pub(crate) fn frame_address(&mut self, to: Slot, slot: Slot) -> Result<(), AllocError>
        ensures { OnOk result (self.new ≡ self.old ++ map plain
            (Shift shifts.Srli 10 8 2 ∷ load_constant 11 (slot + 1) (Register registers.Sub 10 10 11 ∷ store_slot 10 to []))) }
    {
        let x = Reg::a0();
        self.plain(shift(ShiftOp::Srli, x, Reg::fp(), 2))?;
        self.load_constant(Reg::a1(), u64::from(slot) + 1)?;
        self.plain(register(RegisterOp::Sub, x, x, Reg::a1()))?;
        self.store_slot(x, to)
    }

    /// The address of a word of the library level.
    #[tactic(auto, using(crate::proofs::Lines::lines_assoc))]
    pub(crate) fn library_address(&mut self, to: Slot, word: u32) -> Result<(), AllocError>
        ensures { OnOk result (self.new ≡ self.old ++ map plain (load_constant 10 (library_byte word / 4) (store_slot 10 to []))) }
    {
        self.load_constant(Reg::a0(), library_byte(word) / 4)?;
        self.store_slot(Reg::a0(), to)
    }

    /// Whether so many words from the address in `x10` on lie in the data area.
    #[tactic(auto, using(crate::proofs::Lines::lines_assoc))]
    pub(crate) fn measure(&mut self, words: u64) -> Result<(), AllocError>
        ensures { OnOk result (self.new ≡ self.old ++ map plain (measure words)) }
    {
        let area = a3();
        self.straight(&[
            lui(area, 0x400),
            register(RegisterOp::Sub, Reg::a1(), Reg::a0(), area),
        ])?;
        self.load_constant(area, AREA_WORDS_AND_ONE.saturating_sub(words))?;
        self.raising(2)
    }

    /// A slot gets a word of the library level.
    #[tactic(auto, using(crate::proofs::Lines::lines_assoc))]
    pub(crate) fn read_library(&mut self, to: Slot, word: u32) -> Result<(), AllocError>
        ensures { OnOk result (self.new ≡ self.old ++ map plain
            (Upper Lui 10 (high (library_byte word)) ∷ Load Lw 10 10 (low (library_byte word)) ∷ store_slot 10 to [])) }
    {
        let x = Reg::a0();
        let byte = library_byte(word);
        self.straight(&[lui(x, high(byte)), load(x, x, low(byte))])?;
        self.store_slot(x, to)
    }

    /// A word of the library level gets what a slot has.
    #[tactic(auto, using(crate::proofs::Lines::lines_assoc))]
    pub(crate) fn write_library(&mut self, word: u32, from: Slot) -> Result<(), AllocError>
        ensures { OnOk result (self.new ≡ self.old ++ map plain
            (load_slot 11 from (Upper Lui 10 (high (library_byte word)) ∷ Store Sw 10 11 (low (library_byte word)) ∷ []))) }
    {
        let (x, y) = (Reg::a0(), Reg::a1());
        let byte = library_byte(word);
        self.load_slot(y, from)?;
        self.straight(&[lui(x, high(byte)), store(x, y, low(byte))])
    }

    /// The loop that copies `x13` words from `x10` on to `x11` on.
    #[tactic(auto, using(crate::proofs::Lines::lines_assoc))]
    pub(crate) fn copy_loop(&mut self, place: u32) -> Result<(), AllocError>
        ensures { OnOk result (self.new ≡ self.old ++ copy_loop place) }
    {
        let (x, y, left, word) = (Reg::a0(), Reg::a1(), a3(), a4());
        self.steer_past(BranchOp::Beq, left, Reg::zero(), place, 7)?;
        self.straight(&[
            load(word, x, 0),
            store(y, word, 0),
            addi(x, x, 4),
            addi(y, y, 4),
            addi(left, left, 0xfff),
        ])?;
        self.jump(place)
    }

    /// The check that so many words from the address in `x10` on lie in the data area.
    #[tactic(auto, using(crate::proofs::Lines::lines_assoc))]
    fn check_area(&mut self, raise_to: u32, place: u32, words: u64) -> Result<(), AllocError>
        ensures { OnOk result (self.new ≡ self.old ++ (map plain (measure words) ++
            (branch checks Bltu 11 13 (place + 10) ∷ jump raise_to ∷ []))) }
    {
        self.measure(words)?;
        self.check_past(raise_to, BranchOp::Bltu, Reg::a1(), a3(), place, 10)
    }

    /// The check of the words that are to be read or written.
    pub(crate) fn check_words(
        &mut self,
        raise_to: u32,
        place: u32,
        address: Slot,
        words: u64,
    ) -> Result<(), AllocError>
        ensures { OnOk result (self.new ≡ self.old ++ checked raise_to place (load_slot 10 address (measure words)) Bltu 11 13 []) }
    {
        self.load_slot(Reg::a0(), address)?;
        self.check_area(raise_to, place, words)
    }

    /// A slot gets the word at the address in `x10`.
    #[tactic(auto, using(crate::proofs::Lines::lines_assoc))]
    fn read_word(&mut self, to: Slot) -> Result<(), AllocError>
        ensures { OnOk result (self.new ≡ self.old ++ map plain (Shift shifts.Slli 10 10 2 ∷ Load Lw 10 10 0 ∷ store_slot 10 to [])) }
    {
        let x = Reg::a0();
        self.straight(&[shift(ShiftOp::Slli, x, x, 2), load(x, x, 0)])?;
        self.store_slot(x, to)
    }

    /// `x10`, an address that counts words, counts bytes from now on.
    fn in_bytes(&mut self) -> Result<(), AllocError>
        ensures { OnOk result (self.new ≡ self.old ++ map plain (Shift shifts.Slli 10 10 2 ∷ [])) }
    {
        self.plain(shift(ShiftOp::Slli, Reg::a0(), Reg::a0(), 2))
    }

    /// The word at the address in `x10` gets `x11`.
    fn write_word(&mut self) -> Result<(), AllocError>
        ensures { OnOk result (self.new ≡ self.old ++ map plain (Store Sw 10 11 0 ∷ [])) }
    {
        self.plain(store(Reg::a0(), Reg::a1(), 0))
    }

    /// A slot gets the word at an address.
    pub(crate) fn load_word(
        &mut self,
        raise_to: u32,
        place: u32,
        to: Slot,
        address: Slot,
    ) -> Result<(), AllocError>
        ensures { OnOk result (self.new ≡ self.old ++ checked raise_to place (load_slot 10 address (measure 1)) Bltu 11 13
            (Shift shifts.Slli 10 10 2 ∷ Load Lw 10 10 0 ∷ store_slot 10 to [])) }
    {
        self.check_words(raise_to, place, address, 1)?;
        self.read_word(to)
    }

    /// The word at an address gets what a slot has.
    pub(crate) fn store_word(
        &mut self,
        raise_to: u32,
        place: u32,
        address: Slot,
        from: Slot,
    ) -> Result<(), AllocError>
        ensures { OnOk result (self.new ≡ self.old ++ checked raise_to place (load_slot 10 address (measure 1)) Bltu 11 13
            (Shift shifts.Slli 10 10 2 ∷ load_slot 11 from (Store Sw 10 11 0 ∷ []))) }
    {
        self.check_words(raise_to, place, address, 1)?;
        self.in_bytes()?;
        self.load_right(from)?;
        self.write_word()
    }

    /// `x11` gets the address in `x10`, in bytes.
    fn set_goal(&mut self) -> Result<(), AllocError>
        ensures { OnOk result (self.new ≡ self.old ++ map plain (Shift shifts.Slli 11 10 2 ∷ [])) }
    {
        self.plain(shift(ShiftOp::Slli, Reg::a1(), Reg::a0(), 2))
    }

    /// `x13` gets how many words are to be copied.
    fn set_count(&mut self, words: u32) -> Result<(), AllocError>
        ensures { OnOk result (self.new ≡ self.old ++ map plain (load_constant 13 words [])) }
    {
        self.load_constant(a3(), u64::from(words))
    }

    /// `x11` gets the address in `x10`, and `x10` that in a slot, both in bytes; `x13` gets how many words are
    /// to be copied.
    fn set_copy(&mut self, from: Slot, words: u32) -> Result<(), AllocError>
        ensures { OnOk result (self.new ≡ self.old ++ map plain
            (Shift shifts.Slli 11 10 2 ∷ load_slot 10 from (Shift shifts.Slli 10 10 2 ∷ load_constant 13 words []))) }
    {
        self.set_goal()?;
        self.load_left(from)?;
        self.in_bytes()?;
        self.set_count(words)
    }

    /// Words from one address on get those from another on.
    pub(crate) fn copy(
        &mut self,
        raise_to: u32,
        place: u32,
        to: Slot,
        from: Slot,
        words: u32,
    ) -> Result<(), AllocError>
        ensures { OnOk result (self.new ≡ self.old ++ (checked raise_to place (load_slot 10 from (measure words)) Bltu 11 13 []
            ++ (checked raise_to (place + 10) (load_slot 10 to (measure words)) Bltu 11 13
            (Shift shifts.Slli 11 10 2 ∷ load_slot 10 from (Shift shifts.Slli 10 10 2 ∷ load_constant 13 words []))
            ++ copy_loop (place + 27)))) }
    {
        let second = number_after(place, 10)?;
        let turn = number_after(place, 27)?;
        let count = word_count(words);
        self.check_words(raise_to, place, from, count)?;
        self.check_words(raise_to, second, to, count)?;
        self.set_copy(from, words)?;
        self.copy_loop(turn)
    }

    /// The words from an address on get those of a layout, by a call of its piece.
    pub(crate) fn fill(
        &mut self,
        raise_to: u32,
        place: u32,
        at: Slot,
        words: u64,
        piece: u32,
    ) -> Result<(), AllocError>
        ensures { OnOk result (self.new ≡ self.old ++ (checked raise_to place (load_slot 10 at (measure words)) Bltu 11 13
            (Shift shifts.Slli 10 10 2 ∷ []) ++ (call_piece piece ∷ []))) }
    {
        self.check_words(raise_to, place, at, words)?;
        self.in_bytes()?;
        self.call_piece(piece)
    }
}

/// How many words the data area has, and one more.
const AREA_WORDS_AND_ONE: u64 = 0x3f_0001;

/// The address of a word of the library level, in bytes.
fn library_byte(word: u32) -> u64
    ensures value { result ≡ library_byte word }
    ensures within { result < 2 ^ 36 }
{
    u64::from(rv_semantics::DATA_START) + 4 * u64::from(word)
}

/// How many words are to be copied.
fn word_count(words: u32) -> u64
    ensures { result ≡ words }
{
    u64::from(words)
}

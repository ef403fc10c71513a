//! The code of layouts: a piece for each, which sets the words from an address on.

ghost use Rattle.std.specs.Prelude.{◌≡◌, ◌+◌, ◌*◌, ◌^◌, ◌<◌, ◌++◌, [], ◌∷◌, map, OnOk};
ghost use Rattle.rv_isa.specs.declared.ops.UpperOp.TheVariants.{Lui};
ghost use Rattle.rv_isa.specs.declared.ops.BranchOp.TheVariants.{Beq};
ghost use Rattle.rv_isa.specs.declared.ops.ImmediateOp.TheVariants.{Addi};
ghost use Rattle.rv_isa.specs.declared.ops.LoadOp.TheVariants.{Lw};
ghost use Rattle.rv_isa.specs.declared.ops.StoreOp.TheVariants.{Sw};
ghost use Rattle.rv_isa.specs.declared.instr.Instr.TheVariants.{Upper, Jalr, Load, Store, Immediate};
ghost use Rattle.kernel_code.specs.Line.{plain, jump, steers};
ghost use Rattle.kernel_code.specs.Words.{high, low, load_constant};
ghost use Rattle.kernel_code.specs.SimpleCode.{branch, call_piece};
ghost use Rattle.kernel_code.specs.FillCode.{layout_lines, layout_word, counter_byte, keep_return, go_back};
ghost use Rattle.kernel_ir.specs.declared.kernel.Layout.TheVariants as layout;

use cov_base::number_after;
use kernel_code::{Emitter, Said, addi, back, far, high, load, low, lui, store};
use kernel_ir::Layout;
use rv_isa::{BranchOp, Reg};
use std::alloc::AllocError;

/// The first word behind the return addresses, where each layout has two words of its own.
const LAYOUT_WORDS: u64 = 0x7f_1000;

/// The address in bytes of the word in which a layout keeps the address to come back to.
fn return_byte(number: u32) -> u64
    ensures value { result ≡ 4 * layout_word number }
    ensures within { result < 2 ^ 36 }
{
    4 * (LAYOUT_WORDS + 2 * u64::from(number))
}

/// That of the word that counts the components which are left.
fn counter_byte(number: u32) -> u64
    ensures value { result ≡ counter_byte number }
    ensures within { result < 2 ^ 36 }
{
    4 * (LAYOUT_WORDS + 2 * u64::from(number) + 1)
}

/// The lines of a layout. The piece of layout 0 has the number `first`.
pub(crate) fn put_layout(
    emitter: &mut Emitter,
    first: u32,
    number: u32,
    layout: &Layout,
) -> Result<(), AllocError>
    ensures { OnOk result (emitter.new ≡ emitter.old ++ layout_lines first number layout.now) }
{
    match layout {
        Layout::Word(value) => put_word(emitter, first, number, *value),
        Layout::Array { count, component } => put_array(emitter, first, number, *count, *component),
        Layout::Record(components) => put_components(emitter, first, number, components.as_slice()),
    }
}

/// A word.
#[tactic(auto, using(kernel_code::proofs::Lines::lines_assoc))]
fn put_word(emitter: &mut Emitter, first: u32, number: u32, value: i32) -> Result<(), AllocError>
    ensures { OnOk result (emitter.new ≡ emitter.old ++ layout_lines first number (layout.Word value)) }
{
    let (x, y) = (Reg::a0(), Reg::a1());
    emitter.load_constant(y, u64::from(value.cast_unsigned()))?;
    emitter.straight(&[store(x, y, 0), addi(x, x, 4), back()])
}

/// Keeps the address to come back to.
#[tactic(auto, using(kernel_code::proofs::Lines::lines_assoc))]
fn keep_return(emitter: &mut Emitter, number: u32) -> Result<(), AllocError>
    ensures { OnOk result (emitter.new ≡ emitter.old ++ map plain (keep_return number)) }
{
    let byte = return_byte(number);
    let far = far();
    emitter.straight(&[lui(far, high(byte)), store(far, Reg::ra(), low(byte))])
}

/// Goes back there.
#[tactic(auto, using(kernel_code::proofs::Lines::lines_assoc))]
fn go_back(emitter: &mut Emitter, number: u32) -> Result<(), AllocError>
    ensures { OnOk result (emitter.new ≡ emitter.old ++ (map plain (go_back number) ++ (plain (Jalr 0 1 0) ∷ []))) }
{
    let byte = return_byte(number);
    let far = far();
    emitter.straight(&[
        lui(far, high(byte)),
        load(Reg::ra(), far, low(byte)),
        back(),
    ])
}

/// Sets the counter of the components that are left.
#[tactic(auto, using(kernel_code::proofs::Lines::lines_assoc))]
fn set_counter(emitter: &mut Emitter, number: u32, count: u32) -> Result<(), AllocError>
    ensures { OnOk result (emitter.new ≡ emitter.old ++ map plain
        (load_constant 11 count (Upper Lui 5 (high (counter_byte number)) ∷ Store Sw 5 11 (low (counter_byte number)) ∷ []))) }
{
    let byte = counter_byte(number);
    let (y, far) = (Reg::a1(), far());
    emitter.load_constant(y, u64::from(count))?;
    emitter.straight(&[lui(far, high(byte)), store(far, y, low(byte))])
}

/// Leaves the loop where no component is left, and else counts one.
#[tactic(auto, using(kernel_code::proofs::Lines::lines_assoc))]
fn count_down(emitter: &mut Emitter, number: u32) -> Result<(), AllocError>
    ensures { OnOk result (emitter.new ≡ emitter.old ++ (map plain
        (Upper Lui 5 (high (counter_byte number)) ∷ Load Lw 11 5 (low (counter_byte number)) ∷ [])
        ++ (branch steers Beq 11 0 13 ∷ map plain (Immediate Addi 11 11 0xfff ∷ Store Sw 5 11 (low (counter_byte number)) ∷ [])))) }
{
    let byte = counter_byte(number);
    let (y, far) = (Reg::a1(), far());
    emitter.straight(&[lui(far, high(byte)), load(y, far, low(byte))])?;
    emitter.branch(Said::Steers, BranchOp::Beq, y, Reg::zero(), 13)?;
    emitter.straight(&[addi(y, y, 0xfff), store(far, y, low(byte))])
}

/// A call of the piece of another layout.
fn call_layout(emitter: &mut Emitter, first: u32, component: u32) -> Result<(), AllocError>
    ensures { OnOk result (emitter.new ≡ emitter.old ++ call_piece (first + component) ∷ []) }
{
    emitter.call_piece(number_after(first, component)?)
}

/// An array: the loop calls the piece of its component.
fn put_array(
    emitter: &mut Emitter,
    first: u32,
    number: u32,
    count: u32,
    component: u32,
) -> Result<(), AllocError>
    ensures { OnOk result (emitter.new ≡ emitter.old ++ layout_lines first number (layout.Array count component)) }
{
    keep_return(emitter, number)?;
    set_counter(emitter, number, count)?;
    count_down(emitter, number)?;
    call_layout(emitter, first, component)?;
    emitter.jump(6)?;
    go_back(emitter, number)
}

/// The calls of the pieces of a record's components.
fn call_layouts(emitter: &mut Emitter, first: u32, components: &[u32]) -> Result<(), AllocError>
    ensures { OnOk result (emitter.new ≡ emitter.old ++ map (λ component. call_piece (first + component)) components.now) }
{
    for component in components {
        call_layout(emitter, first, *component)?;
    }
    Ok(())
}

/// A record: the pieces of its components are called in order.
fn put_components(
    emitter: &mut Emitter,
    first: u32,
    number: u32,
    components: &[u32],
) -> Result<(), AllocError>
    ensures { OnOk result (emitter.new ≡ emitter.old ++ layout_lines first number (layout.Record components.now)) }
{
    keep_return(emitter, number)?;
    call_layouts(emitter, first, components)?;
    go_back(emitter, number)
}

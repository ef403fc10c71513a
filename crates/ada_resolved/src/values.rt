//! Values and bounds in the instances of a program.

ghost use Rattle.std.specs.Prelude.{◌≡◌, option_map};
ghost use Rattle.ada_meaning.specs.Statics.{static_bounds, static_value, values_of};
ghost use Rattle.ada_tree.specs.Programs.{bounds_of, program_of};
ghost use Rattle.ada_tree.specs.View.{scalar_range_of, static_of};

use crate::known::Known;
use ada_tree::{Program, Range, ScalarRange, Static};

/// The value of a static expression in the instance with this number, which is 0 in no generic (RM 4.9).
/// There is none where a part leaves the base range, or has a divisor of 0.
pub fn number_in(program: &Program, instance: u32, value: Static) -> Option<i32>
    ensures { result ≡ static_value (values_of (program_of program.now)) instance (static_of value) }
{
    Known::of(program).number(instance, value)
}

/// The bounds of a range in the instance with this number, which is 0 in no generic (RM 3.5). There are
/// none where a part of one leaves the base range, or has a divisor of 0.
pub fn bounds_in(program: &Program, instance: u32, range: ScalarRange) -> Option<Range>
    ensures { option_map bounds_of result
        ≡ static_bounds (values_of (program_of program.now)) instance (scalar_range_of range) }
{
    Known::of(program).bounds(instance, range)
}

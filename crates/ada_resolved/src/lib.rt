//! What names of a generic's text are in an instance (Ada RM 2012, 3.5, 4.9, 12.3): the values of static
//! expressions and the bounds of ranges, as the definitions of ada_meaning have them of the program that
//! contracts see. There is none where a part leaves the base range of the integer types.
//!
//! The contract that the layers above use: [`number_in`] is `static_value`, [`bounds_in`] is
//! `static_bounds`, and [`constants_in`] is `constant_values`, each value computed once and in order;
//! [`TypeSizes`] has the sizes of types in words, which are those of the shapes that executions take, and
//! the words of the objects of the library level; [`TypeSizes::form`] says what a type is built of, one step
//! at a time. [`target_in`] and [`exception_in`] are what callees and names of exceptions come to.
#![tactic(auto)]

mod arithmetic;
mod constants;
mod forms;
mod known;
mod names;
mod sizes;
mod values;

pub use arithmetic::{computed, length, signed, values_in};
pub use constants::constants_in;
pub use forms::{RecordForm, TypeForm, TypeIn};
pub use known::owner_in;
pub use names::{exception_in, target_in};
pub use sizes::{TypeSizes, instance_count, sizes_are_exact, stands_in};
pub use values::{bounds_in, number_in};

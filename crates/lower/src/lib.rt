//! From the typed program to the kernel.
//!
//! The contract that the layers above use: [`lower`] gives the kernel of a program, with the copies of its bodies;
//! and [`kernels_are_laid`] says that the kernel of a well-formed program within the limits is laid out, and so is
//! whole, of which `statement_code` proves that it does what its program does.
//!
//! The code is that of the whole language, by what the names of a text come to in an instance (`context`):
//! `expressions`, `value`, `parts`, `calls`, `edges` and `nodes` for expressions; `sets`, `procedures` and `simple`
//! for simple statements and declarations; `choosing` and `compound` for those that hold others; `bodies`. Each
//! function there puts exactly the code of which `statement_code` proves what it does. `kernels` has the bodies in
//! their frames, the words of the library level and the layouts; `laws` says what holds of it.
#![tactic(auto)]

mod bodies;
mod calls;
mod choosing;
mod compound;
mod context;
mod edges;
mod expressions;
mod kernels;
mod laws;
mod nodes;
mod parts;
mod procedures;
mod sets;
mod simple;
mod value;

pub use kernels::lower;
pub use laws::kernels_are_laid;

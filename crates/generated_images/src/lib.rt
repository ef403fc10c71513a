//! Cases for images of kernels: steps build kernels, and a run of each in the machine shows what it does.
//! `layer_cases` plays them.
//!
//! [`answer`] takes a line of steps, between which stands `; `. Numbers are decimal, and may have a sign. Most steps
//! build code:
//!
//! | Step | Does |
//! |---|---|
//! | `code` | begins code, which the steps behind it fill |
//! | `number TO VALUE`, `put FROM` and others | adds an operation that holds no others: `operations` has their names |
//! | `exit`, `returns`, `call BODY` | adds one of these |
//! | `choose SLOT` | makes the latest two codes the ways of a choice, which comes behind the code before them |
//! | `forever` | makes the latest code the body of a loop, likewise |
//! | `catch SLOT` | makes the latest two codes a body and its handler, likewise |
//! | `node SLOT TRUE FALSE` | makes the latest code the operand of a condition. Its edges are `true`, `false`, or how many conditions they pass |
//! | `decide DECISION SLOT` | makes the conditions a decision, which comes behind the latest code |
//! | `body WIDTH` | makes the latest code a body of the kernel, whose frame has so many words. Main comes first |
//!
//! The others make a kernel, and ask:
//!
//! | Step | Makes or asks |
//! |---|---|
//! | `kernel` | makes the bodies a kernel, which is compiled and linked, if its image fits |
//! | `run WORD..` | what the latest kernel's run on an input puts and tells, and its ending |
//! | `count WORD..` | the ending of that run, and how many instructions it executes |
//! | `no_pieces` | whether no pieces can be linked |
//!
//! Each kernel has 5 exceptions, the library words 3 to 6, and three layouts: of a word with the value
//! 7, of an array of two of them, and of a record of such an array and a word. All is outside generics.
#![tactic(auto)]

mod asking;
mod draft;
mod fault;
mod images;
mod links;
mod operations;
mod runs;
mod words;

pub use asking::answer;
pub use draft::Draft;
pub use fault::{Answer, StepFault};

//! The kernel code of whole programs over objects of every type, and what it does. The definitions stand in
//! `specs/`, and `proofs/` shows that code and source go on together; the functions carry laws alone.
//!
//! | Definition | Says |
//! |---|---|
//! | `Cells` | which words of memory hold which scalar parts of objects, and when a memory holds what a store has |
//! | `Objects` | the words of objects that stand at addresses |
//! | `Stores` | what first values, and copies, do to a store |
//! | `Frames` | what a state of a program and one of its kernel have in common, at ten units of cost for one |
//! | `Values`, `Sets` | the code of names, values, actuals, assignments, copies and `(others => ..)` |
//! | `Calls` | what a call is handed, what it leaves, and what calls of functions and procedures do |
//! | `Flows`, `Statements` | the code of loops over ranges, choices, handlers, declarations, calls and statements |
//! | `Numbers` | which numbers of a program machine code has room for |
//! | `Sizes` | how many nodes a text has, and how many instructions its code has for each of them |
//! | `Bodies`, `Programs` | the code of bodies; how a body is laid out, and when a kernel is made of a program |
//! | `AllFuels` | what a kernel does on an input, under all fuels together |
//! | `Fragments`, `Copies` | what code marks, names and leaves, and how long it is; a kernel of bodies |
//! | `Kernels`, `Own` | the kernel of a whole program, by a scheme; which obligations it marks, and how often |
//! | `Laid`, `Alike` | how the kernel of a well-formed program is laid out, and by which names its code may be made |
//! | `Initial` | the words of the library level as a program begins |
//!
//! The law of statements is `block_does` in `proofs/Statements.antt`: where the cells of objects lie apart from what
//! is kept and from the slots that are worked in, and calls do what `Calls` says, a block and its code both go on,
//! return, raise one exception or are cut off, with the same events and output, at most ten times the cost, and
//! memory that holds what the store has. It holds under each fuel, which is the same on both sides.
//!
//! What code is like is one law, `block_like` in `proofs/Blocks.antt`: the code of a block marks its statement
//! obligations in the order of the text, and each condition of its decisions once; it names slots, bodies,
//! layouts and exceptions that are there, and numbers of 32 bits; it leaves no loop but its own; and it has at
//! most 60 instructions for each node. So the kernel of a program is well-formed, marks each obligation once in
//! each instance in which it stands ([`kernels_hold_the_obligations`]), and is small enough for machine code where
//! its bodies and layouts have no more than 4,096 nodes ([`kernels_are_small`]).
//!
//! Bodies do what `Calls` says, as `calls_do` in `proofs/Programs.antt` shows by induction on the fuel. So a kernel
//! that is made of a program does what the program does, on every input and under every fuel but one
//! ([`kernels_do_what_their_programs_do`]), and ends exactly where the program's execution ends
//! ([`kernels_end_where_their_programs_end`]).
//!
//! What a kernel owes for all that is how its bodies and the library level are laid out: that statements and
//! expressions are such that code can be made of them follows from a well-formed program
//! ([`laid_kernels_are_whole`]).
//!
//! `lower` does not stand on this yet: it makes code of programs whose objects are single words, by definitions of
//! its own.
#![tactic(auto)]

mod laws;

pub use laws::{
    bodies_are_listed_once, kernels_are_small, kernels_do_what_their_programs_do,
    kernels_end_in_time, kernels_end_where_their_programs_end, kernels_hold_the_obligations,
    laid_kernels_are_whole, libraries_begin_alike,
};

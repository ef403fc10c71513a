//! Worked sources: what the rules of the language say of them. Each source stands here as text; the
//! lexer's, the parser's and the rules' definitions compute what it comes to. What must come was
//! taken from outside, by another reading of the rules.
//!
//! No layer stands on this crate. It shows a reader of `ada_rules` what its definitions accept and
//! refuse, and where.
#![tactic(auto)]

ghost use Rattle.rules_examples.specs.Objects.{Objects};
ghost use Rattle.rules_examples.specs.Conditions.{Conditions};
ghost use Rattle.rules_examples.specs.Scalars.{Scalars};
ghost use Rattle.rules_examples.specs.Composites.{Composites};
ghost use Rattle.rules_examples.specs.Packages.{Packages};
ghost use Rattle.rules_examples.specs.Exceptions.{Exceptions};
ghost use Rattle.rules_examples.specs.Generics.{Generics};
ghost use Rattle.rules_examples.specs.Whole.{Whole};
ghost use Rattle.rules_examples.specs.Apart.{Apart};
ghost use Rattle.rules_examples.specs.Doubling.{Doubling};
ghost use Rattle.rules_examples.specs.Obliged.{Obliged};
ghost use Rattle.rules_examples.specs.Actuals.{Actuals};
ghost use Rattle.rules_examples.specs.Conformance.{Conformance};
ghost use Rattle.rules_examples.specs.Bodies.{Bodies};
ghost use Rattle.rules_examples.specs.Values.{Values};

/// Objects of type Integer, assignments and calls of Test_IO.
pub fn objects()
    ensures { Objects }
{}

/// Boolean expressions, branches, loops and blocks.
pub fn conditions()
    ensures { Conditions }
{}

/// Scalar types and subtypes, static values, case statements and loop parameters.
pub fn scalars()
    ensures { Scalars }
{}

/// Arrays and records.
pub fn composites()
    ensures { Composites }
{}

/// Packages, subprograms, units and what they name in `with`.
pub fn packages()
    ensures { Packages }
{}

/// Exceptions and handlers.
pub fn exceptions()
    ensures { Exceptions }
{}

/// Generics and instances.
pub fn generics()
    ensures { Generics }
{}

/// Sources right at the counted limits, and sources that show one rule each.
pub fn whole()
    ensures { Whole }
{}

/// Sources worked out by hand, for what the others leave out.
pub fn apart()
    ensures { Apart }
{}

/// Constants of which each is twice the one before it, forty in a row.
pub fn doubling()
    ensures { Doubling }
{}

/// Obligations entry by entry: of recursion, instances, exceptions, and composite types.
pub fn obliged()
    ensures { Obliged }
{}

/// What objects are set to, parts of expressions, and bounds of loops.
pub fn values()
    ensures { Values }
{}

/// Returns and ends of functions, case statements, handlers, and numbers of parameters.
pub fn bodies()
    ensures { Bodies }
{}

/// Bodies and their declarations.
pub fn conformance()
    ensures { Conformance }
{}

/// Units in `with`, actuals of instances, and static values in generics.
pub fn actuals()
    ensures { Actuals }
{}

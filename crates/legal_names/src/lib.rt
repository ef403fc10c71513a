//! The exceptions and instances of a legal program have names of its text, which are words in ASCII where the
//! text's names are.
//!
//! The function here does nothing: it carries a law of the definitions as its contract.
#![tactic(auto)]

ghost use Rattle.std.specs.Prelude.{ℕ, List};
ghost use Rattle.ada_meaning.specs.Program.{Program};
ghost use Rattle.ada_rules.specs.Library.{Library};
ghost use Rattle.legal_programs.specs.Walked.{IsLegal};
ghost use Rattle.legal_names.specs.Named.{HasNames};
ghost use Rattle.legal_names.specs.Spelled.{AreUnitsSpelled};

/// The exceptions and instances of a legal program have names in ASCII, which are short, where the names of
/// its units, of the bodies in them and of the exceptions that they declare are words in ASCII; and each
/// instance stands where the item of a unit does.
pub fn names_of_legal_programs_are_ascii()
    ensures { (l : Library) (main : List ℕ) (p : Program) → IsLegal l main p → AreUnitsSpelled l.units
        → HasNames l.units p }
{}

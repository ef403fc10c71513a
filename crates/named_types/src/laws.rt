//! What the test says. The function does nothing: it carries a law of the definitions as its contract.

ghost use Rattle.std.specs.Prelude.{◌≡◌, true};
ghost use Rattle.ada_tree.specs.declared.program.Program.{Program};
ghost use Rattle.lower.specs.Standing.{AreTypesNamed};
ghost use Rattle.named_types.specs.Named.{are_types_named};

/// A program that passes the test names its types where they stand.
pub fn named_types_stand()
    ensures { (p : Program) → are_types_named p ≡ true → AreTypesNamed p }
{}

//! What objects of programs are.

ghost use Rattle.std.specs.Prelude.{◌≡◌, ◌↔◌, ◌+◌, ◌*◌, ◌<◌, ◌≤◌, ℕ, List, true, length, map};
ghost use Rattle.ada_meaning.specs.Collected.{labels_of, decisions_of};
ghost use Rattle.ada_meaning.specs.Obligations.{decision_entry};
ghost use Rattle.ada_meaning.specs.Program.{Program};
ghost use Rattle.program_objects.specs.Held.{HoldsImage};
ghost use Rattle.program_objects.specs.Kernels.{IsKernelOf};
ghost use Rattle.program_objects.specs.Made.{IsCompilable, IsMadeOf};
ghost use Rattle.kernel_ir.specs.declared.kernel.Kernel.{Kernel};
ghost use Rattle.parsed_texts.specs.Places.{AreInFiles};
ghost use Rattle.cov_base.specs.declared.position.Pos.{Pos};
ghost use Rattle.program_objects.specs.Listed.{entry_at, IsCondition};
ghost use Rattle.statement_code.specs.Kernels.{AreOutside};
ghost use Rattle.statement_code.specs.Own.{IsStatementIn, IsConditionIn};
ghost use Rattle.cov_base.specs.TextOrder.{rise};
ghost use Rattle.object_format.specs.Fields.{are_statements};
ghost use Rattle.object_format.specs.Read.{HasObject};
ghost use Rattle.object_format.specs.RoleCheck.{PassesRole};
ghost use Rattle.object_format.specs.declared.object.Object.{Object};

/// The object that is made of a program has one role for each branch of its text: that of a check of
/// the language, of other control flow, or of the condition of a decision, each once.
pub fn roles_are_of_checks_structure_and_conditions()
    ensures { (p : Program) (o : Object) → IsCompilable p → IsMadeOf p o → PassesRole o }
{}

/// The object that is made of a program passes the checks of objects, and has a file.
pub fn made_objects_pass_their_checks()
    ensures { (p : Program) (o : Object) → IsCompilable p → IsMadeOf p o → HasObject o }
{}

/// Places that rise, within files, are places of statements as an object has them.
pub fn rising_places_are_statements()
    ensures { (files : ℕ) (places : List Pos) → rise places ≡ true → AreInFiles files places
        → are_statements files (map entry_at places) ≡ true }
{}

/// The text of a program's image takes at most 240 bytes for each node, and 4,096 beside.
pub fn texts_are_bounded()
    ensures { (p : Program) (nodes : ℕ) (k : Kernel) (o : Object) → IsKernelOf p nodes k → HoldsImage k o
        → 4 * length o.text ≤ 240 * nodes + 4096 }
{}

/// Where nothing stands in a generic, each statement obligation and each condition stands in instance 0, and
/// in no other.
pub fn obligations_stand_in_one_copy()
    ensures statements { (p : Program) → IsCompilable p → AreOutside p.subprograms → (number instance : ℕ)
        → IsStatementIn p instance number ↔ ((number < length (labels_of p.subprograms)) × (instance ≡ 0)) }
    ensures conditions { (p : Program) → IsCompilable p → AreOutside p.subprograms
        → (decision condition instance : ℕ) → IsConditionIn p instance decision condition
        ↔ (IsCondition (map decision_entry (decisions_of p.subprograms)) decision condition × (instance ≡ 0)) }
{}

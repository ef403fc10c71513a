//! Laws of parsed files. The functions here do nothing: they carry laws of the definitions as their contracts.

ghost use Rattle.std.specs.Prelude.{◌≡◌, ℕ, ◌*◌, ◌≤◌, List, true, sum_by};
ghost use Rattle.ada_syntax.specs.Nodes.{unit_nodes};
ghost use Rattle.ada_syntax.specs.declared.unit.Unit.{Unit as LibraryUnit};
ghost use Rattle.cov_base.specs.Lists.{Everywhere};
ghost use Rattle.cov_base.specs.TextOrder.{rise};
ghost use Rattle.expression_parser.specs.declared.extent.Extent.{Extent};
ghost use Rattle.legal_counts.specs.Choices.{UnitsHaveChoices};
ghost use Rattle.legal_counts.specs.ConditionPlaces.{units_conditions};
ghost use Rattle.legal_texts.specs.legal_instances.specs.InOrder.{UnitsRise};
ghost use Rattle.legal_programs.specs.DecisionPlaces.{units_decisions};
ghost use Rattle.legal_programs.specs.InText.{Rise};
ghost use Rattle.legal_programs.specs.TextPlaces.{units_places};
ghost use Rattle.legal_texts.specs.UnitTexts.{AreUnitTexts};
ghost use Rattle.parsed_texts.specs.Places.{AreInFiles, IsInFiles};
ghost use Rattle.legal_counts.specs.TextParts.{AreCounted};
ghost use Rattle.parsed_texts.specs.Parsed.{AreOfFiles, most_nodes_of_file};
ghost use Rattle.legal_names.specs.Spelled.{AreUnitsSpelled};

/// The units of files stand one after the other.
pub fn units_of_files_rise()
    ensures rise { (extent : Extent) (files : ℕ) (units : List LibraryUnit)
        → AreOfFiles extent files units → UnitsRise units }
    ensures in_files { (extent : Extent) (files : ℕ) (units : List LibraryUnit)
        → AreOfFiles extent files units → Everywhere (λ u. IsInFiles files u.item_pos) units }
{}

/// The statements of files stand one after the other, no two at one place.
pub fn statements_of_files_rise()
    ensures strictly { (extent : Extent) (files : ℕ) (units : List LibraryUnit)
        → AreOfFiles extent files units → rise (units_places units) ≡ true }
    ensures weakly { (extent : Extent) (files : ℕ) (units : List LibraryUnit)
        → AreOfFiles extent files units → Rise (units_places units) }
    ensures in_files { (extent : Extent) (files : ℕ) (units : List LibraryUnit)
        → AreOfFiles extent files units → AreInFiles files (units_places units) }
{}

/// The decisions of files stand one after the other, where of two that begin at one token the outer comes
/// first.
pub fn decisions_of_files_rise()
    ensures rise { (extent : Extent) (files : ℕ) (units : List LibraryUnit)
        → AreOfFiles extent files units → Rise (units_decisions units) }
    ensures in_files { (extent : Extent) (files : ℕ) (units : List LibraryUnit)
        → AreOfFiles extent files units → AreInFiles files (units_decisions units) }
{}

/// The conditions of the decisions of files stand in them.
pub fn conditions_of_files_stand_in_them()
    ensures { (extent : Extent) (files : ℕ) (units : List LibraryUnit)
        → AreOfFiles extent files units → Everywhere (AreInFiles files) (units_conditions units) }
{}

/// Enumerations, records and choices of files are not empty, and enumerations have no more literals than there
/// are numbers for.
pub fn files_have_texts()
    ensures { (extent : Extent) (files : ℕ) (units : List LibraryUnit)
        → AreOfFiles extent files units → AreUnitTexts units }
{}

/// Such texts have a choice at each alternative and each handler.
pub fn texts_have_choices()
    ensures { (units : List LibraryUnit) → AreUnitTexts units → UnitsHaveChoices units }
{}

/// Units, bodies and exceptions of files have names that are words in ASCII.
pub fn names_of_files_are_ascii()
    ensures { (extent : Extent) (files : ℕ) (units : List LibraryUnit)
        → AreOfFiles extent files units → AreUnitsSpelled units }
{}

/// Files have few nodes: no unit has more than are counted, and all of them together have no more than the files
/// can have tokens.
pub fn units_of_files_are_counted()
    ensures counted { (extent : Extent) (files : ℕ) (units : List LibraryUnit)
        → AreOfFiles extent files units → AreCounted units }
    ensures few { (extent : Extent) (files : ℕ) (units : List LibraryUnit)
        → AreOfFiles extent files units → sum_by unit_nodes units ≤ files * most_nodes_of_file }
{}

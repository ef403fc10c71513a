//! What the walk has found.

ghost use Rattle.std.specs.Prelude.{◌≡◌, OnOk};
ghost use Rattle.ada_rules.specs.Environment.{beginning_state, State};
ghost use Rattle.ada_entities.specs.EntityViews.{Tables};
ghost use Rattle.program_walk.specs.States.{with_found};
ghost use Rattle.program_walk.specs.Finding.{FindsType, FindsWord, FindsSubprogramWords, FindsLibraryWord, FindsUnitWords, FindsObject, FindsException, FindsInstance, FindsSubprogram};

use ada_tree::{ExceptionDeclaration, Instance, LibraryObject, Subprogram, Subtype};
use cov_base::Pos;
use std::alloc::{AllocError, Global};

/// An object of a subprogram: its first token, and its subtype.
#[derive(Clone, Copy)]
pub struct Word {
    pub pos: Pos,
    pub subtype: Subtype,
}

/// A type that is declared in the text of a generic, by the number of its unit, or in none: its first
/// token, and all its values as a subtype.
#[derive(Clone, Copy)]
pub struct DeclaredType {
    pub generic: Option<u32>,
    pub word: Word,
}

/// The objects of a subprogram, in the order of the text, and the generic in whose text it stands.
pub struct SubprogramWords {
    pub generic: Option<u32>,
    pub words: Vec<Word>,
}

// Written out: a derived drop is proved anew in each crate above.
impl Drop for SubprogramWords {
    fn drop(self) {
        let SubprogramWords {
            generic: _,
            words: _,
        } = self;
    }
}

/// The objects of the library level that a unit declares: its number, that of its package, and the
/// generic in whose text they stand.
pub struct UnitWords {
    pub unit: u32,
    pub package_unit: u32,
    pub generic: Option<u32>,
    pub words: Vec<Subtype>,
}

// Written out: a derived drop is proved anew in each crate above.
impl Drop for UnitWords {
    fn drop(self) {
        let UnitWords {
            unit: _,
            package_unit: _,
            generic: _,
            words: _,
        } = self;
    }
}

/// What was found so far, each in the order of the text: types; the objects of the subprogram, those of
/// all subprograms, those of the unit's library level and of all units; and what the typed program has.
#[derive(Drop)]
pub struct Found {
    pub types: Vec<DeclaredType>,
    pub words: Vec<Word>,
    pub subprogram_words: Vec<SubprogramWords>,
    pub library_words: Vec<Subtype>,
    pub unit_words: Vec<UnitWords>,
    pub objects: Vec<LibraryObject>,
    pub exceptions: Vec<ExceptionDeclaration>,
    pub instances: Vec<Instance>,
    pub subprograms: Vec<Subprogram>,
}

impl Found {
    /// Nothing so far.
    pub fn new(alloc: Global) -> Found
        ensures { (k : Tables) → with_found k result beginning_state ≡ beginning_state }
    {
        Found {
            types: Vec::new(alloc),
            words: Vec::new(alloc),
            subprogram_words: Vec::new(alloc),
            library_words: Vec::new(alloc),
            unit_words: Vec::new(alloc),
            objects: Vec::new(alloc),
            exceptions: Vec::new(alloc),
            instances: Vec::new(alloc),
            subprograms: Vec::new(alloc),
        }
    }

    /// Adds a type.
    pub fn add_type(&mut self, declared: DeclaredType) -> Result<(), AllocError>
        ensures { OnOk result (FindsType self.old self.new declared) }
    {
        self.types.push(declared)?;
        Ok(())
    }

    /// Adds an object of the subprogram.
    pub fn add_word(&mut self, word: Word) -> Result<(), AllocError>
        ensures { OnOk result (FindsWord self.old self.new word) }
    {
        self.words.push(word)?;
        Ok(())
    }

    /// Adds the objects of a subprogram.
    pub fn add_subprogram_words(&mut self, words: SubprogramWords) -> Result<(), AllocError>
        ensures { OnOk result (FindsSubprogramWords self.old self.new words) }
    {
        self.subprogram_words.push(words)?;
        Ok(())
    }

    /// Adds an object of the unit's library level, by its subtype.
    pub fn add_library_word(&mut self, subtype: Subtype) -> Result<(), AllocError>
        ensures { OnOk result (FindsLibraryWord self.old self.new subtype) }
    {
        self.library_words.push(subtype)?;
        Ok(())
    }

    /// Adds the objects of the library level that a unit declares.
    pub fn add_unit_words(&mut self, words: UnitWords) -> Result<(), AllocError>
        ensures { OnOk result (FindsUnitWords self.old self.new words) }
    {
        self.unit_words.push(words)?;
        Ok(())
    }

    /// Adds an object of the library level.
    pub fn add_object(&mut self, object: LibraryObject) -> Result<(), AllocError>
        ensures { OnOk result (FindsObject self.old self.new object) }
    {
        self.objects.push(object)?;
        Ok(())
    }

    /// Adds an exception.
    pub fn add_exception(&mut self, exception: ExceptionDeclaration) -> Result<(), AllocError>
        ensures { OnOk result (FindsException self.old self.new exception) }
    {
        self.exceptions.push(exception)?;
        Ok(())
    }

    /// Adds an instance.
    pub fn add_instance(&mut self, instance: Instance) -> Result<(), AllocError>
        ensures { OnOk result (FindsInstance self.old self.new instance) }
    {
        self.instances.push(instance)?;
        Ok(())
    }

    /// Adds a subprogram.
    pub fn add_subprogram(&mut self, subprogram: Subprogram) -> Result<(), AllocError>
        ensures { OnOk result (FindsSubprogram self.old self.new subprogram) }
    {
        self.subprograms.push(subprogram)?;
        Ok(())
    }
}

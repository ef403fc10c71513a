//! What objects of programs do.

ghost use Rattle.ada_meaning.specs.Program.{Program};
ghost use Rattle.program_objects.specs.Behaves.{Behaves, EndsInTime};
ghost use Rattle.program_objects.specs.Made.{IsCompilable, IsMadeOf};
ghost use Rattle.object_format.specs.Checked.{IsSound};
ghost use Rattle.object_format.specs.declared.object.Object.{Object};

/// The object that is made of a program, and passes the checks of objects, does what the program
/// means, and its runs end in time.
pub fn objects_behave_as_their_programs()
    ensures behaves { (p : Program) (o : Object) → IsCompilable p → IsMadeOf p o → IsSound o → Behaves p o }
    ensures in_time { (p : Program) (o : Object) → IsCompilable p → IsMadeOf p o → IsSound o → EndsInTime p o }
{}

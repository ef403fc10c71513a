//! What environment calls do where they stand.

ghost use Rattle.placed_code.specs.Instructions.{GetGoes, GetAtTheEndGoes, PutGoes, EndGoes};

/// The calls get the next input word or find that there is none, put a word, and end the run.
pub fn the_environment_is_called()
    ensures get { GetGoes }
    ensures get_at_the_end { GetAtTheEndGoes }
    ensures put { PutGoes }
    ensures end { EndGoes }
{}

//! The inputs that a source of the workload is run on.

ghost use Rattle.std.specs.Prelude.{◌≡◌, ◌≤◌, IfOk};
ghost use Rattle.workload.specs.Inputs.{inputs_of, triple_of};

use std::alloc::{AllocError, Global};

/// How many runs there are.
const RUNS: u32 = 8;

/// The three numbers of an input.
#[derive(Clone, Copy, Debug, PartialEq, Eq)]
pub struct Triple {
    pub a: i32,
    pub b: i32,
    pub c: i32,
}

/// The inputs of eight runs, which are the same for each number of the workload: A goes through 0 to 7, and B and C
/// go through them in other orders.
pub fn inputs_of(alloc: Global, _n: u32) -> Result<Vec<Triple>, AllocError>
    ensures { IfOk result (λ runs. runs.items ≡ inputs_of) }
{
    let mut runs = Vec::new(alloc);
    for run in 0..RUNS {
        runs.push(triple_of(run))?;
    }
    Ok(runs)
}

/// The input of a run, by its number from 0.
fn triple_of(run: u32) -> Triple
    requires { run ≤ 7 }
    ensures { result ≡ triple_of run }
{
    Triple {
        a: run as i32,
        b: ((3 * run + 1) % 8) as i32,
        c: ((5 * run + 2) % 8) as i32,
    }
}

//! `coverage` and `consolidate`: traces of an object's runs are made a report, or one file.

ghost use Rattle.std.specs.Prelude.{◌≡◌, ◌≤◌, length, map, IfErr};
ghost use Rattle.commands.specs.Covering.{listed_for, sources_for, task_for};
ghost use Rattle.commands.specs.Outcome.{Prepares};
ghost use Rattle.commands.specs.Prepared.{PreparesFrom, PreparesOver};
ghost use Rattle.commands.specs.Products.{IsMadeOf};
ghost use Rattle.commands.specs.Ready.{answer_view, TellsSource, TellsSourceOf};
ghost use Rattle.commands.specs.TaskFiles.{entry_names};
ghost use Rattle.object_format.specs.File.{structured};
ghost use Rattle.object_format.specs.Checked.{IsSound};
ghost use Rattle.object_format.specs.Read.{IsObject};

use crate::ready::consolidate::consolidated;
use crate::ready::report::reported;
use crate::ready::traces::add_traces;
use crate::ready::{Ready, object_of, read_file};
use crate::status::Refusal;
use cov_base::{Annotation, Level};
use cov_io::Files;
use coverage_set::Coverage;
use decision_map::DecisionMap;
use object_format::Object;
use std::alloc::Global;

/// What is made of the traces of an object's runs.
#[derive(Clone, Copy)]
pub enum Product<'a> {
    /// The report at a level, in a form.
    Report { level: Level, annotate: Annotation },
    /// The consolidated file, to have this name.
    File { name: &'a str },
}

/// Reads the object, then the traces, then the sources that are to be annotated, each of which is checked
/// before the next is read, and makes what is asked for.
pub fn prepare<'a, F: Files>(
    alloc: Global,
    product: Product<'a>,
    object: &str,
    traces: &[&str],
    files: &mut F,
) -> Result<Ready<'a>, Refusal>
    requires { length traces.now ≤ 4096 }
    ensures prepares { Prepares (task_for product.entry object.now (map (λ name. name.now) traces.now))
        (F.held files.old) (F.reads_failed files.old) (F.reads_failed files.new) (answer_view result) }
    ensures named { IfErr result (TellsSourceOf (task_for product.entry object.now (map (λ name. name.now) traces.now))
        (F.held files.old)) }
    ensures same { F.held files.new ≡ F.held files.old }
    ensures writes { F.writes_failed files.new ≡ F.writes_failed files.old }
{
    let bytes = read_file(alloc, 0, object, files)?;
    from_file(alloc, product, bytes.as_slice(), traces, files)
}

/// The same, where the object file holds these bytes.
fn from_file<'a, F: Files>(
    alloc: Global,
    product: Product<'a>,
    bytes: &[u8],
    traces: &[&str],
    files: &mut F,
) -> Result<Ready<'a>, Refusal>
    requires { length traces.now ≤ 4096 }
    ensures prepares { PreparesFrom (λ object. task_for product.entry object (map (λ name. name.now) traces.now))
        bytes.now
        (F.held files.old) (F.reads_failed files.old) (F.reads_failed files.new) (answer_view result) }
    ensures named { IfErr result (TellsSource (listed_for product.entry (structured bytes.now))) }
    ensures same { F.held files.new ≡ F.held files.old }
    ensures writes { F.writes_failed files.new ≡ F.writes_failed files.old }
{
    let object = object_of(alloc, bytes)?;
    over_object(alloc, product, &object, traces, files)
}

/// The same, where the object file is that of this object.
fn over_object<'a, F: Files>(
    alloc: Global,
    product: Product<'a>,
    object: &Object,
    traces: &[&str],
    files: &mut F,
) -> Result<Ready<'a>, Refusal>
    requires few { length traces.now ≤ 4096 }
    requires object { IsObject object.now }
    ensures prepares { PreparesOver (λ object. task_for product.entry object (map (λ name. name.now) traces.now))
        object.now
        (F.held files.old) (F.reads_failed files.old) (F.reads_failed files.new) (answer_view result) }
    ensures named { IfErr result (TellsSource (entry_names (sources_for product.entry object.now))) }
    ensures same { F.held files.new ≡ F.held files.old }
    ensures writes { F.writes_failed files.new ≡ F.writes_failed files.old }
{
    let decisions = DecisionMap::of(alloc, object)?;
    let mut coverage = Coverage::new(alloc, object);
    add_traces(alloc, &decisions, traces, files, &mut coverage)?;
    made(alloc, product, object, &coverage, files)
}

/// What is asked for, of what was covered.
fn made<'a, F: Files>(
    alloc: Global,
    product: Product<'a>,
    object: &Object,
    coverage: &Coverage<'_>,
    files: &mut F,
) -> Result<Ready<'a>, Refusal>
    requires sound { IsSound object.now }
    requires own { coverage.now.object ≡ object.now }
    ensures made { IsMadeOf product.entry object.now coverage.now (F.held files.old) (F.reads_failed files.old)
        (F.reads_failed files.new) (answer_view result) }
    ensures named { IfErr result (TellsSource (entry_names (sources_for product.entry object.now))) }
    ensures same { F.held files.new ≡ F.held files.old }
    ensures writes { F.writes_failed files.new ≡ F.writes_failed files.old }
{
    match product {
        Product::Report { level, annotate } => {
            reported(alloc, level, annotate, object, coverage, files)
        }
        Product::File { name } => Ok(consolidated(alloc, name, coverage)?),
    }
}

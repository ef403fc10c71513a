//! Bodies in the typed program, and their objects (Ada RM 2012, 3.3, 6.3).

ghost use Rattle.std.specs.Prelude.{◌≡◌, map, IfOk, OnOk};
ghost use Rattle.ada_syntax.specs.Nodes as count;
ghost use Rattle.ada_syntax.specs.Nodes.{capped};
ghost use Rattle.unit_walk.specs.Recording.{RecordsBody};

use ada_syntax::{SubprogramBody, body_node_count};
use ada_tree::{Block, BodyEntry, Parameter, Subprogram, Subtype};
use cov_base::Seq;
use program_walk::{Found, SubprogramWords, Word};
use std::alloc::{AllocError, Global};
use std::mem;

/// The subtypes of objects.
fn subtypes(alloc: Global, words: &[Word]) -> Result<Vec<Subtype>, AllocError>
    ensures { IfOk result (λ v. v.items ≡ map (λ w. w.subtype) words.now) }
{
    let mut subtypes = Vec::new(alloc);
    for word in words {
        subtypes.push(word.subtype)?;
    }
    Ok(subtypes)
}

/// Where a body begins, and how many of its tokens count as nodes.
pub fn entry_of(body: &SubprogramBody) -> BodyEntry
    ensures pos { result.pos ≡ body.now.specification.pos }
    ensures nodes { result.nodes ≡ capped (count.body_nodes body.now) }
{
    BodyEntry {
        pos: body.specification.pos,
        nodes: body_node_count(body),
    }
}

/// Adds a body, in the text of a generic or in none, whose objects were found last.
pub fn record_body(
    alloc: Global,
    found: &mut Found,
    generic: Option<u32>,
    entry: BodyEntry,
    parameters: Vec<Parameter>,
    body: Block,
) -> Result<(), AllocError>
    ensures { OnOk result (RecordsBody found.old found.new generic parameters.items body) }
{
    let words = mem::replace(&mut found.words, Vec::new(alloc));
    let objects = subtypes(alloc, words.as_slice())?;
    found.add_subprogram_words(SubprogramWords { generic, words })?;
    found.add_subprogram(Subprogram {
        generic,
        entry,
        parameters: Seq::from(parameters),
        objects: Seq::from(objects),
        body,
    })?;
    Ok(())
}

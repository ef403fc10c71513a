//! From a legal program to its object, but for the closing digest.

ghost use Rattle.std.specs.Prelude.{◌≡◌, IfOk, map};
ghost use Rattle.ada_meaning.specs.Obligations.{obligations_of};
ghost use Rattle.ada_tree.specs.Programs.{program_of};
ghost use Rattle.program_objects.specs.Built.{IsBuiltOf};
ghost use Rattle.program_objects.specs.Exemptions.{exempt_regions};
ghost use Rattle.program_objects.specs.Kernels.{CanBeLaid, IsImageOf, nodes_of};
ghost use Rattle.program_objects.specs.Made.{IsCompilable};
ghost use Rattle.program_objects.specs.Source.{entry_of_file};
ghost use Rattle.generic_expand.specs.Expanded.{copies_of};

use ada_tree::Program;
use codegen_rv32::generate;
use cov_base::{Bytes, Obligations, Region, Seq, SourceFile};
use generic_expand::Copies;
use linker::{Image, link};
use lower::lower;
use object_format::{FileEntry, Object, digest};
use obligations::obligations;
use std::alloc::{AllocError, Global};

/// The object of a program and its sources, which have these exempt regions. Its closing digest is not there
/// yet.
pub fn object_of(
    alloc: Global,
    files: &[SourceFile],
    program: &Program,
    copies: &Copies,
    regions: Seq<Region>,
) -> Result<Object, AllocError>
    requires able { IsCompilable (program_of program.now) }
    requires laid { CanBeLaid program.now }
    requires copies { copies.now.bodies ≡ copies_of (program_of program.now) }
    requires regions { regions ≡ exempt_regions files.now }
    ensures { IfOk result (IsBuiltOf files.now (program_of program.now) (nodes_of program.now)) }
{
    let files = file_entries(alloc, files)?;
    let obligations = all_obligations(alloc, program, regions)?;
    let image = image_of(alloc, program, copies)?;
    Ok(Object {
        entry: image.entry,
        text: image.text,
        init_at: image.init_at,
        init: image.init,
        files: Seq::from(files),
        obligations,
        rows: image.rows,
        roles: image.roles,
        closing: [0; 32],
    })
}

/// The obligations of a program whose sources have these exempt regions.
fn all_obligations(
    alloc: Global,
    program: &Program,
    regions: Seq<Region>,
) -> Result<Obligations, AllocError>
    ensures { IfOk result (λ o. o ≡ obligations_of (program_of program.now) regions) }
{
    let mut obligations = obligations(alloc, program)?;
    obligations.regions = regions;
    Ok(obligations)
}

/// The image of a program: the linked machine code of its kernel, with the words of the library level as
/// data.
fn image_of(alloc: Global, program: &Program, copies: &Copies) -> Result<Image, AllocError>
    requires able { IsCompilable (program_of program.now) }
    requires laid { CanBeLaid program.now }
    requires copies { copies.now.bodies ≡ copies_of (program_of program.now) }
    ensures { IfOk result (IsImageOf (program_of program.now) (nodes_of program.now)) }
{
    let kernel = lower(alloc, program, copies)?;
    let pieces = generate(alloc, &kernel)?;
    link(alloc, pieces.as_slice(), kernel.init_words())
}

/// How the object names its sources.
fn file_entries(alloc: Global, files: &[SourceFile]) -> Result<Vec<FileEntry>, AllocError>
    ensures { IfOk result (λ entries. entries.items ≡ map entry_of_file files.now) }
{
    let mut entries = Vec::new(alloc);
    for file in files {
        entries.push(file_entry(alloc, file)?)?;
    }
    Ok(entries)
}

/// How the object names a source: by its name, and the digest of its bytes.
fn file_entry(alloc: Global, file: &SourceFile) -> Result<FileEntry, AllocError>
    ensures { IfOk result (λ entry. entry ≡ entry_of_file file.now) }
{
    Ok(FileEntry {
        name: Bytes::from(Vec::from_slice(alloc, file.name.as_slice())?),
        sha256: digest(file.bytes.as_slice()),
    })
}

//! The library units of source files, which are numbered from 0 in their order, and how the exemption
//! pragmas of the files pair. Each step looks at all files before the next begins.

ghost use Rattle.std.specs.Prelude.{◌≡◌, ◌^◌, ◌<◌, ℕ, List, [], ◌∷◌, None, Ok, IfOk, IfErr, OnOk, length};
ghost use Rattle.ada_parser.specs.Grammar.{IsFile};
ghost use Rattle.ada_parser.specs.Opening.{open_extent};
ghost use Rattle.ada_parser.specs.Refusal.{IsOnlyFile};
ghost use Rattle.parsed_texts.specs.Parsed.{AreOfFiles, AreTokensOfFiles};
ghost use Rattle.program_objects.specs.Exemptions.{
  exempt_regions,
  pragmas_of,
  unpaired_in,
  AreRegionsIn,
};
ghost use Rattle.program_objects.specs.Units.{
  all_tokens,
  fault_at,
  fault_in,
  first_nested,
  first_too_large,
  AreUnits,
  FailsFor,
  HaveNoUnits,
  HaveOnlyUnits,
  HaveTokens,
  HaveUnits,
};
ghost use Rattle.program_objects.specs.Steps.{AddsUnitsOf, AreOnlyUnits, FailsToLex, FailsToParse};
ghost use Rattle.ada_syntax.specs.declared.unit.Unit.{Unit as LibraryUnit};
ghost use Rattle.cov_base.specs.declared.obligations.SourceFile.{SourceFile};
ghost use Rattle.program_objects.specs.declared.fault.SourceFault.{SourceFault};

use crate::fault::{SourceFault, Why};
use crate::pragmas::{Exemptions, exemptions_of};
use ada_lexer::{LexFault, Token, lex, nested};
use ada_parser::{discard_units, parse};
use ada_syntax::Unit;
use cov_base::{Failure, Pos, Seq, SourceFile};
use std::alloc::Global;

/// The most bytes of a source file.
const MAX_SOURCE: usize = 1_048_576;

/// Where each file begins.
const BEGINNING: Pos = Pos {
    file: 0,
    line: 1,
    col: 1,
};

/// What source files are parsed into. The units are for `discard_units`.
pub struct ParsedSources {
    pub units: Vec<Unit>,
    pub exemptions: Exemptions,
}

/// The library units of source files, which are numbered from 0 in their order, and stand in them as they
/// are parsed, and how the exemption pragmas of the files pair. Each step looks at all files before the next
/// begins: size, tokens, nesting, syntax. A pragma that pairs with none is no refusal yet.
pub fn units_of(alloc: Global, files: &[SourceFile]) -> Result<ParsedSources, Failure<SourceFault>>
    requires { length files.now < 2 ^ 32 }
    ensures units { IfOk result (λ s. HaveUnits files.now s.units.items) }
    ensures only_units { IfOk result (λ s. HaveOnlyUnits files.now s.units.items) }
    ensures read { IfOk result (λ s. AreOfFiles open_extent (length files.now) s.units.items) }
    ensures regions { IfOk result (λ s. s.exemptions.regions ≡ exempt_regions files.now) }
    ensures unpaired { IfOk result (λ s. s.exemptions.unpaired ≡ unpaired_in (pragmas_of files.now)) }
    ensures in_files { OnOk result (AreRegionsIn (length files.now) (exempt_regions files.now)) }
    ensures refused { IfErr result (FailsFor files.now) }
{
    let tokens = flat_tokens(alloc, files)?;
    let exemptions = exemptions_of(alloc, tokens.as_slice())?;
    let units = units_of_tokens(alloc, tokens.as_slice())?;
    Ok(ParsedSources { units, exemptions })
}

/// The tokens of each file. No file is too large, and the tokens of none nest too deep.
fn flat_tokens(alloc: Global, files: &[SourceFile]) -> Result<Vec<Seq<Token>>, Failure<SourceFault>>
    requires { length files.now < 2 ^ 32 }
    ensures tokens { IfOk result (λ lists. HaveTokens files.now lists.items) }
    ensures lexed { IfOk result (λ lists. AreTokensOfFiles 0 files.now lists.items) }
    ensures refused { IfErr result (FailsFor files.now) }
{
    if let Some(file) = first_too_large(files) {
        return Err(Failure::Fault(fault_in(file, BEGINNING, Why::Limit)));
    }
    let tokens = match all_tokens(alloc, files) {
        Ok(tokens) => tokens,
        Err(Failure::Fault(LexFault { pos })) => {
            return Err(Failure::Fault(fault_at(pos, Why::Lexical)));
        }
        Err(Failure::WantOfMemory) => return Err(Failure::WantOfMemory),
    };
    match first_nested(tokens.as_slice()) {
        Some(pos) => Err(Failure::Fault(fault_at(pos, Why::Limit))),
        None => Ok(tokens),
    }
}

/// The number of the first file that is too large.
fn first_too_large(files: &[SourceFile]) -> Option<u32>
    requires { length files.now < 2 ^ 32 }
    ensures { result ≡ first_too_large 0 files.now }
{
    for (file, source) in files.iter().enumerate() {
        if source.bytes.len() > MAX_SOURCE {
            return Some(file as u32);
        }
    }
    None
}

/// The tokens of each file, or the fault of the first that has none.
fn all_tokens(alloc: Global, files: &[SourceFile]) -> Result<Vec<Seq<Token>>, Failure<LexFault>>
    requires numbers { length files.now < 2 ^ 32 }
    requires sizes { first_too_large 0 files.now ≡ None }
    ensures tokens { IfOk result (λ lists. all_tokens 0 files.now ≡ Ok lists.items) }
    ensures lexed { IfOk result (λ lists. AreTokensOfFiles 0 files.now lists.items) }
    ensures fault { IfErr result (FailsToLex files.now) }
{
    let mut lists = Vec::new(alloc);
    for (file, source) in files.iter().enumerate() {
        let tokens = lex(alloc, file as u32, source.bytes.as_slice())?;
        lists.push(Seq::from(tokens))?;
    }
    Ok(lists)
}

/// The first place in files where tokens nest too deep.
fn first_nested(lists: &[Seq<Token>]) -> Option<Pos>
    ensures { result ≡ first_nested lists.now }
{
    for tokens in lists {
        if let Some(pos) = nested(tokens.as_slice()) {
            return Some(pos);
        }
    }
    None
}

/// The units of all files, from the tokens of each.
fn units_of_tokens(alloc: Global, lists: &[Seq<Token>]) -> Result<Vec<Unit>, Failure<SourceFault>>
    requires { length lists.now < 2 ^ 32 }
    ensures units { IfOk result (λ units. AreUnits lists.now units.items) }
    ensures only_units { IfOk result (λ units. AreOnlyUnits lists.now units.items) }
    ensures refused { IfErr result (FailsToParse 0 lists.now) }
{
    let mut units = Vec::new(alloc);
    match add_units(alloc, lists, &mut units) {
        Ok(()) => Ok(units),
        Err(failure) => {
            discard_units(units);
            Err(failure)
        }
    }
}

/// Adds the units of all files, from the tokens of each.
fn add_units(
    alloc: Global,
    lists: &[Seq<Token>],
    units: &mut Vec<Unit>,
) -> Result<(), Failure<SourceFault>>
    requires numbers { length lists.now < 2 ^ 32 }
    requires empty { units.old.items ≡ [] }
    ensures units { OnOk result (AreUnits lists.now units.new.items) }
    ensures only_units { OnOk result (AreOnlyUnits lists.now units.new.items) }
    ensures refused { IfErr result (FailsToParse 0 lists.now) }
{
    for (file, tokens) in lists.iter().enumerate() {
        add_units_of_file(alloc, file as u32, tokens.as_slice(), units)?;
    }
    Ok(())
}

/// Adds the units of the file with this number behind those of the files before it.
fn add_units_of_file(
    alloc: Global,
    file: u32,
    tokens: &[Token],
    units: &mut Vec<Unit>,
) -> Result<(), Failure<SourceFault>>
    ensures added { OnOk result (AddsUnitsOf tokens.now units.old.items units.new.items) }
    ensures refused { IfErr result (FailsToParse file (tokens.now ∷ [])) }
{
    let mut more = units_of_file(alloc, file, tokens)?;
    let added = units.append(&mut more);
    discard_units(more);
    Ok(added?)
}

/// The units of the file with this number, from its tokens.
fn units_of_file(
    alloc: Global,
    file: u32,
    tokens: &[Token],
) -> Result<Vec<Unit>, Failure<SourceFault>>
    ensures units { IfOk result (λ units. IsFile open_extent units.items tokens.now) }
    ensures only_units { IfOk result (λ units. IsOnlyFile open_extent tokens.now units.items) }
    ensures refused { IfErr result (FailsToParse file (tokens.now ∷ [])) }
{
    match parse(alloc, tokens) {
        Ok(units) => Ok(units),
        Err(Failure::Fault(fault)) => Err(Failure::Fault(fault_in(file, fault.pos, Why::Syntax))),
        Err(Failure::WantOfMemory) => Err(Failure::WantOfMemory),
    }
}

/// A fault for this reason at a place of the file with this number.
fn fault_in(file: u32, pos: Pos, why: Why) -> SourceFault
    ensures { result ≡ fault_in file pos why }
{
    SourceFault {
        file,
        line: pos.line,
        col: pos.col,
        why,
    }
}

/// A fault for this reason at a place, in the file that it names.
fn fault_at(pos: Pos, why: Why) -> SourceFault
    ensures { result ≡ fault_at pos why }
{
    fault_in(pos.file, pos, why)
}

/// Sources that are refused have no units.
pub fn refused_sources_have_no_units()
    ensures { (files : List SourceFile) (fault : SourceFault) (units : List LibraryUnit) → HaveNoUnits files fault → HaveUnits files units → ⊥ }
{}

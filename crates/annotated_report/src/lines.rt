//! The lines of a report.

ghost use Rattle.std.specs.Prelude.{◌≡◌, ◌++◌, List, ℕ, map, not, codes, slice_get, option_map, IfOk, OnOk, if◌then◌else◌};
ghost use Rattle.std.specs.Fmt.{decimal};
ghost use Rattle.std.specs.List.{filter, flat_map};
ghost use Rattle.annotated_report.specs.Lines as lines;
ghost use Rattle.annotated_report.specs.Report.{section_text, total_text, head_text};

use crate::finding::{Finding, PairLine};
use crate::regions::Regions;
use crate::words::{level_word, missing_text};
use cov_base::{Level, Pos, Region, SourceFile};
use std::alloc::{AllocError, Global};

/// Appends the first lines of a report.
pub(crate) fn put_head(
    alloc: Global,
    text: &mut Vec<u8>,
    level: Level,
    traces: u64,
) -> Result<(), AllocError>
    ensures { OnOk result (text.new.items ≡ text.old.items ++ head_text level traces) }
{
    let level = level_word(level);
    let head = format!(in alloc; "gnatcov report\nlevel: {level}\ntraces: {traces}\n")?;
    text.extend_from_slice(head.as_bytes())
}

/// The name of the file with a number; no bytes where there is none.
fn file_name(files: &[SourceFile], number: u32) -> &[u8]
    ensures { result.now ≡ lines.named (slice_get (map (λ file. file.name) files.now) number) }
{
    match files.get(number as usize) {
        Some(file) => file.name.as_slice(),
        None => &[],
    }
}

/// Appends a place, before what is told of it.
fn put_place(
    alloc: Global,
    text: &mut Vec<u8>,
    files: &[SourceFile],
    pos: Pos,
) -> Result<(), AllocError>
    ensures { OnOk result (text.new.items ≡ text.old.items ++ lines.place_text (map (λ file. file.name) files.now) pos) }
{
    text.extend_from_slice(file_name(files, pos.file))?;
    let Pos { line, col, .. } = pos;
    let place = format!(in alloc; ":{line}:{col}: ")?;
    text.extend_from_slice(place.as_bytes())
}

/// Appends what a finding says, without the end of its line.
fn put_finding(
    alloc: Global,
    text: &mut Vec<u8>,
    files: &[SourceFile],
    finding: Finding,
) -> Result<(), AllocError>
    ensures { OnOk result (text.new.items ≡ text.old.items ++ lines.finding_text (map (λ file. file.name) files.now) finding) }
{
    put_place(alloc, text, files, finding.key.pos)?;
    text.extend_from_slice(missing_text(finding.missing).as_bytes())
}

/// Appends the line of a finding that is not exempt.
fn put_violation(
    alloc: Global,
    text: &mut Vec<u8>,
    files: &[SourceFile],
    finding: Finding,
) -> Result<(), AllocError>
    ensures { OnOk result (text.new.items ≡ text.old.items ++ lines.violation_line (map (λ file. file.name) files.now) finding) }
{
    put_finding(alloc, text, files, finding)?;
    text.extend_from_slice(b"\n")
}

/// Appends where a region begins, before what its pragma says.
fn put_region(alloc: Global, text: &mut Vec<u8>, region: &Region) -> Result<(), AllocError>
    ensures { OnOk result (text.new.items ≡ text.old.items ++ lines.region_text region.now) }
{
    let line = region.from_line;
    let column = region.from_column;
    let place = format!(in alloc; ", exempted at {line}:{column}: ")?;
    text.extend_from_slice(place.as_bytes())
}

/// Appends why a place is exempt: where its region begins, and what that pragma says.
fn put_exemption(
    alloc: Global,
    text: &mut Vec<u8>,
    region: Option<&Region>,
) -> Result<(), AllocError>
    ensures { OnOk result (text.new.items ≡ text.old.items ++ lines.exemption_text (option_map (λ region. region.now) region.entry)) }
{
    match region {
        None => Ok(()),
        Some(region) => {
            put_region(alloc, text, region)?;
            text.extend_from_slice(region.why.as_slice())
        }
    }
}

/// Appends the line of a finding that is exempt.
fn put_exempted(
    alloc: Global,
    text: &mut Vec<u8>,
    files: &[SourceFile],
    regions: &Regions<'_>,
    finding: Finding,
) -> Result<(), AllocError>
    ensures { OnOk result (text.new.items ≡ text.old.items ++ lines.exempted_line (map (λ file. file.name) files.now) regions.now finding) }
{
    put_finding(alloc, text, files, finding)?;
    put_exemption(alloc, text, regions.round(finding.key.pos))?;
    text.extend_from_slice(b"\n")
}

/// Appends the line of a pair.
fn put_pair(
    alloc: Global,
    text: &mut Vec<u8>,
    files: &[SourceFile],
    line: &PairLine,
) -> Result<(), AllocError>
    ensures { OnOk result (text.new.items ≡ text.old.items ++ lines.shown_line (map (λ file. file.name) files.now) line.now) }
{
    put_place(alloc, text, files, line.key.pos)?;
    text.extend_from_slice(line.text.as_slice())?;
    text.extend_from_slice(b"\n")
}

/// Appends how many obligations of a kind are covered, of all.
pub(crate) fn put_total(
    alloc: Global,
    text: &mut Vec<u8>,
    kind: &str,
    covered: usize,
    all: u128,
) -> Result<(), AllocError>
    ensures { OnOk result (text.new.items ≡ text.old.items ++ total_text kind.now covered all) }
{
    let total = format!(in alloc; "{kind}{covered} of {all}\n")?;
    text.extend_from_slice(total.as_bytes())
}

/// Appends the first line of a section: its title, and how many lines follow.
fn put_title(alloc: Global, text: &mut Vec<u8>, title: &str, count: usize) -> Result<(), AllocError>
    ensures { OnOk result (text.new.items ≡ text.old.items ++ (title.now ++ (decimal count ++ codes "\n"))) }
{
    let line = format!(in alloc; "{title}{count}\n")?;
    text.extend_from_slice(line.as_bytes())
}

/// Appends the findings that no region holds: how many they are, and their lines.
pub(crate) fn put_violations(
    alloc: Global,
    text: &mut Vec<u8>,
    files: &[SourceFile],
    findings: &[Finding],
) -> Result<(), AllocError>
    ensures { OnOk result (text.new.items ≡ text.old.items
        ++ section_text (codes "violations: ") (lines.violation_line (map (λ file. file.name) files.now)) findings.now) }
{
    put_title(alloc, text, "violations: ", findings.len())?;
    for finding in findings {
        put_violation(alloc, text, files, *finding)?;
    }
    Ok(())
}

/// Appends the findings that a region holds: how many they are, and their lines.
pub(crate) fn put_all_exempted(
    alloc: Global,
    text: &mut Vec<u8>,
    files: &[SourceFile],
    regions: &Regions<'_>,
    findings: &[Finding],
) -> Result<(), AllocError>
    ensures { OnOk result (text.new.items ≡ text.old.items
        ++ section_text (codes "exempted: ") (lines.exempted_line (map (λ file. file.name) files.now) regions.now) findings.now) }
{
    put_title(alloc, text, "exempted: ", findings.len())?;
    for finding in findings {
        put_exempted(alloc, text, files, regions, *finding)?;
    }
    Ok(())
}

/// Appends the pairs: how many they are, and their lines.
pub(crate) fn put_pairs(
    alloc: Global,
    text: &mut Vec<u8>,
    files: &[SourceFile],
    pairs: &[PairLine],
) -> Result<(), AllocError>
    ensures { OnOk result (text.new.items ≡ text.old.items
        ++ section_text (codes "pairs: ") (lines.shown_line (map (λ file. file.name) files.now)) pairs.now) }
{
    put_title(alloc, text, "pairs: ", pairs.len())?;
    for line in pairs {
        put_pair(alloc, text, files, line)?;
    }
    Ok(())
}

//! Texts as strings of JSON.

ghost use Rattle.std.specs.Prelude.{◌≡◌, ◌≤◌, map, IfOk, IsUtf8, encode_utf8};
ghost use Rattle.serde_json.specs.Data.{string};
ghost use Rattle.serde_json.specs.View.{view};
ghost use Rattle.annotated_report.specs.Shown.{vector_text};
ghost use Rattle.json_report.specs.Caller.{AreNamedInUtf8};

use annotated_report::vector_text;
use cov_base::{Letter, SourceFile, Vector};
use serde_json::Value;
use std::alloc::{AllocError, Global};

/// A text as a string.
pub(crate) fn text_value(alloc: Global, text: &[u8]) -> Result<Value, AllocError>
    requires { IsUtf8 text.now }
    ensures { IfOk result (λ v. view v ≡ string text.now) }
{
    let text = std::str::from_utf8(text).unwrap();
    Value::try_from_str(alloc, text)
}

/// The letter of a decision as a string.
pub(crate) fn letter_value(alloc: Global, letter: Letter) -> Result<Value, AllocError>
    ensures { IfOk result (λ v. view v ≡ string (encode_utf8 letter.0)) }
{
    let mut text = String::new(alloc);
    text.push(char::from(letter.0))?;
    Ok(Value::String(text))
}

/// The text of a vector of so many conditions as a string.
pub(crate) fn vector_value(
    alloc: Global,
    conditions: usize,
    vector: Vector,
) -> Result<Value, AllocError>
    requires { conditions ≤ 32 }
    ensures { IfOk result (λ v. view v ≡ string (vector_text conditions vector)) }
{
    let text = vector_text(alloc, conditions, vector)?;
    text_value(alloc, text.as_slice())
}

/// The names of files as strings.
pub(crate) fn name_values(alloc: Global, files: &[SourceFile]) -> Result<Vec<Value>, AllocError>
    requires { AreNamedInUtf8 files.now }
    ensures { IfOk result (λ vs. map view vs.items ≡ map string (map (λ file. file.name) files.now)) }
{
    let mut values = Vec::new(alloc);
    for file in files {
        values.push(text_value(alloc, file.name.as_slice())?)?;
    }
    Ok(values)
}

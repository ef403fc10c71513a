//! The commands, and which module answers each.

ghost use Rattle.std.specs.Prelude.{◌≡◌};
ghost use Rattle.object_format.specs.Checked.{IsSound};

use crate::blobs::Blobs;
use crate::decisions::Question;
use crate::listed::Form;
use crate::reply::Reply;
use crate::sources::Reading;
use crate::words::split_word;
use crate::{
    consolidated, decisions, generics, images, instructions, listed, lists, objects, pieces, runs,
    sources,
};
use decision_map::{DecisionMap, checked_objects_have_maps};
use generated_images::Draft;
use object_format::{Object, read_object};
use std::alloc::Global;

/// Puts what a line is answered.
pub(crate) fn answer(
    alloc: Global,
    blobs: &mut Blobs,
    draft: &mut Draft,
    out: &mut Reply,
    line: &str,
) {
    let (command, words) = split_word(line);
    if blobs.add_piece(alloc, out, command, words) {
        return;
    }
    out.put(format_args!("{line}\n"));
    match command {
        "" | "#" => {}
        "blob" => blobs.begin(alloc, out, words),
        "image" => images::image(alloc, draft, out, words),
        _ => asked(alloc, blobs, out, command, words),
    }
}

/// Puts what a line that asks is answered.
fn asked(alloc: Global, blobs: &Blobs, out: &mut Reply, command: &str, words: &str) {
    match command {
        "word" => instructions::word(out, words),
        "graph" => decisions::answer(alloc, out, Question::Graph, words),
        "edges" => decisions::answer(alloc, out, Question::Edges, words),
        "pairs" => decisions::answer(alloc, out, Question::Pairs, words),
        "longs" => lists::longs(alloc, out, words),
        "generic" => generics::generic(alloc, out, words),
        "run" | "words" | "fit" | "events" | "covered" | "fitting" | "added" | "rebuilt" => {
            of_object(alloc, blobs, out, command, words);
        }
        _ => {
            let blob = blobs.latest(out);
            of_latest(alloc, out, command, words, blob);
        }
    }
}

/// Puts what a line that asks about the latest blob is answered.
fn of_latest(alloc: Global, out: &mut Reply, command: &str, words: &str, blob: &[u8]) {
    match command {
        "lex" => sources::answer(alloc, out, Reading::Tokens, words, blob),
        "nested" => sources::answer(alloc, out, Reading::Nesting, words, blob),
        "parse" => sources::answer(alloc, out, Reading::Syntax, words, blob),
        "beginnings" => sources::answer(alloc, out, Reading::Beginnings, words, blob),
        "regions" => sources::answer(alloc, out, Reading::Regions, words, blob),
        "exempt" => sources::answer(alloc, out, Reading::Exemption, words, blob),
        "object" => objects::object(alloc, out, blob),
        "input" => objects::input(alloc, out, blob),
        "trace" => runs::trace(out, blob),
        "pieces" => pieces::pieces(alloc, out, words, blob),
        "portion" => pieces::portion(alloc, out, words, blob),
        "consolidated" => consolidated::consolidated(alloc, out, blob),
        "listed" => listed::listed(alloc, out, Form::Listing, words, blob),
        "told" => listed::listed(alloc, out, Form::Json, words, blob),
        _ => out.refuse("no such command"),
    }
}

/// Puts what a line that asks about an object is answered.
fn of_object(alloc: Global, blobs: &Blobs, out: &mut Reply, command: &str, words: &str) {
    let (name, words) = split_word(words);
    match read_object(alloc, blobs.named(out, name)) {
        Ok(object) => of_map(alloc, blobs, out, command, words, &object),
        Err(failure) => out.refuse_file("object", failure),
    }
}

/// The same, where the object is there.
fn of_map(
    alloc: Global,
    blobs: &Blobs,
    out: &mut Reply,
    command: &str,
    words: &str,
    object: &Object,
)
    requires { IsSound object.now }
{
    checked_objects_have_maps();
    match DecisionMap::of(alloc, object) {
        Ok(map) => asked_of_object(alloc, blobs, out, command, words, object, &map),
        Err(_) => out.lack_memory(),
    }
}

/// The same, where its map is there.
fn asked_of_object(
    alloc: Global,
    blobs: &Blobs,
    out: &mut Reply,
    command: &str,
    words: &str,
    object: &Object,
    map: &DecisionMap<'_>,
)
    requires sound { IsSound object.now }
    requires map { map.now ≡ object.now }
{
    if command == "events" {
        runs::events(alloc, blobs, out, object, map, words);
        return;
    }
    if command == "words" {
        objects::words_at(out, map, words);
        return;
    }
    let blob = blobs.latest(out);
    match command {
        "run" => objects::run_on(alloc, out, object, words, blob),
        "fit" => runs::fit(out, map, blob),
        "covered" => consolidated::covered(alloc, out, map, blob),
        "fitting" => pieces::fitting(alloc, out, map, words, blob),
        "added" => pieces::added(alloc, out, object, map, words, blob),
        _ => pieces::rebuilt(alloc, out, map, words, blob),
    }
}

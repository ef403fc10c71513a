//! Condition graphs, and what vectors show of them.
//!
//! | Line | Asks |
//! |---|---|
//! | `graph DECISION` | whether the graph is a tree; where each edge leads, and the path that ends there |
//! | `edges DECISION VECTOR..` | whether paths of the vectors take all edges |
//! | `pairs DECISION VECTOR..` | all of that, each vector's outcome and unmasked conditions, and the least pairs |
//!
//! A decision is written in postfix form: a digit or a capital letter is a condition, `!` is `not`, `&`
//! is `and then`, `|` is `or else`. A vector has a sign for each condition: T, F, or - where it was not
//! evaluated.

ghost use Rattle.std.specs.Prelude.{◌≡◌, ◌<◌, IsTrue, length};
ghost use Rattle.cov_base.specs.Expr.{Expr, IsPostfixOf};
ghost use Rattle.cov_base.specs.Lists.{Everywhere};
ghost use Rattle.cov_base.specs.Path.{IsPathVector};

use crate::reply::Reply;
use crate::words::split_word;
use condition_graph::{Graph, Next};
use cov_base::{Bytes, CondIx, DecisionExpr, Vector};
use mcdc_verdicts::{all_edges, decision, masking, unique_cause};
use std::alloc::Global;

/// What is asked of a decision.
#[derive(Clone, Copy)]
pub(crate) enum Question {
    Graph,
    Edges,
    Pairs,
}

/// Whether the bytes are the postfix bytes of a decision's expression.
fn are_postfix(bytes: &[u8]) -> bool
    ensures { IsTrue result → (e : Expr) × IsPostfixOf bytes.now e }
{
    let mut conditions: u8 = 0;
    let mut operands: u8 = 0;
    let mut negated = false;
    for byte in bytes {
        let byte = *byte;
        if byte == conditions && conditions < 32 {
            conditions += 1;
            operands += 1;
            negated = false;
            continue;
        }
        if byte > 32 && byte < 35 && operands > 1 {
            operands -= 1;
            negated = false;
            continue;
        }
        if byte != 32 || operands == 0 || negated {
            return false;
        }
        negated = true;
    }
    operands == 1
}

/// The postfix byte that a sign stands for.
fn byte_of(sign: u8) -> u8 {
    match sign {
        b'0'..=b'9' => sign - b'0',
        b'A'..=b'V' => sign - b'A' + 10,
        b'!' => 32,
        b'&' => 33,
        _ => 34,
    }
}

/// The graph of the decision that signs spell; none where they spell none, and the line is refused.
fn graph_of(alloc: Global, out: &mut Reply, signs: &str) -> Option<Graph> {
    let mut postfix = Vec::new(alloc);
    for sign in signs.bytes() {
        out.note(postfix.push(byte_of(sign)));
    }
    if !are_postfix(postfix.as_slice()) {
        out.refuse("no decision");
        return None;
    }
    let postfix = Bytes::from(postfix);
    let graph = Graph::of(alloc, &DecisionExpr { postfix });
    if graph.is_err() {
        out.lack_memory();
    }
    graph.ok()
}

/// The vector that a word stands for.
fn vector_of(word: &str) -> Vector {
    let mut v = Vector { seen: 0, value: 0 };
    for (c, mark) in word.bytes().enumerate() {
        if c < 32 && mark != b'-' {
            v.seen |= 1 << c;
            if mark == b'T' {
                v.value |= 1 << c;
            }
        }
    }
    v
}

/// Whether each vector is of a path of the graph.
fn are_paths(graph: &Graph, vectors: &[Vector]) -> bool
    ensures { IsTrue result → Everywhere (IsPathVector graph.now) vectors.now }
{
    for v in vectors {
        if !graph.is_path(*v) {
            return false;
        }
    }
    true
}

/// Puts a sign for each condition.
fn put_vector(out: &mut Reply, graph: &Graph, v: Vector) {
    for c in 0..graph.conditions() as u8 {
        let bit = 1u32.wrapping_shl(u32::from(c));
        out.put(if v.seen & bit == 0 {
            "-"
        } else {
            sign(v.value & bit != 0)
        });
    }
}

/// Puts the two vectors of a pair, or that there is none.
fn put_pair(out: &mut Reply, graph: &Graph, pair: Option<(Vector, Vector)>) {
    match pair {
        None => out.put("none"),
        Some((first, second)) => {
            put_vector(out, graph, first);
            out.put(" ");
            put_vector(out, graph, second);
        }
    }
}

/// The sign of a value.
fn sign(value: bool) -> &'static str {
    if value { "T" } else { "F" }
}

/// Puts where the edge of a node for a value leads, and the path that ends there, and ends the line.
fn put_edge(out: &mut Reply, graph: &Graph, c: u8, value: bool)
    requires { c < length graph.now }
{
    out.put(format_args!("{c} {} to ", sign(value)));
    match graph.next(CondIx(c), value) {
        Next::Node(CondIx(node)) => out.put(node),
        Next::Leaf(outcome) => out.put(sign(outcome)),
    }
    if let Some(path) = graph.path_of_leaf(CondIx(c), value) {
        out.put(", path ");
        put_vector(out, graph, path);
    }
    out.put("\n");
}

/// Whether a graph is a tree, in words.
fn shape(graph: &Graph) -> &'static str {
    if graph.is_tree() { "tree" } else { "no tree" }
}

/// Puts what a graph is.
fn put_graph(out: &mut Reply, graph: &Graph) {
    out.put(format_args!("{}\n", shape(graph)));
    for c in 0..graph.conditions() as u8 {
        put_edge(out, graph, c, false);
        put_edge(out, graph, c, true);
    }
}

/// Whether paths of vectors take all edges, in words.
fn taken(graph: &Graph, vectors: &[Vector]) -> &'static str {
    if all_edges(graph, vectors) {
        "all edges"
    } else {
        "not all edges"
    }
}

/// Puts the outcomes and the unmasked conditions of vectors.
fn put_outcomes(out: &mut Reply, graph: &Graph, vectors: &[Vector])
    requires { Everywhere (IsPathVector graph.now) vectors.now }
{
    out.put("outcomes ");
    for v in vectors {
        out.put(sign(graph.outcome(*v)));
    }
    out.put("\nunmasked");
    for v in vectors {
        out.put(format_args!(" {:x}", graph.unmasked(*v)));
    }
    let given = decision(graph, vectors);
    out.put(format_args!("\ngiven F {} T {}\n", given.given_false, given.given_true));
}

/// Puts the least pairs of each condition, by unique cause and by masking.
fn put_pairs(out: &mut Reply, graph: &Graph, vectors: &[Vector])
    requires { Everywhere (IsPathVector graph.now) vectors.now }
{
    for c in 0..graph.conditions() as u8 {
        out.put(format_args!("{c}: "));
        put_pair(out, graph, unique_cause(graph, vectors, CondIx(c)));
        out.put(", ");
        put_pair(out, graph, masking(graph, vectors, CondIx(c)));
        out.put("\n");
    }
}

/// Puts what vectors show of a decision.
fn put_shown(out: &mut Reply, graph: &Graph, vectors: &[Vector]) {
    if !are_paths(graph, vectors) {
        out.refuse("a vector of no path");
        return;
    }
    out.put(format_args!("{}, {}\n", shape(graph), taken(graph, vectors)));
    put_outcomes(out, graph, vectors);
    put_pairs(out, graph, vectors);
}

/// Puts what a decision is, beside the vectors that words stand for.
fn put_answer(alloc: Global, out: &mut Reply, question: Question, graph: &Graph, words: &str) {
    let mut vectors = Vec::new(alloc);
    for word in words.split_ascii_whitespace() {
        out.note(vectors.push(vector_of(word)));
    }
    match question {
        Question::Graph => put_graph(out, graph),
        Question::Edges => {
            out.put(format_args!("{}\n", taken(graph, vectors.as_slice())));
        }
        Question::Pairs => put_shown(out, graph, vectors.as_slice()),
    }
}

/// Puts what is asked of the decision and the vectors that words stand for.
pub(crate) fn answer(alloc: Global, out: &mut Reply, question: Question, words: &str) {
    let (signs, vectors) = split_word(words);
    if let Some(graph) = graph_of(alloc, out, signs) {
        put_answer(alloc, out, question, &graph, vectors);
    }
}

//! How many nodes a unit has: its tokens but for `( ) , ; : . ' =>`. A count stands still at
//! 2^32 - 1.

ghost use Rattle.std.specs.Prelude.{◌≡◌, ℕ, ◌+◌, sum_by};
ghost use Rattle.ada_syntax.specs.Nodes.{capped};

mod declarations;
mod expressions;
mod statements;
mod units;

pub use units::{body_node_count, item_node_count, node_count};

/// A part of a unit that has nodes.
trait Nodes {
    /// How many, where the count has no end.
    ghost nodes: { Self → ℕ };

    fn nodes(&self) -> u32
        ensures { result ≡ capped (nodes self.now) };
}

/// Two counts together.
fn plus(a: u32, b: u32) -> u32
    ensures { result ≡ capped (a + b) }
{
    a.saturating_add(b)
}

/// As many nodes as a list is long.
fn length_nodes(length: usize) -> u32
    ensures { result ≡ capped length }
{
    u32::try_from(length).unwrap_or(u32::MAX)
}

/// The nodes of parts that stand one after the other.
fn nodes_of_all<T: Nodes>(parts: &[T]) -> u32
    ensures { result ≡ capped (sum_by T.nodes parts.now) }
{
    let mut nodes = 0;
    for part in parts {
        nodes = plus(nodes, part.nodes());
    }
    nodes
}

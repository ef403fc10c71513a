//! How long a command word may be, and how many sources and traces may be named.

ghost use Rattle.std.specs.Prelude.{◌≡◌, true, length, map, nat_le};
ghost use Rattle.std.specs.List.{list_all};
ghost use Rattle.command_words.specs.Task.{AreSources, are_sources, is_count, is_short};

/// At most so many bytes has each command word, not counting the program's name.
const LONGEST_WORD: usize = 4096;

/// At most so many sources are named.
const MOST_SOURCES: usize = 64;

/// At most so many traces are named.
const MOST_TRACES: usize = 4096;

/// Whether a command word is short enough.
pub fn is_short(word: &str) -> bool
    ensures { result ≡ is_short word.now }
{
    word.len() <= LONGEST_WORD
}

/// Whether sources may be named so: there is one, there are not too many, and each name is short.
pub fn are_sources(sources: &[&str]) -> bool
    ensures test { result ≡ are_sources (map (λ source. source.now) sources.now) }
    ensures names { result ≡ true → AreSources (map (λ source. source.now) sources.now) }
{
    is_count(sources.len()) && are_short(sources)
}

/// Whether so many sources may be named.
fn is_count(count: usize) -> bool
    ensures { result ≡ is_count count }
{
    1 <= count && count <= MOST_SOURCES
}

/// Whether each of these names is short.
fn are_short(names: &[&str]) -> bool
    ensures { result ≡ list_all (λ name. is_short name.now) names.now }
{
    names.iter().all(|name| is_short(name))
}

/// Whether so few traces may be named.
pub fn are_few(traces: &[&str]) -> bool
    ensures { result ≡ nat_le (length (map (λ trace. trace.now) traces.now)) 4096 }
{
    traces.len() <= MOST_TRACES
}

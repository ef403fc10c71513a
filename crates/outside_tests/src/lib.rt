//! Tests of files and sinks, of the system and in memory, over a runtime and a writer that falter: what
//! a script over real files can't show.
#![tactic(auto)]

#[cfg(test)]
mod tests;

//! The commands: the line that `clap` reads of each, and the command made of what it finds.

mod compile_line;
mod consolidate_line;
mod coverage_line;
mod run_line;

pub use compile_line::compile;
pub use consolidate_line::consolidate;
pub use coverage_line::coverage;
pub use run_line::run;

//! What an object may depend on beside the names that its files mention: what no list of the compiler's tells.
#![tactic(auto)]

mod arguments;
mod candidates;
mod header_lines;
mod hidden;
mod includes;
mod lacking;
mod laws;
mod macros;
mod precompiled;
mod texts;
mod words;

pub use arguments::unknown_argument;
pub use candidates::precompiled_candidates;
pub use header_lines::foreign_line;
pub use hidden::Hidden;
pub use lacking::lacks_definition;
pub use laws::{
    explained_lines_are_definitions, header_lines_are_worked, written_headers_lack_none,
};
pub use macros::{defining_line, defining_word};
pub use texts::hidden_line;

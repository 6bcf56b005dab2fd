//! What an object was built from: the names in its sources, its dependency file, and the command file that records both.
#![tactic(auto)]

mod building;
mod command_file;
mod dep_error;
mod dependency_file;
mod dialect;
mod found_names;
mod laws;
mod listing;
mod name_iter;
mod object_names;
mod partial_token;
mod pending_macro_args;
mod place_set;
mod placed;
mod prefix_finder;
mod rule;
mod runs;
mod scan;
mod scanner;
mod source_scan;
mod source_table;
mod symbol_patterns;
mod tokens;
mod word_scan;

pub use building::{build, build_from};
pub use command_file::{
    BorrowedCommand, BorrowedDep, BorrowedName, CommandError, CommandFile, Dep, borrow_command,
    command_examples, command_files_fit, command_is_legal, command_texts_read_back,
    further_lines_are_read, push_elsewhere_lines, push_own_lines, read_command, write_command,
};
pub use dep_error::DepError;
pub use dependency_file::{
    BorrowedPrerequisites, Header, Prerequisites, Role, read_depfile, read_depfile_without,
};
pub use dialect::{Phase, ScanRules};
pub use found_names::{BorrowedNames, FoundNames};
pub use laws::{
    dialect_examples, ended_names_are_followed, linux_words_are_at_its_places, names_by_places,
    names_of_a_record, names_of_all_sources, pieces_give_the_whole, recording_examples,
};
pub use listing::{RecordText, record_text};
pub use name_iter::NameIter;
pub use object_names::listed_names;
pub use placed::placed_text;
pub use rule::{rule_text, rules_read_back};
pub use scan::{Found, names};
pub use scanner::{Fed, Scanner};
pub use source_scan::{NamesBySource, SourceScan};
pub use tokens::token_at;

//! Names, kinds and values of Kconfig symbols, and the readers of Kconfig and `.config` texts.
#![tactic(auto)]

mod decimal;
mod dialect;
mod dotconfig;
mod error;
mod kconfig;
mod kinds;
mod laws;
mod limits;
mod line_kinds;
mod names;
mod order;
mod path_runs;
mod seed;
mod settings;
mod statements;
mod symbols;
mod table;
mod titles;
mod values;
mod word_runs;
mod written_values;

pub use decimal::{decimals_read_back, read_decimal, write_decimal};
pub use dialect::{Dialect, Kconfig};
pub use dotconfig::{build_settings, read_dotconfig};
pub use error::SourceError;
pub use kconfig::read_kconfig;
pub use kinds::{Class, Kind, fits, value_is_valid};
pub use laws::{
    agreeing_configurations_are_one, examples_hold, lines_are_the_text, reads_are_texts,
    settings_are_configurations, statements_are_spelled,
};
pub use limits::MAX_BYTES;
pub use names::{
    Legal, Name, OfNames, OfPaths, Path, Rule, name_is_legal, path_bytes_are_path, path_is_legal,
    target_is_legal, word_is_name,
};
pub use path_runs::split_path_bytes;
pub use seed::{Seed, name_text, path_text};
pub use settings::{Entries, Settings, SettingsBuilder};
pub use statements::{Statement, entry_ahead, is_comment_or_blank, parse_statement, split_word};
pub use symbols::Symbols;
pub use table::{Draft, Rows, Table};
pub use titles::{ends_comment, is_title};

//! The texts that a configuration is written as, auto.conf and the C header, and what an auto.conf says when it is read again.
#![tactic(auto)]

mod appending;
mod auto_conf;
mod auto_lines;
mod auto_scan;
mod auto_text;
mod blocks;
mod conf_texts;
mod header;
mod laws;
mod old_config;
mod positions;
mod seen_names;
mod written;

pub use auto_conf::{AutoError, read_auto};
pub use auto_scan::{AutoScan, read_auto_generation};
pub use auto_text::{append_generation, auto_len, write_auto};
pub use conf_texts::read_written;
pub use header::{write_header, write_quoted};
pub use laws::{
    auto_texts_read_back, blocks_are_defined_alike, blocks_are_worked, conf_is_accepted,
    definitions_are_lines, entries_are_defined, examples_are_worked, last_lines_count,
    texts_are_of_entries, written_is_defined_alike, written_is_worked,
};
pub use old_config::{OldConfig, OldEntries};
pub use written::{Written, WrittenError};

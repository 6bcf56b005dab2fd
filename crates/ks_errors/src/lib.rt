//! What each number of an error means, by example, and what to do. The table stands here once: the hint below an error, the text of
//! `confstamp explain` and the table of docs/refusals.md are made of it or compared with it.
#![tactic(auto)]

mod pages;
mod table;

pub use pages::{error_of, known_errors, page_of};
pub use table::{
    BAD_AUTO, BAD_COMMAND, BAD_COMMAND_FILE, BAD_HEADING, BAD_NAME, BAD_PATH, BAD_SCRIPT,
    BAD_STAMP, BAD_TITLE, BAD_VALUE, DEVICE, ERRORS, FOREIGN_LINE, GENERATION_FULL, HIDDEN_INPUT,
    KnownError, MISSING_FILE, MISSING_LINE, MODULE_NAME, MODULE_SYMBOL, NEVER_SYNCED, NO_TARGET,
    NO_TYPE, NOT_A_CONFIG_LINE, NOT_AN_ENTRY, NOT_BARE, OTHER_HEADER, OUT_OF_MEMORY, OUTPUT,
    PRECOMPILED, Row, TOO_LARGE, TWICE, TYPE_CLASH, UNDECLARED, UNDEFINED, UNEXPLAINED,
    UNKNOWN_ARGUMENT,
};

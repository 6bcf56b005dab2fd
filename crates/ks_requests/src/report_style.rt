//! What `diff` prints of the names that differ: as git's, lines alone, lines with a status, or a status alone.

/// What `diff` prints.
#[derive(Clone, Copy, Debug)]
pub enum ReportStyle {
    /// A line for each name that differs. The status doesn't say whether there is one.
    Lines,
    /// The same lines, and a status that says so.
    LinesAndStatus,
    /// That status alone.
    Status,
}

//! Why a call of a writer did nothing.

/// Why a call of a writer took nothing.
#[derive(Clone, Copy, Debug, PartialEq, Eq, Drop)]
pub enum WriteError {
    /// A signal came first. The call is to be made anew.
    Interrupted,
    /// Nobody reads any more what is written.
    NoReader,
    /// Any other failure, and a call that took nothing without saying why.
    Failed,
}

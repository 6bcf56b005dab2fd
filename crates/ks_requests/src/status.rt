//! How a command ended that was not refused as a whole.
ghost use Rattle.std.specs.Prelude.{◌≡◌, ◌≤◌, [], ◌∷◌, None, max};
ghost use Rattle.ks_requests.specs.Statuses.{code_of, stale_among};
ghost use Rattle.ks_requests.specs.declared.status.Status.TheVariants as status;

/// How a command ended.
#[derive(Clone, Copy, Debug, PartialEq, Eq)]
pub enum Status {
    /// It is done, and nothing is stale.
    Done,
    /// Nothing was refused, and some object is stale or was built by another command; or something differs, where that was asked.
    Stale,
    /// Something was refused.
    Refused,
}

/// What is printed to standard error of what was counted.
#[derive(Drop)]
pub enum Count {
    /// How many of all objects are stale.
    Stale {
        /// Those whose answer is a verdict other than fresh. A refused object is none of them.
        stale: usize,
        /// All that were asked about, each as often as it was named.
        all: usize,
    },
    /// The lines about names that no Kconfig declares, a line for each.
    Unknown(Vec<u8>),
    Users {
        /// Those whose record names a symbol that was asked for.
        users: usize,
        /// All that were asked about, each once.
        all: usize,
    },
}

/// What is to be printed of a command, and how it ended.
#[derive(Drop)]
pub struct Outcome {
    /// The whole output: lines, each with its line feed, or nothing.
    pub text: Vec<u8>,
    pub status: Status,
    /// What is printed to standard error, of a command that counts.
    pub count: Option<Count>,
}

impl Outcome {
    /// A text and how the command ended, with nothing that was counted.
    pub fn of(text: Vec<u8>, status: Status) -> Outcome
        ensures text { result.text ≡ text }
        ensures status { result.status ≡ status }
        ensures count { result.count ≡ None }
    {
        Outcome {
            text,
            status,
            count: None,
        }
    }

    /// The text of a command that is done.
    pub fn done(text: Vec<u8>) -> Outcome
        ensures text { result.text ≡ text }
        ensures status { result.status ≡ status.Done }
        ensures count { result.count ≡ None }
    {
        Outcome::of(text, Status::Done)
    }
}

/// The exit status.
pub(crate) fn exit_status(status: Status) -> u8
    ensures { result ≡ code_of status }
{
    match status {
        Status::Done => 0,
        Status::Stale => 1,
        Status::Refused => 2,
    }
}

/// How many are stale of one object with this status: 0 or 1.
pub fn stale_of(status: Status) -> usize
    ensures stale { result ≡ stale_among (code_of status ∷ []) }
    ensures small { result ≤ 1 }
{
    match status {
        Status::Stale => 1,
        Status::Done | Status::Refused => 0,
    }
}

/// The worse of two: what is refused is worse than what is stale.
pub fn worse(status: Status, other: Status) -> Status
    ensures { code_of result ≡ max (code_of status) (code_of other) }
{
    match (status, other) {
        (Status::Refused, _) | (_, Status::Refused) => Status::Refused,
        (Status::Stale, _) | (_, Status::Stale) => Status::Stale,
        _ => Status::Done,
    }
}

//! A command file in the memory of its text. A question about an object needs it once, and has no use for copies of its lines.
ghost use Rattle.std.specs.Prelude.{◌≡◌, IsTrue};
ghost use Rattle.ks_symbols.specs.Names.{is_name};

/// A name that was found in a prerequisite, which is legal.
#[derive(Drop)]
pub struct BorrowedName<'a> {
    pub(crate) bytes: &'a [u8],
    ghost legal: { IsTrue (is_name bytes.now) },
}

impl<'a> BorrowedName<'a> {
    /// These legal bytes.
    pub(crate) fn new(bytes: &'a [u8]) -> BorrowedName<'a>
        requires { IsTrue (is_name bytes.now) }
        ensures { result.bytes.now ≡ bytes.now }
    {
        BorrowedName { bytes }
    }

    pub fn as_bytes(&self) -> &'a [u8]
        ensures value { result.now ≡ self.now.bytes.now }
        ensures legal { IsTrue (is_name result.now) }
    {
        self.bytes
    }
}

/// A prerequisite that stands on a line of its own, or a name that was found in one.
#[derive(Drop)]
pub enum BorrowedDep<'a> {
    File(&'a [u8]),
    Config(BorrowedName<'a>),
}

/// What a command file says.
#[derive(Drop)]
pub struct BorrowedCommand<'a> {
    pub target: &'a [u8],
    pub command: &'a [u8],
    pub source: &'a [u8],
    pub deps: Vec<BorrowedDep<'a>>,
    pub generation: Option<u64>,
}

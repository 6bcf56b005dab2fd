//! A stream of the system: each call is passed on to a writer of std, and its answer is noted. What that answers is all that is
//! known of the system. The kit's own writers say of the bytes that they took how many there were; that they are out is trusted.
ghost use Rattle.std.specs.Prelude.{◌≡◌, false, if◌then◌else◌};
ghost use Rattle.ks_streams.specs.Noted.{noted};
ghost use Rattle.ks_streams.specs.Streams.{state_of};
ghost use Rattle.confstamp.specs.Standard.{fault_of};

use ks_streams::{Notes, Stream, WriteError, Writer};
use std::io;
use std::io::{ErrorKind, Write};

/// The exit status of a command whose output nobody reads: what a shell says of a program that SIGPIPE has ended.
const NO_READER: u8 = 141;

/// A writer of std, with what it has answered.
#[derive(Drop)]
pub(crate) struct Standard<W> {
    writer: W,
    notes: Notes,
}

impl<W: Write> Standard<W> {
    /// A writer that was never called.
    pub(crate) fn new(writer: W) -> Standard<W>
        ensures { noted (W.contents result.writer) result.notes ≡ record { bytes = W.contents writer; is_unread = false; held = false; failures = 0; interruptions = 0 } }
    {
        Standard {
            writer,
            notes: Notes::new(),
        }
    }
}

/// What a failure of std says.
fn fault_of(error: &io::Error) -> WriteError
    ensures { result ≡ fault_of error.now }
{
    match error.kind() {
        ErrorKind::Interrupted => WriteError::Interrupted,
        ErrorKind::BrokenPipe => WriteError::NoReader,
        _ => WriteError::Failed,
    }
}

impl<W: Write> Writer for Standard<W> {
    ghost state = { λ s. noted (W.contents s.writer) s.notes };

    fn write(&mut self, bytes: &[u8]) -> Result<usize, WriteError> {
        match self.writer.write(bytes) {
            // A call that takes nothing would be made for ever.
            Ok(0) => self.notes.refuse(WriteError::Failed),
            Ok(count) => {
                self.notes.took();
                Ok(count)
            }
            Err(error) => self.notes.refuse(fault_of(&error)),
        }
    }

    fn flush(&mut self) -> Result<(), WriteError> {
        match self.writer.flush() {
            Ok(()) => {
                self.notes.saw_out();
                Ok(())
            }
            Err(error) => self.notes.refuse(fault_of(&error)),
        }
    }

    fn is_unread(&self) -> bool {
        self.notes.is_unread()
    }
}

/// The exit status of a command that would have this one: another one where nobody reads its output.
pub(crate) fn exit_status<W: Writer>(out: &Stream<W>, status: u8) -> u8
    ensures { result ≡ (if (state_of W.Writer out.now).is_unread then 141 else status) }
{
    if out.is_unread() { NO_READER } else { status }
}

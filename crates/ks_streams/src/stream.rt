//! A writer to which whole texts are written. A call of a writer may take a part, or be interrupted, and then it is made for the
//! rest, or anew. Without that half a report would be as right as a whole one, and a signal a failure.
//!
//! A reader may go away before all is read, as `head` does once it has its lines. Nothing has failed then: who asked has what was
//! wanted. So what nobody reads counts as taken, and the command goes on to its end.
ghost use Rattle.std.specs.Prelude.{◌≡◌, ◌<◌, ◌≤◌, [], IfOk, IsErrOf, IsTrue, OnOk, false, flat_map, length, take};
ghost use Rattle.ks_streams.specs.declared.write_error.WriteError.{WriteError};
ghost use Rattle.ks_streams.specs.Streams.{Breaks, IsAborted, Prints, Takes, state_of};
ghost use Rattle.ks_streams.specs.Writers.{HasTaken, IsLeft, IsSeenOut};

use crate::{WriteError, Writer};

/// How often a call is made that is interrupted each time.
const TRIES: usize = 1000;

/// A writer of whole texts.
#[derive(Drop)]
pub struct Stream<W> {
    writer: W,
}

impl<W: Writer> Stream<W> {
    /// A stream over a writer, as it stands.
    pub fn new(writer: W) -> Stream<W>
        ensures { state_of W.Writer result ≡ W.state writer }
    {
        Stream { writer }
    }

    /// The writer, as the writes have left it.
    pub fn into_writer(self) -> W
        ensures { W.state result ≡ state_of W.Writer self }
    {
        let Stream { writer } = self;
        writer
    }

    /// Whether a write has found that nobody reads any more.
    pub fn is_unread(&self) -> bool
        ensures { result ≡ (state_of W.Writer self.now).is_unread }
    {
        self.writer.is_unread()
    }

    /// Offers some bytes, anew where a signal comes first, and tells how many were taken.
    fn offer(&mut self, bytes: &[u8]) -> Result<usize, WriteError>
        ensures within { IfOk result (λ n. n ≤ length bytes.now) }
        ensures some { IfOk result (λ n. 0 < length bytes.now → 0 < n) }
        ensures taken { IfOk result (λ n. HasTaken (take n bytes.now) (state_of W.Writer self.old) (state_of W.Writer self.new)) }
        ensures unread { IsErrOf result WriteError.NoReader → IsLeft (state_of W.Writer self.old) (state_of W.Writer self.new) }
        ensures failed { IsErrOf result WriteError.Failed → IsAborted (state_of W.Writer self.old) (state_of W.Writer self.new) }
        ensures interrupted { IsErrOf result WriteError.Interrupted → IsAborted (state_of W.Writer self.old) (state_of W.Writer self.new) }
    {
        for _ in 0..TRIES {
            match self.writer.write(bytes) {
                Ok(count) => return Ok(count),
                Err(WriteError::Interrupted) => {}
                Err(WriteError::NoReader) => return Err(WriteError::NoReader),
                Err(WriteError::Failed) => return Err(WriteError::Failed),
            }
        }
        Err(WriteError::Interrupted)
    }

    /// Has the writer let go what it keeps back, anew where a signal comes first.
    fn let_go(&mut self) -> Result<(), WriteError>
        ensures seen_out { OnOk result (IsSeenOut (state_of W.Writer self.old) (state_of W.Writer self.new)) }
        ensures unread { IsErrOf result WriteError.NoReader → IsLeft (state_of W.Writer self.old) (state_of W.Writer self.new) }
        ensures failed { IsErrOf result WriteError.Failed → IsAborted (state_of W.Writer self.old) (state_of W.Writer self.new) }
        ensures interrupted { IsErrOf result WriteError.Interrupted → IsAborted (state_of W.Writer self.old) (state_of W.Writer self.new) }
    {
        for _ in 0..TRIES {
            match self.writer.flush() {
                Ok(()) => return Ok(()),
                Err(WriteError::Interrupted) => {}
                Err(WriteError::NoReader) => return Err(WriteError::NoReader),
                Err(WriteError::Failed) => return Err(WriteError::Failed),
            }
        }
        Err(WriteError::Interrupted)
    }

    /// Writes some bytes, as many as go out before there is a cause to end, and tells whether all did.
    fn write_part(&mut self, bytes: &[u8]) -> bool
        ensures whole { IsTrue result → Takes bytes.now (state_of W.Writer self.old) (state_of W.Writer self.new) }
        ensures broken { result ≡ false → Breaks bytes.now (state_of W.Writer self.old) (state_of W.Writer self.new) }
    {
        // A pipe may get another reader, who would see a text without its middle.
        if self.is_unread() {
            return true;
        }
        let mut done = 0;
        while done < bytes.len() {
            match self.offer(&bytes[done..]) {
                Ok(count) => done += count,
                Err(WriteError::NoReader) => return true,
                Err(WriteError::Failed) => return false,
                Err(WriteError::Interrupted) => return false,
            }
        }
        true
    }

    /// Writes some texts one after the other, as much as goes out before there is a cause to end, and tells whether all did. They
    /// may be kept back until `see_out`.
    pub fn write(&mut self, parts: &[&[u8]]) -> bool
        ensures whole { IsTrue result → Takes (flat_map (λ p. p.now) parts.now) (state_of W.Writer self.old) (state_of W.Writer self.new) }
        ensures broken { result ≡ false → Breaks (flat_map (λ p. p.now) parts.now) (state_of W.Writer self.old) (state_of W.Writer self.new) }
    {
        for part in parts {
            if !self.write_part(*part) {
                return false;
            }
        }
        true
    }

    /// Sees out what was kept back, and tells whether that was done.
    pub fn see_out(&mut self) -> bool
        ensures whole { IsTrue result → Prints [] (state_of W.Writer self.old) (state_of W.Writer self.new) }
        ensures broken { result ≡ false → Breaks [] (state_of W.Writer self.old) (state_of W.Writer self.new) }
    {
        if self.writer.is_unread() {
            return true;
        }
        match self.let_go() {
            Ok(()) => true,
            Err(WriteError::NoReader) => true,
            Err(WriteError::Failed) => false,
            Err(WriteError::Interrupted) => false,
        }
    }

    /// Writes some texts one after the other and sees them out, as much as goes out before there is a cause to end, and tells
    /// whether all did.
    pub fn print(&mut self, parts: &[&[u8]]) -> bool
        ensures whole { IsTrue result → Prints (flat_map (λ p. p.now) parts.now) (state_of W.Writer self.old) (state_of W.Writer self.new) }
        ensures broken { result ≡ false → Breaks (flat_map (λ p. p.now) parts.now) (state_of W.Writer self.old) (state_of W.Writer self.new) }
    {
        if !self.write(parts) {
            return false;
        }
        self.see_out()
    }
}

//! What a writer notes of the answers to its calls, so that a failure is reported only of a call that failed.
ghost use Rattle.std.specs.Prelude.{◌≡◌, ℕ, IsErrOf, List, Option, false};
ghost use Rattle.std.specs.Io.KnownBytes.{Appends, Keeps};
ghost use Rattle.ks_streams.specs.declared.write_error.WriteError.{WriteError};
ghost use Rattle.ks_streams.specs.Noted.{noted};
ghost use Rattle.ks_streams.specs.Writers.{HasFailed, HasTaken, IsInterrupted, IsLeft, IsSeenOut};

use crate::WriteError;

/// Whether nobody reads any more, whether bytes may be kept back, how many calls have failed, and how many of the latest ones
/// were interrupted.
#[derive(Clone, Copy, Debug, Drop)]
pub struct Notes {
    is_unread: bool,
    held: bool,
    failures: u64,
    interruptions: u64,
}

impl Notes {
    /// The notes of a writer that was never called.
    pub fn new() -> Notes
        ensures { result ≡ record { is_unread = false; held = false; failures = 0; interruptions = 0 } }
    {
        Notes {
            is_unread: false,
            held: false,
            failures: 0,
            interruptions: 0,
        }
    }

    /// Whether a call has found that nobody reads any more.
    pub fn is_unread(&self) -> bool
        ensures { result ≡ self.now.is_unread }
    {
        self.is_unread
    }

    /// A call took some bytes.
    pub fn took(&mut self)
        ensures { (before after : Option (List ℕ)) (text : List ℕ) → Appends before after text → HasTaken text (noted before self.old) (noted after self.new) }
    {
        self.held = true;
        self.interruptions = 0;
    }

    /// A call has let go what was kept back.
    pub fn saw_out(&mut self)
        ensures { (before after : Option (List ℕ)) → Keeps before after → IsSeenOut (noted before self.old) (noted after self.new) }
    {
        self.held = false;
        self.interruptions = 0;
    }

    /// A call did nothing, for a reason, which is its answer.
    pub fn refuse<V>(&mut self, fault: WriteError) -> Result<V, WriteError>
        ensures reported { IsErrOf result fault }
        ensures interrupted { fault ≡ WriteError.Interrupted → (before after : Option (List ℕ)) → Keeps before after → IsInterrupted (noted before self.old) (noted after self.new) }
        ensures unread { fault ≡ WriteError.NoReader → (before after : Option (List ℕ)) → Keeps before after → IsLeft (noted before self.old) (noted after self.new) }
        ensures failed { fault ≡ WriteError.Failed → (before after : Option (List ℕ)) → Keeps before after → HasFailed (noted before self.old) (noted after self.new) }
    {
        match fault {
            WriteError::Interrupted => self.interruptions = self.interruptions.saturating_add(1),
            WriteError::NoReader => {
                self.is_unread = true;
                self.interruptions = 0;
            }
            WriteError::Failed => {
                self.failures = self.failures.saturating_add(1);
                self.interruptions = 0;
            }
        }
        Err(fault)
    }
}

//! A writer of the system, by what each of its calls may do. All that is said of printing stands on this contract alone, so that
//! it holds of a writer in memory whose calls are short, interrupted or fail, and of a descriptor of the system.
ghost use Rattle.std.specs.Prelude.{◌≡◌, ◌<◌, ◌≤◌, IfOk, OnOk, IsErrOf, length, take};
ghost use Rattle.ks_streams.specs.declared.write_error.WriteError.{WriteError};
ghost use Rattle.ks_streams.specs.Writers.{HasFailed, HasTaken, IsInterrupted, IsLeft, IsSeenOut, State};

use crate::WriteError;

/// What takes bytes, some at each call, and may keep them back until it is flushed.
pub trait Writer {
    /// What its calls have come to.
    ghost state: { Self → State };

    /// Takes some of the bytes, the first ones, and tells how many: one at least, where there is one.
    fn write(&mut self, bytes: &[u8]) -> Result<usize, WriteError>
        ensures within { IfOk result (λ n. n ≤ length bytes.now) }
        ensures some { IfOk result (λ n. 0 < length bytes.now → 0 < n) }
        ensures taken { IfOk result (λ n. HasTaken (take n bytes.now) (state self.old) (state self.new)) }
        ensures interrupted { IsErrOf result WriteError.Interrupted → IsInterrupted (state self.old) (state self.new) }
        ensures unread { IsErrOf result WriteError.NoReader → IsLeft (state self.old) (state self.new) }
        ensures failed { IsErrOf result WriteError.Failed → HasFailed (state self.old) (state self.new) };

    /// Lets go what it keeps back.
    fn flush(&mut self) -> Result<(), WriteError>
        ensures seen_out { OnOk result (IsSeenOut (state self.old) (state self.new)) }
        ensures interrupted { IsErrOf result WriteError.Interrupted → IsInterrupted (state self.old) (state self.new) }
        ensures unread { IsErrOf result WriteError.NoReader → IsLeft (state self.old) (state self.new) }
        ensures failed { IsErrOf result WriteError.Failed → HasFailed (state self.old) (state self.new) };

    /// Whether a call has found that nobody reads any more.
    fn is_unread(&self) -> bool
        ensures { result ≡ (state self.now).is_unread };
}

//! A writer in memory whose calls take a part, are interrupted, find no reader or fail, as a script says: what the system may do
//! at any call, for tests. Its contents are what it took.
ghost use Rattle.std.specs.Prelude.{◌≡◌, Some};
ghost use Rattle.ks_streams.specs.Noted.{noted};

use crate::{Notes, WriteError, Writer};

/// What one call does.
#[derive(Clone, Copy, Debug, Drop)]
pub enum Step {
    /// It takes so many bytes at most, and one at least; a flush is done.
    Take(usize),
    /// It takes nothing, for this reason.
    Refuse(WriteError),
}

/// Steps that come in turn, from the first one again after the last. Where there is none each call takes all.
#[derive(Drop)]
struct Script {
    steps: Vec<Step>,
    next: usize,
}

impl Script {
    /// The step of this call.
    fn step(&mut self) -> Step {
        if self.next >= self.steps.len() {
            self.next = 0;
        }
        match self.steps.get(self.next) {
            Some(step) => {
                self.next += 1;
                *step
            }
            None => Step::Take(usize::MAX),
        }
    }
}

/// A writer whose calls go by a script.
#[derive(Drop)]
pub struct Scripted {
    taken: Vec<u8>,
    script: Script,
    notes: Notes,
}

impl Scripted {
    /// A writer that was never called, and takes bytes behind those that are there.
    pub fn new(taken: Vec<u8>, steps: Vec<Step>) -> Scripted
        ensures { result.taken ≡ taken }
    {
        Scripted {
            taken,
            script: Script { steps, next: 0 },
            notes: Notes::new(),
        }
    }

    /// The bytes that it took.
    pub fn into_bytes(self) -> Vec<u8>
        ensures { result ≡ self.taken }
    {
        let Scripted {
            taken,
            script: _,
            notes: _,
        } = self;
        taken
    }
}

impl Writer for Scripted {
    ghost state = { λ s. noted (Some s.taken.items) s.notes };

    /// Memory that is refused is a failure.
    fn write(&mut self, bytes: &[u8]) -> Result<usize, WriteError> {
        let most = match self.script.step() {
            Step::Take(most) => most,
            Step::Refuse(fault) => return self.notes.refuse(fault),
        };
        let count = most.max(1).min(bytes.len());
        match self.taken.extend_from_slice(&bytes[..count]) {
            Ok(()) => {
                self.notes.took();
                Ok(count)
            }
            Err(_) => self.notes.refuse(WriteError::Failed),
        }
    }

    fn flush(&mut self) -> Result<(), WriteError> {
        if let Step::Refuse(fault) = self.script.step() {
            return self.notes.refuse(fault);
        }
        self.notes.saw_out();
        Ok(())
    }

    fn is_unread(&self) -> bool {
        self.notes.is_unread()
    }
}

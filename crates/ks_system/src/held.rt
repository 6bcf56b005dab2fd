//! A reading that is made ahead of the command that needs it: a lock has to look into a script before the script is run, and
//! what runs must be what was looked at. So the reading is held, and given in the place of a second one: for its own path
//! alone, and once.
ghost use Rattle.std.specs.Prelude.{◌≡◌, ◌≢◌, None, Some, IfSome, option_map};

use std::marker::Model;

/// What was found at a path, and `None` is that there was no file.
#[derive(Drop)]
pub(crate) struct HeldReading {
    path: Vec<u8>,
    found: Option<Vec<u8>>,
}

impl Model for HeldReading {
    ghost use Rattle.std.specs.Prelude.{option_map};
    ghost use Rattle.ks_system.specs.Held.{Held};

    ghost Value = { Held };

    ghost view = { λ h. record { path = h.path.items; found = option_map (λ v. v.items) h.found } };
}

impl HeldReading {
    /// What was found at that path.
    pub(crate) fn new(path: Vec<u8>, found: Option<Vec<u8>>) -> HeldReading
        ensures { result ≡ record { path = path.items; found = option_map (λ v. v.items) found } }
    {
        HeldReading { path, found }
    }

    /// Gives up what is held for a path, or `None` where nothing is held for it.
    pub(crate) fn take(held: &mut Option<HeldReading>, path: &[u8]) -> Option<Option<Vec<u8>>>
        ensures given { IfSome result (λ found. held.old ≡ Some (record { path = path.now; found = option_map (λ v. v.items) found })) }
        ensures once { IfSome result (λ _. held.new ≡ None) }
        ensures missed { result ≡ None → IfSome held.old (λ held. held.path ≢ path.now) }
        ensures left { result ≡ None → held.new ≡ held.old }
    {
        match held.take() {
            Some(reading) if reading.path.as_slice() == path => Some(reading.found),
            another => {
                *held = another;
                None
            }
        }
    }
}

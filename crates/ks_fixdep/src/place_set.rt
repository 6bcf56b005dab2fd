//! A set of places in a table, in the order in which they were put in. A name of a table is known by its place, so a set of names
//! is a set of small numbers: to look one up needs no hash, and to clear the set costs nothing, however large the table is. Each
//! place that is in the set points to where it stands among them, and what a place that is not in it points to does not matter.
ghost use Rattle.std.specs.Prelude.{◌≡◌, ◌≤◌, ◌<◌, [], ℕ, IfOk, IfSome, IsTrue, OnOk, OnErr, get_or, length, nat_eq, not};
ghost use Rattle.std.specs.List.{list_any};
ghost use Rattle.ks_fixdep.specs.PlaceSet.{with_place};

use std::alloc::{AllocError, Global};
use std::marker::Model;

/// Places, each once.
#[derive(Drop)]
pub(crate) struct PlaceSet {
    places: Vec<usize>,
    /// For each place of the table where it stands in `places`, if it is there.
    points: Vec<usize>,
}

impl Model for PlaceSet {
    ghost use Rattle.std.specs.Prelude.{List, ℕ};
    ghost use Rattle.ks_fixdep.specs.PlaceSet.{ArePointedAt};

    ghost Value = { List ℕ };

    ghost view = { λ s. s.places.items };

    ghost invariant = { λ s. ArePointedAt s.points.items s.places.items };
}

impl PlaceSet {
    /// No places. It takes no memory.
    pub(crate) fn new(alloc: Global) -> Self
        ensures { result ≡ [] }
    {
        PlaceSet {
            places: Vec::new(alloc),
            points: Vec::new(alloc),
        }
    }

    /// Takes all places out.
    pub(crate) fn clear(&mut self)
        ensures { self.new ≡ [] }
    {
        self.places.clear();
    }

    /// Whether a place is in the set.
    fn contains(&self, place: usize) -> bool
        ensures { result ≡ list_any (nat_eq place) self.now }
    {
        let Some(at) = self.points.get(place) else {
            return false;
        };
        match self.places.get(*at) {
            Some(there) => *there == place,
            None => false,
        }
    }

    /// Puts a place in, if it is not there, and tells whether it was new.
    pub(crate) fn insert(&mut self, place: usize) -> Result<bool, AllocError>
        ensures added { OnOk result (self.new ≡ with_place self.old place) }
        ensures was_new { IfOk result (λ new. new ≡ not (list_any (nat_eq place) self.old)) }
        ensures err { OnErr result (self.new ≡ self.old) }
    {
        if self.contains(place) {
            return Ok(false);
        }
        cover(&mut self.points, place)?;
        let at = self.places.len();
        self.places.push(place)?;
        self.points[place] = at;
        Ok(true)
    }

    /// The place that was put in last.
    pub(crate) fn last(&self) -> Option<usize>
        ensures { IfSome result (λ place. IsTrue (list_any (nat_eq place) self.now)) }
    {
        self.places.last().copied()
    }

    /// The places, in the order in which they were put in.
    pub(crate) fn as_slice(&self) -> &[usize]
        ensures { result.now ≡ self.now }
    {
        &self.places
    }

    /// How many there are.
    pub(crate) fn len(&self) -> usize
        ensures { result ≡ length self.now }
    {
        self.places.len()
    }
}

/// Lengthens a vector until it has this place. What it had stays.
fn cover(points: &mut Vec<usize>, place: usize) -> Result<(), AllocError>
    ensures covered { OnOk result (place < length points.new.items) }
    ensures stays { (i : ℕ) → i < length points.old.items → get_or points.new.items i 0 ≡ get_or points.old.items i 0 }
    ensures longer { length points.old.items ≤ length points.new.items }
{
    while points.len() <= place {
        points.push(0)?;
    }
    Ok(())
}

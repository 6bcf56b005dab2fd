//! The order in which symbols are declared: which one follows on which, by their places in a table.
//!
//! A `.config` has its lines in the order of its Kconfig. So it is known of each line where to look first, and most are found
//! without a search. Nothing rests on that: the name that stands there is compared, and searched for where it is another.
use std::alloc::{AllocError, Global};

/// The first place, and for each place the one that follows.
#[derive(Drop)]
pub(crate) struct Order {
    first: usize,
    following: Vec<usize>,
    last: Option<usize>,
}

impl Order {
    /// No order of so many places yet.
    pub(crate) fn new(alloc: Global, count: usize) -> Result<Order, AllocError> {
        Ok(Order {
            first: 0,
            following: vec![in alloc; 0; count]?,
            last: None,
        })
    }

    /// Notes the next place.
    pub(crate) fn push(&mut self, index: usize) {
        match self.last {
            Some(last) => {
                if let Some(following) = self.following.get_mut(last) {
                    *following = index;
                }
            }
            None => self.first = index,
        }
        self.last = Some(index);
    }

    /// The first place, or 0 where there is none.
    pub(crate) fn first(&self) -> usize {
        self.first
    }

    /// The place after this one.
    pub(crate) fn after(&self, index: usize) -> usize {
        match self.following.get(index) {
            Some(following) => *following,
            None => 0,
        }
    }
}

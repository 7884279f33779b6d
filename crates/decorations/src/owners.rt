//! How many decorations each owner has.

ghost use Rattle.std.specs.Prelude.{◌≡◌, ◌+◌, ◌-◌, ◌^◌, ◌<◌, ◌≤◌, ℕ, [], is_some, min, nat_eq, OnOk};
ghost use Rattle.std.specs.HashMap.{get, spare};
ghost use Rattle.decorations.specs.Owners.{count_in, Tells, Recounts};

use std::alloc::{AllocError, Global};
use std::collections::HashMap;

/// The number of decorations of each owner that has some. An owner that has none takes no place. Only `make_room` allocates.
#[derive(Drop)]
pub(crate) struct Owners {
    counts: HashMap<u64, u64>,
}

impl Owners {
    pub(crate) fn new(alloc: Global) -> Owners
        ensures { Tells result.counts [] }
    {
        Owners {
            counts: HashMap::new(alloc),
        }
    }

    /// Returns whether the owner has decorations.
    pub(crate) fn has(&self, owner: u64) -> bool
        ensures { result ≡ is_some (get nat_eq self.now.counts owner) }
    {
        self.counts.contains_key(&owner)
    }

    /// Makes room for an owner of this many new decorations. On an error, room that was there stays.
    pub(crate) fn make_room(&mut self, added: u64) -> Result<(), AllocError>
        ensures room { OnOk result (min added 1 ≤ spare self.new.counts) }
        ensures counts { (owner : ℕ) → get nat_eq self.new.counts owner ≡ get nat_eq self.old.counts owner }
    {
        self.counts.reserve(added.min(1) as usize)
    }

    /// Changes the number of one owner, which loses some decorations and gains others.
    pub(crate) fn recount(&mut self, owner: u64, removed: u64, added: u64)
        requires room { min added 1 ≤ spare self.old.counts }
        requires removed { removed ≤ count_in self.old.counts owner }
        requires fits { count_in self.old.counts owner - removed + added < 2 ^ 64 }
        ensures { Recounts self.old.counts self.new.counts owner removed added }
    {
        let count = self.count(owner) - removed + added;
        if count == 0 {
            self.counts.remove(&owner);
        } else {
            let put: Result<_, _> = self.counts.insert(owner, count);
            put.unwrap();
        }
    }

    /// Returns the number of decorations of the owner.
    fn count(&self, owner: u64) -> u64
        ensures { result ≡ count_in self.now.counts owner }
    {
        self.counts.get(&owner).copied().unwrap_or(0)
    }
}

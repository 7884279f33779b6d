//! Maps the ids of decorations to their nodes.
ghost use Rattle.std.specs.Prelude.{◌≡◌, [], ◌+◌, ◌<◌, ◌≤◌, Some, None, OnOk, IsSome, MatchResult, count_by, length, take, insert, filter};
ghost use Rattle.interval_deltas.specs.Names.{entry_of, node_of, HasNode, IsById, StandsAt, BelongsAt, is_named};
ghost use Rattle.paged_list.specs.List.{paged};

use crate::halves::Halves;
use paged_list::PagedList;
use raw_arena::{Link, NodeId};
use std::alloc::{AllocError, Global};
use std::cmp::Ordering;
use std::marker::Model;

/// The id and the node of a decoration, in twelve bytes. The node is missing after the decoration was removed.
#[derive(Clone, Copy)]
pub(crate) struct Entry {
    id: Halves,
    node: Link,
}

impl Entry {
    fn of(id: u64, node: Option<NodeId>) -> Entry
        ensures { result ≡ entry_of id node }
    {
        Entry {
            id: Halves::of(id),
            node: Link::of(node),
        }
    }
}

/// Maps ids to nodes. An id above all others is appended and moves no entry. A removal moves none either: it leaves an
/// entry without a node. Once as many entries are without a node as have one, a removal sweeps them out. A sweep passes
/// over the whole list, which is some four steps for each removal since the last sweep, but all of them in this one.
#[derive(Drop)]
pub(crate) struct Names {
    /// Sorted by id.
    entries: PagedList<Entry>,
    /// The number of entries without a node.
    dead: usize,
}

impl Model for Names {
    ghost use Rattle.std.specs.Prelude.{◌≡◌, ◌+◌, ◌-◌, length, count_by};
    ghost use Rattle.interval_deltas.specs.Names.{Named, IsById, is_named};

    ghost Value = { Named };

    ghost view = { λ n. record {
      entries = n.entries.items;
      spare = n.entries.capacity - length n.entries.items;
    } };

    ghost invariant = { λ n. IsById n.entries.items
        × (n.dead + count_by is_named n.entries.items ≡ length n.entries.items) };
}

impl Names {
    pub(crate) fn new(alloc: Global) -> Names
        ensures { result.entries ≡ [] }
    {
        Names {
            entries: PagedList::new(alloc),
            dead: 0,
        }
    }

    /// Makes room for `count` more ids. Fails if memory is short.
    pub(crate) fn reserve(&mut self, count: u64) -> Result<(), AllocError>
        ensures room { OnOk result (count ≤ self.new.spare) }
        ensures same { self.new.entries ≡ self.old.entries }
        ensures kept { self.old.spare ≤ self.new.spare }
    {
        self.entries.reserve(count as usize)
    }

    /// Returns the number of ids with a node.
    pub(crate) fn len(&self) -> usize
        ensures { result ≡ count_by is_named self.now.entries }
    {
        self.entries.len() - self.dead
    }

    /// Returns the node of an id; None if it has none.
    pub(crate) fn find(&self, id: u64) -> Option<NodeId>
        ensures { result ≡ node_of self.now.entries id }
    {
        match search(&self.entries, id) {
            Ok(at) => self.entries.get(at).node.name(),
            Err(_) => None,
        }
    }

    /// Sets the node of an id that has none.
    pub(crate) fn put(&mut self, id: u64, node: NodeId)
        requires room { 0 < self.old.spare }
        requires new { node_of self.old.entries id ≡ None }
        ensures node { HasNode self.old.entries self.new.entries id (Some node) }
        ensures count { count_by is_named self.new.entries
            ≡ count_by is_named self.old.entries + 1 }
        ensures room { self.old.spare ≤ self.new.spare + 1 }
    {
        let entry = Entry::of(id, Some(node));
        match search(&self.entries, id) {
            Ok(at) => {
                self.entries.set(at, entry);
                self.dead -= 1;
            }
            Err(at) => insert_at(&mut self.entries, at, entry),
        }
    }

    /// Removes the node of an id.
    pub(crate) fn forget(&mut self, id: u64)
        requires { IsSome (node_of self.old.entries id) }
        ensures node { HasNode self.old.entries self.new.entries id None }
        ensures count { count_by is_named self.new.entries + 1
            ≡ count_by is_named self.old.entries }
        ensures room { self.old.spare ≤ self.new.spare }
    {
        let Ok(at) = search(&self.entries, id) else {
            return;
        };
        self.entries.set(at, Entry::of(id, None));
        if self.dead < self.entries.len() / 2 {
            self.dead += 1;
        } else {
            sweep(&mut self.entries);
            self.dead = 0;
        }
    }
}

/// Finds the index of the entry of an id; if there is none, Err with the index to insert it at.
fn search(entries: &PagedList<Entry>, id: u64) -> Result<usize, usize>
    requires { IsById entries.now.items }
    ensures { MatchResult result
        (StandsAt entries.now.items id) (BelongsAt entries.now.items id) }
{
    let mut low = 0;
    let mut high = entries.len();
    while low < high {
        let middle = low + (high - low) / 2;
        match entries.get(middle).id.number().cmp(&id) {
            Ordering::Less => low = middle + 1,
            Ordering::Equal => return Ok(middle),
            Ordering::Greater => high = middle,
        }
    }
    Err(low)
}

/// Inserts an entry at index `at`. The entries from `at` on move up by one.
fn insert_at(entries: &mut PagedList<Entry>, at: usize, entry: Entry)
    requires place { at ≤ length entries.old.items }
    requires room { length entries.old.items < entries.old.capacity }
    ensures { entries.new ≡ paged (insert entries.old.items at entry) entries.old.capacity }
{
    let mut moved = entry;
    for place in at..entries.len() {
        let stood = *entries.get(place);
        entries.set(place, moved);
        moved = stood;
    }
    entries.push(moved);
}

/// Removes the entries without a node.
fn sweep(entries: &mut PagedList<Entry>)
    ensures { entries.new ≡ paged (filter is_named entries.old.items) entries.old.capacity }
{
    let kept = gather(entries);
    while kept < entries.len() {
        entries.pop();
    }
}

/// Moves the entries with a node to the front, in their order, and returns their number.
fn gather(entries: &mut PagedList<Entry>) -> usize
    ensures items { take result entries.new.items ≡ filter is_named entries.old.items }
    ensures count { result ≤ length entries.new.items }
    ensures capacity { entries.new.capacity ≡ entries.old.capacity }
{
    let mut kept = 0;
    for at in 0..entries.len() {
        let entry = *entries.get(at);
        if entry.node.name().is_none() {
            continue;
        }
        entries.set(kept, entry);
        kept += 1;
    }
    kept
}

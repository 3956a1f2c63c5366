//! Lists of entries in one array: chains of its places, and a stack of those that are free.
ghost use Rattle.std.specs.Prelude.{◌≡◌, ◌<◌, ◌-◌, ◌+◌, ◌++◌, ◌∷◌, ◌↔◌, [], drop, length};
ghost use Rattle.std.specs.Prelude.{replicate};
ghost use Rattle.std.specs.Prelude.{IfOk, IsOk, IsSome, IsTrue, Some, cond, not, set, slice_get};
ghost use Rattle.std.specs.Prelude.{◌&&◌};
ghost use Rattle.std.specs.Prelude.{slice_index_or, vec_capacity, ℕ, ◌≤◌};
ghost use Rattle.std.specs.List.{find};
ghost use Rattle.memory_count.specs.Faults.{HasCause};
ghost use Rattle.rpc_base.specs.Tables.{without_first};
ghost use Rattle.rpc_base.specs.Least.{least_number};
ghost use Rattle.pacing_wheel.specs.Wheel.{is_entry_of, is_of, number_of};
ghost use Rattle.pacing_wheel.specs.Chains.{chain_of, items_at, link_at, list_at, no_ends};
ghost use Rattle.pacing_wheel.specs.Chains.{table, times, with_last};

use crate::choosing::smaller_of;
use crate::pacer::Paced;
use memory_count::{Memory, NoMemory};
use packet_rings::Entry;
use rpc_base::{Owner, Peer};
use std::marker::Model;

/// An entry, and the place of the one behind it in its chain.
#[derive(Clone, Copy, Debug)]
pub struct Link {
    pub item: Paced,
    pub next: u32,
}

/// Where a chain begins and ends, and how many entries it has.
#[derive(Clone, Copy, Debug)]
pub struct Ends {
    pub first: u32,
    pub last: u32,
    pub len: u32,
}

// What stands in a place that was never used.
const NOTHING: Link = Link {
    item: Paced {
        due: 0,
        entry: Entry {
            owner: Owner::Control,
            number: 0,
            place: None,
            peer: Peer(0),
        },
    },
    next: 0,
};

// A chain of no places.
const NO_ENDS: Ends = Ends {
    first: 0,
    last: 0,
    len: 0,
};

/// Lists of entries in one array.
#[derive(Drop)]
pub struct Chains {
    links: Vec<Link>,
    places: Vec<Ends>,
    free: Vec<u32>,
}

impl Model for Chains {
    ghost use Rattle.std.specs.Prelude.{◌≤◌, length, vec_capacity};
    ghost use Rattle.pacing_wheel.specs.Chains.{Table, Tied, lists_in, table};

    ghost Value = { Table };

    ghost view = { λ c. table (lists_in c.links.items c.places.items) (length c.free.items) };

    ghost invariant = { λ c. Tied c.links.items c.places.items c.free.items
        × (length c.links.items ≤ vec_capacity c.free) };
}

impl Chains {
    /// So many empty lists, with room for `size` entries in all. `NoMemory` comes only where
    /// memory was refused; none of size 0 take none.
    pub fn new(memory: &mut Memory, places: usize, size: u32) -> Result<Chains, NoMemory>
        ensures made { IfOk result (λ c. c ≡ table (replicate places []) size) }
        ensures succeeds { places ≡ 0 → size ≡ 0 → IsOk result }
        ensures cause { HasCause memory.old memory.new result }
    {
        let links = unused_links(memory, size)?;
        let places = empty_lists(memory, places)?;
        let free = all_places(memory, size)?;
        Ok(Chains {
            links,
            places,
            free,
        })
    }

    /// How many lists there are.
    pub fn len(&self) -> usize
        ensures { result ≡ length self.now.lists }
    {
        self.places.len()
    }

    /// How many entries a list has.
    pub fn len_of(&self, place: usize) -> u32
        ensures { result ≡ length (list_at self.now.lists place) }
    {
        ends_at(&self.places, place).len
    }

    /// Puts an entry behind those of list `place`. There is a spare place for it.
    pub fn push(&mut self, place: usize, item: Paced)
        requires place { place < length self.old.lists }
        requires spare { 0 < self.old.spare }
        ensures { self.new ≡ table (with_last place item self.old.lists) (self.old.spare - 1) }
    {
        let Some(k) = self.free.pop() else {
            unreachable!()
        };
        self.links[k as usize] = Link { item, next: k };
        let ends = self.places[place];
        if ends.len == 0 {
            self.places[place] = Ends {
                first: k,
                last: k,
                len: 1,
            };
            return;
        }
        let last = self.links[ends.last as usize];
        self.links[ends.last as usize] = Link { next: k, ..last };
        self.places[place] = Ends {
            first: ends.first,
            last: k,
            len: ends.len + 1,
        };
    }

    /// The first entry of list `place`. None comes exactly where the list is empty.
    pub fn first(&self, place: usize) -> Option<Paced>
        ensures { result ≡ slice_get (list_at self.now.lists place) 0 }
    {
        let ends = ends_at(&self.places, place);
        if ends.len == 0 {
            return None;
        }
        Some(link_at(&self.links, ends.first).item)
    }

    /// Takes the first entry of list `place` out, which isn't empty.
    pub fn pop(&mut self, place: usize) -> Paced
        requires full { 0 < length (list_at self.old.lists place) }
        ensures first { slice_get (list_at self.old.lists place) 0 ≡ Some result }
        ensures rest { self.new ≡ table (set self.old.lists place
            (drop 1 (list_at self.old.lists place))) (self.old.spare + 1) }
    {
        let ends = ends_at(&self.places, place);
        let link = link_at(&self.links, ends.first);
        self.free.push_reserved(ends.first);
        self.places[place] = Ends {
            first: link.next,
            last: ends.last,
            len: ends.len - 1,
        };
        link.item
    }

    /// The first entry of list `place` that is that owner's of this number.
    pub fn first_with(&self, place: usize, owner: &Owner, number: u16) -> Option<Paced>
        ensures { result
            ≡ find (is_entry_of owner.now number) (list_at self.now.lists place) }
    {
        found_from(&self.links, ends_at(&self.places, place), owner, number)
    }

    /// The least number among that owner's entries of list `place`.
    pub fn least(&self, place: usize, owner: &Owner) -> Option<u16>
        ensures { result
            ≡ least_number (is_of owner.now) number_of (list_at self.now.lists place) }
    {
        least_from(&self.links, ends_at(&self.places, place), owner)
    }

    /// Drops the first entry of list `place` that is that owner's of this number. The others keep
    /// their order: the list is turned round once without it.
    pub fn drop_with(&mut self, place: usize, owner: &Owner, number: u16)
        requires found { IsSome (find (is_entry_of owner.now number)
            (list_at self.old.lists place)) }
        ensures { self.new ≡ table (set self.old.lists place (without_first
            (is_entry_of owner.now number) (list_at self.old.lists place))) (self.old.spare + 1) }
    {
        let mut dropped = false;
        let mut left = self.len_of(place);
        while left > 0 {
            let item = self.pop(place);
            if leaves(&item, owner, number, dropped) {
                dropped = true;
            } else {
                self.push(place, item);
            }
            left -= 1;
        }
    }
}

// Whether an entry is that owner's of this number.
fn is_entry(item: &Paced, owner: &Owner, number: u16) -> bool
    ensures { result ≡ is_entry_of owner.now number item.now }
{
    item.entry.owner.is_same(*owner) && item.entry.number == number
}

// Whether it is the one that is dropped, as none was yet.
fn leaves(item: &Paced, owner: &Owner, number: u16, dropped: bool) -> bool
    ensures { result ≡ (not dropped && is_entry_of owner.now number item.now) }
{
    !dropped && is_entry(item, owner, number)
}

// Whether an entry is that owner's.
fn is_owned(item: &Paced, owner: &Owner) -> bool
    ensures { result ≡ is_of owner.now item.now }
{
    item.entry.owner.is_same(*owner)
}

fn number_in(item: &Paced) -> u16
    ensures { result ≡ number_of item.now }
{
    item.entry.number
}

// An array of this size.
fn unused_links(memory: &mut Memory, size: u32) -> Result<Vec<Link>, NoMemory>
    ensures made { IfOk result (λ links. length links.items ≡ size) }
    ensures succeeds { size ≡ 0 → IsOk result }
    ensures cause { HasCause memory.old memory.new result }
{
    let mut links = memory.list(size as usize)?;
    for _k in 0..size {
        links.push_reserved(NOTHING);
    }
    Ok(links)
}

// The ends of so many empty lists.
fn empty_lists(memory: &mut Memory, count: usize) -> Result<Vec<Ends>, NoMemory>
    ensures made { IfOk result (λ places. places.items ≡ replicate count no_ends) }
    ensures succeeds { count ≡ 0 → IsOk result }
    ensures cause { HasCause memory.old memory.new result }
{
    let mut places = memory.list(count)?;
    for _i in 0..count {
        places.push_reserved(NO_ENDS);
    }
    Ok(places)
}

// Each place of an array of this size, once.
fn all_places(memory: &mut Memory, size: u32) -> Result<Vec<u32>, NoMemory>
    ensures made { IfOk result (λ free. length free.items ≡ size) }
    ensures once { IfOk result (λ free. (k : ℕ) → times k free.items ≤ 1) }
    ensures inside { IfOk result (λ free. (k : ℕ) → 0 < times k free.items → k < size) }
    ensures room { IfOk result (λ free. size ≤ vec_capacity free) }
    ensures succeeds { size ≡ 0 → IsOk result }
    ensures cause { HasCause memory.old memory.new result }
{
    let mut free = memory.list(size as usize)?;
    for k in 0..size {
        free.push_reserved(k);
    }
    Ok(free)
}

// What the array has at a place.
fn link_at(links: &Vec<Link>, k: u32) -> Link
    ensures { result ≡ link_at links.now.items k }
{
    match links.get(k as usize) {
        Some(link) => *link,
        None => NOTHING,
    }
}

// The ends of a list.
fn ends_at(places: &Vec<Ends>, place: usize) -> Ends
    ensures { result ≡ slice_index_or places.now.items place no_ends }
{
    match places.get(place) {
        Some(ends) => *ends,
        None => NO_ENDS,
    }
}

// The first entry of a chain that is that owner's of this number.
fn found_from(links: &Vec<Link>, ends: Ends, owner: &Owner, number: u16) -> Option<Paced>
    ensures { result ≡ find (is_entry_of owner.now number)
        (items_at links.now.items (chain_of links.now.items ends)) }
{
    let mut place = ends.first;
    let mut left = ends.len;
    while left > 0 {
        let link = link_at(links, place);
        if is_entry(&link.item, owner, number) {
            return Some(link.item);
        }
        place = link.next;
        left -= 1;
    }
    None
}

// The least number among that owner's entries of a chain.
fn least_from(links: &Vec<Link>, ends: Ends, owner: &Owner) -> Option<u16>
    ensures { result ≡ least_number (is_of owner.now) number_of
        (items_at links.now.items (chain_of links.now.items ends)) }
{
    let mut least = None;
    let mut place = ends.first;
    let mut left = ends.len;
    while left > 0 {
        let link = link_at(links, place);
        if is_owned(&link.item, owner) {
            least = Some(smaller_of(number_in(&link.item), least));
        }
        place = link.next;
        left -= 1;
    }
    least
}

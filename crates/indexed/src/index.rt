// An index: which numbers stand in a column, and at which places, in order.
ghost use Rattle.std.specs.Prelude.{◌≡◌, ℕ, ◌+◌, ◌<◌, ◌≤◌, true, false, not, ◌&&◌, ◌||◌, [], ℤ, IfOk, vec_len, vec_capacity};
ghost use Rattle.std.specs.Ordering.{int_eq};
ghost use Rattle.indexed.specs.Index.{ascending, lists, renumbered, same_pair, Splits, LowestListed};

use crate::entries::Entry;
use std::alloc::{AllocError, Global};

// The entries in their order. A sorted `Vec`, and no map: its memory is got at the start, so that listing an
// entry cannot fail, as it can in a map, which takes memory at each change.
#[derive(Drop)]
pub struct Index {
    entries: Vec<Entry>,
    ghost ordered: { ascending entries.items ≡ true },
}

// A change says apart what it lists, how many entries there are then and that the room stays: the first two
// differ from change to change, and a word for all three would only be taken apart again.
impl Index {
    // Nothing is listed, and there is room for this many entries.
    pub(crate) fn new(heap: Global, room: usize) -> Result<Index, AllocError>
        ensures { IfOk result (λ i. (i.entries.items ≡ []) × (room ≤ vec_capacity i.entries)) }
    {
        Ok(Index {
            entries: Vec::with_capacity(heap, room)?,
        })
    }

    // How many entries come before the one given.
    fn position(&self, entry: Entry) -> usize
        ensures { Splits self.now.entries.items entry.number entry.place result }
    {
        self.entries.partition_point(|listed| *listed < entry)
    }

    // The lowest place at or after `from` that is listed with the number.
    pub(crate) fn lowest(&self, number: i32, from: u32) -> Option<u32>
        ensures { LowestListed (lists self.now.entries.items number) from result }
    {
        let at = self.position(Entry {
            number,
            place: from,
        });
        // A `match`: through `filter` and `map` the outcomes were not proved.
        match self.entries.get(at) {
            Some(entry) if entry.number == number => Some(entry.place),
            _ => None,
        }
    }

    // Lists an entry that is not listed yet, where there is room for one more.
    pub(crate) fn insert(&mut self, entry: Entry)
        requires room { vec_len self.old.entries < vec_capacity self.old.entries }
        requires absent { lists self.old.entries.items entry.number entry.place ≡ false }
        ensures listed { (n : ℤ) (p : ℕ) → lists self.new.entries.items n p ≡ (lists self.old.entries.items n p || same_pair entry.number entry.place n p) }
        ensures len { vec_len self.new.entries ≡ vec_len self.old.entries + 1 }
        ensures room { vec_capacity self.new.entries ≡ vec_capacity self.old.entries }
    {
        let at = self.position(entry);
        let _ = self.entries.insert(at, entry);
    }

    // Takes an entry out that is listed.
    pub(crate) fn remove(&mut self, entry: Entry)
        requires { lists self.old.entries.items entry.number entry.place ≡ true }
        ensures listed { (n : ℤ) (p : ℕ) → lists self.new.entries.items n p ≡ (lists self.old.entries.items n p && not (same_pair entry.number entry.place n p)) }
        ensures len { vec_len self.new.entries + 1 ≡ vec_len self.old.entries }
        ensures room { vec_capacity self.new.entries ≡ vec_capacity self.old.entries }
    {
        let at = self.position(entry);
        self.entries.remove(at);
    }

    // Lists another number with the entry's place, in place of the entry.
    pub(crate) fn renumber(&mut self, entry: Entry, number: i32)
        requires listed { lists self.old.entries.items entry.number entry.place ≡ true }
        requires absent { int_eq entry.number number ≡ false → lists self.old.entries.items number entry.place ≡ false }
        ensures listed { (n : ℤ) (p : ℕ) → lists self.new.entries.items n p ≡ renumbered self.old.entries.items entry.place entry.number number n p }
        ensures len { vec_len self.new.entries ≡ vec_len self.old.entries }
        ensures room { vec_capacity self.new.entries ≡ vec_capacity self.old.entries }
    {
        if entry.number != number {
            self.remove(entry);
            self.insert(Entry {
                number,
                place: entry.place,
            });
        }
    }

    // Takes the entry `gap` out, and moves the number of the entry `last` to its place. Where the two are
    // one, nothing moves.
    pub(crate) fn close_gap(&mut self, gap: Entry, last: Entry)
        requires listed { lists self.old.entries.items gap.number gap.place ≡ true }
        requires absent { int_eq gap.number last.number ≡ false → lists self.old.entries.items last.number gap.place ≡ false }
        requires moves { renumbered self.old.entries.items gap.place gap.number last.number last.number last.place ≡ true }
        ensures listed { (n : ℤ) (p : ℕ) → lists self.new.entries.items n p ≡ (renumbered self.old.entries.items gap.place gap.number last.number n p && not (same_pair last.number last.place n p)) }
        ensures len { vec_len self.new.entries + 1 ≡ vec_len self.old.entries }
        ensures room { vec_capacity self.new.entries ≡ vec_capacity self.old.entries }
    {
        self.renumber(gap, last.number);
        self.remove(last);
    }
}

// The one list: entries of any kind, in borrowed memory.
ghost use Rattle.std.specs.Prelude.{◌≡◌, [], ◌∷◌, ◌++◌, length, slice_set, MatchOption, MatchResult};
ghost use Rattle.std.specs.List.{slice_get, remove};
ghost use Rattle.rows.specs.Lists.{memory, lender, most, entries, room_for, NowHas};

// How many entries a list has at most, however much memory there is.
pub const MOST_ENTRIES: usize = 65_535;

// The first `count` slots are the entries. The memory is the caller's, got once at the start: hence a slice
// with a count beside it, and no `Vec`.
#[derive(Drop)]
pub struct List<'a, E> {
    slots: &'a mut [E],
    count: usize,
}

impl<'a, E: Copy> List<'a, E> {
    // The list with no entry, in this memory, which keeps what it held.
    pub fn new(slots: &'a mut [E]) -> List<'a, E>
        ensures holds { entries result ≡ [] }
        ensures memory { memory result ≡ slots.old }
        ensures lent { lender result ≡ slots.entry.ghost_name }
    {
        List { slots, count: 0 }
    }

    // How many entries there is room for.
    pub fn capacity(&self) -> usize
        ensures { result ≡ most self.now }
    {
        self.slots.len().min(MOST_ENTRIES)
    }

    // How many entries there are.
    pub fn len(&self) -> usize
        ensures { result ≡ length (entries self.now) }
    {
        self.count.min(self.capacity())
    }

    // The entries, in order.
    pub fn as_slice(&self) -> &[E]
        ensures { result.now ≡ entries self.now }
    {
        &self.slots[..self.len()]
    }

    // The entry at a place.
    pub fn get(&self, place: usize) -> Option<E>
        ensures { result ≡ slice_get (entries self.now) place }
    {
        self.as_slice().get(place).copied()
    }

    // Adds an entry at the end. Where there is no room it gives the entry back and changes nothing.
    pub fn push(&mut self, entry: E) -> Result<(), E>
        ensures value { result ≡ room_for self.old entry }
        ensures after { MatchResult result (λ _. NowHas self.old self.new (entries self.old ++ entry ∷ [])) (λ _. self.new ≡ self.old) }
    {
        let len = self.len();
        if len >= self.capacity() {
            return Err(entry);
        }
        self.slots[len] = entry;
        self.count = len + 1;
        Ok(())
    }

    // Puts an entry in the place of another, which it gives back. Where there is none it changes nothing.
    pub fn set(&mut self, place: usize, entry: E) -> Option<E>
        ensures value { result ≡ slice_get (entries self.old) place }
        ensures after { MatchOption result (self.new ≡ self.old) (λ _. NowHas self.old self.new (slice_set (entries self.old) place entry)) }
    {
        if place >= self.len() {
            return None;
        }
        let before = self.slots[place];
        self.slots[place] = entry;
        Some(before)
    }

    // Takes an entry out and gives it back, and moves those behind it up by one place. Where there is
    // none it changes nothing.
    pub fn remove(&mut self, place: usize) -> Option<E>
        ensures value { result ≡ slice_get (entries self.old) place }
        ensures after { MatchOption result (self.new ≡ self.old) (λ _. NowHas self.old self.new (remove (entries self.old) place)) }
    {
        let taken = self.get(place)?;
        let len = self.len();
        self.slots.copy_within(place + 1..len, place);
        self.count = len - 1;
        Some(taken)
    }
}

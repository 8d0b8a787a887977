ghost use Rattle.std.specs.Prelude.{◌≡◌, ℕ, false, true, List, [], ◌∷◌, slice_index_or, slice_set};
ghost use Rattle.frames.specs.Contents.{has};
ghost use Rattle.frames.specs.Ids.{Holds};

/// A set of ids, by a flag for each byte, since there is no heap.
#[derive(Clone, Copy, Debug, PartialEq, Eq)]
pub struct IdSet {
    pub flags: [bool; 256],
}

impl IdSet {
    /// The set that holds nothing.
    pub fn new() -> IdSet
        ensures { Holds result [] }
    {
        IdSet {
            flags: [false; 256],
        }
    }

    /// Whether an id is held.
    pub fn has(&self, id: u8) -> bool
        ensures flag { result ≡ slice_index_or self.now.flags id false }
        ensures held { (ids : List ℕ) → Holds self.now ids → result ≡ has id ids }
    {
        self.flags[id as usize]
    }

    /// Takes an id into the set.
    pub fn add(&mut self, id: u8)
        ensures flags { self.new.flags ≡ slice_set self.old.flags id true }
        ensures held { (ids : List ℕ) → Holds self.old ids → Holds self.new (id ∷ ids) }
    {
        self.flags[id as usize] = true;
    }
}

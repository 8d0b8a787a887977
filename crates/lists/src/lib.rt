#![tactic(auto)]

ghost use Rattle.std.specs.Prelude.{◌≡◌, ℕ, true, ◌+◌, ◌-◌, ◌<◌, ◌≤◌, ◌||◌, [], ◌∷◌, ◌++◌, length, take, drop, insert, if◌then◌else◌, is_ok, OnOk, Decides, ◌==◌, nat_le, nat_lt};
ghost use Rattle.frames.specs.Contents.{has, ids_of};
ghost use Rattle.frames.specs.Ids.{Holds};
ghost use Rattle.history.specs.Histories.{Begins};
ghost use Rattle.lists.specs.Tables.{room, held, holding, empty, inserted, with_entry, with_part, without, staying, AscendsStill, KeepsAscending, Unflagged, LeavesMarked};

mod exact;

pub use exact::Exact;
use frames::{Entry, IdSet};

/// How many entries a table holds at most: fifteen for each of seven boxes.
pub const ENTRIES: usize = 105;

/// Whether `short` stands at the front of `long`.
pub fn begins<T: Exact>(short: &[T], long: &[T]) -> bool
    ensures { Decides result (Begins short.now long.now) }
{
    // not `starts_with`, whose comparison of parts takes half as long again
    short.len() <= long.len() && short.iter().zip(long).all(|(a, b)| a == b)
}

/// A table that would hold more entries than it has room for.
#[derive(Clone, Copy, Debug, PartialEq, Eq)]
pub struct TableFull;

/// A fixed table: it holds the first `count` of its items. It is a plain value with public fields, which may hold anything:
/// whether the count fits is tested, not kept.
#[derive(Clone, Copy, Debug, PartialEq, Eq)]
pub struct Entries {
    pub items: [Entry; ENTRIES],
    pub count: u8,
}

impl Entries {
    /// A table that holds nothing.
    pub fn new() -> Entries
        ensures table { result ≡ empty }
        ensures meaning { held result ≡ [] }
    {
        Entries {
            items: [Entry {
                id: 0,
                body: [0; 8],
            }; ENTRIES],
            count: 0,
        }
    }

    /// Whether the count is one that a table can have.
    pub fn fits(&self) -> bool
        ensures { result ≡ nat_le self.now.count room }
    {
        self.count as usize <= ENTRIES
    }

    /// What the table holds; all its items where the count is past them.
    pub fn part(&self) -> &[Entry]
        ensures { result.now ≡ held self.now }
    {
        let n = self.count as usize;
        self.items.get(..n).unwrap_or(&self.items)
    }

    /// Whether an entry of this id is held.
    pub fn has_id(&self, id: u8) -> bool
        ensures { result ≡ has id (ids_of (held self.now)) }
    {
        self.part().iter().any(|e| id == e.id)
    }

    /// The ids that are held.
    pub fn ids(&self) -> IdSet
        ensures { Holds result (ids_of (held self.now)) }
    {
        let mut ids = IdSet::new();
        for e in self.part() {
            ids.add(e.id);
        }
        ids
    }

    /// Puts `e` before the first entry with a greater id.
    pub fn insert(&mut self, e: Entry) -> Result<(), TableFull>
        ensures answer { is_ok result ≡ nat_lt self.old.count room }
        ensures table { self.new ≡ (if is_ok result then with_entry e self.old else self.old) }
        ensures meaning { held self.new ≡ (if is_ok result then inserted e (held self.old) else held self.old) }
        ensures ascends { AscendsStill e (held self.old) (held self.new) }
        ensures ids { OnOk result ((i : ℕ) → has i (ids_of (held self.new)) ≡ (i == e.id || has i (ids_of (held self.old)))) }
        ensures room { length (held self.old) < room → is_ok result ≡ true }
    {
        let count = self.count as usize;
        if count >= ENTRIES {
            return Err(TableFull);
        }
        let place = place_of(self.part(), e);
        insert_at(&mut self.items[..count + 1], place, e);
        self.count += 1;
        Ok(())
    }

    /// The entries whose ids are gone leave, and the others stay in their order. A table whose count does not fit stays.
    pub fn leave(&mut self, gone: &IdSet)
        ensures table { self.new ≡ without gone.now.flags self.old }
        ensures meaning { self.old.count ≤ room → held self.new ≡ staying gone.now.flags (held self.old) }
        ensures ascends { KeepsAscending (held self.old) (held self.new) }
        ensures ids { self.old.count ≤ room → Unflagged gone.now.flags (held self.old) (held self.new) }
        ensures marked { self.old.count ≤ room → LeavesMarked gone.now.flags (held self.old) (held self.new) }
    {
        if !self.fits() {
            return;
        }
        let mut kept = 0;
        // by places, since each entry that stays moves straight to its final one
        for k in 0..self.count as usize {
            let e = self.items[k];
            if !gone.has(e.id) {
                self.items[kept] = e;
                kept += 1;
            }
        }
        self.count = kept as u8;
    }

    /// Holds `part` in place of what it held.
    pub fn copy_from(&mut self, part: &[Entry]) -> Result<(), TableFull>
        ensures answer { is_ok result ≡ nat_le (length part.now) room }
        ensures table { self.new ≡ (if is_ok result then holding part.now self.old else self.old) }
        ensures meaning { held self.new ≡ (if is_ok result then part.now else held self.old) }
    {
        let n = part.len();
        if n > ENTRIES {
            return Err(TableFull);
        }
        self.items[..n].copy_from_slice(part);
        self.count = n as u8;
        Ok(())
    }

    /// Holds `part` after what it held.
    pub fn extend(&mut self, part: &[Entry]) -> Result<(), TableFull>
        ensures answer { is_ok result ≡ nat_le (self.old.count + length part.now) room }
        ensures table { self.new ≡ (if is_ok result then with_part part.now self.old else self.old) }
        ensures meaning { held self.new ≡ (if is_ok result then held self.old ++ part.now else held self.old) }
        ensures room { self.old.count ≤ room → length (held self.old) + length part.now ≤ room → is_ok result ≡ true }
    {
        let count = self.count as usize;
        let end = count + part.len();
        if end > ENTRIES {
            return Err(TableFull);
        }
        self.items[count..end].copy_from_slice(part);
        self.count = end as u8;
        Ok(())
    }
}

/// Where `e` goes among entries: before the first one with a greater id, sought in order, since the ids need not ascend.
fn place_of(entries: &[Entry], e: Entry) -> usize
    ensures within { result ≤ length entries.now }
    ensures place { inserted e entries.now ≡ take result entries.now ++ e ∷ drop result entries.now }
{
    entries
        .iter()
        .position(|x| e.id < x.id)
        .unwrap_or(entries.len())
}

/// Puts `e` at `place`: the later ones move up by one, and the last one falls out.
fn insert_at(items: &mut [Entry], place: usize, e: Entry)
    requires { place < length items.old }
    ensures { items.new ≡ insert (take (length items.old - 1) items.old) place e }
{
    items[place..].rotate_right(1);
    items[place] = e;
}

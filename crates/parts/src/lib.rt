#![tactic(auto)]

ghost use Rattle.std.specs.Prelude.{◌≡◌, ℕ, ◌+◌, ◌*◌, ◌/◌, ◌<◌, ◌≤◌, List, ◌∷◌, length, Some};
ghost use Rattle.std.specs.Iterator.{YieldsFirst, item_count};
ghost use Rattle.std.specs.List.{flat_map, AllByRecursion, slice_get};
ghost use Rattle.std.specs.Option.{option_map};
ghost use Rattle.frames.specs.Contents.{Whole, entry_bytes, decision_bytes};
ghost use Rattle.frames.specs.Reading.{entry_in};
ghost use Rattle.parts.specs.Going.{entry_at, split_as, decision_at, parted, entries_of, decisions_of};
ghost use Rattle.frames.specs.declared.Entry.{Entry as AnEntry};

use frames::Entry;
use std::marker::Model;

/// The entries of the first of some decisions, and the further decisions.
#[derive(Clone, Copy, Debug, PartialEq, Eq)]
pub struct Split<'a> {
    pub first: &'a [u8],
    pub rest: &'a [u8],
}

/// The entries in the bytes of entries, seen as the list of those that are left.
#[derive(Debug, Drop)]
pub struct EntriesIn<'a> {
    part: &'a [u8],
}

/// The decisions in the bytes of decisions, each as its entries, seen as the list of those that are left.
#[derive(Debug, Drop)]
pub struct DecisionsIn<'a> {
    decisions: &'a [u8],
}

impl<'a> Model for EntriesIn<'a> {
    ghost use Rattle.std.specs.Prelude.{List};
    ghost use Rattle.frames.specs.declared.Entry.{Entry as AnEntry};
    ghost use Rattle.parts.specs.Going.{entries_of};

    ghost Value = { List AnEntry };

    ghost view = { λ s. entries_of s.part.now };
}

impl<'a> Model for DecisionsIn<'a> {
    ghost use Rattle.std.specs.Prelude.{List};
    ghost use Rattle.frames.specs.declared.Entry.{Entry as AnEntry};
    ghost use Rattle.parts.specs.Going.{decisions_of};

    ghost Value = { List (List AnEntry) };

    ghost view = { λ s. decisions_of s.decisions.now };
}

impl<'a> EntriesIn<'a> {
    /// Goes through the entries in the bytes of entries.
    #[tactic(auto, using(crate::proofs::At::entries_held))]
    pub fn new(part: &'a [u8]) -> EntriesIn<'a>
        ensures value { result ≡ entries_of part.now }
        ensures entries { (es : List AnEntry) → AllByRecursion Whole es → part.now ≡ flat_map entry_bytes es → result ≡ es }
    {
        EntriesIn { part }
    }

    /// The bytes of the entries that are left.
    pub fn as_bytes(&self) -> &'a [u8]
        ensures { entries_of result.now ≡ self.now }
    {
        self.part
    }
}

impl<'a> Iterator for EntriesIn<'a> {
    type Item = Entry;

    ghost next_gives = { YieldsFirst (λ entries. entries) };

    ghost remaining = { item_count (λ entries. entries) };

    #[tactic(auto, using(crate::proofs::At::entries_more))]
    fn next(&mut self) -> Option<Entry> {
        let (first, rest) = self.as_bytes().split_first_chunk()?;
        *self = EntriesIn::new(rest);
        Some(entry_of(first))
    }
}

impl<'a> DecisionsIn<'a> {
    /// Goes through the decisions in the bytes of decisions.
    #[tactic(auto, using(crate::proofs::Splits::decisions_held))]
    pub fn new(decisions: &'a [u8]) -> DecisionsIn<'a>
        ensures value { result ≡ decisions_of decisions.now }
        ensures decisions { (ds : List (List AnEntry)) → AllByRecursion (AllByRecursion Whole) ds → decisions.now ≡ flat_map decision_bytes ds → result ≡ ds }
    {
        DecisionsIn { decisions }
    }
}

impl<'a> Iterator for DecisionsIn<'a> {
    type Item = EntriesIn<'a>;

    ghost next_gives = { YieldsFirst (λ decisions. decisions) };

    ghost remaining = { item_count (λ decisions. decisions) };

    fn next(&mut self) -> Option<EntriesIn<'a>> {
        let split = first_decision(self.decisions)?;
        self.decisions = split.rest;
        Some(EntriesIn::new(split.first))
    }
}

/// The entry of nine bytes.
fn entry_of(bytes: &[u8; 9]) -> Entry
    ensures { result ≡ entry_in bytes.now }
{
    // a pattern that binds the body as an array is not proved
    let mut body = [0; 8];
    body.copy_from_slice(&bytes[1..]);
    Entry { id: bytes[0], body }
}

/// How many entries there are in the bytes of entries.
#[tactic(auto, using(crate::proofs::At::count_of))]
pub fn entry_count(part: &[u8]) -> usize
    ensures value { result ≡ length part.now / 9 }
    ensures entries { (es : List AnEntry) → AllByRecursion Whole es → part.now ≡ flat_map entry_bytes es → result ≡ length es }
{
    part.len() / 9
}

/// Entry `i` of the bytes of entries.
pub fn entry_at(part: &[u8], i: usize) -> Option<Entry>
    ensures value { result ≡ entry_at part.now i }
    ensures entries { (es : List AnEntry) → AllByRecursion Whole es → part.now ≡ flat_map entry_bytes es → result ≡ slice_get es i }
{
    let (entries, _) = part.as_chunks();
    let bytes = entries.get(i)?;
    Some(entry_of(bytes))
}

/// The entries of the first decision and the further decisions, out of the bytes of decisions.
pub fn first_decision(decisions: &[u8]) -> Option<Split<'_>>
    ensures value { parted result ≡ split_as decisions.now }
    ensures split { (d : List AnEntry) (ds : List (List AnEntry)) → AllByRecursion Whole d → decisions.now ≡ flat_map decision_bytes (d ∷ ds) → parted result ≡ Some (flat_map entry_bytes d, flat_map decision_bytes ds) }
{
    let (count, entries) = decisions.split_first()?;
    let (first, rest) = entries.split_at_checked(9 * *count as usize)?;
    Some(Split { first, rest })
}

/// The entries of decision `k`, out of the bytes of decisions.
#[tactic(auto, using(crate::proofs::Splits::decision_of))]
pub fn decision_at(decisions: &[u8], k: usize) -> Option<&[u8]>
    ensures value { option_map (λ x. x.now) result ≡ decision_at k decisions.now }
    ensures decisions { (ds : List (List AnEntry)) → AllByRecursion (AllByRecursion Whole) ds → decisions.now ≡ flat_map decision_bytes ds → option_map (λ x. x.now) result ≡ option_map (flat_map entry_bytes) (slice_get ds k) }
{
    // not `DecisionsIn`: what it yields is known by its entries, not by its bytes
    let mut left = decisions;
    for _ in 0..k {
        left = first_decision(left)?.rest;
    }
    first_decision(left).map(|split| split.first)
}

ghost use Rattle.std.specs.Prelude.{◌≡◌, ℕ, ◌+◌, ◌*◌, ◌^◌, ◌<◌, List, [], ◌∷◌, ◌++◌, length, sum, OnOk};
ghost use Rattle.std.specs.List.{flat_map, AllByRecursion};
ghost use Rattle.frames.specs.Contents.{Whole, entry_bytes, decision_bytes, parted};
ghost use Rattle.frames.specs.Reading.{entries_as, decisions_as};
ghost use Rattle.reading.specs.Ids.{Met};
ghost use Rattle.writing.specs.Walking.{rest_of, Walks};

use crate::counted::Counted;
use frames::{Cause, Entry, FrameFault, Plan};
use reading::{FrameIds, fault_at};

/// A walk over entries as they would stand in a frame: the place of the next byte, and the ids so far.
/// Reading walks over bytes, which may end early; these entries are whole.
#[derive(Debug, PartialEq, Eq, Drop)]
pub(crate) struct Walk<'p> {
    at: usize,
    ids: FrameIds<'p>,
}

impl<'p> Walk<'p> {
    /// At a place, before all ids.
    pub(crate) fn new(plan: &'p Plan, at: usize) -> Walk<'p>
        ensures at { result.at ≡ at }
        ensures last { result.ids.last ≡ 0 }
        ensures ids { Met plan.now [] result.ids }
    {
        Walk {
            at,
            ids: FrameIds::new(plan),
        }
    }

    /// Goes over an entry of the list at hand, by its id and its body.
    pub(crate) fn entry(&mut self, id: u8, body: &[u8; 8]) -> Result<(), FrameFault>
        requires { self.old.at + 9 < 2 ^ 64 }
        ensures walked { (p : Plan) (left met : List ℕ) → Met p met self.old.ids → Walks p (entries_as p 1 self.old.ids.last (rest_of self.old ((id ∷ body.now) ++ left) met)) left result self.new }
        ensures place { OnOk result (self.new.at ≡ self.old.at + 9) }
        ensures last { OnOk result (self.new.ids.last ≡ id) }
        ensures whole { Whole (record { id = id; body = body.now }) }
    {
        self.ids.take(id, self.at)?;
        self.at += 1 + body.len();
        Ok(())
    }

    /// Goes over a list.
    pub(crate) fn entries(&mut self, entries: &[Entry]) -> Result<(), FrameFault>
        requires { self.old.at + 9 * length entries.now < 2 ^ 64 }
        ensures walked { (p : Plan) (left met : List ℕ) → Met p met self.old.ids → Walks p (entries_as p (length entries.now) 0 (rest_of self.old (flat_map entry_bytes entries.now ++ left) met)) left result self.new }
        ensures place { OnOk result (self.new.at ≡ self.old.at + 9 * length entries.now) }
        ensures whole { OnOk result (AllByRecursion Whole entries.now) }
    {
        self.ids.last = 0;
        for Entry { id, body } in entries {
            self.entry(*id, body)?;
        }
        Ok(())
    }

    /// Goes over a decision: the count, which is not 0, and its list.
    fn decision(&mut self, entries: &[Entry]) -> Result<(), FrameFault>
        requires { self.old.at + (1 + 9 * length entries.now) < 2 ^ 64 }
        ensures walked { (p : Plan) (left met : List ℕ) → Met p met self.old.ids → Walks p (decisions_as p 1 (rest_of self.old (decision_bytes entries.now ++ left) met)) left result self.new }
        ensures place { OnOk result (self.new.at ≡ self.old.at + (1 + 9 * length entries.now)) }
        ensures whole { OnOk result (AllByRecursion Whole entries.now) }
    {
        if entries.is_empty() {
            return Err(fault_at(self.at, Cause::Range));
        }
        self.at += 1;
        self.entries(entries)
    }

    /// Goes over a draft's decisions.
    pub(crate) fn decisions(&mut self, counted: &Counted) -> Result<(), FrameFault>
        requires { self.old.at + (length counted.now.draft.now.lengths.now + 9 * length counted.now.draft.now.entries.now) < 2 ^ 64 }
        ensures walked { (p : Plan) (left met : List ℕ) → Met p met self.old.ids → let d = counted.now.draft.now in Walks p (decisions_as p (length d.lengths.now) (rest_of self.old (flat_map decision_bytes (parted d.lengths.now d.entries.now) ++ left) met)) left result self.new }
        ensures whole { OnOk result (AllByRecursion Whole counted.now.draft.now.entries.now) }
    {
        // the lengths cut the entries into decisions, as in `write_decisions`
        let mut entries = counted.draft.entries;
        for length in counted.draft.lengths {
            let (decision, others) = entries.split_at(*length as usize);
            self.decision(decision)?;
            entries = others;
        }
        Ok(())
    }
}

ghost use Rattle.std.specs.Prelude.{◌≡◌, ℕ, ◌+◌, ◌^◌, ◌<◌, ◌≤◌, List, [], length, drop, slice_index, OnOk};

use crate::fault_at;
use crate::ids::FrameIds;
use frames::{Cause, FrameFault, Plan};

/// A walk over a frame from its front: the place of the next byte, the bytes from there on, and the ids so far.
#[derive(Debug, PartialEq, Eq, Drop)]
pub(crate) struct Reader<'p, 'a> {
    pub(crate) at: usize,
    pub(crate) rest: &'a [u8],
    pub(crate) ids: FrameIds<'p>,
    ghost fits: { at + length rest.now < 2 ^ 64 },
}

impl<'p, 'a> Reader<'p, 'a> {
    ghost use Rattle.frames.specs.Reading.{entries_as, decisions_as};
    ghost use Rattle.reading.specs.Ids.{Met};
    ghost use Rattle.reading.specs.Walking.{rest_of, Reads, first_or_end, nothing_after};

    /// Before the bytes of a frame from a place on.
    pub(crate) fn new(plan: &'p Plan, bytes: &'a [u8], at: usize) -> Reader<'p, 'a>
        requires { at ≤ length bytes.now }
        ensures at { result.at ≡ at }
        ensures bytes { result.rest.now ≡ drop at bytes.now }
        ensures ids { Met plan.now [] result.ids }
    {
        Reader {
            at,
            rest: &bytes[at..],
            ids: FrameIds::new(plan),
        }
    }

    /// The byte at the place.
    fn next_byte(&self) -> Result<u8, FrameFault>
        ensures { result ≡ first_or_end self.now.at self.now.rest.now }
    {
        let ends = fault_at(self.at, Cause::Length);
        self.rest.first().copied().ok_or(ends)
    }

    /// Goes on by so many bytes.
    fn pass(&mut self, count: usize)
        requires { count ≤ length self.old.rest.now }
        ensures at { self.new.at ≡ self.old.at + count }
        ensures bytes { self.new.rest.now ≡ drop count self.old.rest.now }
        ensures ids { self.new.ids ≡ self.old.ids }
    {
        self.rest = &self.rest[count..];
        self.at += count;
    }

    /// Reads an entry of the list at hand.
    fn entry(&mut self) -> Result<(), FrameFault>
        ensures read { (p : Plan) (met : List ℕ) → Met p met self.old.ids → Reads p (entries_as p 1 self.old.ids.last (rest_of self.old met)) result self.new }
        ensures last { OnOk result (self.new.ids.last ≡ slice_index self.old.rest.now 0) }
    {
        let id = self.next_byte()?;
        self.ids.take(id, self.at)?;
        if self.rest.len() < 9 {
            return Err(fault_at(self.at + self.rest.len(), Cause::Length));
        }
        self.pass(9);
        Ok(())
    }

    /// Reads a list of so many entries, of which there is no list to go through: the bytes are read as they come.
    pub(crate) fn entries(&mut self, count: u8) -> Result<(), FrameFault>
        ensures { (p : Plan) (met : List ℕ) → Met p met self.old.ids → Reads p (entries_as p count 0 (rest_of self.old met)) result self.new }
    {
        self.ids.last = 0;
        for _ in 0..count {
            self.entry()?;
        }
        Ok(())
    }

    /// Reads a decision: a count, which is not 0, and its list.
    fn decision(&mut self) -> Result<(), FrameFault>
        ensures { (p : Plan) (met : List ℕ) → Met p met self.old.ids → Reads p (decisions_as p 1 (rest_of self.old met)) result self.new }
    {
        let count = self.next_byte()?;
        if count == 0 {
            return Err(fault_at(self.at, Cause::Range));
        }
        self.pass(1);
        self.entries(count)
    }

    /// Reads so many decisions, as they come.
    pub(crate) fn decisions(&mut self, count: u8) -> Result<(), FrameFault>
        ensures { (p : Plan) (met : List ℕ) → Met p met self.old.ids → Reads p (decisions_as p count (rest_of self.old met)) result self.new }
    {
        for _ in 0..count {
            self.decision()?;
        }
        Ok(())
    }

    /// That nothing follows.
    pub(crate) fn end(&self) -> Result<(), FrameFault>
        ensures { result ≡ nothing_after self.now.at self.now.rest.now }
    {
        if !self.rest.is_empty() {
            return Err(fault_at(self.at, Cause::Length));
        }
        Ok(())
    }
}

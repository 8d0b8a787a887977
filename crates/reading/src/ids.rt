ghost use Rattle.std.specs.Prelude.{◌≡◌, ℕ, [], ◌∷◌, List, OnOk, OnErr};
ghost use Rattle.frames.specs.Ids.{Holds};
ghost use Rattle.reading.specs.Ids.{Met, id_as};

use crate::{fault_at, out_of_range};
use frames::{Cause, FrameFault, IdSet, Plan};

/// The ids of a frame for a plan, as far as they have come: the last one of the list at hand, or 0, and all that were met.
#[derive(Debug, PartialEq, Eq, Drop)]
pub struct FrameIds<'a> {
    pub plan: &'a Plan,
    pub last: u8,
    pub met: IdSet,
}

impl<'a> FrameIds<'a> {
    /// Before the first id.
    pub fn new(plan: &'a Plan) -> FrameIds<'a>
        ensures last { result.last ≡ 0 }
        ensures met { Met plan.now [] result }
    {
        FrameIds {
            plan,
            last: 0,
            met: IdSet::new(),
        }
    }

    /// Takes the next id of the list at hand, which stands at this place: one of the plan's, above the last one and not met before.
    pub fn take(&mut self, id: u8, place: usize) -> Result<(), FrameFault>
        ensures answer { (ids : List ℕ) → Holds self.old.met ids → result ≡ id_as self.old.plan.now self.old.last ids id place }
        ensures plan { self.new.plan.now ≡ self.old.plan.now }
        ensures last { OnOk result (self.new.last ≡ id) }
        ensures met { (ids : List ℕ) → Holds self.old.met ids → OnOk result (Holds self.new.met (id ∷ ids)) }
        ensures refused { OnErr result (self.new ≡ self.old) }
    {
        if out_of_range(self.plan, id) {
            return Err(fault_at(place, Cause::Range));
        }
        if id <= self.last || self.met.has(id) {
            return Err(fault_at(place, Cause::Ids));
        }
        self.met.add(id);
        self.last = id;
        Ok(())
    }
}

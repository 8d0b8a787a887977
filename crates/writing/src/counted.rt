ghost use Rattle.std.specs.Prelude.{◌≡◌, ℕ, ◌<◌, ◌≤◌, IfOk, length, sum, slice_index};

use crate::Draft;
use frames::{Cause, FrameFault};
use reading::{Head, fault_at};

/// A draft whose counts fit a byte each, and whose lengths add up to its entries.
#[derive(Clone, Copy, Debug, PartialEq, Eq)]
pub(crate) struct Counted<'a> {
    pub(crate) draft: &'a Draft<'a>,
    ghost proposed_fits: { length draft.now.proposal.now ≤ 255 },
    ghost decided_fits: { length draft.now.lengths.now ≤ 255 },
    ghost bytes: { (k : ℕ) → slice_index draft.now.lengths.now k < 256 },
    ghost adds_up: { sum draft.now.lengths.now ≡ length draft.now.entries.now },
}

impl<'a> Counted<'a> {
    ghost use Rattle.writing.specs.Written.{fault_of, shape_fault};
    ghost use Rattle.writing.specs.Checked.{head_of};

    /// Counts the parts of a draft, which is no contents if a count fits no byte or the lengths do not add up.
    pub(crate) fn of(draft: &'a Draft<'a>) -> Result<Counted<'a>, FrameFault>
        ensures value { fault_of result ≡ shape_fault (length draft.now.proposal.now) draft.now.lengths.now (length draft.now.entries.now) }
        ensures same { IfOk result (λ c. c.draft.now ≡ draft.now) }
    {
        if draft.proposal.len() > 255 {
            return Err(fault_at(8, Cause::Range));
        }
        if draft.lengths.len() > 255 {
            return Err(fault_at(9, Cause::Range));
        }
        if total(draft.lengths) != draft.entries.len() {
            return Err(fault_at(9, Cause::Length));
        }
        Ok(Counted { draft })
    }

    /// The numbers of the token's head.
    pub(crate) fn head(&self) -> Head
        ensures { result ≡ head_of self.now.draft.now }
    {
        Head {
            sender: self.draft.sender,
            stamp: self.draft.stamp,
            votes: self.draft.votes,
            proposed: self.draft.proposal.len(),
            decided: self.draft.lengths.len(),
        }
    }
}

/// The sum of the lengths of decisions. `logs` sums those of a log in the same way, under another bound.
fn total(lengths: &[u8]) -> usize
    requires { length lengths.now ≤ 255 }
    ensures value { result ≡ sum lengths.now }
    ensures bytes { (k : ℕ) → slice_index lengths.now k < 256 }
{
    lengths.iter().map(|length| *length as usize).sum()
}

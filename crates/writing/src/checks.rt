ghost use Rattle.std.specs.Prelude.{◌^◌, ◌<◌, OnOk};
ghost use Rattle.std.specs.List.{AllByRecursion};
ghost use Rattle.frames.specs.declared.Entry.{Entry as AnEntry};
ghost use Rattle.frames.specs.Contents.{Whole, token_bytes, bytes_of};
ghost use Rattle.frames.specs.Contents.Content.{order, token};
ghost use Rattle.frames.specs.Reading.{lists_as, read_as};
ghost use Rattle.writing.specs.Parted.{drafted};
ghost use Rattle.writing.specs.Checked.{Checks, Sound};

use crate::walk::Walk;
use crate::{Counted, HEAD, ORDER_HEAD};
use frames::{Cause, Entry, FrameFault, Plan};
use reading::{fault_at, out_of_range};

/// Checks the bytes that an order frame would have.
pub(crate) fn check_order(plan: &Plan, entry: &Entry) -> Result<(), FrameFault>
    ensures { Checks (read_as plan.now (bytes_of plan.now (order entry.now))) (order entry.now) result }
{
    check_alone(plan, entry.id, &entry.body)
}

/// Checks an entry that stands alone, by its id and its body. Its id is met first, so that of a walk's tests only the range
/// is left, and no table of ids is made. The body is taken for the contract: of an array that is lent it is known what it holds.
fn check_alone(plan: &Plan, id: u8, body: &[u8; 8]) -> Result<(), FrameFault>
    ensures { let e : AnEntry = record { id = id; body = body.now } in Checks (read_as plan.now (bytes_of plan.now (order e))) (order e) result }
{
    if out_of_range(plan, id) {
        return Err(fault_at(ORDER_HEAD, Cause::Range));
    }
    Ok(())
}

/// Checks the bytes that a token would have.
pub(crate) fn check_contents(plan: &Plan, counted: &Counted) -> Result<(), FrameFault>
    ensures answer { let t = drafted counted.now.draft.now in Checks (read_as plan.now (token_bytes plan.now t)) (token t) result }
    ensures sound { OnOk result (Sound plan.now counted.now.draft.now) }
{
    counted.head().test(plan, HEAD)?;
    check_lists(plan, counted)
}

/// Walks over a token's proposal and decisions.
fn check_lists(plan: &Plan, counted: &Counted) -> Result<(), FrameFault>
    ensures whole { OnOk result (AllByRecursion Whole counted.now.draft.now.proposal.now × AllByRecursion Whole counted.now.draft.now.entries.now) }
    ensures answer { let t = drafted counted.now.draft.now in t.stamp < 2 ^ 32 → Checks (lists_as plan.now (token_bytes plan.now t)) (token t) result }
{
    let mut walk = Walk::new(plan, HEAD);
    walk.entries(counted.draft.proposal)?;
    walk.decisions(counted)
}

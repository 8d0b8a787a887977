ghost use Rattle.std.specs.Prelude.{◌≡◌, ℕ, ◌+◌, ◌*◌, ◌≤◌, List, ◌++◌, length, drop, sum};
ghost use Rattle.std.proofs.Math.Seq.{paste};
ghost use Rattle.std.specs.List.{flat_map};
ghost use Rattle.frames.specs.Contents.{entry_bytes, decision_bytes, token_bytes, parted};
ghost use Rattle.writing.specs.Parted.{drafted};

use crate::{Counted, HEAD};
use frames::{Entry, FrameKind, Plan};

// The buffer and a place go along as they are: a struct that held the lent buffer would have to say how its loan ends.

/// Writes an entry at a place of a buffer.
pub(crate) fn write_entry(out: &mut [u8], at: usize, entry: &Entry)
    requires { at + 9 ≤ length out.old }
    ensures bytes { out.new ≡ paste out.old at (entry_bytes entry.now) 9 }
    ensures long { length (entry_bytes entry.now) ≡ 9 }
{
    out[at] = entry.id;
    let part = &mut out[at + 1..at + 9];
    part.copy_from_slice(&entry.body);
}

/// Writes entries at a place of a buffer, and answers where they end.
fn write_entries(out: &mut [u8], at: usize, entries: &[Entry]) -> usize
    requires { at + 9 * length entries.now ≤ length out.old }
    ensures end { result ≡ at + 9 * length entries.now }
    ensures bytes { out.new ≡ paste out.old at (flat_map entry_bytes entries.now) (9 * length entries.now) }
    ensures long { length (flat_map entry_bytes entries.now) ≡ 9 * length entries.now }
{
    // by their places, since of a slice written through `chunks_exact_mut` only the length is known afterwards
    for (i, entry) in entries.iter().enumerate() {
        write_entry(out, at + 9 * i, entry);
    }
    at + 9 * entries.len()
}

/// Writes a draft's decisions at a place of a buffer, and answers where they end.
fn write_decisions(out: &mut [u8], at: usize, counted: &Counted) -> usize
    requires { at + (length counted.now.draft.now.lengths.now + 9 * length counted.now.draft.now.entries.now) ≤ length out.old }
    ensures end { result ≡ at + (length counted.now.draft.now.lengths.now + 9 * length counted.now.draft.now.entries.now) }
    ensures bytes { let d = counted.now.draft.now in out.new ≡ paste out.old at (flat_map decision_bytes (parted d.lengths.now d.entries.now)) (length d.lengths.now + 9 * length d.entries.now) }
    ensures long { let d = counted.now.draft.now in length (flat_map decision_bytes (parted d.lengths.now d.entries.now)) ≡ length d.lengths.now + 9 * length d.entries.now }
{
    // the lengths cut the entries into decisions, as in `Walk::decisions`: an iterator over the cuts would be longer than both loops
    let mut to = at;
    let mut entries = counted.draft.entries;
    for length in counted.draft.lengths {
        let (decision, others) = entries.split_at(*length as usize);
        out[to] = *length;
        to = write_entries(out, to + 1, decision);
        entries = others;
    }
    to
}

/// Writes a token to the front of `out`, and answers its length.
pub(crate) fn write_parts(out: &mut [u8], plan: &Plan, counted: &Counted) -> usize
    requires { let d = counted.now.draft.now in 10 + 9 * length d.proposal.now + (length d.lengths.now + 9 * length d.entries.now) ≤ length out.old }
    ensures end { result ≡ length (token_bytes plan.now (drafted counted.now.draft.now)) }
    ensures bytes { out.new ≡ token_bytes plan.now (drafted counted.now.draft.now) ++ drop result out.old }
{
    let draft = counted.draft;
    let [r3, r2, r1, r0] = draft.stamp.to_be_bytes();
    let head = [
        FrameKind::Token as u8,
        plan.byte(),
        draft.sender,
        r3,
        r2,
        r1,
        r0,
        draft.votes,
        draft.proposal.len() as u8,
        draft.lengths.len() as u8,
    ];
    let front = &mut out[0..HEAD];
    front.copy_from_slice(&head);
    let middle = write_entries(out, HEAD, draft.proposal);
    write_decisions(out, middle, counted)
}

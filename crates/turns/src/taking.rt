//! What a started box makes of the bytes of a frame. What was tested of the lent record is asked for, as in `changing`.
ghost use Rattle.std.specs.Prelude.{◌≡◌, ◌<◌, true};
ghost use Rattle.frames.specs.Contents.{LawfulEntry};
ghost use Rattle.boxes.specs.Calls.{frame_call, frame_after};
ghost use Rattle.boxes.specs.Handling.{order_answer, order_after, token_answer, token_after};
ghost use Rattle.records.specs.Records.{box_of, tables_fit, KeepsRules};
ghost use Rattle.received.specs.Received.{token_of, TokenFits};
ghost use Rattle.ring.specs.Calls.{JudgedRow};
ghost use Rattle.turns.specs.Frames.{answered, TurnOf, Unmoved, FrameLaws};

use crate::changing::{keep_order, learn, open_turn};
use crate::handed::Handed;
use crate::judging::order_answer;
use crate::turn::Turn;
use boxes::{BoxFault, Outcome};
use frames::Entry;
use received::{Received, ReceivedToken, receive};
use records::BoxRecord;
use ring::StartedBox;

/// Hands a started box a frame's bytes. An opened turn is handed out, to be passed or forfeited.
pub fn take_frame(
    started: &StartedBox,
    row: &mut BoxRecord,
    bytes: &[u8],
) -> Result<Outcome<Turn>, BoxFault>
    ensures answer { JudgedRow started.now.plan started.now.at row.old (λ kept. frame_call started.now.plan (box_of row.old) kept bytes.now) (answered result) }
    ensures turn { TurnOf row.new result }
    ensures meaning { JudgedRow started.now.plan started.now.at row.old (λ kept. frame_after started.now.plan (box_of row.old) kept bytes.now) (box_of row.new) }
    ensures unmoved { Unmoved (answered result) row.old row.new }
    ensures stays { KeepsRules started.now.plan started.now.at row.old → KeepsRules started.now.plan started.now.at row.new }
    ensures laws { KeepsRules started.now.plan started.now.at row.old → row.old.on ≡ true → FrameLaws started.now.plan (box_of row.old) bytes.now (answered result) (box_of row.new) }
{
    Ok(match take_bytes(started, row, bytes)? {
        Outcome::Kept => Outcome::Kept,
        Outcome::Known => Outcome::Known,
        Outcome::Waits => Outcome::Waits,
        Outcome::Stale => Outcome::Stale,
        Outcome::Learned(more) => Outcome::Learned(more),
        Outcome::Opened(()) => Outcome::Opened(Turn {
            seat: row.seat,
            round: row.awaited,
        }),
    })
}

/// The answer to a frame's bytes, and the record after it: rows 2, 4 and 9, and then by the frame's contents.
fn take_bytes(started: &StartedBox, row: &mut BoxRecord, bytes: &[u8]) -> Result<Outcome, BoxFault>
    ensures answer { JudgedRow started.now.plan started.now.at row.old (λ kept. frame_call started.now.plan (box_of row.old) kept bytes.now) result }
    ensures meaning { JudgedRow started.now.plan started.now.at row.old (λ kept. frame_after started.now.plan (box_of row.old) kept bytes.now) (box_of row.new) }
    ensures unmoved { Unmoved result row.old row.new }
    ensures stays { KeepsRules started.now.plan started.now.at row.old → KeepsRules started.now.plan started.now.at row.new }
    ensures laws { KeepsRules started.now.plan started.now.at row.old → row.old.on ≡ true → FrameLaws started.now.plan (box_of row.old) bytes.now result (box_of row.new) }
{
    row.check_on(started.plan(), started.at())?;
    match receive(started.plan(), bytes)? {
        Received::Order(entry) => take_order(started, row, entry),
        Received::Token(token) => take_token(started, row, &token),
    }
}

/// Takes an order: it is kept, or known already.
fn take_order(started: &StartedBox, row: &mut BoxRecord, entry: Entry) -> Result<Outcome, BoxFault>
    requires keeps { KeepsRules started.now.plan started.now.at row.old }
    requires lawful { LawfulEntry started.now.plan entry }
    ensures answer { result ≡ order_answer (box_of row.old) entry }
    ensures meaning { box_of row.new ≡ order_after (box_of row.old) entry (order_answer (box_of row.old) entry) }
    ensures tables { tables_fit row.new ≡ true }
    ensures unmoved { Unmoved result row.old row.new }
{
    let outcome = order_answer(row, &entry)?;
    if let Outcome::Kept = outcome {
        keep_order(started, row, entry);
    }
    Ok(outcome)
}

/// Takes a token: a turn opens, or the box learns, or the record stays.
fn take_token(
    started: &StartedBox,
    row: &mut BoxRecord,
    token: &ReceivedToken,
) -> Result<Outcome, BoxFault>
    requires keeps { KeepsRules started.now.plan started.now.at row.old }
    requires fits { TokenFits started.now.plan token.now }
    ensures answer { result ≡ token_answer started.now.plan (box_of row.old) (token_of token.now) }
    ensures meaning { box_of row.new ≡ token_after started.now.plan (box_of row.old) (token_of token.now) (token_answer started.now.plan (box_of row.old) (token_of token.now)) }
    ensures tables { tables_fit row.new ≡ true }
    ensures unmoved { Unmoved result row.old row.new }
{
    let plan = started.plan();
    let outcome = Handed { plan, row, token }.answer()?;
    // a step for each case, and the check sees that none is left out
    match outcome {
        Outcome::Opened(()) => open_turn(started, row, token),
        Outcome::Learned(_) => learn(started, row, token),
        Outcome::Kept | Outcome::Known | Outcome::Waits | Outcome::Stale => {}
    }
    Ok(outcome)
}

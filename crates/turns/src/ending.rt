//! How a turn ends: it is passed or forfeited.
//! A record is a plain value that may hold anything, so what was tested of it is asked for and not kept in its type.
ghost use Rattle.std.specs.Prelude.{◌≡◌, ◌≤◌, true, length, OnOk, nat_le};
ghost use Rattle.frames.specs.Contents.{bytes_of, frame_most};
ghost use Rattle.frames.specs.Contents.Content.{token};
ghost use Rattle.logs.specs.Logs.{adds_up};
ghost use Rattle.lists.specs.Tables.{room};
ghost use Rattle.frames.specs.Contents.{LawfulToken};
ghost use Rattle.boxes.specs.Boxes.{passed};
ghost use Rattle.boxes.specs.Calls.{is_turn_of, pass_fault, pass_call, pass_writes, forfeit_fault, forfeit_call, refused_or, turn_bytes, at_front};
ghost use Rattle.records.specs.Records.{box_of, turn_of, KeepsRules};
ghost use Rattle.ring.specs.Calls.{JudgedRow, kept_row};
ghost use Rattle.turns.specs.Rows.{passed_row, forfeited_row};
ghost use Rattle.turns.specs.Ending.{fault_only, HandsBack, MayPass, PassReads};

use crate::turn::Turn;
use boxes::BoxFault;
use frames::{FRAME_MAX, Plan};
use records::{BoxRecord, OpenTurn};
use ring::StartedBox;
use writing::write_token;

impl Turn {
    /// Whether this is the record's open turn.
    fn is_of(&self, row: &BoxRecord) -> bool
        ensures { result ≡ is_turn_of (box_of row.now) self.now.seat self.now.round }
    {
        row.turn.is_some() && self.seat == row.seat && self.round == row.awaited
    }

    /// Refuses a pass where the buffer is short, the record is off or does not keep the rules, or the turn is not its open one.
    fn check_pass(&self, started: &StartedBox, row: &BoxRecord, room: usize) -> Result<(), BoxFault>
        ensures fault { JudgedRow started.now.plan started.now.at row.now (λ kept. refused_or (pass_fault (box_of row.now) kept room self.now.seat self.now.round) tt) result }
        ensures may { OnOk result (MayPass started.now.plan started.now.at row.now room self.now.seat self.now.round) }
    {
        if room < FRAME_MAX {
            return Err(BoxFault::Short);
        }
        row.check_on(started.plan(), started.at())?;
        if !self.is_of(row) {
            return Err(BoxFault::Turn);
        }
        Ok(())
    }

    /// Refuses a forfeit where the record does not keep the rules, or the turn is not its open one; the box may be off.
    fn check_forfeit(&self, started: &StartedBox, row: &BoxRecord) -> Result<(), BoxFault>
        ensures { JudgedRow started.now.plan started.now.at row.now (λ kept. forfeit_call (box_of row.now) kept self.now.seat self.now.round) result }
    {
        if !row.keeps_rules(started.plan(), started.at()) {
            return Err(BoxFault::Plan);
        }
        if !self.is_of(row) {
            return Err(BoxFault::Turn);
        }
        Ok(())
    }

    /// Passes the turn: the token stands at the front of the buffer, and its length is the answer. A refusal hands the turn back.
    pub fn pass(
        self,
        started: &StartedBox,
        row: &mut BoxRecord,
        out: &mut [u8],
    ) -> Result<usize, (BoxFault, Turn)>
        ensures answer { JudgedRow started.now.plan started.now.at row.old (λ kept. pass_call started.now.plan (box_of row.old) kept (length out.old) self.seat self.round) (fault_only result) }
        ensures back { HandsBack self result }
        ensures row { JudgedRow started.now.plan started.now.at row.old (λ kept. kept_row (pass_fault (box_of row.old) kept (length out.old) self.seat self.round) row.old (passed_row row.old)) row.new }
        ensures buffer { JudgedRow started.now.plan started.now.at row.old (λ kept. pass_writes started.now.plan (box_of row.old) kept self.seat self.round out.old) out.new }
        ensures reads { PassReads started.now.plan (box_of row.old) result out.new }
        ensures stays { KeepsRules started.now.plan started.now.at row.old → KeepsRules started.now.plan started.now.at row.new }
    {
        // not `map_err`: its closure would take the turn where nothing is refused, too
        if let Err(fault) = self.check_pass(started, row, out.len()) {
            return Err((fault, self));
        }
        let length = write_turn(started.plan(), row, out);
        self.end();
        row.awaited += row.n as u32;
        row.turn = None;
        Ok(length)
    }

    /// Forfeits the turn: the box is switched off, or stays off. A refusal hands the turn back.
    pub fn forfeit(self, started: &StartedBox, row: &mut BoxRecord) -> Result<(), (BoxFault, Turn)>
        ensures answer { JudgedRow started.now.plan started.now.at row.old (λ kept. forfeit_call (box_of row.old) kept self.seat self.round) (fault_only result) }
        ensures back { HandsBack self result }
        ensures row { JudgedRow started.now.plan started.now.at row.old (λ kept. kept_row (forfeit_fault (box_of row.old) kept self.seat self.round) row.old (forfeited_row row.old)) row.new }
        ensures stays { KeepsRules started.now.plan started.now.at row.old → KeepsRules started.now.plan started.now.at row.new }
    {
        // as in `pass`
        if let Err(fault) = self.check_forfeit(started, row) {
            return Err((fault, self));
        }
        self.end();
        row.on = false;
        row.turn = None;
        Ok(())
    }
}

/// Writes the token of the record's open turn, if it has one, and answers its length.
fn write_turn(plan: &Plan, row: &BoxRecord, out: &mut [u8]) -> usize
    requires rules { KeepsRules plan.now row.now.seat row.now }
    requires room { frame_most ≤ length out.old }
    ensures long { result ≡ length (turn_bytes plan.now (box_of row.now) (box_of row.now).turn) }
    ensures buffer { out.new ≡ at_front (turn_bytes plan.now (box_of row.now) (box_of row.now).turn) out.old }
{
    // not `map_or`: its closure would have to ask for what the record's rules give
    match &row.turn {
        Some(turn) => write_open(plan, row, turn, out),
        None => 0,
    }
}

/// Writes the token that an open turn of the record passes, and answers its length.
fn write_open<'a>(plan: &Plan, row: &'a BoxRecord, turn: &'a OpenTurn, out: &mut [u8]) -> usize
    requires lawful { LawfulToken plan.now (passed (box_of row.now) (turn_of turn.now)) }
    requires tables { (adds_up row.now.log ≡ true) × (nat_le turn.now.proposal.count room ≡ true) }
    requires room { frame_most ≤ length out.old }
    ensures long { result ≡ length (bytes_of plan.now (token (passed (box_of row.now) (turn_of turn.now)))) }
    ensures buffer { out.new ≡ at_front (bytes_of plan.now (token (passed (box_of row.now) (turn_of turn.now)))) out.old }
{
    let draft = turn.draft(row).unwrap();
    // lawful contents are never refused
    write_token(plan, &draft, out).unwrap()
}

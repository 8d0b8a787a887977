//! The tests by which a box answers an order or a token, the topmost row first.
ghost use Rattle.std.specs.Prelude.{◌≡◌, ◌-◌, true, ◌||◌, length, if◌then◌else◌, nat_lt};
ghost use Rattle.frames.specs.Contents.{has, ids_of};
ghost use Rattle.logs.specs.Logs.{adds_up, log_of};
ghost use Rattle.boxes.specs.declared.Outcome.TheVariants as outcome;
ghost use Rattle.boxes.specs.Boxes.{log_ids, token_ids};
ghost use Rattle.boxes.specs.Turns.{gap as gap_of, short};
ghost use Rattle.boxes.specs.Handling.{steps as steps_of, all_used, meant, expected, would_open, is_behind, agrees, token_answer, order_answer};
ghost use Rattle.records.specs.Records.{box_of};
ghost use Rattle.received.specs.Received.{token_of};

use crate::handed::Handed;
use boxes::{BoxFault, Outcome};
use frames::Entry;
use records::BoxRecord;

/// The last round for which a turn may open.
const LAST_ROUND: u32 = 999_999;

// An order is one entry, so its tests take the record and the entry as they are.

/// What a box answers to an order.
pub(crate) fn order_answer(row: &BoxRecord, entry: &Entry) -> Result<Outcome, BoxFault>
    requires { adds_up row.now.log ≡ true }
    ensures { result ≡ order_answer (box_of row.now) entry.now }
{
    if !row.id_used(entry.id) {
        return Err(BoxFault::Sender);
    }
    if is_known(row, entry.id) {
        return Ok(Outcome::Known);
    }
    Ok(Outcome::Kept)
}

/// Whether an id is unordered or in the log.
fn is_known(row: &BoxRecord, id: u8) -> bool
    requires { adds_up row.now.log ≡ true }
    ensures { result ≡ (has id (ids_of (box_of row.now).unordered) || has id (log_ids (box_of row.now).log)) }
{
    row.unordered.has_id(id) || row.log.entries.has_id(id)
}

impl Handed<'_> {
    /// What the box answers to the token.
    pub(crate) fn answer(&self) -> Result<Outcome, BoxFault>
        ensures { result ≡ token_answer self.now.plan.now (box_of self.now.row.now) (token_of self.now.token.now) }
    {
        if !self.is_expected() {
            return Err(BoxFault::Sender);
        }
        if self.row.turn.is_some() {
            return Err(BoxFault::Open);
        }
        let opens = self.would_open();
        if !opens && !self.is_behind() {
            return Ok(Outcome::Waits);
        }
        if !self.logs_agree() {
            return Err(BoxFault::History);
        }
        if !opens {
            return Ok(self.lesson());
        }
        if self.row.awaited > LAST_ROUND {
            return Err(BoxFault::Rounds);
        }
        Ok(Outcome::Opened(()))
    }

    /// Whether the token is meant for this box and has no id of it above its last serial.
    fn is_expected(&self) -> bool
        ensures { result ≡ expected self.now.plan.now (box_of self.now.row.now) (token_of self.now.token.now) }
    {
        self.is_meant() && self.ids_used()
    }

    /// Whether the token is meant for this box: a dummy for the first ones that it reaches, any other token for the f+1 successors of its sender.
    fn is_meant(&self) -> bool
        ensures { result ≡ meant self.now.plan.now self.now.row.now.seat (token_of self.now.token.now) }
    {
        if self.token.stamp == 0 {
            return (1..=self.plan.dummy_reach(self.token.sender)).contains(&self.row.seat);
        }
        (1..=self.plan.tolerance() + 1).contains(&self.steps())
    }

    /// How many boxes ahead of the sender this box is.
    fn steps(&self) -> u8
        ensures { result ≡ steps_of self.now.plan.now self.now.row.now.seat self.now.token.now.sender }
    {
        let boxes = self.plan.boxes();
        (self.row.seat + boxes - self.token.sender) % boxes
    }

    /// Whether no id of the box's own in the token is above its last serial.
    fn ids_used(&self) -> bool
        ensures { result ≡ all_used (box_of self.now.row.now) (token_ids (token_of self.now.token.now)) }
    {
        self.row.part_used(self.token.proposal.part())
            && self.row.part_used(self.token.log.entries.part())
    }

    /// How many rounds the token is behind the awaited one; 0 for the awaited round or a later one.
    pub(crate) fn gap(&self) -> u64
        ensures { result ≡ gap_of (box_of self.now.row.now) (token_of self.now.token.now) }
    {
        // the largest awaited round has a stamp that no u32 holds
        (u64::from(self.row.awaited) + 1).saturating_sub(u64::from(self.token.stamp))
    }

    /// Whether a turn would open: the token is of the round just before, or up to f+1 rounds behind while the predecessor is doubted.
    fn would_open(&self) -> bool
        ensures { result ≡ would_open self.now.plan.now (box_of self.now.row.now) (token_of self.now.token.now) }
    {
        let gap = self.gap();
        gap == 1 || (self.row.doubt && 2 <= gap && gap <= u64::from(self.plan.tolerance()) + 1)
    }

    /// Whether the token is more than a whole ring behind.
    fn is_behind(&self) -> bool
        ensures { result ≡ is_behind self.now.plan.now (box_of self.now.row.now) (token_of self.now.token.now) }
    {
        self.gap() > u64::from(self.plan.boxes())
    }

    /// Whether the token has fewer decisions than the log.
    pub(crate) fn is_short(&self) -> bool
        ensures { result ≡ short (box_of self.now.row.now) (token_of self.now.token.now) }
    {
        self.token.log.decision_lengths().len() < self.row.log.decision_lengths().len()
    }

    /// Whether one of the two logs begins the other.
    fn logs_agree(&self) -> bool
        ensures { result ≡ agrees (log_of self.now.row.now.log) (log_of self.now.token.now.log) }
    {
        let own = &self.row.log;
        let other = &self.token.log;
        own.begins_log(other) || other.begins_log(own)
    }

    /// What a token far behind teaches: the decisions that it has more than the log.
    fn lesson(&self) -> Outcome
        ensures { result ≡ (if nat_lt (length (log_of self.now.row.now.log)) (length (log_of self.now.token.now.log)) then outcome.Learned (length (log_of self.now.token.now.log) - length (log_of self.now.row.now.log)) else outcome.Stale) }
    {
        let own = self.row.log.decision_lengths().len();
        let other = self.token.log.decision_lengths().len();
        if own < other {
            Outcome::Learned((other - own) as u8)
        } else {
            Outcome::Stale
        }
    }
}

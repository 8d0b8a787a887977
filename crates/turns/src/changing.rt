//! How a record changes: an order kept, a lesson learned, a turn opened.
//! A record and its tables are plain values that may hold anything, so what was tested of them is asked for and not kept in a type;
//! a type that held the lent record would have to say how its loan ends.
ghost use Rattle.std.specs.Prelude.{◌≡◌, ◌+◌, true, None, Ok, ◌==◌, nat_le};
ghost use Rattle.std.specs.List.{AllByRecursion};
ghost use Rattle.boxes.specs.declared.Outcome.TheVariants as outcome;
ghost use Rattle.boxes.specs.Turns.{holding, logging, opened, opened_log, opened_proposal, refilled, left};
ghost use Rattle.boxes.specs.Handling.{token_answer, order_answer};
ghost use Rattle.frames.specs.Contents.{LawfulEntry, Whole};
ghost use Rattle.lists.specs.Tables.{room, held};
ghost use Rattle.logs.specs.Logs.{adds_up, log_of};
ghost use Rattle.records.specs.Records.{box_of, turn_of, tables_fit, KeepsRules};
ghost use Rattle.received.specs.Received.{token_of, TokenFits};
ghost use Rattle.turns.specs.Rows.{held_row};

use crate::handed::{Handed, Opening};
use frames::Entry;
use lists::Entries;
use logs::Log;
use received::ReceivedToken;
use records::{BoxRecord, OpenTurn};
use ring::StartedBox;

/// Puts an order among the unordered entries.
pub(crate) fn keep_order(started: &StartedBox, row: &mut BoxRecord, entry: Entry)
    requires keeps { KeepsRules started.now.plan started.now.at row.old }
    requires lawful { LawfulEntry started.now.plan entry }
    requires new { order_answer (box_of row.old) entry ≡ Ok outcome.Kept }
    ensures row { row.new ≡ held_row entry row.old }
    ensures meaning { box_of row.new ≡ holding (box_of row.old) entry row.old.last }
    ensures tables { tables_fit row.new ≡ true }
{
    // there is room for each order of the plan, and this one is not unordered yet
    row.unordered.insert(entry).unwrap();
}

/// Takes over a token's decisions; entries that reach the log leave the unordered ones.
pub(crate) fn learn(started: &StartedBox, row: &mut BoxRecord, token: &ReceivedToken)
    requires keeps { KeepsRules started.now.plan started.now.at row.old }
    requires fits { TokenFits started.now.plan token.now }
    requires idle { row.old.turn ≡ None }
    ensures meaning { box_of row.new ≡ logging (box_of row.old) (token_of token.now).decisions None }
    ensures tables { tables_fit row.new ≡ true }
{
    settle(row, &token.log);
}

/// Opens a turn on a token.
pub(crate) fn open_turn(started: &StartedBox, row: &mut BoxRecord, token: &ReceivedToken)
    requires keeps { KeepsRules started.now.plan started.now.at row.old }
    requires fits { TokenFits started.now.plan token.now }
    requires opens { token_answer started.now.plan (box_of row.old) (token_of token.now) ≡ Ok (outcome.Opened tt) }
    ensures meaning { box_of row.new ≡ opened started.now.plan (box_of row.old) (token_of token.now) }
    ensures tables { tables_fit row.new ≡ true }
{
    let plan = started.plan();
    let opening = Handed { plan, row, token }.open();
    let votes = opening.votes;
    let log = opening.log();
    let proposal = opening.proposal();
    settle(row, &log);
    row.turn = Some(refill(votes, &proposal, &row.unordered));
}

/// Takes over a log; entries that reach it leave the unordered ones.
fn settle(row: &mut BoxRecord, log: &Log)
    requires tables { tables_fit row.old ≡ true }
    requires entries { AllByRecursion Whole (held row.old.unordered) }
    requires whole { adds_up log.now ≡ true }
    ensures meaning { box_of row.new ≡ logging (box_of row.old) (log_of log.now) (box_of row.old).turn }
    ensures tables { tables_fit row.new ≡ true }
{
    leave_logged(&mut row.unordered, log);
    row.log = *log;
}

/// Entries of a log leave the unordered ones.
fn leave_logged(unordered: &mut Entries, log: &Log)
    requires fits { nat_le unordered.old.count room ≡ true }
    requires entries { AllByRecursion Whole (held unordered.old) }
    requires whole { adds_up log.now ≡ true }
    ensures meaning { held unordered.new ≡ left (log_of log.now) (held unordered.old) }
    ensures fits { nat_le unordered.new.count room ≡ true }
{
    unordered.leave(&log.ids());
}

impl<'a> Handed<'a> {
    /// The turn that opens on the token. Votes before count only for a proposal, and only from the round just before; this box's own is added.
    fn open(self) -> Opening<'a>
        ensures { result.handed ≡ self.entry }
    {
        let votes = if self.gap() == 1 && !self.token.proposal.part().is_empty() {
            self.token.votes + 1
        } else {
            1
        };
        Opening {
            handed: self,
            votes,
        }
    }
}

impl Opening<'_> {
    /// Whether the votes decide the proposal.
    fn is_decided(&self) -> bool
        ensures { result ≡ (self.now.votes == self.now.handed.plan.now.f + 1) }
    {
        self.votes == self.handed.plan.tolerance() + 1
    }

    /// The log as the turn opens: the box's own where the token is short, else the token's decisions, and then its proposal if it is decided.
    fn log(&self) -> Log
        requires { TokenFits self.now.handed.plan.now self.now.handed.token.now }
        ensures meaning { log_of result ≡ opened_log self.now.handed.plan.now (box_of self.now.handed.row.now) (token_of self.now.handed.token.now) }
        ensures whole { adds_up result ≡ true }
    {
        if self.handed.is_short() {
            return self.handed.row.log;
        }
        let mut log = self.handed.token.log;
        if self.is_decided() {
            // the entries of a lawful token all fit in one log
            log.append(self.handed.token.proposal.part()).unwrap();
        }
        log
    }

    /// What is left of the token's proposal as the turn opens: nothing where the token is short or the proposal is decided.
    fn proposal(&self) -> Entries
        ensures meaning { held result ≡ opened_proposal self.now.handed.plan.now (box_of self.now.handed.row.now) (token_of self.now.handed.token.now) }
        ensures fits { nat_le result.count room ≡ true }
    {
        if self.handed.is_short() || self.is_decided() {
            return Entries::new();
        }
        self.handed.token.proposal
    }
}

/// The turn with a proposal and its votes; an empty proposal is replaced by all unordered entries, with 1 vote.
fn refill(votes: u8, proposal: &Entries, unordered: &Entries) -> OpenTurn
    requires { (nat_le proposal.now.count room ≡ true) × (nat_le unordered.now.count room ≡ true) }
    ensures meaning { turn_of result ≡ refilled votes (held proposal.now) (held unordered.now) }
    ensures fits { nat_le result.proposal.count room ≡ true }
{
    if proposal.part().is_empty() {
        OpenTurn {
            votes: 1,
            proposal: *unordered,
        }
    } else {
        OpenTurn {
            votes,
            proposal: *proposal,
        }
    }
}

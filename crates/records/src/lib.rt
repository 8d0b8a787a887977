#![tactic(auto)]

ghost use Rattle.std.specs.Prelude.{◌≡◌, ℕ, ◌≤◌, ◌↔◌, true, ◌&&◌, Decides, IfSome, IsNone, nat_le};
ghost use Rattle.frames.specs.Contents.{ids_of, LawfulToken};
ghost use Rattle.lists.specs.Tables.{room, held};
ghost use Rattle.logs.specs.Logs.{adds_up, log_of};
ghost use Rattle.boxes.specs.Boxes.{Lists, log_ids, passed};
ghost use Rattle.boxes.specs.Calls.{state_call};
ghost use Rattle.boxes.specs.Handling.{used, all_used};
ghost use Rattle.records.specs.Records.{box_of, turn_of, numbers_keep, tables_fit, turn_fits, TurnLawful, KeepsRules, JudgedRow, ChecksOn, DraftOf};

use boxes::BoxFault;
use frames::{Entry, Plan};
use lists::Entries;
use logs::Log;
use writing::{Draft, is_lawful};

/// An open turn: the votes and the proposal that it would pass.
#[derive(Clone, Copy, Debug, PartialEq, Eq)]
pub struct OpenTurn {
    pub votes: u8,
    pub proposal: Entries,
}

/// The record of a box. It is plain and may hold anything: whoever takes one tests it first.
#[derive(Clone, Copy, Debug, PartialEq, Eq)]
pub struct BoxRecord {
    pub n: u8,
    pub f: u8,
    pub seat: u8,
    pub awaited: u32,
    pub log: Log,
    pub unordered: Entries,
    pub last: u8,
    pub doubt: bool,
    pub on: bool,
    pub turn: Option<OpenTurn>,
}

impl OpenTurn {
    /// The token that the turn would pass; there is none where a box awaits the largest u32, whose stamp no u32 holds.
    pub fn draft<'a>(&'a self, row: &'a BoxRecord) -> Option<Draft<'a>>
        ensures draft { IfSome result (DraftOf row.now self.now) }
        ensures none { IsNone result ↔ (row.now.awaited ≡ 4294967295) }
    {
        Some(Draft {
            sender: row.seat,
            stamp: row.awaited.checked_add(1)?,
            votes: self.votes,
            proposal: self.proposal.part(),
            lengths: row.log.decision_lengths(),
            entries: row.log.entries.part(),
        })
    }
}

// A record is a plain value that may hold anything, so what was tested of it is asked for and not kept in its type.
impl BoxRecord {
    // Plan and seat go apart, since the types that have both stand above, in `ring`.

    /// Whether the record is one of this plan and seat and keeps a record's rules. One pass over what it holds.
    pub fn keeps_rules(&self, plan: &Plan, seat: u8) -> bool
        ensures { Decides result (KeepsRules plan.now seat self.now) }
    {
        // not one chain of `&&`: the goals of a chain whose later tests ask for the earlier ones stay open
        if !self.numbers_keep(plan, seat) {
            return false;
        }
        if !self.tables_fit() {
            return false;
        }
        if !self.lists_keep(plan) {
            return false;
        }
        if !self.ids_keep() {
            return false;
        }
        self.turn_keeps(plan)
    }

    /// Refuses a record that is not one of this plan and seat or does not keep a record's rules, and then one that is off.
    pub fn check_on(&self, plan: &Plan, seat: u8) -> Result<(), BoxFault>
        ensures cases { ChecksOn plan.now seat self.now result }
        ensures judged { JudgedRow plan.now seat self.now (state_call (box_of self.now)) result }
    {
        if !self.keeps_rules(plan, seat) {
            return Err(BoxFault::Plan);
        }
        if !self.on {
            return Err(BoxFault::Off);
        }
        Ok(())
    }

    /// Whether the numbers are those of the plan and the seat, and the awaited round and the last serial can be.
    fn numbers_keep(&self, plan: &Plan, seat: u8) -> bool
        ensures { result ≡ numbers_keep plan.now seat self.now }
    {
        self.n == plan.boxes()
            && self.f == plan.tolerance()
            && self.seat == seat
            && self.awaited % plan.boxes() as u32 == seat as u32
            && self.last <= 15
    }

    /// Whether the tables hold what they count.
    fn tables_fit(&self) -> bool
        ensures { result ≡ tables_fit self.now }
    {
        self.unordered.fits() && self.log.adds_up() && self.turn_fits()
    }

    fn turn_fits(&self) -> bool
        ensures { result ≡ turn_fits self.now.turn }
    {
        self.turn.is_none_or(|open| open.proposal.fits())
    }

    /// Whether the unordered entries and the log are lawful beside each other: just as a token with them would be.
    fn lists_keep(&self, plan: &Plan) -> bool
        requires { tables_fit self.now ≡ true }
        ensures { Decides result (Lists plan.now (held self.now.unordered) (log_of self.now.log)) }
    {
        let draft = Draft {
            sender: 0,
            stamp: 1,
            votes: 1,
            proposal: self.unordered.part(),
            lengths: self.log.decision_lengths(),
            entries: self.log.entries.part(),
        };
        is_lawful(plan, &draft)
    }

    /// Whether each of these entries, if it is the box's own, has at most the last serial.
    pub fn part_used(&self, part: &[Entry]) -> bool
        ensures { result ≡ all_used (box_of self.now) (ids_of part.now) }
    {
        part.iter().map(|e| e.id).all(|id| self.id_used(id))
    }

    /// Whether an id, if it is the box's own, has at most the last serial.
    pub fn id_used(&self, id: u8) -> bool
        ensures { result ≡ used (box_of self.now) id }
    {
        id / 16 != self.seat || id % 16 <= self.last
    }

    /// Whether no id of the box's own, unordered or logged, is above its last serial.
    fn ids_keep(&self) -> bool
        requires { tables_fit self.now ≡ true }
        ensures { result ≡ (all_used (box_of self.now) (ids_of (held self.now.unordered)) && all_used (box_of self.now) (log_ids (log_of self.now.log))) }
    {
        self.part_used(self.unordered.part()) && self.part_used(self.log.entries.part())
    }

    /// Whether the token that an open turn would pass is lawful.
    fn turn_keeps(&self, plan: &Plan) -> bool
        requires { tables_fit self.now ≡ true }
        ensures { Decides result (TurnLawful plan.now (box_of self.now)) }
    {
        // not `is_none_or`: its closure would have to ask for what the tables' test gives
        match &self.turn {
            Some(turn) => self.open_keeps(plan, turn),
            None => true,
        }
    }

    fn open_keeps<'a>(&'a self, plan: &Plan, turn: &'a OpenTurn) -> bool
        requires { (adds_up self.now.log ≡ true) × (nat_le turn.now.proposal.count room ≡ true) }
        ensures { Decides result (LawfulToken plan.now (passed (box_of self.now) (turn_of turn.now))) }
    {
        turn.draft(self)
            .is_some_and(|draft| is_lawful(plan, &draft))
    }
}

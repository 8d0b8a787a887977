#![tactic(auto)]

ghost use Rattle.std.specs.Prelude.{◌≡◌};
ghost use Rattle.boxes.specs.declared.BoxFault.TheVariants as fault;
ghost use Rattle.boxes.specs.Laws.{AnswersFit, ListsAsToken, TestsDecide, LogsGrow, TurnsMakeTokens, RecordsStay, UnorderedStay, FramesRead, RefusalsStay, MeantFor};
ghost use Rattle.boxes.specs.Rows.{box_row};
ghost use Rattle.boxes.specs.Worked.{Worked};

use frames::{FrameFault, Refusal};

/// What a box answers to a frame; `T` is what is told of an opened turn.
#[derive(Clone, Copy, Debug, PartialEq, Eq, Drop)]
pub enum Outcome<T = ()> {
    /// The order is now among the unordered entries.
    Kept,
    /// The order's id is unordered or in the log already.
    Known,
    /// The token is not for now; the record stays.
    Waits,
    /// The token is far behind and has no more decisions than the log.
    Stale,
    /// The token is far behind, and the log now has so many more decisions.
    Learned(u8),
    /// A turn is open.
    Opened(T),
}

/// Why a box refuses a call; the record stays.
#[derive(Clone, Copy, Debug, PartialEq, Eq)]
pub enum BoxFault {
    /// The buffer has no room for every frame.
    Short,
    /// The record is not of this plan and seat, or does not keep a record's rules.
    Plan,
    /// The box is off.
    Off,
    /// The box has used all its serials.
    Serials,
    /// The bytes are no frame of the plan.
    Frame(FrameFault),
    /// The frame is not meant for this box, or has an id of this box that it never gave.
    Sender,
    /// A turn is open.
    Open,
    /// Neither the log nor the token's decisions begin the other.
    History,
    /// A turn would open beyond the last round.
    Rounds,
    /// The turn is another box's or another round's.
    Turn,
}

impl From<FrameFault> for BoxFault {
    ghost from_gives = { λ e r. r ≡ fault.Frame e };

    fn from(fault: FrameFault) -> BoxFault {
        BoxFault::Frame(fault)
    }
}

impl Refusal for BoxFault {
    ghost number = { box_row };

    fn row(&self) -> u8 {
        match *self {
            BoxFault::Short => 1,
            BoxFault::Plan => 2,
            BoxFault::Off => 4,
            BoxFault::Serials => 7,
            BoxFault::Frame(fault) => fault.row(),
            BoxFault::Sender => 10,
            BoxFault::Open => 11,
            BoxFault::History => 12,
            BoxFault::Rounds => 13,
            BoxFault::Turn => 14,
        }
    }
}

/// What a box makes of a frame, told as a function, fits what is told of it by cases, and nothing else does.
pub fn answers_fit()
    ensures { AnswersFit }
{}

/// The rules for a record's lists are those of a token that has them as its proposal and its decisions.
pub fn lists_as_token()
    ensures { ListsAsToken }
{}

/// The tests of logs and ids decide what they stand for, and logs are compared by entries and lengths.
pub fn tests_decide()
    ensures { TestsDecide }
{}

/// A log grows at its end only, and only by what the handed token has decided, or decides with f+1 votes.
pub fn logs_grow()
    ensures { LogsGrow }
{}

/// The token of an opened turn comes about from the handed token and the box's log in one of a history's four ways.
pub fn turns_make_tokens()
    ensures { TurnsMakeTokens }
{}

/// A started record keeps the rules of records, and every call leaves a record keeping them.
pub fn records_stay()
    ensures { RecordsStay }
{}

/// The unordered entries after a frame are those before it, and the order that is kept, but for those in the log.
pub fn unordered_stay()
    ensures { UnorderedStay }
{}

/// What boxes send is a lawful frame of the plan that reads back as it was sent.
pub fn frames_read()
    ensures { FramesRead }
{}

/// Answers of boxes, one of each kind, worked out by hand.
pub fn boxes_worked()
    ensures { Worked }
{}

/// A refused call leaves the record as it was, and so does a frame that waits, is stale or is known.
pub fn refusals_stay()
    ensures { RefusalsStay }
{}

/// A token is meant for the f+1 successors of its sender and for no others, a dummy for the first boxes of the ring.
pub fn tokens_meant()
    ensures { MeantFor }
{}

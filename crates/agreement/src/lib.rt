#![tactic(auto)]

ghost use Rattle.std.specs.Prelude.{◌≡◌};
ghost use Rattle.agreement.specs.declared.ArrayFault.TheVariants as fault;
ghost use Rattle.agreement.specs.Rows.{array_row};
ghost use Rattle.agreement.specs.Worked.{Worked, PostsCounted};
ghost use Rattle.agreement.specs.Runs.{RunsAreUnsplit, RunsGoOn, RunsAreSmooth, OtherPlansRefused};

use boxes::Outcome;
use frames::{FrameFault, Refusal};

/// Why a call of an array is refused; nothing is changed. An array refuses neither for a short buffer nor for a turn,
/// so it does not carry a box's or a link's fault whole.
#[derive(Clone, Copy, Debug, PartialEq, Eq)]
pub enum ArrayFault {
    /// The tables are not of the plan's size, or a record does not keep the rules of its place.
    Plan,
    /// No such box.
    Box,
    /// The box is off.
    Off,
    /// Nothing waits at the place.
    Place,
    /// The box is full.
    Full,
    /// The box has used all its serials.
    Serials,
    /// The bytes are no frame of the plan, or none that a link takes.
    Frame(FrameFault),
    /// The frame is not meant for the box, or has an id of it that it never gave.
    Sender,
    /// A turn is open.
    Open,
    /// Neither the log nor the token's decisions begin the other.
    History,
    /// A turn would open beyond the last round.
    Rounds,
}

/// What a turn was passed with.
#[derive(Clone, Copy, Debug, PartialEq, Eq)]
pub struct Passed {
    /// The votes for the entries that its token proposes.
    pub votes: u8,
    /// How many entries those are.
    pub proposed: u8,
    /// How many decisions the token has.
    pub decisions: u8,
    /// How many posts of the token were made.
    pub posts: u8,
}

/// What a hand answers: the box's answer, where a turn that opened is told by what it was passed with.
pub type Answer = Outcome<Passed>;

/// A call of an array, by the seat of its box and the place of a frame that waits there.
#[derive(Clone, Copy, Debug, PartialEq, Eq)]
pub enum Call {
    Send { seat: u8, body: [u8; 8] },
    Hand { seat: u8, place: u8 },
    Lose { seat: u8, place: u8 },
    Repeat { seat: u8, place: u8 },
    Doubt { seat: u8 },
    Trust { seat: u8 },
    SwitchOff { seat: u8 },
}

impl From<FrameFault> for ArrayFault {
    ghost from_gives = { λ e r. r ≡ fault.Frame e };

    fn from(fault: FrameFault) -> ArrayFault {
        ArrayFault::Frame(fault)
    }
}

impl Refusal for ArrayFault {
    ghost number = { array_row };

    fn row(&self) -> u8 {
        match *self {
            ArrayFault::Plan => 2,
            ArrayFault::Box => 3,
            ArrayFault::Off => 4,
            ArrayFault::Place => 5,
            ArrayFault::Full => 6,
            ArrayFault::Serials => 7,
            ArrayFault::Frame(fault) => fault.row(),
            ArrayFault::Sender => 10,
            ArrayFault::Open => 11,
            ArrayFault::History => 12,
            ArrayFault::Rounds => 13,
        }
    }
}

/// Every run of an array, over any link and any machine whose readings are of type R, leads only to unsplit states.
#[tactic(auto, using(crate::proofs::Theorem::runs_are_unsplit))]
pub fn runs_are_unsplit<R>()
    ensures { RunsAreUnsplit R }
{}

/// No run is stuck: each call has an answer.
pub fn runs_go_on<R>()
    ensures { RunsGoOn R }
{}

/// In a run no hand is refused for a plan, a frame, an open turn or a history.
pub fn runs_are_smooth<R>()
    ensures { RunsAreSmooth R }
{}

/// In a run each call by another plan than the array's is refused by row 2 and changes nothing.
#[tactic(auto, using(crate::proofs::Refusals::other_plans_refused))]
pub fn other_plans_refused<R>()
    ensures { OtherPlansRefused R }
{}

/// What starting three and seven boxes posts, worked out by hand.
pub fn starts_worked()
    ensures { Worked }
{}

/// Where no post meets a full box there are as many posts as frames, so seven boxes, of which two may fail, start with six.
pub fn posts_counted<R>()
    ensures { PostsCounted R }
{}

#![tactic(auto)]

ghost use Rattle.std.specs.Prelude.{◌≡◌, ◌+◌, ◌*◌, ◌/◌, ◌%◌, ◌<◌, Some};
ghost use Rattle.frames.specs.Contents.{plan_byte, NamesKind};
ghost use Rattle.frames.specs.Examples.{Worked, WorkedPlans};
ghost use Rattle.frames.specs.Laws.{WrittenReadsBack, ReadWritesBack, OneWriting, WrittenFits, FrontFirst};
ghost use Rattle.frames.specs.Plans.{Makes, dummy_reach};
ghost use Rattle.frames.specs.Rows.{plan_row, frame_row, cause_name, frame_fault_words};

use std::fmt;

mod ids;
pub mod plan;
mod refusal;

pub use ids::IdSet;
pub use plan::Plan;
pub use refusal::Refusal;

/// Why numbers are no plan.
#[derive(Clone, Copy, Debug, PartialEq, Eq)]
pub enum PlanFault {
    /// n is not 3 to 7, f not 1 or 2, or n below f(f+1)+1.
    Plan,
}

/// An order: its id, which is 16 times the sending box and a serial of 1 to 15, and its body.
#[derive(Clone, Copy, Debug, PartialEq, Eq)]
pub struct Entry {
    pub id: u8,
    pub body: [u8; 8],
}

/// The longest frame: a head of ten bytes, and ten for each of fifteen orders of seven boxes, each in a decision of its own.
pub const FRAME_MAX: usize = 1060;

/// The most boxes that a plan has.
pub const BOXES_MAX: usize = 7;

/// The refusal that carries a frame's fault, in every layer.
const FRAME_ROW: u8 = 9;

/// What a frame is, by its first byte.
#[derive(Clone, Copy, Debug, PartialEq, Eq)]
pub enum FrameKind {
    Order = 1,
    Token = 2,
}

/// What is wrong with the first byte at fault of a frame.
#[derive(Clone, Copy, Debug, PartialEq, Eq)]
pub enum Cause {
    /// The frame ends before this byte, or should have ended.
    Length,
    /// No kind of frame.
    Kind,
    /// Another plan's frame.
    Plan,
    /// A number outside its limits.
    Range,
    /// An id that repeats or descends.
    Ids,
}

/// The first byte at fault of a frame.
#[derive(Clone, Copy, Debug, PartialEq, Eq)]
pub struct FrameFault {
    pub place: usize,
    pub cause: Cause,
}

/// A frame that was read, by kind; its parts are the frame's own bytes.
/// A token's stamp is its round and one, so that a dummy, of round -1, has stamp 0.
/// `decided` is the head's own count of the decisions; the bytes hold as many.
#[derive(Clone, Copy, Debug, PartialEq, Eq)]
pub enum Frame<'a> {
    Order {
        entry: &'a [u8],
    },
    Token {
        sender: u8,
        stamp: u32,
        votes: u8,
        proposal: &'a [u8],
        decided: u8,
        decisions: &'a [u8],
    },
}

impl Plan {
    /// The plan of n boxes of which f may fail.
    pub fn new(n: u8, f: u8) -> Result<Plan, PlanFault>
        ensures { Makes n f result }
    {
        let least = match f {
            1 => 3,
            2 => 7,
            _ => return Err(PlanFault::Plan),
        };
        if n < least || n > 7 {
            return Err(PlanFault::Plan);
        }
        Ok(Plan { n, f })
    }

    /// The same plan once more, for another seat of it: a plan is moved, not copied, so that each seat has asked for its own.
    pub fn again(&self) -> Plan
        ensures { result ≡ self.now }
    {
        Plan {
            n: self.boxes(),
            f: self.tolerance(),
        }
    }

    /// How many boxes there are.
    pub fn boxes(&self) -> u8
        ensures { result ≡ self.now.n }
    {
        self.n
    }

    /// How many boxes may fail.
    pub fn tolerance(&self) -> u8
        ensures { result ≡ self.now.f }
    {
        self.f
    }

    /// The byte by which a frame names its plan.
    pub fn byte(&self) -> u8
        ensures { result ≡ plan_byte self.now }
    {
        16 * self.boxes() + self.tolerance()
    }

    /// The k-th successor of box i.
    pub fn successor(&self, i: u8, k: u8) -> u8
        ensures { result ≡ (i + k) % self.now.n }
    {
        ((i as u16 + k as u16) % self.boxes() as u16) as u8
    }

    /// The k-th predecessor of box i: the box whose k-th successor is i.
    pub fn predecessor(&self, i: u8, k: u8) -> u8
        ensures inside { result < self.now.n }
        ensures back { (result + k) % self.now.n ≡ i % self.now.n }
    {
        // k steps back are k times n - 1 steps forward
        let boxes = self.boxes() as u16;
        ((i as u16 + k as u16 * (boxes - 1)) % boxes) as u8
    }

    /// How far a dummy from box j goes at the start: to the boxes 1 to this one, and to none if it is 0.
    pub fn dummy_reach(&self, j: u8) -> u8
        ensures { result ≡ dummy_reach self.now j }
    {
        let boxes = self.boxes();
        let tolerance = self.tolerance();
        if j >= boxes || j + tolerance < boxes {
            return 0;
        }
        j + tolerance + 1 - boxes
    }
}

impl Entry {
    /// The box that sent the order.
    pub fn sender(&self) -> u8
        ensures { result ≡ self.now.id / 16 }
    {
        self.id / 16
    }

    /// The number of the order among those of its box.
    pub fn serial(&self) -> u8
        ensures { result ≡ self.now.id % 16 }
    {
        self.id % 16
    }
}

impl TryFrom<u8> for FrameKind {
    type Error = Cause;

    ghost try_from_gives = { NamesKind };

    fn try_from(byte: u8) -> Result<FrameKind, Cause> {
        match byte {
            1 => Ok(FrameKind::Order),
            2 => Ok(FrameKind::Token),
            _ => Err(Cause::Kind),
        }
    }
}

impl Refusal for PlanFault {
    ghost number = { plan_row };

    fn row(&self) -> u8 {
        match *self {
            PlanFault::Plan => 2,
        }
    }
}

impl Refusal for FrameFault {
    ghost number = { frame_row };

    fn row(&self) -> u8 {
        FRAME_ROW
    }
}

impl Cause {
    /// The cause in a word, which printing writes.
    pub fn name(&self) -> &'static str
        ensures { result.now ≡ cause_name self.now }
    {
        match *self {
            Cause::Length => "length",
            Cause::Kind => "kind",
            Cause::Plan => "plan",
            Cause::Range => "range",
            Cause::Ids => "ids",
        }
    }
}

impl fmt::Display for Cause {
    ghost output = { λ c. Some (cause_name c) };

    fn fmt<W: fmt::Write>(&self, f: &mut fmt::Formatter<W>) -> fmt::Result {
        f.write_str(self.name())
    }
}

impl fmt::Display for FrameFault {
    ghost output = { λ e. Some (frame_fault_words e) };

    fn fmt<W: fmt::Write>(&self, f: &mut fmt::Formatter<W>) -> fmt::Result {
        let place = self.place;
        let cause = self.cause;
        write!(f, "byte {place}, {cause}")
    }
}

/// Seven boxes of which two may fail are a plan, and six are refused.
pub fn plan_examples() -> (Result<Plan, PlanFault>, Result<Plan, PlanFault>)
    ensures { WorkedPlans result.0 result.1 }
{
    (Plan::new(7, 2), Plan::new(6, 2))
}

/// Lawful contents, written and read, are read as themselves.
pub fn written_reads_back()
    ensures { WrittenReadsBack }
{}

/// Bytes that read as contents are what those contents are written as, and the contents are lawful.
pub fn read_writes_back()
    ensures { ReadWritesBack }
{}

/// No two byte strings read as the same contents.
pub fn one_writing()
    ensures { OneWriting }
{}

/// Lawful contents are written in bytes, at most 10 and 150 for each box.
pub fn written_fits()
    ensures { WrittenFits }
{}

/// Reading goes from the front: a front of a frame ends early, what follows a frame is at fault, and another fault stays.
pub fn front_first()
    ensures { FrontFirst }
{}

/// Frames worked out by hand.
pub fn frame_examples()
    ensures { Worked }
{}

//! A box by its types: a checked plan gives a seat, a seat can only be started, and only a started box is called.

#![tactic(auto)]

ghost use Rattle.std.specs.Prelude.{◌≡◌, ◌<◌, ◌≤◌, true, false, [], length, OnOk, if◌then◌else◌, nat_eq, nat_lt};
ghost use Rattle.frames.specs.Contents.{LawfulEntry, LawfulToken, frame_most, token_bytes, bytes_of};
ghost use Rattle.frames.specs.Contents.Content.{order};
ghost use Rattle.boxes.specs.Turns.{started, next_entry, sending};
ghost use Rattle.boxes.specs.Calls.{off_fault, state_call, refused_or, stayed_or, at_front, written_or};
ghost use Rattle.records.specs.Records.{box_of, KeepsRules};
ghost use Rattle.writing.specs.Parted.{a_token};
ghost use Rattle.ring.specs.Seats.{Seated, StartedAs, StartsAs, TakenUp, started_row, opening_bytes};
ghost use Rattle.ring.specs.Calls.{JudgedRow, kept_row, doubted_row, off_row, own_fault, own_call, CanSend, sent_row, ReadsAs};

use boxes::BoxFault;
use frames::{Entry, FRAME_MAX, Plan};
use lists::Entries;
use logs::Log;
use records::BoxRecord;
use writing::{Draft, write_order, write_token};

/// How many orders a box can give.
const SERIALS: u8 = 15;

pub mod seats;

pub use seats::{Seat, StartedBox};

impl Seat {
    /// The seat of this number, if the plan has it.
    pub fn new(plan: Plan, at: u8) -> Result<Seat, BoxFault>
        ensures { Seated plan at result }
    {
        if at >= plan.boxes() {
            return Err(BoxFault::Plan);
        }
        Ok(Seat { plan, at })
    }

    /// Starts the box: its record is written whole, whatever it held.
    pub fn start(self, row: &mut BoxRecord) -> StartedBox
        ensures started { StartedAs self result }
        ensures row { row.new ≡ started_row self.plan self.at }
        ensures meaning { box_of row.new ≡ started self.plan self.at }
        ensures rules { KeepsRules self.plan self.at row.new }
    {
        let awaited = self.first_awaited();
        let Seat { plan, at } = self;
        *row = BoxRecord {
            n: plan.boxes(),
            f: plan.tolerance(),
            seat: at,
            awaited,
            log: Log::new(),
            unordered: Entries::new(),
            last: 0,
            doubt: false,
            on: true,
            turn: None,
        };
        StartedBox { plan, at }
    }

    /// Starts the box: its record is written whole, whatever it held, and the frame with which it opens the ring stands at the
    /// front of the buffer. Answers that frame's length, which is 0 where the box opens with none: box 0 opens with the token
    /// of round 0, the last f boxes with a dummy. A refusal, a box's fault as of every call of a box, hands the seat back.
    pub fn open(
        self,
        row: &mut BoxRecord,
        out: &mut [u8],
    ) -> Result<(StartedBox, usize), (BoxFault, Seat)>
        ensures started { StartsAs self (length out.old) result }
        ensures row { row.new ≡ (if nat_lt (length out.old) frame_most then row.old else started_row self.plan self.at) }
        ensures meaning { box_of row.new ≡ (if nat_lt (length out.old) frame_most then box_of row.old else started self.plan self.at) }
        ensures rules { frame_most ≤ length out.old → KeepsRules self.plan self.at row.new }
        ensures buffer { out.new ≡ (if nat_lt (length out.old) frame_most then out.old else at_front (opening_bytes self.plan self.at) out.old) }
    {
        if out.len() < FRAME_MAX {
            return Err((BoxFault::Short, self));
        }
        let length = self.write_opening(out);
        Ok((self.start(row), length))
    }

    /// The round that the box first awaits: that of its number, but box 0 passes round 0 by starting the ring.
    fn first_awaited(&self) -> u32
        ensures { result ≡ (if nat_eq self.now.at 0 then self.now.plan.n else self.now.at) }
    {
        match self.at {
            0 => u32::from(self.plan.boxes()),
            at => u32::from(at),
        }
    }

    /// Writes the frame with which the box opens the ring, if it opens with one, and answers its length.
    fn write_opening(&self, out: &mut [u8]) -> usize
        requires { frame_most ≤ length out.old }
        ensures long { result ≡ length (opening_bytes self.now.plan self.now.at) }
        ensures buffer { out.new ≡ at_front (opening_bytes self.now.plan self.now.at) out.old }
    {
        if self.at == 0 {
            return write_empty(&self.plan, self.at, 1, 1, out);
        }
        if self.at >= self.plan.boxes() - self.plan.tolerance() {
            return write_empty(&self.plan, self.at, 0, 0, out);
        }
        0
    }

    /// The started box of a record that is on and keeps the rules; a refusal hands the seat back.
    pub fn take_up(self, row: &BoxRecord) -> Result<StartedBox, (BoxFault, Seat)>
        ensures { TakenUp self row.now result }
    {
        // not `map_err`: its closure would take the seat where nothing is refused, too
        if let Err(fault) = row.check_on(&self.plan, self.at) {
            return Err((fault, self));
        }
        let Seat { plan, at } = self;
        Ok(StartedBox { plan, at })
    }
}

/// Writes a lawful token that proposes and has decided nothing, and answers its length.
fn write_empty(plan: &Plan, sender: u8, stamp: u32, votes: u8, out: &mut [u8]) -> usize
    requires lawful { LawfulToken plan.now (a_token sender stamp votes [] [] []) }
    requires room { frame_most ≤ length out.old }
    ensures long { result ≡ length (token_bytes plan.now (a_token sender stamp votes [] [] [])) }
    ensures buffer { out.new ≡ at_front (token_bytes plan.now (a_token sender stamp votes [] [] [])) out.old }
{
    let draft = Draft {
        sender,
        stamp,
        votes,
        proposal: &[],
        lengths: &[],
        entries: &[],
    };
    // lawful contents are never refused
    write_token(plan, &draft, out).unwrap()
}

// A record is a plain value that may hold anything, so what was tested of it is asked for and not kept in its type.
impl StartedBox {
    /// The plan of the box.
    pub fn plan(&self) -> &Plan
        ensures { result.now ≡ self.now.plan }
    {
        &self.plan
    }

    /// The number of the box.
    pub fn at(&self) -> u8
        ensures { result ≡ self.now.at }
    {
        self.at
    }

    /// Gives the box's next order: it takes the next serial, is unordered at its own box, and its frame stands at the front of the
    /// buffer. Answers its id and the length of its frame.
    pub fn send(
        &self,
        row: &mut BoxRecord,
        body: &[u8; 8],
        out: &mut [u8],
    ) -> Result<(u8, usize), BoxFault>
        ensures answer { JudgedRow self.now.plan self.now.at row.old (own_call self.now.plan (box_of row.old) body.now (length out.old)) result }
        ensures row { JudgedRow self.now.plan self.now.at row.old (λ kept. kept_row (own_fault (box_of row.old) (length out.old) kept) row.old (sent_row body.now row.old)) row.new }
        ensures meaning { JudgedRow self.now.plan self.now.at row.old (λ kept. stayed_or (own_fault (box_of row.old) (length out.old) kept) (box_of row.old) (sending (box_of row.old) body.now)) (box_of row.new) }
        ensures buffer { JudgedRow self.now.plan self.now.at row.old (λ kept. written_or (own_fault (box_of row.old) (length out.old) kept) out.old (bytes_of self.now.plan (order (next_entry (box_of row.old) body.now)))) out.new }
        ensures stays { KeepsRules self.now.plan self.now.at row.old → KeepsRules self.now.plan self.now.at row.new }
        ensures reads { ReadsAs self.now.plan (next_entry (box_of row.old) body.now) result out.new }
    {
        self.check_send(row, out.len())?;
        let entry = self.take_serial(row, body);
        // lawful contents are never refused
        let length = write_order(&self.plan, &entry, out).unwrap();
        Ok((entry.id, length))
    }

    /// Refuses the box's next order where the buffer is short, the record is off or does not keep the rules, or no serial is left.
    fn check_send(&self, row: &BoxRecord, room: usize) -> Result<(), BoxFault>
        ensures fault { JudgedRow self.now.plan self.now.at row.now (λ kept. refused_or (own_fault (box_of row.now) room kept) tt) result }
        ensures cleared { OnOk result (CanSend self.now.plan self.now.at row.now room) }
    {
        if room < FRAME_MAX {
            return Err(BoxFault::Short);
        }
        row.check_on(&self.plan, self.at)?;
        if row.last >= SERIALS {
            return Err(BoxFault::Serials);
        }
        Ok(())
    }

    /// Takes the next serial for an order with this body, which is then unordered.
    fn take_serial(&self, row: &mut BoxRecord, body: &[u8; 8]) -> Entry
        requires rules { KeepsRules self.now.plan self.now.at row.old }
        requires left { row.old.last < 15 }
        ensures entry { result ≡ next_entry (box_of row.old) body.now }
        ensures lawful { LawfulEntry self.now.plan result }
        ensures row { row.new ≡ sent_row body.now row.old }
        ensures meaning { box_of row.new ≡ sending (box_of row.old) body.now }
        ensures rules { KeepsRules self.now.plan self.now.at row.new }
    {
        let entry = Entry {
            id: 16 * self.at + row.last + 1,
            body: *body,
        };
        // fewer than 105 entries are unordered while a serial is left
        row.unordered.insert(entry).unwrap();
        row.last += 1;
        entry
    }

    /// Doubts the predecessor.
    pub fn doubt(&self, row: &mut BoxRecord) -> Result<(), BoxFault>
        ensures answer { JudgedRow self.now.plan self.now.at row.old (state_call (box_of row.old)) result }
        ensures row { JudgedRow self.now.plan self.now.at row.old (λ kept. kept_row (off_fault (box_of row.old) kept) row.old (doubted_row true row.old)) row.new }
        ensures stays { KeepsRules self.now.plan self.now.at row.old → KeepsRules self.now.plan self.now.at row.new }
    {
        self.set_doubt(row, true)
    }

    /// Trusts the predecessor again.
    pub fn trust(&self, row: &mut BoxRecord) -> Result<(), BoxFault>
        ensures answer { JudgedRow self.now.plan self.now.at row.old (state_call (box_of row.old)) result }
        ensures row { JudgedRow self.now.plan self.now.at row.old (λ kept. kept_row (off_fault (box_of row.old) kept) row.old (doubted_row false row.old)) row.new }
        ensures stays { KeepsRules self.now.plan self.now.at row.old → KeepsRules self.now.plan self.now.at row.new }
    {
        self.set_doubt(row, false)
    }

    /// Sets whether the predecessor is doubted.
    fn set_doubt(&self, row: &mut BoxRecord, doubt: bool) -> Result<(), BoxFault>
        ensures answer { JudgedRow self.now.plan self.now.at row.old (state_call (box_of row.old)) result }
        ensures row { JudgedRow self.now.plan self.now.at row.old (λ kept. kept_row (off_fault (box_of row.old) kept) row.old (doubted_row doubt row.old)) row.new }
        ensures stays { KeepsRules self.now.plan self.now.at row.old → KeepsRules self.now.plan self.now.at row.new }
    {
        row.check_on(&self.plan, self.at)?;
        row.doubt = doubt;
        Ok(())
    }

    // Not one call that takes the change as a closure: its contract would be longer than the three.

    /// Switches the box off. An open turn is still to be ended.
    pub fn switch_off(&self, row: &mut BoxRecord) -> Result<(), BoxFault>
        ensures answer { JudgedRow self.now.plan self.now.at row.old (state_call (box_of row.old)) result }
        ensures row { JudgedRow self.now.plan self.now.at row.old (λ kept. kept_row (off_fault (box_of row.old) kept) row.old (off_row row.old)) row.new }
        ensures stays { KeepsRules self.now.plan self.now.at row.old → KeepsRules self.now.plan self.now.at row.new }
    {
        row.check_on(&self.plan, self.at)?;
        row.on = false;
        Ok(())
    }
}

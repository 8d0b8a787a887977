//! A frame taken out of its bytes, into tables like those of a box.

#![tactic(auto)]

ghost use Rattle.std.specs.Prelude.{◌≡◌, ◌≤◌, length, IsOk, IfOk};
ghost use Rattle.frames.specs.Reading.{read_as};
ghost use Rattle.lists.specs.Tables.{room};
ghost use Rattle.received.specs.Received.{contents_in, HoldsLawful};
ghost use Rattle.received.specs.Unpacking.{Tabled, Logged, Loggable};

use frames::{Entry, Frame, FrameFault, Plan};
use lists::{Entries, TableFull};
use logs::{AppendFault, Log};
use parts::{DecisionsIn, EntriesIn, entry_at};
use reading::read;

/// A token out of its frame, its lists in tables.
#[derive(Clone, Copy, Debug, PartialEq, Eq)]
pub struct ReceivedToken {
    pub sender: u8,
    pub stamp: u32,
    pub votes: u8,
    pub proposal: Entries,
    pub log: Log,
}

/// The contents of a frame.
#[derive(Clone, Copy, Debug, PartialEq, Eq)]
pub enum Received {
    Order(Entry),
    Token(ReceivedToken),
}

/// Reads a frame for a plan and takes its contents out of its bytes.
pub fn receive(plan: &Plan, bytes: &[u8]) -> Result<Received, FrameFault>
    ensures contents { contents_in result ≡ read_as plan.now bytes.now }
    ensures lawful { HoldsLawful plan.now result }
{
    Ok(match read(plan, bytes)? {
        Frame::Order { entry } => Received::Order(entry_at(entry, 0).unwrap()),
        Frame::Token {
            sender,
            stamp,
            votes,
            proposal,
            decisions,
            ..
        } => Received::Token(ReceivedToken {
            sender,
            stamp,
            votes,
            // the tables have room for all that a frame holds
            proposal: unpack_entries(EntriesIn::new(proposal)).unwrap(),
            log: unpack_decisions(DecisionsIn::new(decisions)).unwrap(),
        }),
    })
}

/// The table of the entries, if it has room for them.
fn unpack_entries(entries: EntriesIn<'_>) -> Result<Entries, TableFull>
    ensures table { IfOk result (Tabled entries.entry) }
    ensures fits { length entries.entry ≤ room → IsOk result }
{
    let mut table = Entries::new();
    for entry in entries {
        table.extend(&[entry])?;
    }
    Ok(table)
}

/// The log of the decisions, if none is empty and it has room for them.
fn unpack_decisions(decisions: DecisionsIn<'_>) -> Result<Log, AppendFault>
    ensures log { IfOk result (Logged decisions.entry) }
    ensures fits { Loggable decisions.entry → IsOk result }
{
    let mut log = Log::new();
    for decision in decisions {
        log.append(unpack_entries(decision)?.part())?;
    }
    Ok(log)
}

ghost use Rattle.std.specs.Prelude.{◌≡◌, Some, IfOk, string_bytes};
ghost use Rattle.frames.specs.declared.plan.Plan.{Plan as APlan};
ghost use Rattle.frames.specs.Contents.{Content, Lawful};
ghost use Rattle.frames.specs.Views.{view_of, shown};
ghost use Rattle.lines.specs.Digits.{line_of};
ghost use Rattle.parts.specs.Going.{entries_of, decisions_of};
ghost use Rattle.inspect.specs.Telling.{entry_words, entry_lines, prefix_of, decision_lines, votes_words, head_line, frame_words, fault_words};

use crate::texts::TextFault;
use frames::{Entry, Frame, Refusal};
use parts::{DecisionsIn, EntriesIn};
use std::alloc::{AllocError, Global};
use std::fmt;

/// The digits of bytes, two for each.
#[derive(Clone, Copy, Debug, PartialEq, Eq)]
struct Digits<'a>(&'a [u8]);

/// An entry: its id, the box and the serial that this tells, and its body.
#[derive(Clone, Copy, Debug, PartialEq, Eq)]
struct EntryWords(Entry);

/// What the entries of a list are in their frame.
#[derive(Clone, Copy, Debug, PartialEq, Eq)]
enum Role {
    Order,
    Proposed,
    /// They are a decision, whose number this is.
    Decided(usize),
}

/// A line of text for each entry in the bytes of entries.
#[derive(Clone, Copy, Debug, PartialEq, Eq)]
struct EntryLines<'a> {
    role: Role,
    part: &'a [u8],
}

/// The lines of text for the decisions in the bytes of decisions, which are numbered from 1.
#[derive(Clone, Copy, Debug, PartialEq, Eq)]
struct DecisionLines<'a>(&'a [u8]);

/// How many votes there are.
#[derive(Clone, Copy, Debug, PartialEq, Eq)]
struct Votes(u8);

/// The line of text for a token's head.
#[derive(Clone, Copy, Debug, PartialEq, Eq)]
struct HeadLine {
    sender: u8,
    stamp: u32,
    votes: Votes,
}

/// What a frame holds, a line of text for each part.
pub(crate) fn frame_words(heap: Global, frame: Frame<'_>) -> Result<String, AllocError>
    ensures { IfOk result (λ s. (p : APlan) (c : Content) → Lawful p c → view_of frame.entry ≡ shown c → string_bytes s ≡ frame_words c) }
{
    match frame {
        Frame::Order { entry } => {
            let order = EntryLines {
                role: Role::Order,
                part: entry,
            };
            format!(in heap; "{order}")
        }
        Frame::Token {
            sender,
            stamp,
            votes,
            proposal,
            decisions,
            ..
        } => {
            let head = HeadLine {
                sender,
                stamp,
                votes: Votes(votes),
            };
            let proposed = EntryLines {
                role: Role::Proposed,
                part: proposal,
            };
            let agreed = DecisionLines(decisions);
            format!(in heap; "{head}{proposed}{agreed}")
        }
    }
}

/// A fault: its row, its place if it has one, and its cause.
pub(crate) fn fault_words(heap: Global, fault: TextFault) -> Result<String, AllocError>
    ensures { IfOk result (λ s. string_bytes s ≡ fault_words fault) }
{
    let row = fault.row();
    format!(in heap; "fault: row {row}, {fault}\n")
}

impl fmt::Display for HeadLine {
    ghost output = { λ h. Some (head_line h.sender h.stamp h.votes.0) };

    fn fmt<W: fmt::Write>(&self, f: &mut fmt::Formatter<W>) -> fmt::Result {
        let sender = self.sender;
        if self.stamp == 0 {
            return writeln!(f, "dummy from box {sender}");
        }
        let round = self.stamp - 1;
        let votes = self.votes;
        writeln!(f, "token from box {sender}, round {round}, {votes}")
    }
}

impl fmt::Display for Votes {
    ghost output = { λ v. Some (votes_words v.0) };

    fn fmt<W: fmt::Write>(&self, f: &mut fmt::Formatter<W>) -> fmt::Result {
        let votes = self.0;
        if votes == 1 {
            return write!(f, "1 vote");
        }
        write!(f, "{votes} votes")
    }
}

impl<'a> fmt::Display for DecisionLines<'a> {
    ghost output = { λ d. Some (decision_lines 1 (decisions_of d.0.now)) };

    fn fmt<W: fmt::Write>(&self, f: &mut fmt::Formatter<W>) -> fmt::Result {
        for (k, decision) in DecisionsIn::new(self.0).enumerate() {
            let role = Role::Decided(k + 1);
            let part = decision.as_bytes();
            let lines = EntryLines { role, part };
            write!(f, "{lines}")?;
        }
        Ok(())
    }
}

impl<'a> fmt::Display for EntryLines<'a> {
    ghost output = { λ l. Some (entry_lines (prefix_of l.role) (entries_of l.part.now)) };

    fn fmt<W: fmt::Write>(&self, f: &mut fmt::Formatter<W>) -> fmt::Result {
        let role = self.role;
        for entry in EntriesIn::new(self.part) {
            let words = EntryWords(entry);
            writeln!(f, "{role}{words}")?;
        }
        Ok(())
    }
}

impl fmt::Display for Role {
    ghost output = { λ r. Some (prefix_of r) };

    fn fmt<W: fmt::Write>(&self, f: &mut fmt::Formatter<W>) -> fmt::Result {
        match *self {
            Role::Order => write!(f, "order "),
            Role::Proposed => write!(f, "  proposed "),
            Role::Decided(number) => write!(f, "  decision {number}: "),
        }
    }
}

impl fmt::Display for EntryWords {
    ghost output = { λ w. Some (entry_words w.0) };

    fn fmt<W: fmt::Write>(&self, f: &mut fmt::Formatter<W>) -> fmt::Result {
        let entry = self.0;
        let id = Digits(&[entry.id]);
        let sender = entry.sender();
        let serial = entry.serial();
        let body = Digits(&entry.body);
        write!(f, "{id} (box {sender}, serial {serial}): {body}")
    }
}

impl<'a> fmt::Display for Digits<'a> {
    ghost output = { λ d. Some (line_of d.0.now) };

    fn fmt<W: fmt::Write>(&self, f: &mut fmt::Formatter<W>) -> fmt::Result {
        for &byte in self.0 {
            write!(f, "{byte:02X}")?;
        }
        Ok(())
    }
}

#![tactic(auto)]

ghost use Rattle.std.specs.Prelude.{◌≡◌, ◌+◌, ◌*◌, ◌<◌, ◌≤◌, true, [], ◌∷◌, ◌++◌, length, if◌then◌else◌, is_ok, IfErr, Decides, sum};
ghost use Rattle.std.specs.Option.{option_map};
ghost use Rattle.std.specs.List.{flat_map, slice_get};
ghost use Rattle.frames.specs.Contents.{ids_of};
ghost use Rattle.frames.specs.Ids.{Holds};
ghost use Rattle.lists.specs.Tables.{room, held};
ghost use Rattle.logs.specs.declared.AppendFault.TheVariants.{Full};
ghost use Rattle.logs.specs.Logs.{lengths_of, log_of, adds_up, empty_log, decision_at, takes, appended, Refuses, BeginsLog, BeginsByParts};

use frames::{Entry, IdSet};
use lists::{ENTRIES, Entries, TableFull, begins};

/// How many decisions a log holds at most: each has an entry.
pub const DECISIONS: usize = ENTRIES;

/// Why a log refuses a decision.
#[derive(Clone, Copy, Debug, PartialEq, Eq)]
pub enum AppendFault {
    /// The log does not add up.
    Unsound,
    /// The decision has no entry.
    Empty,
    /// There is no room for one more decision, or for its entries.
    Full,
}

impl From<TableFull> for AppendFault {
    ghost from_gives = { λ _ fault. fault ≡ Full };

    fn from(_full: TableFull) -> AppendFault {
        AppendFault::Full
    }
}

/// The decisions of a box, their entries one after the other in one table. It is a plain value with public fields, which may hold anything.
#[derive(Clone, Copy, Debug, PartialEq, Eq)]
pub struct Log {
    pub entries: Entries,
    pub lengths: [u8; DECISIONS],
    pub decided: u8,
}

impl Log {
    /// A log with no decision.
    pub fn new() -> Log
        ensures log { result ≡ empty_log }
        ensures meaning { log_of result ≡ [] }
        ensures sound { adds_up result ≡ true }
    {
        Log {
            entries: Entries::new(),
            lengths: [0; DECISIONS],
            decided: 0,
        }
    }

    /// The lengths of the decisions; all there are where the number of decisions is past them, as `Entries::part` has it.
    pub fn decision_lengths(&self) -> &[u8]
        ensures meaning { result.now ≡ lengths_of self.now }
        ensures few { length result.now ≤ room }
    {
        let n = self.decided as usize;
        self.lengths.get(..n).unwrap_or(&self.lengths)
    }

    /// Whether the counts fit and the decisions' lengths add up to the entries.
    pub fn adds_up(&self) -> bool
        ensures { result ≡ adds_up self.now }
    {
        self.entries.fits()
            && self.decided as usize <= DECISIONS
            && total(self.decision_lengths()) == self.entries.part().len()
    }

    /// Decision k: the entries from its start to its end.
    pub fn decision(&self, k: usize) -> Option<&[Entry]>
        ensures part { option_map (λ x. x.now) result ≡ decision_at self.now k }
        ensures meaning { adds_up self.now ≡ true → option_map (λ x. x.now) result ≡ slice_get (log_of self.now) k }
    {
        let lengths = self.decision_lengths();
        let length = *lengths.get(k)? as usize;
        let start = total(&lengths[..k]);
        let end = start + length;
        self.entries.part().get(start..end)
    }

    /// Whether this log's decisions are the first ones of the other.
    pub fn begins_log(&self, other: &Log) -> bool
        ensures parts { Decides result (BeginsByParts self.now other.now) }
        ensures meaning { adds_up self.now ≡ true → adds_up other.now ≡ true → Decides result (BeginsLog self.now other.now) }
    {
        begins(self.decision_lengths(), other.decision_lengths())
            && begins(self.entries.part(), other.entries.part())
    }

    /// The ids in the log.
    pub fn ids(&self) -> IdSet
        ensures entries { Holds result (ids_of (held self.now.entries)) }
        ensures meaning { adds_up self.now ≡ true → Holds result (flat_map ids_of (log_of self.now)) }
    {
        self.entries.ids()
    }

    /// Puts one more decision at the end.
    pub fn append(&mut self, decision: &[Entry]) -> Result<(), AppendFault>
        ensures answer { is_ok result ≡ takes self.old decision.now }
        ensures why { IfErr result (Refuses self.old decision.now) }
        ensures log { self.new ≡ (if is_ok result then appended decision.now self.old else self.old) }
        ensures meaning { log_of self.new ≡ (if is_ok result then log_of self.old ++ decision.now ∷ [] else log_of self.old) }
        ensures sound { adds_up self.old ≡ true → adds_up self.new ≡ true }
        ensures room { adds_up self.old ≡ true → 0 < length decision.now → length (log_of self.old) < room → length (held self.old.entries) + length decision.now ≤ room → is_ok result ≡ true }
    {
        if !self.adds_up() {
            return Err(AppendFault::Unsound);
        }
        if decision.is_empty() {
            return Err(AppendFault::Empty);
        }
        if self.decided as usize >= DECISIONS {
            return Err(AppendFault::Full);
        }
        self.entries.extend(decision)?;
        self.lengths[self.decided as usize] = decision.len() as u8;
        self.decided += 1;
        Ok(())
    }
}

/// The sum of the lengths. `writing` sums the lengths of a draft in the same way, under another bound.
fn total(lengths: &[u8]) -> usize
    requires { length lengths.now ≤ room }
    ensures meaning { result ≡ sum lengths.now }
    ensures small { result ≤ 255 * length lengths.now }
{
    lengths.iter().map(|c| *c as usize).sum()
}

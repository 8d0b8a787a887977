ghost use Rattle.std.specs.Prelude.{◌≡◌};
ghost use Rattle.machines.specs.HeadRules.{head_fresh, head_reading, may_stand, may_point, zeroed, right_ascension, head_told, head_done, head_left};
ghost use Rattle.machines.specs.HeadLaws.{HeadInRange, HeadStaysInRange, HeadMovesAsTold, RunLimit, RunExample};
ghost use Rattle.machines.specs.Telling.{told_all};
ghost use Rattle.std.proofs.Common.{rules};

mod order;
mod standing;

use crate::{Machine, telling};
use standing::Standing;

/// A mount's head. Its right ascension is `mark + counter`, in steps.
///
/// The fields are plain and may hold anything: a head that cannot stand as they say reads as the
/// fresh one, and is told as the fresh one.
#[derive(Clone, Copy, Debug, PartialEq, Eq)]
pub struct Head {
    /// 0 parked, 1 stopped, 2 tracking.
    pub mode: u8,
    /// Steps to a tick of a run.
    pub rate: i8,
    /// Where the counter began.
    pub mark: i32,
    /// The steps run since.
    pub counter: i32,
    pub declination: i32,
}

/// What a head's field `mode` may say: names for its numbers, since the field is plain.
#[derive(Clone, Copy, Debug, PartialEq, Eq)]
enum Mode {
    Parked = 0,
    Stopped = 1,
    Tracking = 2,
}

const RATE_LIMIT: u8 = 100;

const ASCENSION_LIMIT: u32 = 4_000_000;

const DECLINATION_LIMIT: u32 = 2_000_000;

impl Head {
    /// Parked, with zeros.
    pub const FRESH: Head = Head {
        mode: Mode::Parked as u8,
        rate: 0,
        mark: 0,
        counter: 0,
        declination: 0,
    };

    /// What the head reads: itself if it may stand so, else the fresh head.
    #[tactic(auto, using(crate::proofs::HeadRange::in_range))]
    pub fn shown(&self) -> Head
        ensures reading { result ≡ head_reading self.now }
        ensures in_range { HeadInRange result }
    {
        Standing::from(*self).head
    }

    // Once for each machine, since what is shown is a type of its own.

    /// What a fresh head reads once it is told the bodies, in their order.
    pub fn after(bodies: &[[u8; 8]]) -> Head
        ensures told { result ≡ told_all head_told head_fresh bodies.now }
        ensures in_range { HeadInRange result }
    {
        telling::told(Head::FRESH, bodies).shown()
    }

    fn may_stand(&self) -> bool
        ensures { result ≡ may_stand self.now }
    {
        self.mode <= Mode::Tracking as u8
            && self.rate.unsigned_abs() <= RATE_LIMIT
            && self.may_point()
            && (self.mode != Mode::Parked as u8 || self.zeroed())
    }

    fn may_point(&self) -> bool
        ensures { result ≡ may_point self.now }
    {
        self.mark.unsigned_abs() <= ASCENSION_LIMIT
            && self.right_ascension().unsigned_abs() <= u64::from(ASCENSION_LIMIT)
            && self.declination.unsigned_abs() <= DECLINATION_LIMIT
    }

    fn zeroed(&self) -> bool
        ensures { result ≡ zeroed self.now }
    {
        self.rate == 0 && self.mark == 0 && self.counter == 0 && self.declination == 0
    }

    /// In 64 bits, since two fields that hold anything may pass 32.
    fn right_ascension(&self) -> i64
        ensures { result ≡ right_ascension self.now }
    {
        i64::from(self.mark) + i64::from(self.counter)
    }
}

impl Machine for Head {
    ghost Reading = { Self };

    ghost reading = { head_reading };

    ghost fresh = { head_fresh };

    ghost told = { head_told };

    ghost done = { head_done };

    ghost idle = { Prim.search rules };

    fn clear(&mut self)
        ensures cleared { head_reading self.new ≡ head_fresh }
        ensures head { self.new ≡ head_fresh }
    {
        *self = Head::FRESH;
    }

    #[tactic(auto, using(crate::proofs::HeadRange::head_stays_in_range, crate::proofs::HeadMotion::head_moves_as_told))]
    fn tell(&mut self, body: &[u8; 8]) -> bool
        ensures told { head_reading self.new ≡ head_told (head_reading self.old) body.now }
        ensures done { result ≡ head_done (head_reading self.old) body.now }
        ensures head { self.new ≡ head_left self.old body.now }
        ensures range_law { HeadStaysInRange }
        ensures moves_law { HeadMovesAsTold }
    {
        let Some(after) = Standing::from(*self).told(body) else {
            return false;
        };
        *self = after.head;
        true
    }
}

/// Two heads that track at rate 100, the first at right ascension 3,000,000 and the second a step
/// further, are told a run of 10,000 ticks. Answers each as it then reads and whether it was done,
/// side by side, as its statement names them.
pub fn run_example() -> (Head, bool, Head, bool)
    ensures example { RunExample result }
    ensures limit_law { RunLimit }
{
    let mut first = Head {
        mode: Mode::Tracking as u8,
        rate: 100,
        mark: 3_000_000,
        ..Head::FRESH
    };
    let mut second = Head {
        mark: 3_000_001,
        ..first
    };
    let first_done = first.tell(&LONG_RUN);
    let second_done = second.tell(&LONG_RUN);
    (first.shown(), first_done, second.shown(), second_done)
}

/// A run of 10,000 ticks.
const LONG_RUN: [u8; 8] = [0x03, 0, 0, 0x27, 0x10, 0, 0, 0];

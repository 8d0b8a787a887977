ghost use Rattle.std.specs.Prelude.{◌≡◌, ℕ, ◌<◌, true};
ghost use Rattle.machines.specs.Orders.{order_in};
ghost use Rattle.machines.specs.DomeRules.{dome_reading, dome_told, dome_done, after_turn, turned_by, dome_left};
ghost use Rattle.machines.specs.DomeLaws.{DomeStaysInRange, DomeTurnsAsTold, BackFromZero};
ghost use Rattle.machines.specs.Telling.{told_all};
ghost use Rattle.std.proofs.Common.{rules};

use crate::numbers::signed24;
use crate::{Machine, telling};
use std::marker::Model;

/// A dome, by its azimuth: 0 to 35,999 round the circle.
///
/// The field is plain and may hold anything: an azimuth outside the circle reads as 0, that of the
/// fresh dome, and is told as that.
#[derive(Clone, Copy, Debug, PartialEq, Eq)]
pub struct Dome {
    pub azimuth: u16,
}

const CIRCLE: u16 = 36_000;

const TURN: u8 = 0x11;

impl Dome {
    pub const FRESH: Dome = Dome { azimuth: 0 };

    /// The azimuth that the dome reads: its own if it is in the circle, else 0.
    pub fn shown(&self) -> u16
        ensures reading { result ≡ dome_reading self.now }
        ensures in_range { result < 36000 }
    {
        Azimuth::from(*self).place
    }

    /// What a fresh dome reads once it is told the bodies, in their order.
    pub fn after(bodies: &[[u8; 8]]) -> u16
        ensures told { result ≡ told_all dome_told 0 bodies.now }
        ensures in_range { result < 36000 }
    {
        telling::told(Dome::FRESH, bodies).shown()
    }
}

impl Machine for Dome {
    ghost Reading = { ℕ };

    ghost reading = { dome_reading };

    ghost fresh = { 0 };

    ghost told = { dome_told };

    ghost done = { dome_done };

    ghost idle = { Prim.search rules };

    fn clear(&mut self)
        ensures cleared { dome_reading self.new ≡ 0 }
        ensures dome { self.new.azimuth ≡ 0 }
    {
        *self = Dome::FRESH;
    }

    #[tactic(auto, using(crate::proofs::DomeRange::dome_stays_in_range, crate::proofs::DomeRange::dome_turns_as_told))]
    fn tell(&mut self, body: &[u8; 8]) -> bool
        ensures told { dome_reading self.new ≡ dome_told (dome_reading self.old) body.now }
        ensures done { result ≡ dome_done (dome_reading self.old) body.now }
        ensures dome { self.new.azimuth ≡ dome_left self.old body.now }
        ensures range_law { DomeStaysInRange }
        ensures turns_law { DomeTurnsAsTold }
    {
        let Some(after) = Azimuth::from(*self).told(body) else {
            return false;
        };
        self.azimuth = after.place;
        true
    }
}

/// An azimuth in the circle.
#[derive(Clone, Copy, Debug, PartialEq, Eq)]
struct Azimuth {
    place: u16,
}

impl Model for Azimuth {
    ghost Value = { ℕ };

    ghost view = { λ a. a.place };

    ghost invariant = { λ a. a.place < 36000 };

    ghost inverse = { λ n. record { place = n } };
}

impl From<Dome> for Azimuth {
    ghost from_gives = { λ dome a. a ≡ dome_reading dome };

    fn from(dome: Dome) -> Self {
        let place = if dome.azimuth < CIRCLE {
            dome.azimuth
        } else {
            0
        };
        Azimuth { place }
    }
}

impl Azimuth {
    /// The azimuth after a body, or nothing if it is not done.
    fn told(self, body: &[u8; 8]) -> Option<Azimuth>
        ensures { result ≡ after_turn self (order_in body.now) }
    {
        let [TURN, 0, high, middle, low, 0, 0, 0] = *body else {
            return None;
        };
        let by = signed24(high, middle, low);
        (by.unsigned_abs() <= u32::from(CIRCLE)).then_some(self.turned(by))
    }

    fn turned(self, by: i32) -> Azimuth
        ensures { result ≡ turned_by self by }
    {
        Azimuth {
            place: (i64::from(self.place) + i64::from(by)).rem_euclid(i64::from(CIRCLE)) as u16,
        }
    }
}

/// A fresh dome is told a turn by -1. Answers its azimuth then and whether it was done, side by side,
/// as its statement names them.
pub fn turn_example() -> (u16, bool)
    ensures example { (result.0 ≡ 35999) × (result.1 ≡ true) }
    ensures law { BackFromZero }
{
    let mut dome = Dome::FRESH;
    let done = dome.tell(&[TURN, 0, 0xff, 0xff, 0xff, 0, 0, 0]);
    (dome.shown(), done)
}

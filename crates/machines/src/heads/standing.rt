ghost use Rattle.std.specs.Prelude.{◌≡◌, true, ◌≤◌, pos, ◌*ℤ◌, unsigned_abs};
ghost use Rattle.std.specs.Bool.{then_some};
ghost use Rattle.machines.specs.declared.heads.Head.{Head};
ghost use Rattle.machines.specs.Orders.{order_in};
ghost use Rattle.machines.specs.HeadRules.{head_reading, may_stand, after_slew, after_track, moved_by, after_run, after_stop, after_park, obeyed, head_after};

use super::order::HeadOrder;
use super::{Head, Mode, RATE_LIMIT};
use std::marker::Model;

const MOST_TICKS: u32 = 10_000;

/// A head that may stand as its fields say.
#[derive(Clone, Copy, Debug, PartialEq, Eq)]
pub(super) struct Standing {
    pub(super) head: Head,
}

impl Model for Standing {
    ghost Value = { Head };

    ghost view = { λ s. s.head };

    ghost invariant = { λ s. may_stand s.head ≡ true };

    ghost inverse = { λ h. record { head = h } };
}

/// The head itself if it may stand so, else the fresh one.
impl From<Head> for Standing {
    ghost from_gives = { λ head standing. standing ≡ head_reading head };

    fn from(head: Head) -> Self {
        Standing::new(head).unwrap_or(Standing::FRESH)
    }
}

impl Standing {
    const FRESH: Standing = Standing { head: Head::FRESH };

    fn new(head: Head) -> Option<Standing>
        ensures { result ≡ then_some (may_stand head) head }
    {
        // Not `then`: its closure would have to require the test again.
        if head.may_stand() {
            Some(Standing { head })
        } else {
            None
        }
    }

    /// What follows a body, or nothing if it is not done.
    pub(super) fn told(self, body: &[u8; 8]) -> Option<Standing>
        ensures { result ≡ head_after self (order_in body.now) }
    {
        self.obey(HeadOrder::try_from(*body).ok()?)
    }

    fn obey(self, order: HeadOrder) -> Option<Standing>
        ensures { result ≡ obeyed self order }
    {
        match order {
            HeadOrder::Slew {
                ascension,
                declination,
            } => self.slew(ascension, declination),
            HeadOrder::Track { rate } => self.track(rate),
            HeadOrder::Run { ticks } => self.run(ticks),
            HeadOrder::Stop => self.stop(),
            HeadOrder::Park => self.park(),
        }
    }

    fn slew(self, ascension: i32, declination: i32) -> Option<Standing>
        ensures { result ≡ after_slew self ascension declination }
    {
        let slewed = Head {
            mode: Mode::Stopped as u8,
            mark: ascension,
            counter: 0,
            declination,
            ..self.head
        };
        if !slewed.may_point() {
            return None;
        }
        Some(Standing { head: slewed })
    }

    fn track(self, rate: i8) -> Option<Standing>
        ensures { result ≡ after_track self rate }
    {
        if self.head.mode == Mode::Parked as u8 || rate.unsigned_abs() > RATE_LIMIT {
            return None;
        }
        let head = Head {
            mode: Mode::Tracking as u8,
            rate,
            mark: self.head.mark + self.head.counter,
            counter: 0,
            ..self.head
        };
        Some(Standing { head })
    }

    fn run(self, ticks: u32) -> Option<Standing>
        ensures { result ≡ after_run self ticks }
    {
        if self.head.mode != Mode::Tracking as u8 || !(1..=MOST_TICKS).contains(&ticks) {
            return None;
        }
        let moved = self.moved_by(ticks);
        if !moved.may_point() {
            return None;
        }
        Some(Standing { head: moved })
    }

    fn moved_by(self, ticks: u32) -> Head
        requires { ticks ≤ 10000 }
        ensures { result ≡ moved_by self ticks }
    {
        Head {
            counter: self.head.counter + steps(self.head.rate, ticks),
            ..self.head
        }
    }

    fn stop(self) -> Option<Standing>
        ensures { result ≡ after_stop self }
    {
        if self.head.mode != Mode::Tracking as u8 {
            return None;
        }
        let head = Head {
            mode: Mode::Stopped as u8,
            ..self.head
        };
        Some(Standing { head })
    }

    fn park(self) -> Option<Standing>
        ensures { result ≡ after_park self }
    {
        (self.head.mode != Mode::Parked as u8).then_some(Standing::FRESH)
    }
}

/// The steps that a rate makes in a number of ticks.
fn steps(rate: i8, ticks: u32) -> i32
    requires rate_within { unsigned_abs rate ≤ 100 }
    requires ticks_within { ticks ≤ 10000 }
    ensures value { result ≡ rate *ℤ pos ticks }
    ensures bound { unsigned_abs result ≤ 1000000 }
{
    i32::from(rate) * ticks as i32
}

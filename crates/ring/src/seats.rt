ghost use Rattle.std.specs.Prelude.{◌<◌};

use frames::Plan;

/// A seat of a plan. It can only be started, or taken up again by its record.
#[derive(Debug, PartialEq, Eq, Drop)]
pub struct Seat {
    pub(crate) plan: Plan,
    pub(crate) at: u8,
    ghost seated: { at < plan.n },
}

/// A box that was started: only it takes frames and orders. It is a state of its own, though it has a seat's fields.
#[derive(Debug, PartialEq, Eq, Drop)]
pub struct StartedBox {
    pub(crate) plan: Plan,
    pub(crate) at: u8,
    ghost seated: { at < plan.n },
}

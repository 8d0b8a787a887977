//! What a link is, and a link over two others.

#![tactic(auto)]

ghost use Rattle.std.specs.Prelude.{◌≡◌};
ghost use Rattle.links.specs.declared.LinkFault.TheVariants.{Frame};
ghost use Rattle.links.specs.Rows.{link_row};
ghost use Rattle.links.specs.Laws.{TopmostAnswered};

use frames::{BOXES_MAX, FRAME_MAX, FrameFault, Refusal};

mod bridge;
mod link;

pub use bridge::Bridge;
pub use link::Link;

/// The longest frame, in bytes.
pub const LONGEST: usize = FRAME_MAX;

/// A link has the boxes 0 to 6.
pub const BOXES: usize = BOXES_MAX;

/// Why a link refuses a call. Of several reasons the topmost here is answered.
#[derive(Clone, Copy, Debug, PartialEq, Eq)]
pub enum LinkFault {
    /// The buffer cannot hold every frame.
    Short,
    /// No such box.
    Box,
    /// Nothing waits at that place.
    Place,
    /// The box takes no frame until one is removed.
    Full,
    /// The frame is empty or too long.
    Frame(FrameFault),
}

impl From<FrameFault> for LinkFault {
    ghost from_gives = { λ fault e. e ≡ Frame fault };

    fn from(frame_fault: FrameFault) -> LinkFault {
        LinkFault::Frame(frame_fault)
    }
}

impl Refusal for LinkFault {
    ghost number = { link_row };

    /// The number of the refusal. Of the refusals that fit a call, the one with the lowest number is answered.
    fn row(&self) -> u8
        ensures number { result ≡ link_row self.now }
        ensures topmost { TopmostAnswered }
    {
        match *self {
            LinkFault::Short => 1,
            LinkFault::Box => 3,
            LinkFault::Place => 5,
            LinkFault::Full => 6,
            LinkFault::Frame(fault) => fault.row(),
        }
    }
}

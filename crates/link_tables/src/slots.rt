//! The tables, with what always holds of them.
ghost use Rattle.std.specs.Prelude.{◌<◌, ◌≤◌, length};
ghost use Rattle.links.specs.Mail.{boxes, longest};
ghost use Rattle.link_tables.specs.Sizes.{tray_limit, line_limit};

use crate::{LINE, TRAY};
use arrayvec::ArrayVec;
use links::{BOXES, LONGEST};

/// A frame of 1 to 1,060 bytes.
#[derive(Debug, PartialEq, Eq, Drop)]
pub(crate) struct Held {
    pub(crate) bytes: ArrayVec<u8, LONGEST>,
    ghost some: { 0 < length bytes.items },
    ghost fits: { length bytes.items ≤ longest },
}

/// A frame and the box that it is for.
#[derive(Debug, PartialEq, Eq, Drop)]
pub(crate) struct Addressed {
    pub(crate) to: u8,
    pub(crate) held: Held,
    ghost known: { to < boxes },
}

/// Up to 24 frames for all boxes together, oldest first; at 24 every box is full.
#[derive(Debug, PartialEq, Eq, Drop)]
pub struct Tray {
    pub(crate) slots: ArrayVec<Addressed, TRAY>,
    ghost few: { length slots.items ≤ tray_limit },
}

/// Up to four frames for one box, oldest first.
#[derive(Debug, PartialEq, Eq, Drop)]
pub(crate) struct Line {
    pub(crate) slots: ArrayVec<Held, LINE>,
    ghost few: { length slots.items ≤ line_limit },
}

/// A line to each box; a box is full at four frames.
#[derive(Debug, PartialEq, Eq, Drop)]
pub struct Lines {
    pub(crate) lines: [Line; BOXES],
}

//! Two links in fixed tables: a tray for all boxes, and a line to each.

#![tactic(auto)]

mod checks;
mod held;
mod lines;
mod slots;
mod tray;

pub use slots::{Lines, Tray};

/// A tray holds this many frames.
pub(crate) const TRAY: usize = 24;

/// A line holds this many frames.
pub(crate) const LINE: usize = 4;

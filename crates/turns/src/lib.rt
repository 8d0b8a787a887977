//! Frames that a started box takes, and the turns that it opens and ends.

#![tactic(auto)]

mod changing;
mod ending;
mod handed;
mod judging;
mod taking;
mod turn;

pub use taking::take_frame;
pub use turn::Turn;

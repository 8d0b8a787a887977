//! Machines that carry out orders: what any machine is, and the two that we have, a mount's head
//! and a dome.

#![tactic(auto)]

ghost use Rattle.std.specs.Prelude.{◌≡◌, ℕ, Bool, false, List};

mod domes;
mod heads;
mod numbers;
mod telling;

pub use domes::{Dome, turn_example};
pub use heads::{Head, run_example};
pub use telling::tell_all;

/// A machine, known by its reading alone.
///
/// An implementation says what the reading is, which reading is the fresh one, and what a body of
/// eight bytes makes of a reading; the law is that a body which is not done leaves it.
pub trait Machine {
    ghost Reading: { Type 0 };

    ghost reading: { Self → Reading };

    ghost fresh: { Reading };

    ghost told: { Reading → List ℕ → Reading };

    ghost done: { Reading → List ℕ → Bool };

    /// Makes the machine read as a fresh one.
    fn clear(&mut self)
        ensures { reading self.new ≡ fresh };

    /// Tells the machine a body and answers whether it is done: done and not done are two answers, and neither is a refusal.
    fn tell(&mut self, body: &[u8; 8]) -> bool
        ensures told { reading self.new ≡ told (reading self.old) body.now }
        ensures done { result ≡ done (reading self.old) body.now };

    ghost idle: { (r : Reading) (body : List ℕ) → done r body ≡ false → told r body ≡ r };
}

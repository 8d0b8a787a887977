ghost use Rattle.std.specs.Prelude.{◌≡◌, length};
ghost use Rattle.reading.specs.Heads.{number_as, head_as, head_in};

use crate::{bad_decided, bad_proposed, bad_round, bad_votes, fault_at};
use frames::{Cause, FrameFault, Plan};

/// The numbers of a token's head after its plan byte.
#[derive(Clone, Copy, Debug, PartialEq, Eq)]
pub struct Head {
    pub sender: u8,
    pub stamp: u32,
    pub votes: u8,
    pub proposed: usize,
    pub decided: usize,
}

impl Head {
    /// The head of a frame; bytes that are not there count as 0.
    pub(crate) fn of(bytes: &[u8]) -> Head
        ensures { result ≡ head_in bytes.now }
    {
        let byte = |place: usize| bytes.get(place).copied().unwrap_or(0);
        Head {
            sender: byte(2),
            stamp: u32::from_be_bytes([byte(3), byte(4), byte(5), byte(6)]),
            votes: byte(7),
            proposed: byte(8) as usize,
            decided: byte(9) as usize,
        }
    }

    /// Tests the numbers, in the order of their bytes, in a frame of this length.
    pub fn test(&self, plan: &Plan, length: usize) -> Result<(), FrameFault>
        ensures { result ≡ head_as plan.now self.now length }
    {
        let Head {
            sender,
            stamp,
            votes,
            proposed,
            decided,
        } = *self;
        test_number(length, 3, 2, sender >= plan.boxes())?;
        test_number(length, 7, 3, bad_round(plan, sender, stamp))?;
        test_number(length, 8, 7, bad_votes(plan, stamp, votes))?;
        test_number(length, 9, 8, bad_proposed(stamp, votes, proposed))?;
        test_number(length, 10, 9, bad_decided(stamp, decided))
    }
}

/// Tests the number that stands from `place` to before `end` in a frame of this length.
/// Whether it is bad comes as a `bool`, since the tests are public functions of their own.
fn test_number(length: usize, end: usize, place: usize, bad: bool) -> Result<(), FrameFault>
    ensures { result ≡ number_as length end place bad }
{
    if length < end {
        return Err(fault_at(length, Cause::Length));
    }
    if bad {
        return Err(fault_at(place, Cause::Range));
    }
    Ok(())
}

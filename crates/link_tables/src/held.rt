ghost use Rattle.std.specs.Prelude.{◌≡◌, ◌≤◌, ◌++◌, length, drop};
ghost use Rattle.links.specs.Mail.{longest};
ghost use Rattle.link_tables.specs.Stores.{bytes_of};
ghost use Rattle.link_tables.specs.Taking.{HoldsFrame, TakesPost};

use crate::checks::check_box;
use crate::slots::{Addressed, Held};
use arrayvec::ArrayVec;
use frames::{Cause, FrameFault};
use links::{LONGEST, LinkFault};

/// What a slot not in use holds: one byte, since every frame has one.
impl Default for Held {
    fn default() -> Held {
        let mut bytes = ArrayVec::new();
        bytes.push(0);
        Held { bytes }
    }
}

// By hand: `Default` is not derived for a struct with ghost fields.
impl Default for Addressed {
    fn default() -> Addressed {
        Addressed {
            to: 0,
            held: Held::default(),
        }
    }
}

/// At fault are byte 0 of a frame that has none, and of one that is too long the first byte past the longest.
impl TryFrom<&[u8]> for Held {
    type Error = FrameFault;

    ghost try_from_gives = { λ frame r. HoldsFrame frame.now r };

    fn try_from(frame: &[u8]) -> Result<Held, FrameFault> {
        if frame.is_empty() {
            return Err(FrameFault {
                place: 0,
                cause: Cause::Length,
            });
        }
        let too_long = |_| FrameFault {
            place: LONGEST,
            cause: Cause::Length,
        };
        let bytes = ArrayVec::try_from(frame).map_err(too_long)?;
        Ok(Held { bytes })
    }
}

impl Held {
    /// Writes the frame to the front of the buffer, whose further bytes stay, and answers its length.
    pub(crate) fn copy_to(&self, out: &mut [u8]) -> usize
        requires { longest ≤ length out.old }
        ensures answer { result ≡ length (bytes_of self.now) }
        ensures buffer { out.new ≡ bytes_of self.now ++ drop (length (bytes_of self.now)) out.old }
    {
        let frame = self.bytes.as_slice();
        out[..frame.len()].copy_from_slice(frame);
        frame.len()
    }
}

impl Addressed {
    /// A frame for a box that is full or not, which its table says, so that the order of a post's refusals stands once.
    /// Refused, in this order: no such box, the box is full, the frame has 0 or over 1,060 bytes.
    pub(crate) fn new(to: u8, full: bool, frame: &[u8]) -> Result<Addressed, LinkFault>
        ensures { TakesPost to full frame.now result }
    {
        check_box(to)?;
        if full {
            return Err(LinkFault::Full);
        }
        let held = Held::try_from(frame)?;
        Ok(Addressed { to, held })
    }
}

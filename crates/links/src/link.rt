ghost use Rattle.links.specs.Mail.{Mail, LawfulMail};
ghost use Rattle.links.specs.Calls.{Posted, Removed, Counted, Copied};

use crate::LinkFault;

/// A link carries frames to the boxes 0 to 6. A refused call changes nothing.
pub trait Link {
    /// For each box the frames that wait, oldest first, and whether the box is full.
    ghost mail: { Self → Mail };

    /// Appends a frame to those that wait for a box. Any box may be full afterwards; none is freed.
    /// Refused, in this order: no such box, the box is full, the frame has 0 or over 1,060 bytes.
    fn post(&mut self, to: u8, frame: &[u8]) -> Result<(), LinkFault>
        ensures posted { Posted mail self.old to frame.now result self.new };

    /// Takes out the frame at a place, counted from 0. The box is not full afterwards; others may be freed, none is filled.
    /// Refused, in this order: no such box, nothing waits there.
    fn remove(&mut self, to: u8, place: u8) -> Result<(), LinkFault>
        ensures removed { Removed mail self.old to place result self.new };

    /// How many frames wait for a box. Refused: no such box.
    fn count(&self, to: u8) -> Result<u8, LinkFault>
        ensures counted { Counted (mail self.now) to result };

    /// Copies the frame at a place to the front of a buffer, whose further bytes stay, and answers its length.
    /// Refused, in this order: a buffer under 1,060 bytes, no such box, nothing waits there.
    fn copy(&self, to: u8, place: u8, out: &mut [u8]) -> Result<usize, LinkFault>
        ensures copied { Copied (mail self.now) to place out.old result out.new };

    /// Every frame that waits has 1 to 1,060 bytes.
    ghost lawful: { (s : Self) → LawfulMail (mail s) };
}

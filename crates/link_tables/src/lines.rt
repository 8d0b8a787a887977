ghost use Rattle.std.specs.Prelude.{◌≡◌, [], length, nat_le};
ghost use Rattle.links.specs.Mail.{Fresh};
ghost use Rattle.link_tables.specs.Finding.{HasLine, HoldsAtPlace};
ghost use Rattle.link_tables.specs.Lawful.{lines_lawful};
ghost use Rattle.link_tables.specs.Sizes.{line_limit};
ghost use Rattle.link_tables.specs.Stores.{lines_mail};

use crate::checks::check_buffer;
use crate::slots::{Addressed, Held, Line, Lines};
use arrayvec::ArrayVec;
use links::{Link, LinkFault};

// By hand: `Default` is not derived for a struct with ghost fields.
impl Default for Line {
    ghost is_default = { λ line. line.slots.items ≡ [] };

    fn default() -> Line {
        Line {
            slots: ArrayVec::new(),
        }
    }
}

impl Lines {
    /// Lines on which nothing waits.
    pub fn new() -> Lines
        ensures { Fresh (lines_mail result) }
    {
        Lines {
            lines: Default::default(),
        }
    }

    /// Whether the box is full: once four frames wait for it, whatever waits for others.
    pub fn is_full(&self, to: u8) -> bool
        ensures at { result ≡ nat_le line_limit (length ((lines_mail self.now).waiting to)) }
        ensures own { (lines_mail self.now).full to ≡ result }
    {
        self.line(to).is_ok_and(|line| line.slots.is_full())
    }

    /// The line to a box.
    fn line(&self, to: u8) -> Result<&Line, LinkFault>
        ensures { HasLine self.now to result }
    {
        self.lines.get(to as usize).ok_or(LinkFault::Box)
    }

    /// The frame at a place of a box's line.
    fn held(&self, to: u8, place: u8) -> Result<&Held, LinkFault>
        ensures { HoldsAtPlace self.now to place result }
    {
        self.line(to)?
            .slots
            .get(place as usize)
            .ok_or(LinkFault::Place)
    }
}

// A line finds a frame by its place, a tray by its box and its place, so the four calls stand once for each.
impl Link for Lines {
    ghost mail = { lines_mail };

    ghost lawful = { λ l. lines_lawful l.lines };

    fn post(&mut self, to: u8, frame: &[u8]) -> Result<(), LinkFault> {
        let post = Addressed::new(to, self.is_full(to), frame)?;
        let line = &mut self.lines[to as usize];
        line.slots.push(post.held);
        Ok(())
    }

    fn remove(&mut self, to: u8, place: u8) -> Result<(), LinkFault> {
        self.held(to, place)?;
        let line = &mut self.lines[to as usize];
        line.slots.remove(place as usize);
        Ok(())
    }

    fn count(&self, to: u8) -> Result<u8, LinkFault> {
        Ok(self.line(to)?.slots.len() as u8)
    }

    fn copy(&self, to: u8, place: u8, out: &mut [u8]) -> Result<usize, LinkFault> {
        check_buffer(out)?;
        Ok(self.held(to, place)?.copy_to(out))
    }
}

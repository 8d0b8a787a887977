ghost use Rattle.std.specs.Prelude.{◌≡◌, ℕ, nat_le};
ghost use Rattle.links.specs.Mail.{Fresh, boxes};
ghost use Rattle.link_tables.specs.Finding.{Finds};
ghost use Rattle.link_tables.specs.Lawful.{tray_lawful};
ghost use Rattle.link_tables.specs.Sizes.{tray_limit};
ghost use Rattle.link_tables.specs.Stores.{tray_mail, in_all};

use crate::checks::{check_box, check_buffer};
use crate::slots::{Addressed, Tray};
use arrayvec::ArrayVec;
use links::{Link, LinkFault};

impl Tray {
    /// A tray on which nothing waits.
    pub fn new() -> Tray
        ensures { Fresh (tray_mail result) }
    {
        Tray {
            slots: ArrayVec::new(),
        }
    }

    /// Whether the boxes are full: all of them once 24 frames wait for all boxes together, and none before.
    pub fn is_full(&self) -> bool
        ensures at { result ≡ nat_le tray_limit (in_all boxes (tray_mail self.now)) }
        ensures all { (b : ℕ) → (tray_mail self.now).full b ≡ result }
    {
        self.slots.is_full()
    }

    /// The slot of the frame at a place, with its number.
    fn find(&self, to: u8, place: u8) -> Result<(usize, &Addressed), LinkFault>
        ensures { Finds self.now to place result }
    {
        check_box(to)?;
        self.slots
            .iter()
            .enumerate()
            .filter(|(_, slot)| slot.to == to)
            .nth(place as usize)
            .ok_or(LinkFault::Place)
    }
}

impl Link for Tray {
    ghost mail = { tray_mail };

    ghost lawful = { λ t. tray_lawful t.slots.items };

    fn post(&mut self, to: u8, frame: &[u8]) -> Result<(), LinkFault> {
        let post = Addressed::new(to, self.slots.is_full(), frame)?;
        self.slots.push(post);
        Ok(())
    }

    fn remove(&mut self, to: u8, place: u8) -> Result<(), LinkFault> {
        let (k, _) = self.find(to, place)?;
        self.slots.remove(k);
        Ok(())
    }

    fn count(&self, to: u8) -> Result<u8, LinkFault> {
        check_box(to)?;
        Ok(self.slots.iter().filter(|slot| slot.to == to).count() as u8)
    }

    fn copy(&self, to: u8, place: u8, out: &mut [u8]) -> Result<usize, LinkFault> {
        check_buffer(out)?;
        let (_, slot) = self.find(to, place)?;
        Ok(slot.held.copy_to(out))
    }
}

ghost use Rattle.std.specs.Prelude.{◌≡◌, nat_lt};
ghost use Rattle.links.specs.Mail.{Fresh};
ghost use Rattle.links.specs.Calls.{Posted, Removed};
ghost use Rattle.links.specs.Bridges.{bridge_mail, OnItsSide};
ghost use Rattle.std.proofs.Common.{rules};

use crate::{Link, LinkFault};

/// Two links as one: the boxes below a number on the first, the others on the second.
#[derive(Debug, PartialEq, Eq, Drop)]
pub struct Bridge<F, S> {
    split: u8,
    first: F,
    second: S,
}

impl<F: Link, S: Link> Bridge<F, S> {
    /// The boxes below `split` on the first link, the others on the second.
    pub fn new(split: u8, first: F, second: S) -> Bridge<F, S>
        ensures whole { result ≡ record { split = split; first = first; second = second } }
        ensures fresh { Fresh (F.Link.mail first) → Fresh (S.Link.mail second) → Fresh (bridge_mail F.Link.mail S.Link.mail result) }
    {
        Bridge {
            split,
            first,
            second,
        }
    }

    /// Whether the box is on the first link.
    fn on_first(&self, to: u8) -> bool
        ensures { result ≡ nat_lt to self.now.split }
    {
        to < self.split
    }
}

/// What a post may fill and a removal may free is on the side of its box; the other link stays whole.
// Each call names both sides, since the two links may be of different types.
impl<F: Link, S: Link> Link for Bridge<F, S> {
    ghost mail = { bridge_mail F.Link.mail S.Link.mail };

    ghost lawful = { Prim.search rules };

    fn post(&mut self, to: u8, frame: &[u8]) -> Result<(), LinkFault>
        ensures posted { Posted (bridge_mail F.Link.mail S.Link.mail) self.old to frame.now result self.new }
        ensures side { OnItsSide self.old to (λ x y. Posted F.Link.mail x to frame.now result y) (λ x y. Posted S.Link.mail x to frame.now result y) self.new }
    {
        if self.on_first(to) {
            self.first.post(to, frame)
        } else {
            self.second.post(to, frame)
        }
    }

    fn remove(&mut self, to: u8, place: u8) -> Result<(), LinkFault>
        ensures removed { Removed (bridge_mail F.Link.mail S.Link.mail) self.old to place result self.new }
        ensures side { OnItsSide self.old to (λ x y. Removed F.Link.mail x to place result y) (λ x y. Removed S.Link.mail x to place result y) self.new }
    {
        if self.on_first(to) {
            self.first.remove(to, place)
        } else {
            self.second.remove(to, place)
        }
    }

    fn count(&self, to: u8) -> Result<u8, LinkFault> {
        if self.on_first(to) {
            self.first.count(to)
        } else {
            self.second.count(to)
        }
    }

    fn copy(&self, to: u8, place: u8, out: &mut [u8]) -> Result<usize, LinkFault> {
        if self.on_first(to) {
            self.first.copy(to, place, out)
        } else {
            self.second.copy(to, place, out)
        }
    }
}

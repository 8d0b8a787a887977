ghost use Rattle.std.specs.Prelude.{◌≡◌, ◌<◌, true, nat_le};
ghost use Rattle.lists.specs.Tables.{room};
ghost use Rattle.logs.specs.Logs.{adds_up};
ghost use Rattle.boxes.specs.Turns.{counted};
ghost use Rattle.records.specs.Records.{box_of};
ghost use Rattle.received.specs.Received.{token_of};

use frames::Plan;
use received::ReceivedToken;
use records::BoxRecord;

/// A token handed to a box, beside the box's record: both are of the plan, and the tables hold what they count.
/// It keeps what the tests read; that the token is lawful is asked for where a log takes its proposal.
#[derive(Clone, Copy, Debug, PartialEq, Eq)]
pub(crate) struct Handed<'a> {
    pub(crate) plan: &'a Plan,
    pub(crate) row: &'a BoxRecord,
    pub(crate) token: &'a ReceivedToken,
    ghost seat: { row.now.seat < plan.now.n },
    ghost sender: { token.now.sender < plan.now.n },
    ghost few: { token.now.votes < 255 },
    ghost own: { adds_up row.now.log ≡ true },
    ghost other: { adds_up token.now.log ≡ true },
    ghost table: { nat_le token.now.proposal.count room ≡ true },
}

/// A turn that opens on a token, with the votes that the token's proposal then has.
#[derive(Clone, Copy, Debug, PartialEq, Eq)]
pub(crate) struct Opening<'a> {
    pub(crate) handed: Handed<'a>,
    pub(crate) votes: u8,
    ghost counted: { votes ≡ counted (box_of handed.row.now) (token_of handed.token.now) },
}

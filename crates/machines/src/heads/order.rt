ghost use Rattle.std.specs.Prelude.{◌≡◌};
ghost use Rattle.std.specs.Result.{result_ok};
ghost use Rattle.machines.specs.Orders.{order_in};
ghost use Rattle.machines.specs.HeadOrders.{head_order};

use crate::numbers::{number24, signed24};

/// What a head can be told to do. A body is read into these cases, so that each step has what its order names
/// and no more; going by the body's numbers as they came took a quarter less time.
#[derive(Clone, Copy, Debug, PartialEq, Eq)]
pub(super) enum HeadOrder {
    Slew { ascension: i32, declination: i32 },
    Track { rate: i8 },
    Run { ticks: u32 },
    Stop,
    Park,
}

/// A body that holds no order for a head.
#[derive(Clone, Copy, Debug, PartialEq, Eq)]
pub(super) struct NoOrder;

/// What the kind of a body does not name is 0, and a rate that it names is not.
impl TryFrom<[u8; 8]> for HeadOrder {
    type Error = NoOrder;

    ghost try_from_gives = { λ body result. result_ok result ≡ head_order (order_in body) };

    fn try_from(body: [u8; 8]) -> Result<Self, NoOrder> {
        match body {
            [0x01, 0, a, b, c, d, e, f] => Ok(HeadOrder::Slew {
                ascension: signed24(a, b, c),
                declination: signed24(d, e, f),
            }),
            [0x02, rate, 0, 0, 0, 0, 0, 0] if rate != 0 => Ok(HeadOrder::Track {
                rate: rate.cast_signed(),
            }),
            [0x03, 0, a, b, c, 0, 0, 0] => Ok(HeadOrder::Run {
                ticks: number24(a, b, c),
            }),
            [0x04, 0, 0, 0, 0, 0, 0, 0] => Ok(HeadOrder::Stop),
            [0x05, 0, 0, 0, 0, 0, 0, 0] => Ok(HeadOrder::Park),
            _ => Err(NoOrder),
        }
    }
}

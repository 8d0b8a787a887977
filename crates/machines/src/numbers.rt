ghost use Rattle.std.specs.Prelude.{◌≡◌, ◌^◌, ◌<◌};
ghost use Rattle.machines.specs.Orders.{number24, signed24};

/// Three bytes as one number, the highest first.
pub(crate) fn number24(high: u8, middle: u8, low: u8) -> u32
    ensures value { result ≡ number24 high middle low }
    ensures bound { result < 2 ^ 24 }
{
    u32::from_be_bytes([0, high, middle, low])
}

/// Three bytes as one signed number; the unsigned one comes first, since a run's ticks are read so.
pub(crate) fn signed24(high: u8, middle: u8, low: u8) -> i32
    ensures { result ≡ signed24 (number24 high middle low) }
{
    let n = number24(high, middle, low) as i32;
    if n < 0x80_0000 { n } else { n - 0x100_0000 }
}

#![tactic(auto)]

/// The frames of an array of three boxes of which one may fail, worked by hand.
pub const DUMMY: [u8; 10] = [0x02, 0x31, 0x02, 0, 0, 0, 0, 0, 0, 0];

pub const ORDER: [u8; 11] = [
    0x01, 0x31, 0x01, 0x01, 0x00, 0x00, 0x00, 0x64, 0xFF, 0xFF, 0xCE,
];

pub const TOKEN: [u8; 19] = [
    0x02, 0x31, 0x01, 0, 0, 0, 2, 1, 1, 0, 0x01, 0x01, 0x00, 0x00, 0x00, 0x64, 0xFF, 0xFF, 0xCE,
];

/// A token of round 4 with a proposed order 21 and the decisions 01, 11 and 02.
pub const LONGER: [u8; 48] = [
    0x02, 0x31, 0x01, 0, 0, 0, 5, 1, 1, 2, // head
    0x21, 1, 1, 1, 1, 1, 1, 1, 1, // proposed
    2, 0x01, 2, 2, 2, 2, 2, 2, 2, 2, 0x11, 3, 3, 3, 3, 3, 3, 3, 3, // decision of two
    1, 0x02, 4, 4, 4, 4, 4, 4, 4, 4, // decision of one
];

#[cfg(test)]
mod bad_frames;
#[cfg(test)]
mod good_frames;
#[cfg(test)]
mod refusals;

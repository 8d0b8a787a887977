use crate::{DUMMY, LONGER, ORDER, TOKEN};
use frames::{Cause, FrameFault, Plan};
use reading::read;
use std::test::Fail;

/// The fault of a frame, or none.
fn fault(plan: &Plan, bytes: &[u8]) -> Option<FrameFault> {
    read(plan, bytes).err()
}

fn at(place: usize, cause: Cause) -> Option<FrameFault> {
    Some(FrameFault { place, cause })
}

#[test]
fn each_truncation(rt: HostRuntime) -> Result<(), Fail> {
    let plan = Plan::new(3, 1)?;
    // k is where the frame ends
    for k in 0..48 {
        assert!(rt; fault(&plan, &LONGER[0..k]) == at(k, Cause::Length));
    }
    assert!(rt; fault(&plan, &LONGER).is_none());
    Ok(())
}

#[test]
fn one_surplus_byte(rt: HostRuntime) -> Result<(), Fail> {
    let plan = Plan::new(3, 1)?;
    let mut more = [1; 49];
    more[0..48].copy_from_slice(&LONGER);
    assert!(rt; fault(&plan, &more) == at(48, Cause::Length));
    Ok(())
}

/// The longer token with one byte changed, and the fault that comes of it.
const CHANGES: [(usize, u8, usize, Cause); 21] = [
    (0, 0, 0, Cause::Kind),
    (0, 3, 0, Cause::Kind),
    (1, 0x41, 1, Cause::Plan),
    (2, 3, 2, Cause::Range),
    (2, 2, 3, Cause::Range),
    (3, 1, 3, Cause::Range),
    (6, 0, 3, Cause::Range),
    (6, 6, 3, Cause::Range),
    (7, 0, 7, Cause::Range),
    (7, 2, 7, Cause::Range),
    (8, 0, 20, Cause::Ids),
    (9, 1, 38, Cause::Length),
    (9, 3, 48, Cause::Length),
    (10, 0x31, 10, Cause::Range),
    (10, 0x10, 10, Cause::Range),
    (10, 0x01, 20, Cause::Ids),
    (19, 0, 19, Cause::Range),
    (20, 0x12, 29, Cause::Ids),
    (29, 0x21, 29, Cause::Ids),
    (38, 0, 38, Cause::Range),
    (39, 0x11, 39, Cause::Ids),
];

#[test]
fn each_cause(rt: HostRuntime) -> Result<(), Fail> {
    let plan = Plan::new(3, 1)?;
    for (k, value, place, cause) in CHANGES {
        let mut bytes = LONGER;
        if k < 48 {
            bytes[k] = value;
        }
        assert!(rt; fault(&plan, &bytes) == at(place, cause));
    }
    Ok(())
}

#[test]
fn dummies_and_orders(rt: HostRuntime) -> Result<(), Fail> {
    let plan = Plan::new(3, 1)?;
    // k is the place of a byte that is not 0
    for k in 7..10 {
        let mut bytes = DUMMY;
        bytes[k] = 1;
        assert!(rt; fault(&plan, &bytes) == at(k, Cause::Range));
    }
    let mut early = DUMMY;
    early[2] = 1;
    assert!(rt; fault(&plan, &early) == at(3, Cause::Range));
    for id in [0x00, 0x10, 0x30, 0xFF] {
        let mut bytes = ORDER;
        bytes[2] = id;
        assert!(rt; fault(&plan, &bytes) == at(2, Cause::Range));
    }
    // k is where the frame ends
    for k in 0..11 {
        assert!(rt; fault(&plan, &ORDER[0..k]) == at(k, Cause::Length));
    }
    Ok(())
}

#[test]
fn two_votes_for_nothing(rt: HostRuntime) -> Result<(), Fail> {
    let seven = Plan::new(7, 2)?;
    let bytes = [0x02, 0x72, 1, 0, 0, 0, 2, 2, 0, 0];
    assert!(rt; fault(&seven, &bytes) == at(8, Cause::Range));
    Ok(())
}

/// What comes of byte `k` of the worked token being `v`.
fn changed(k: usize, v: u8) -> Option<FrameFault> {
    let fits = match k {
        // an order frame, eleven bytes long, or no kind
        0 => return if v == 1 {
            at(11, Cause::Length)
        } else {
            at(0, Cause::Kind)
        },
        1 => return at(1, Cause::Plan),
        // no box, or one that round 1 is not of
        2 => return if v > 2 {
            at(2, Cause::Range)
        } else {
            at(3, Cause::Range)
        },
        3 => false,
        // rounds 1 + 65536v, 1 + 256v and v - 1 up to 999,999 that box 1 passes
        4 => v <= 15 && v % 3 == 0,
        5 => v % 3 == 0,
        6 => v % 3 == 2,
        7 => return at(7, Cause::Range),
        8 => return if v == 0 {
            at(10, Cause::Length)
        } else {
            at(19, Cause::Length)
        },
        9 => return at(19, Cause::Length),
        10 => return if v / 16 < 3 && v % 16 != 0 {
            None
        } else {
            at(10, Cause::Range)
        },
        _ => true,
    };
    if fits { None } else { at(3, Cause::Range) }
}

#[test]
fn each_change_of_a_byte(rt: HostRuntime) -> Result<(), Fail> {
    let plan = Plan::new(3, 1)?;
    // byte k becomes v, each value of a byte
    for k in 0..19 {
        for v in 0..=255 {
            if TOKEN[k] != v {
                let mut bytes = TOKEN;
                bytes[k] = v;
                assert!(rt; fault(&plan, &bytes) == changed(k, v));
            }
        }
    }
    Ok(())
}

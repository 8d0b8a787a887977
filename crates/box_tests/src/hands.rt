use boxes::{BoxFault, Outcome};
use frames::{Cause, Entry, FrameFault, Plan};
use lists::Entries;
use logs::Log;
use records::BoxRecord;
use ring::{Seat, StartedBox};
use std::process::Abort;
use std::test::Fail;
use turns::take_frame;

/// Slew to right ascension 100 and declination -50.
const BODY: [u8; 8] = [0x01, 0x00, 0x00, 0x00, 0x64, 0xFF, 0xFF, 0xCE];

/// Box 0's first order, of that body, in an array of three boxes of which one may fail.
const ORDER: [u8; 11] = [
    0x01, 0x31, 0x01, 0x01, 0x00, 0x00, 0x00, 0x64, 0xFF, 0xFF, 0xCE,
];

/// The token of round 0 from box 0, and the dummy of box 2.
const OPENING: [u8; 10] = [0x02, 0x31, 0x00, 0, 0, 0, 1, 1, 0, 0];

const DUMMY: [u8; 10] = [0x02, 0x31, 0x02, 0, 0, 0, 0, 0, 0, 0];

/// The token of round 1 from box 1, which proposes the order.
const PROPOSING: [u8; 19] = [
    0x02, 0x31, 0x01, 0, 0, 0, 2, 1, 1, 0, 0x01, 0x01, 0x00, 0x00, 0x00, 0x64, 0xFF, 0xFF, 0xCE,
];

/// The token of round 2 from box 2, which has decided it.
const DECIDED: [u8; 20] = [
    0x02, 0x31, 0x02, 0, 0, 0, 3, 1, 0, 1, 0x01, 0x01, 0x01, 0x00, 0x00, 0x00, 0x64, 0xFF, 0xFF,
    0xCE,
];

/// The token of round 4 from box 1, over a gap.
const OVER_A_GAP: [u8; 20] = [
    0x02, 0x31, 0x01, 0, 0, 0, 5, 1, 0, 1, 0x01, 0x01, 0x01, 0x00, 0x00, 0x00, 0x64, 0xFF, 0xFF,
    0xCE,
];

/// A record that means nothing yet; starting writes it whole.
fn blank() -> BoxRecord {
    BoxRecord {
        n: 0,
        f: 0,
        seat: 0,
        awaited: 0,
        log: Log::new(),
        unordered: Entries::new(),
        last: 0,
        doubt: false,
        on: false,
        turn: None,
    }
}

/// Starts a box of an array of three of which one may fail.
fn start(seat: u8, row: &mut BoxRecord) -> Result<StartedBox, Fail> {
    Ok(Seat::new(Plan::new(3, 1)?, seat)?.start(row))
}

/// Hands a box a frame, and passes the turn that opens; then the token's length is told.
fn hand(
    rt: &impl Abort,
    started: &StartedBox,
    row: &mut BoxRecord,
    bytes: &[u8],
    out: &mut [u8; 1060],
) -> Result<Outcome<usize>, BoxFault> {
    Ok(match take_frame(started, row, bytes)? {
        Outcome::Kept => Outcome::Kept,
        Outcome::Known => Outcome::Known,
        Outcome::Waits => Outcome::Waits,
        Outcome::Stale => Outcome::Stale,
        Outcome::Learned(more) => Outcome::Learned(more),
        Outcome::Opened(turn) => match turn.pass(started, row, out) {
            Ok(length) => Outcome::Opened(length),
            Err((fault, turn)) => panic!(rt; "a pass is refused"),
        },
    })
}

#[test]
fn kept_and_proposed(rt: HostRuntime) -> Result<(), Fail> {
    let mut out = [0; 1060];
    let mut row = blank();
    let started = start(1, &mut row)?;
    assert!(rt; hand(&rt, &started, &mut row, &ORDER, &mut out) == Ok(Outcome::Kept));
    assert!(rt; hand(&rt, &started, &mut row, &OPENING, &mut out) == Ok(Outcome::Opened(19)));
    assert!(rt; out.starts_with(&PROPOSING));
    assert!(rt; hand(&rt, &started, &mut row, &DUMMY, &mut out) == Ok(Outcome::Stale));
    assert!(rt; hand(&rt, &started, &mut row, &DECIDED, &mut out) == Ok(Outcome::Waits));
    Ok(())
}

#[test]
fn decided_and_known(rt: HostRuntime) -> Result<(), Fail> {
    let mut out = [0; 1060];
    let mut row = blank();
    let started = start(2, &mut row)?;
    assert!(rt; hand(&rt, &started, &mut row, &OPENING, &mut out) == Ok(Outcome::Waits));
    assert!(rt; hand(&rt, &started, &mut row, &PROPOSING, &mut out) == Ok(Outcome::Opened(20)));
    assert!(rt; out.starts_with(&DECIDED));
    assert!(rt; hand(&rt, &started, &mut row, &ORDER, &mut out) == Ok(Outcome::Known));
    assert!(rt; row.log.decision(0) == Some([Entry { id: 1, body: BODY }].as_slice()));
    Ok(())
}

/// Box 1 awaits round 4 with the order unordered, doubts box 0, and is handed the token of round 2.
#[test]
fn over_a_gap(rt: HostRuntime) -> Result<(), Fail> {
    let mut out = [0; 1060];
    let mut row = blank();
    let started = start(1, &mut row)?;
    row.awaited = 4;
    assert!(rt; hand(&rt, &started, &mut row, &ORDER, &mut out) == Ok(Outcome::Kept));
    assert!(rt; hand(&rt, &started, &mut row, &DECIDED, &mut out) == Ok(Outcome::Waits));
    assert!(rt; started.doubt(&mut row) == Ok(()));
    assert!(rt; hand(&rt, &started, &mut row, &DECIDED, &mut out) == Ok(Outcome::Opened(20)));
    assert!(rt; out.starts_with(&OVER_A_GAP));
    assert!(rt; row.awaited == 7 && row.unordered.part().is_empty());
    Ok(())
}

/// A token more than a ring behind teaches the decisions that it has more than the log.
#[test]
fn learned(rt: HostRuntime) -> Result<(), Fail> {
    let mut out = [0; 1060];
    let mut row = blank();
    let started = start(1, &mut row)?;
    row.awaited = 7;
    assert!(rt; hand(&rt, &started, &mut row, &DECIDED, &mut out) == Ok(Outcome::Learned(1)));
    assert!(rt; row.log.decision(0) == Some([Entry { id: 1, body: BODY }].as_slice()));
    assert!(rt; hand(&rt, &started, &mut row, &DECIDED, &mut out) == Ok(Outcome::Stale));
    Ok(())
}

#[test]
fn refused(rt: HostRuntime) -> Result<(), Fail> {
    let mut out = [0; 1060];
    let mut row = blank();
    let started = start(1, &mut row)?;
    assert!(rt; hand(&rt, &started, &mut blank(), &ORDER, &mut out) == Err(BoxFault::Plan));
    let fault = FrameFault {
        place: 0,
        cause: Cause::Kind,
    };
    assert!(rt; hand(&rt, &started, &mut row, &[3], &mut out) == Err(BoxFault::Frame(fault)));
    // a token of its own
    assert!(rt; hand(&rt, &started, &mut row, &PROPOSING, &mut out) == Err(BoxFault::Sender));
    assert!(rt; started.switch_off(&mut row) == Ok(()));
    assert!(rt; hand(&rt, &started, &mut row, &ORDER, &mut out) == Err(BoxFault::Off));
    Ok(())
}

#[test]
fn no_order_more(rt: HostRuntime) -> Result<(), Fail> {
    let mut row = blank();
    let started = start(1, &mut row)?;
    let mut short = [0; 1059];
    assert!(rt; started.send(&mut row, &BODY, &mut short) == Err(BoxFault::Short));
    row.last = 15;
    let mut out = [0; 1060];
    assert!(rt; started.send(&mut row, &BODY, &mut out) == Err(BoxFault::Serials));
    row.last = 14;
    assert!(rt; started.send(&mut row, &BODY, &mut out) == Ok((0x1F, 11)));
    Ok(())
}

/// The token of the last round opens no turn beyond it.
#[test]
fn last_round(rt: HostRuntime) -> Result<(), Fail> {
    let mut out = [0; 1060];
    let mut row = blank();
    let started = start(1, &mut row)?;
    row.awaited = 1_000_000;
    let last = [0x02, 0x31, 0x00, 0x00, 0x0F, 0x42, 0x40, 1, 0, 0];
    assert!(rt; hand(&rt, &started, &mut row, &last, &mut out) == Err(BoxFault::Rounds));
    assert!(rt; row.awaited == 1_000_000);
    Ok(())
}

#[test]
fn openings(rt: HostRuntime) -> Result<(), Fail> {
    let mut out = [7; 1060];
    let mut row = blank();
    let seat = Seat::new(Plan::new(3, 1)?, 0)?;
    let Ok((_, length)) = seat.open(&mut row, &mut out) else {
        return Err(Fail::new("not opened"));
    };
    assert!(rt; length == 10 && out.starts_with(&OPENING) && out[10] == 7);
    let seat = Seat::new(Plan::new(3, 1)?, 2)?;
    let Ok((_, length)) = seat.open(&mut row, &mut out) else {
        return Err(Fail::new("not opened"));
    };
    assert!(rt; length == 10 && out.starts_with(&DUMMY));
    Ok(())
}

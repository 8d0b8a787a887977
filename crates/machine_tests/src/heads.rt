use machines::{Head, Machine, run_example, tell_all};
use std::process::Abort;

/// Mode, rate, mark, counter and declination: in a table, whose value may call no function, they
/// stand for a head.
type Fields = (u8, i8, i32, i32, i32);

/// What a row is about, the head before, the body, and the reading after if it is done.
type Row = (&'static str, Fields, [u8; 8], Option<Fields>);

const FRESH: Fields = (0, 0, 0, 0, 0);

const STOPPED: Fields = (1, 7, 1_000, 50, -20);

const TRACKING: Fields = (2, -3, 1_000, 50, -20);

fn head((mode, rate, mark, counter, declination): Fields) -> Head {
    Head {
        mode,
        rate,
        mark,
        counter,
        declination,
    }
}

/// Tells the head of each row its body.
fn told(rt: &impl Abort, rows: &[Row]) {
    for (name, before, body, after) in rows {
        let mut machine = head(*before);
        let done = machine.tell(body);
        assert_eq!(rt; done, after.is_some(), "{}", *name);
        assert_eq!(rt;
            machine.shown(),
            head(after.unwrap_or(*before)),
            "{}",
            *name
        );
    }
}

const SLEWS: [Row; 24] = [
    (
        "parked, to the upper limits",
        FRESH,
        [1, 0, 0x3d, 0x09, 0x00, 0x1e, 0x84, 0x80],
        Some((1, 0, 4_000_000, 0, 2_000_000)),
    ),
    (
        "parked, to the lower limits",
        FRESH,
        [1, 0, 0xc2, 0xf7, 0x00, 0xe1, 0x7b, 0x80],
        Some((1, 0, -4_000_000, 0, -2_000_000)),
    ),
    (
        "parked, ascension one above",
        FRESH,
        [1, 0, 0x3d, 0x09, 0x01, 0, 0, 0],
        None,
    ),
    (
        "parked, ascension one below",
        FRESH,
        [1, 0, 0xc2, 0xf6, 0xff, 0, 0, 0],
        None,
    ),
    (
        "parked, declination one above",
        FRESH,
        [1, 0, 0, 0, 0, 0x1e, 0x84, 0x81],
        None,
    ),
    (
        "parked, declination one below",
        FRESH,
        [1, 0, 0, 0, 0, 0xe1, 0x7b, 0x7f],
        None,
    ),
    (
        "parked, with a rate",
        FRESH,
        [1, 1, 0, 0, 0x64, 0, 0, 0],
        None,
    ),
    (
        "stopped, to the upper limits",
        STOPPED,
        [1, 0, 0x3d, 0x09, 0x00, 0x1e, 0x84, 0x80],
        Some((1, 7, 4_000_000, 0, 2_000_000)),
    ),
    (
        "stopped, to the lower limits",
        STOPPED,
        [1, 0, 0xc2, 0xf7, 0x00, 0xe1, 0x7b, 0x80],
        Some((1, 7, -4_000_000, 0, -2_000_000)),
    ),
    (
        "stopped, ascension one above",
        STOPPED,
        [1, 0, 0x3d, 0x09, 0x01, 0, 0, 0],
        None,
    ),
    (
        "stopped, ascension one below",
        STOPPED,
        [1, 0, 0xc2, 0xf6, 0xff, 0, 0, 0],
        None,
    ),
    (
        "stopped, declination one above",
        STOPPED,
        [1, 0, 0, 0, 0, 0x1e, 0x84, 0x81],
        None,
    ),
    (
        "stopped, declination one below",
        STOPPED,
        [1, 0, 0, 0, 0, 0xe1, 0x7b, 0x7f],
        None,
    ),
    (
        "stopped, with a rate",
        STOPPED,
        [1, 1, 0, 0, 0x64, 0, 0, 0],
        None,
    ),
    (
        "tracking, to the upper limits",
        TRACKING,
        [1, 0, 0x3d, 0x09, 0x00, 0x1e, 0x84, 0x80],
        Some((1, -3, 4_000_000, 0, 2_000_000)),
    ),
    (
        "tracking, to the lower limits",
        TRACKING,
        [1, 0, 0xc2, 0xf7, 0x00, 0xe1, 0x7b, 0x80],
        Some((1, -3, -4_000_000, 0, -2_000_000)),
    ),
    (
        "tracking, ascension one above",
        TRACKING,
        [1, 0, 0x3d, 0x09, 0x01, 0, 0, 0],
        None,
    ),
    (
        "tracking, ascension one below",
        TRACKING,
        [1, 0, 0xc2, 0xf6, 0xff, 0, 0, 0],
        None,
    ),
    (
        "tracking, declination one above",
        TRACKING,
        [1, 0, 0, 0, 0, 0x1e, 0x84, 0x81],
        None,
    ),
    (
        "tracking, declination one below",
        TRACKING,
        [1, 0, 0, 0, 0, 0xe1, 0x7b, 0x7f],
        None,
    ),
    (
        "tracking, with a rate",
        TRACKING,
        [1, 1, 0, 0, 0x64, 0, 0, 0],
        None,
    ),
    (
        "the largest number",
        STOPPED,
        [1, 0, 0x7f, 0xff, 0xff, 0, 0, 0],
        None,
    ),
    (
        "the least number",
        STOPPED,
        [1, 0, 0x80, 0, 0, 0, 0, 0],
        None,
    ),
    (
        "to small numbers",
        TRACKING,
        [1, 0, 0, 0, 0x64, 0xff, 0xff, 0xce],
        Some((1, -3, 100, 0, -50)),
    ),
];

#[test]
fn slew(rt: HostRuntime) {
    told(&rt, &SLEWS);
}

const TRACKS: [Row; 19] = [
    ("parked", FRESH, [2, 1, 0, 0, 0, 0, 0, 0], None),
    (
        "stopped, at the upper limit",
        STOPPED,
        [2, 0x64, 0, 0, 0, 0, 0, 0],
        Some((2, 100, 1_050, 0, -20)),
    ),
    (
        "stopped, at the lower limit",
        STOPPED,
        [2, 0x9c, 0, 0, 0, 0, 0, 0],
        Some((2, -100, 1_050, 0, -20)),
    ),
    (
        "stopped, one above",
        STOPPED,
        [2, 0x65, 0, 0, 0, 0, 0, 0],
        None,
    ),
    (
        "stopped, one below",
        STOPPED,
        [2, 0x9b, 0, 0, 0, 0, 0, 0],
        None,
    ),
    ("stopped, rate 0", STOPPED, [2, 0, 0, 0, 0, 0, 0, 0], None),
    (
        "tracking, at the upper limit",
        TRACKING,
        [2, 0x64, 0, 0, 0, 0, 0, 0],
        Some((2, 100, 1_050, 0, -20)),
    ),
    (
        "tracking, at the lower limit",
        TRACKING,
        [2, 0x9c, 0, 0, 0, 0, 0, 0],
        Some((2, -100, 1_050, 0, -20)),
    ),
    (
        "tracking, one above",
        TRACKING,
        [2, 0x65, 0, 0, 0, 0, 0, 0],
        None,
    ),
    (
        "tracking, one below",
        TRACKING,
        [2, 0x9b, 0, 0, 0, 0, 0, 0],
        None,
    ),
    ("tracking, rate 0", TRACKING, [2, 0, 0, 0, 0, 0, 0, 0], None),
    (
        "the largest rate",
        TRACKING,
        [2, 0x7f, 0, 0, 0, 0, 0, 0],
        None,
    ),
    (
        "the least rate",
        TRACKING,
        [2, 0x80, 0, 0, 0, 0, 0, 0],
        None,
    ),
    ("byte 2", STOPPED, [2, 1, 1, 0, 0, 0, 0, 0], None),
    ("byte 3", STOPPED, [2, 1, 0, 1, 0, 0, 0, 0], None),
    ("byte 4", STOPPED, [2, 1, 0, 0, 1, 0, 0, 0], None),
    ("byte 5", STOPPED, [2, 1, 0, 0, 0, 1, 0, 0], None),
    ("byte 6", STOPPED, [2, 1, 0, 0, 0, 0, 1, 0], None),
    ("byte 7", STOPPED, [2, 1, 0, 0, 0, 0, 0, 1], None),
];

#[test]
fn track(rt: HostRuntime) {
    told(&rt, &TRACKS);
}

const RUNS: [Row; 19] = [
    ("run while parked", FRESH, [3, 0, 0, 0, 1, 0, 0, 0], None),
    ("run while stopped", STOPPED, [3, 0, 0, 0, 1, 0, 0, 0], None),
    ("no tick", TRACKING, [3, 0, 0, 0, 0, 0, 0, 0], None),
    (
        "one tick",
        TRACKING,
        [3, 0, 0, 0, 1, 0, 0, 0],
        Some((2, -3, 1_000, 47, -20)),
    ),
    (
        "the most ticks",
        TRACKING,
        [3, 0, 0, 0x27, 0x10, 0, 0, 0],
        Some((2, -3, 1_000, -29_950, -20)),
    ),
    (
        "a tick too many",
        TRACKING,
        [3, 0, 0, 0x27, 0x11, 0, 0, 0],
        None,
    ),
    ("a high byte", TRACKING, [3, 0, 1, 0, 1, 0, 0, 0], None),
    (
        "ticks are unsigned",
        TRACKING,
        [3, 0, 0xff, 0xff, 0xff, 0, 0, 0],
        None,
    ),
    (
        "at rate 0",
        (2, 0, 5, 6, 7),
        [3, 0, 0, 0, 9, 0, 0, 0],
        Some((2, 0, 5, 6, 7)),
    ),
    (
        "to the upper limit",
        (2, 100, 3_000_000, 0, 0),
        [3, 0, 0, 0x27, 0x10, 0, 0, 0],
        Some((2, 100, 3_000_000, 1_000_000, 0)),
    ),
    (
        "a step past it",
        (2, 100, 3_000_001, 0, 0),
        [3, 0, 0, 0x27, 0x10, 0, 0, 0],
        None,
    ),
    (
        "to the lower limit",
        (2, -100, -2_000_000, -1_000_000, 0),
        [3, 0, 0, 0x27, 0x10, 0, 0, 0],
        Some((2, -100, -2_000_000, -2_000_000, 0)),
    ),
    (
        "a step past that",
        (2, -100, -3_000_000, -1, 0),
        [3, 0, 0, 0x27, 0x10, 0, 0, 0],
        None,
    ),
    (
        "the largest counter",
        (2, 1, -4_000_000, 7_999_999, 0),
        [3, 0, 0, 0, 1, 0, 0, 0],
        Some((2, 1, -4_000_000, 8_000_000, 0)),
    ),
    (
        "and no further",
        (2, 1, -4_000_000, 8_000_000, 0),
        [3, 0, 0, 0, 1, 0, 0, 0],
        None,
    ),
    ("byte 1", TRACKING, [3, 1, 0, 0, 1, 0, 0, 0], None),
    ("byte 5", TRACKING, [3, 0, 0, 0, 1, 1, 0, 0], None),
    ("byte 6", TRACKING, [3, 0, 0, 0, 1, 0, 1, 0], None),
    ("byte 7", TRACKING, [3, 0, 0, 0, 1, 0, 0, 1], None),
];

#[test]
fn run(rt: HostRuntime) {
    told(&rt, &RUNS);
}

const STOPS: [Row; 10] = [
    ("stop while parked", FRESH, [4, 0, 0, 0, 0, 0, 0, 0], None),
    (
        "stop while stopped",
        STOPPED,
        [4, 0, 0, 0, 0, 0, 0, 0],
        None,
    ),
    (
        "stop while tracking",
        TRACKING,
        [4, 0, 0, 0, 0, 0, 0, 0],
        Some((1, -3, 1_000, 50, -20)),
    ),
    ("byte 1", TRACKING, [4, 1, 0, 0, 0, 0, 0, 0], None),
    ("byte 2", TRACKING, [4, 0, 1, 0, 0, 0, 0, 0], None),
    ("byte 3", TRACKING, [4, 0, 0, 1, 0, 0, 0, 0], None),
    ("byte 4", TRACKING, [4, 0, 0, 0, 1, 0, 0, 0], None),
    ("byte 5", TRACKING, [4, 0, 0, 0, 0, 1, 0, 0], None),
    ("byte 6", TRACKING, [4, 0, 0, 0, 0, 0, 1, 0], None),
    ("byte 7", TRACKING, [4, 0, 0, 0, 0, 0, 0, 1], None),
];

#[test]
fn stop(rt: HostRuntime) {
    told(&rt, &STOPS);
}

const PARKS: [Row; 10] = [
    ("park while parked", FRESH, [5, 0, 0, 0, 0, 0, 0, 0], None),
    (
        "park while stopped",
        STOPPED,
        [5, 0, 0, 0, 0, 0, 0, 0],
        Some(FRESH),
    ),
    (
        "park while tracking",
        TRACKING,
        [5, 0, 0, 0, 0, 0, 0, 0],
        Some(FRESH),
    ),
    ("byte 1", TRACKING, [5, 1, 0, 0, 0, 0, 0, 0], None),
    ("byte 2", STOPPED, [5, 0, 1, 0, 0, 0, 0, 0], None),
    ("byte 3", TRACKING, [5, 0, 0, 1, 0, 0, 0, 0], None),
    ("byte 4", STOPPED, [5, 0, 0, 0, 1, 0, 0, 0], None),
    ("byte 5", TRACKING, [5, 0, 0, 0, 0, 1, 0, 0], None),
    ("byte 6", STOPPED, [5, 0, 0, 0, 0, 0, 1, 0], None),
    ("byte 7", TRACKING, [5, 0, 0, 0, 0, 0, 0, 1], None),
];

#[test]
fn park(rt: HostRuntime) {
    told(&rt, &PARKS);
}

const OTHERS: [Row; 5] = [
    ("kind 0", TRACKING, [0, 0, 0, 0, 0, 0, 0, 0], None),
    ("kind 6", STOPPED, [6, 0, 0, 0, 0, 0, 0, 0], None),
    (
        "the dome's turn",
        TRACKING,
        [0x11, 0, 0, 0, 1, 0, 0, 0],
        None,
    ),
    ("kind 129", FRESH, [0x81, 0, 0, 0, 0, 0, 0, 0], None),
    ("kind 255", STOPPED, [0xff, 0, 0, 0, 0, 0, 0, 0], None),
];

#[test]
fn other_kinds(rt: HostRuntime) {
    told(&rt, &OTHERS);
}

/// Heads that cannot stand so.
const WRONG: [Fields; 19] = [
    (3, 0, 0, 0, 0),
    (255, 0, 0, 0, 0),
    (1, 101, 0, 0, 0),
    (2, -101, 0, 0, 0),
    (2, 127, 0, 0, 0),
    (1, -128, 0, 0, 0),
    (1, 0, 4_000_001, -1, 0),
    (1, 0, -4_000_001, 1, 0),
    (2, 0, 4_000_000, 1, 0),
    (2, 0, -4_000_000, -1, 0),
    (1, 0, 0, 4_000_001, 0),
    (1, 0, 0, 0, 2_000_001),
    (1, 0, 0, 0, -2_000_001),
    (1, 0, i32::MAX, i32::MAX, 0),
    (2, 0, i32::MIN, i32::MIN, i32::MIN),
    (0, 1, 0, 0, 0),
    (0, 0, 1, 0, 0),
    (0, 0, 0, -1, 0),
    (0, 0, 0, 0, 1),
];

#[test]
fn out_of_range(rt: HostRuntime) {
    for wrong in WRONG {
        let mut idle = head(wrong);
        assert_eq!(rt; idle.shown(), head(FRESH));
        assert!(rt; !idle.tell(&[4, 0, 0, 0, 0, 0, 0, 0]));
        assert!(rt; !idle.tell(&[5, 0, 0, 0, 0, 0, 0, 0]));
        assert_eq!(rt; idle, head(wrong));
        assert!(rt; idle.tell(&[1, 0, 0, 0, 0x64, 0xff, 0xff, 0xce]));
        assert_eq!(rt; idle, head((1, 0, 100, 0, -50)));
    }
}

/// Heads at the edge of what they can be.
const RIGHT: [Fields; 7] = [
    (0, 0, 0, 0, 0),
    (1, 100, 4_000_000, 0, 2_000_000),
    (2, -100, -4_000_000, 0, -2_000_000),
    (2, 0, 4_000_000, -8_000_000, 0),
    (1, 0, -4_000_000, 8_000_000, 0),
    (1, 0, 0, 4_000_000, 0),
    (1, 0, 0, 0, 0),
];

#[test]
fn in_range(rt: HostRuntime) {
    for right in RIGHT {
        let mut machine = head(right);
        assert_eq!(rt; machine.shown(), head(right));
        machine.clear();
        assert_eq!(rt; machine, head(FRESH));
    }
}

#[test]
fn whole_list(rt: HostRuntime) {
    let bodies = [
        [1, 0, 0x2d, 0xc6, 0xc0, 0, 0, 0],
        [3, 0, 0, 0, 1, 0, 0, 0],
        [2, 0x64, 0, 0, 0, 0, 0, 0],
        [3, 0, 0, 0x27, 0x10, 0, 0, 0],
        [3, 0, 0, 0, 1, 0, 0, 0],
    ];
    assert_eq!(rt;
        Head::after(&bodies),
        head((2, 100, 3_000_000, 1_000_000, 0))
    );
    let mut machine = head(STOPPED);
    tell_all(&mut machine, &bodies[2..]);
    assert_eq!(rt; machine.shown(), head((2, 100, 1_050, 1_000_100, -20)));
}

#[test]
fn limit(rt: HostRuntime) {
    let (first, first_done, second, second_done) = run_example();
    assert!(rt; first_done && !second_done);
    assert_eq!(rt; first, head((2, 100, 3_000_000, 1_000_000, 0)));
    assert_eq!(rt; second, head((2, 100, 3_000_001, 0, 0)));
}

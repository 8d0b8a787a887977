use machines::{Dome, Machine, tell_all, turn_example};

/// What a row is about, the azimuth before, the body, and the reading after if it is done.
type Row = (&'static str, u16, [u8; 8], Option<u16>);

const TURNS: [Row; 19] = [
    ("one on", 0, [0x11, 0, 0, 0, 1, 0, 0, 0], Some(1)),
    (
        "one back",
        0,
        [0x11, 0, 0xff, 0xff, 0xff, 0, 0, 0],
        Some(35_999),
    ),
    ("past the end", 35_999, [0x11, 0, 0, 0, 1, 0, 0, 0], Some(0)),
    (
        "back past 0",
        100,
        [0x11, 0, 0xff, 0xff, 0x38, 0, 0, 0],
        Some(35_900),
    ),
    ("by nothing", 77, [0x11, 0, 0, 0, 0, 0, 0, 0], Some(77)),
    (
        "a circle on",
        77,
        [0x11, 0, 0, 0x8c, 0xa0, 0, 0, 0],
        Some(77),
    ),
    (
        "a circle back",
        77,
        [0x11, 0, 0xff, 0x73, 0x60, 0, 0, 0],
        Some(77),
    ),
    (
        "a circle back from 0",
        0,
        [0x11, 0, 0xff, 0x73, 0x60, 0, 0, 0],
        Some(0),
    ),
    (
        "a circle on from the end",
        35_999,
        [0x11, 0, 0, 0x8c, 0xa0, 0, 0, 0],
        Some(35_999),
    ),
    (
        "one past a circle",
        77,
        [0x11, 0, 0, 0x8c, 0xa1, 0, 0, 0],
        None,
    ),
    (
        "one past a circle back",
        77,
        [0x11, 0, 0xff, 0x73, 0x5f, 0, 0, 0],
        None,
    ),
    ("the least number", 77, [0x11, 0, 0x80, 0, 0, 0, 0, 0], None),
    ("byte 1", 77, [0x11, 1, 0, 0, 1, 0, 0, 0], None),
    ("byte 5", 77, [0x11, 0, 0, 0, 1, 1, 0, 0], None),
    ("byte 6", 77, [0x11, 0, 0, 0, 1, 0, 1, 0], None),
    ("byte 7", 77, [0x11, 0, 0, 0, 1, 0, 0, 1], None),
    ("kind 0", 77, [0, 0, 0, 0, 1, 0, 0, 0], None),
    ("kind 1", 77, [1, 0, 0, 0, 1, 0, 0, 0], None),
    ("kind 18", 77, [0x12, 0, 0, 0, 1, 0, 0, 0], None),
];

#[test]
fn turn(rt: HostRuntime) {
    for (name, before, body, after) in TURNS {
        let mut dome = Dome { azimuth: before };
        let done = dome.tell(&body);
        assert_eq!(rt; done, after.is_some(), "{}", name);
        assert_eq!(rt; dome.shown(), after.unwrap_or(before), "{}", name);
    }
}

#[test]
fn out_of_range(rt: HostRuntime) {
    for wrong in [36_000, 36_001, u16::MAX] {
        let mut dome = Dome { azimuth: wrong };
        assert_eq!(rt; dome.shown(), 0);
        assert!(rt; !dome.tell(&[0; 8]));
        assert_eq!(rt; dome.azimuth, wrong);
        assert!(rt; dome.tell(&[0x11, 0, 0, 0, 5, 0, 0, 0]));
        assert_eq!(rt; dome.azimuth, 5);
        dome.clear();
        assert_eq!(rt; dome.azimuth, 0);
    }
}

#[test]
fn whole_list(rt: HostRuntime) {
    let bodies = [
        [0x11, 0, 0xff, 0xff, 0xff, 0, 0, 0],
        [5, 0, 0, 0, 0, 0, 0, 0],
        [0x11, 0, 0, 0, 3, 0, 0, 0],
    ];
    assert_eq!(rt; Dome::after(&bodies), 2);
    let mut dome = Dome { azimuth: 35_998 };
    tell_all(&mut dome, &bodies);
    assert_eq!(rt; dome.shown(), 0);
    assert_eq!(rt; turn_example(), (35_999, true));
}

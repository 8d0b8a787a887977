use frames::{Cause, Entry, FrameFault, Plan, Refusal};
use std::process::Abort;
use std::test::Fail;
use writing::{Draft, WriteFault, write_order, write_token};

const fn entry(id: u8) -> Entry {
    Entry { id, body: [5; 8] }
}

/// A frame's fault, as writing carries it.
fn at(place: usize, cause: Cause) -> Result<usize, WriteFault> {
    Err(WriteFault::Frame(FrameFault { place, cause }))
}

fn untouched(out: &[u8]) -> bool {
    out.iter().all(|b| *b == 7)
}

/// Writing a draft is refused by row 9 with this place and cause, and the buffer is left.
fn refuses(rt: &impl Abort, plan: &Plan, draft: &Draft, place: usize, cause: Cause) {
    let mut out = [7; 1060];
    assert!(rt; write_token(plan, draft, &mut out) == at(place, cause));
    assert!(rt; untouched(&out));
}

#[test]
fn a_short_buffer(rt: HostRuntime) -> Result<(), Fail> {
    let plan = Plan::new(3, 1)?;
    let mut out = [7; 1060];
    assert!(rt; write_order(&plan, &entry(0), &mut out[0..1059]) == Err(WriteFault::Short));
    assert!(rt; WriteFault::Short.row() == 1);
    let fault = FrameFault {
        place: 2,
        cause: Cause::Range,
    };
    assert!(rt; write_order(&plan, &entry(0x30), &mut out) == at(2, Cause::Range));
    assert!(rt; WriteFault::Frame(fault).row() == 9);
    assert!(rt; untouched(&out));
    Ok(())
}

#[test]
fn what_would_not_read_back(rt: HostRuntime) -> Result<(), Fail> {
    let plan = Plan::new(3, 1)?;
    let good = Draft {
        sender: 1,
        stamp: 2,
        votes: 1,
        proposal: &[entry(0x01), entry(0x11)],
        lengths: &[1, 2],
        entries: &[entry(0x21), entry(0x02), entry(0x12)],
    };
    refuses(&rt, &plan, &Draft { sender: 3, ..good }, 2, Cause::Range);
    refuses(&rt, &plan, &Draft { stamp: 3, ..good }, 3, Cause::Range);
    refuses(&rt, &plan, &Draft { votes: 2, ..good }, 7, Cause::Range);
    refuses(
        &rt,
        &plan,
        &Draft {
            stamp: 0,
            sender: 2,
            votes: 0,
            ..good
        },
        8,
        Cause::Range,
    );
    refuses(
        &rt,
        &plan,
        &Draft {
            proposal: &[entry(0x01), entry(0x01)],
            ..good
        },
        19,
        Cause::Ids,
    );
    refuses(
        &rt,
        &plan,
        &Draft {
            proposal: &[entry(0x02)],
            ..good
        },
        30,
        Cause::Ids,
    );
    refuses(
        &rt,
        &plan,
        &Draft {
            lengths: &[3, 0],
            ..good
        },
        38,
        Cause::Ids,
    );
    refuses(
        &rt,
        &plan,
        &Draft {
            lengths: &[0, 3],
            ..good
        },
        28,
        Cause::Range,
    );
    refuses(
        &rt,
        &plan,
        &Draft {
            lengths: &[1, 1],
            ..good
        },
        9,
        Cause::Length,
    );
    refuses(
        &rt,
        &plan,
        &Draft {
            lengths: &[0; 256],
            ..good
        },
        9,
        Cause::Range,
    );
    let mut out = [7; 1060];
    assert!(rt; write_token(&plan, &good, &mut out) == Ok(57));
    Ok(())
}

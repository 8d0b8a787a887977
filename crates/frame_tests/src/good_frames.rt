use crate::{DUMMY, LONGER, ORDER, TOKEN};
use frames::{Entry, Frame, Plan, PlanFault, Refusal};
use parts::{decision_at, entry_at, entry_count};
use reading::read;
use std::test::Fail;
use writing::{Draft, write_order, write_token};

#[test]
fn plans(rt: HostRuntime) -> Result<(), Fail> {
    // n is each number of boxes that a byte can say
    for n in 0..=255 {
        assert!(rt; Plan::new(n, 0).is_err() && Plan::new(n, 3).is_err());
        assert!(rt; Plan::new(n, 1).is_ok() == (n >= 3 && n <= 7));
        assert!(rt; Plan::new(n, 2).is_ok() == (n == 7));
    }
    assert!(rt; PlanFault::Plan.row() == 2);
    let seven = Plan::new(7, 2)?;
    assert!(rt; seven.byte() == 0x72);
    assert!(rt; seven.successor(5, 3) == 1 && seven.predecessor(1, 3) == 5);
    assert!(rt;
        seven.dummy_reach(4) == 0 && seven.dummy_reach(5) == 1 && seven.dummy_reach(6) == 2
    );
    assert!(rt; seven.dummy_reach(7) == 0);
    Ok(())
}

#[test]
fn an_order(rt: HostRuntime) -> Result<(), Fail> {
    let three = Plan::new(3, 1)?;
    let Ok(Frame::Order { entry }) = read(&three, &ORDER) else {
        return Err(Fail::new("no order"));
    };
    assert!(rt; entry_count(entry) == 1);
    let Some(order) = entry_at(entry, 0) else {
        return Err(Fail::new("no entry"));
    };
    assert!(rt; order.sender() == 0 && order.serial() == 1 && order.body[4] == 0x64);
    let mut out = [7; 1060];
    assert!(rt; write_order(&three, &order, &mut out).ok() == Some(11));
    assert!(rt; &out[0..11] == &ORDER[0..11] && out[11] == 7 && out[1059] == 7);
    Ok(())
}

#[test]
fn a_dummy_and_a_token(rt: HostRuntime) -> Result<(), Fail> {
    let three = Plan::new(3, 1)?;
    let Ok(
        Frame::Token {
            sender,
            stamp,
            votes,
            proposal,
            decided,
            decisions,
        },
    ) = read(&three, &DUMMY)
    else {
        return Err(Fail::new("no dummy"));
    };
    assert!(rt; sender == 2 && stamp == 0 && votes == 0 && decided == 0);
    assert!(rt; proposal.is_empty() && decisions.is_empty());
    let Ok(
        Frame::Token {
            sender,
            stamp,
            votes,
            proposal,
            decided,
            decisions,
        },
    ) = read(&three, &TOKEN)
    else {
        return Err(Fail::new("no token"));
    };
    assert!(rt; sender == 1 && stamp == 2 && votes == 1 && decided == 0 && decisions.is_empty());
    assert!(rt; proposal.len() == 9 && proposal[0] == 1 && proposal[8] == 0xCE);
    Ok(())
}

#[test]
fn decisions_in_turn(rt: HostRuntime) -> Result<(), Fail> {
    let three = Plan::new(3, 1)?;
    let Ok(
        Frame::Token {
            stamp,
            decided,
            decisions,
            ..
        },
    ) = read(&three, &LONGER)
    else {
        return Err(Fail::new("no token"));
    };
    assert!(rt; stamp == 5 && decided == 2);
    let Some(first) = decision_at(decisions, 0) else {
        return Err(Fail::new("no decision"));
    };
    let Some(second) = decision_at(decisions, 1) else {
        return Err(Fail::new("no second decision"));
    };
    assert!(rt; entry_count(first) == 2 && entry_count(second) == 1);
    let Some(order) = entry_at(first, 1) else {
        return Err(Fail::new("no entry"));
    };
    assert!(rt; order.id == 0x11 && order.body[7] == 3);
    assert!(rt; entry_at(first, 2).is_none() && decision_at(decisions, 2).is_none());
    Ok(())
}

/// The fifteen orders of each of seven boxes, by ascending id.
fn all_orders() -> [Entry; 105] {
    let mut entries = [Entry {
        id: 0,
        body: [9; 8],
    }; 105];
    for (i, entry) in entries.iter_mut().enumerate() {
        entry.id = (16 * (i / 15) + i % 15 + 1) as u8;
    }
    entries
}

#[test]
fn the_longest(rt: HostRuntime) -> Result<(), Fail> {
    let seven = Plan::new(7, 1)?;
    let entries = all_orders();
    let draft = Draft {
        sender: 0,
        stamp: 1,
        votes: 1,
        proposal: &[],
        lengths: &[1; 105],
        entries: &entries,
    };
    let mut out = [0; 1061];
    out[1060] = 7;
    assert!(rt; write_token(&seven, &draft, &mut out).ok() == Some(1060));
    assert!(rt;
        out[9] == 105 && out[10] == 1 && out[11] == 0x01 && out[21] == 0x02 && out[1060] == 7
    );
    let Ok(
        Frame::Token {
            decided,
            decisions,
            ..
        },
    ) = read(&seven, &out[0..1060])
    else {
        return Err(Fail::new("no token"));
    };
    assert!(rt; decided == 105);
    let Some(last) = decision_at(decisions, 104) else {
        return Err(Fail::new("no last decision"));
    };
    assert!(rt; last.len() == 9 && last[0] == 0x6F);
    Ok(())
}

//! The links, worked by hand.

#![tactic(auto)]

#[cfg(test)]
mod tests {
    use frames::{Cause, FrameFault, Refusal};
    use link_tables::{Lines, Tray};
    use links::{Bridge, Link, LinkFault};
    use std::process::Abort;

    const EMPTY: LinkFault = LinkFault::Frame(FrameFault {
        place: 0,
        cause: Cause::Length,
    });

    const TOO_LONG: LinkFault = LinkFault::Frame(FrameFault {
        place: 1060,
        cause: Cause::Length,
    });

    // Posts to each box in turn a frame of one byte, its number; each post answers the same.
    fn check_posts<L: Link>(
        rt: &impl Abort,
        link: &mut L,
        first: u8,
        boxes: &[u8],
        answer: Result<(), LinkFault>,
    ) {
        for (to, number) in boxes.iter().zip(first..=u8::MAX) {
            assert_eq!(rt; link.post(*to, &[number]), answer);
        }
    }

    // The frame at a place has one byte, this one.
    fn check_byte<L: Link>(rt: &impl Abort, link: &L, to: u8, place: u8, byte: u8) {
        let mut out = [0; 1060];
        assert_eq!(rt; link.copy(to, place, &mut out), Ok(1));
        assert_eq!(rt; out[0], byte);
    }

    // The frames that wait for a box have one byte each, these, oldest first.
    fn check_waiting<L: Link>(rt: &impl Abort, link: &L, to: u8, bytes: &[u8]) {
        for (place, byte) in (0..=u8::MAX).zip(bytes) {
            check_byte(rt, link, to, place, *byte);
        }
        assert_eq!(rt;
            link.count(to).map(|waiting| waiting as usize),
            Ok(bytes.len())
        );
    }

    #[test]
    fn tray_holds_24_for_all_boxes(rt: HostRuntime) {
        let mut tray = Tray::new();
        for first in [0, 7, 14] {
            check_posts(&rt, &mut tray, first, &[0, 1, 2, 3, 4, 5, 6], Ok(()));
        }
        check_posts(&rt, &mut tray, 21, &[0, 1, 2], Ok(()));
        assert!(rt; tray.is_full());
        // each box by its number
        for to in 0..7 {
            check_length(&rt, &mut tray, to, 1060, LinkFault::Full);
            check_length(&rt, &mut tray, to, 0, LinkFault::Full);
        }
        check_waiting(&rt, &tray, 2, &[2, 9, 16, 23]);
        assert_eq!(rt; tray.remove(2, 1), Ok(()));
        assert!(rt; !tray.is_full());
        check_waiting(&rt, &tray, 2, &[2, 16, 23]);
        check_waiting(&rt, &tray, 3, &[3, 10, 17]);
        check_posts(&rt, &mut tray, 0, &[3], Ok(()));
        check_waiting(&rt, &tray, 3, &[3, 10, 17, 0]);
        check_posts(&rt, &mut tray, 0, &[3, 4], Err(LinkFault::Full));
    }

    #[test]
    fn lines_hold_four_for_each_box(rt: HostRuntime) {
        let mut lines = Lines::new();
        check_posts(&rt, &mut lines, 0, &[3, 3, 4, 3, 4, 3], Ok(()));
        assert!(rt; lines.is_full(3));
        assert!(rt; !lines.is_full(4));
        check_posts(&rt, &mut lines, 0, &[3, 3], Err(LinkFault::Full));
        check_waiting(&rt, &lines, 4, &[2, 4]);
        assert_eq!(rt; lines.remove(3, 1), Ok(()));
        assert!(rt; !lines.is_full(3));
        check_waiting(&rt, &lines, 3, &[0, 3, 5]);
        check_posts(&rt, &mut lines, 0, &[3, 0, 1, 2, 4, 5, 6], Ok(()));
        check_waiting(&rt, &lines, 3, &[0, 3, 5, 0]);
        check_posts(&rt, &mut lines, 0, &[3], Err(LinkFault::Full));
    }

    #[test]
    fn bridge_is_full_on_one_side(rt: HostRuntime) {
        let mut bridge = Bridge::new(2, Lines::new(), Tray::new());
        for first in [0, 5, 10, 15] {
            check_posts(&rt, &mut bridge, first, &[2, 3, 4, 5, 6], Ok(()));
        }
        check_posts(&rt, &mut bridge, 20, &[2, 3, 4, 5], Ok(()));
        check_posts(&rt, &mut bridge, 0, &[2, 3, 4, 5, 6], Err(LinkFault::Full));
        check_posts(&rt, &mut bridge, 0, &[1, 1, 1, 1, 0], Ok(()));
        check_posts(&rt, &mut bridge, 0, &[1], Err(LinkFault::Full));
        check_waiting(&rt, &bridge, 6, &[4, 9, 14, 19]);
        assert_eq!(rt; bridge.remove(6, 2), Ok(()));
        check_waiting(&rt, &bridge, 6, &[4, 9, 19]);
        check_posts(&rt, &mut bridge, 0, &[1], Err(LinkFault::Full));
        check_posts(&rt, &mut bridge, 0, &[2, 0], Ok(()));
        check_posts(
            &rt,
            &mut bridge,
            0,
            &[2, 3, 4, 5, 6, 1],
            Err(LinkFault::Full),
        );
        check_waiting(&rt, &bridge, 0, &[4, 1]);
    }

    // Posts a frame of the length, which is refused.
    fn check_length<L: Link>(rt: &impl Abort, link: &mut L, to: u8, len: usize, fault: LinkFault) {
        let bytes = [5; 1061];
        assert!(rt; len <= 1061);
        assert_eq!(rt; link.post(to, &bytes[0..len]), Err(fault));
    }

    // A copy is refused for the topmost reason that fits, on a link on which nothing waits for box 6.
    fn check_refused_copies<L: Link>(rt: &impl Abort, link: &L) {
        let mut out = [0; 1060];
        assert_eq!(rt; link.copy(7, 0, &mut out[0..1059]), Err(LinkFault::Short));
        assert_eq!(rt; link.copy(7, 0, &mut out), Err(LinkFault::Box));
        assert_eq!(rt; link.copy(6, 0, &mut out), Err(LinkFault::Place));
    }

    // So are the other calls.
    fn check_refusals<L: Link>(rt: &impl Abort, link: &mut L) {
        assert_eq!(rt; link.remove(7, 0), Err(LinkFault::Box));
        assert_eq!(rt; link.remove(6, 0), Err(LinkFault::Place));
        assert_eq!(rt; link.count(7), Err(LinkFault::Box));
        check_length(rt, link, 7, 0, LinkFault::Box);
        check_length(rt, link, 6, 0, EMPTY);
        check_length(rt, link, 6, 1061, TOO_LONG);
        assert_eq!(rt; link.count(6), Ok(0));
    }

    // Copying writes where the frame stands, and a refusal nowhere.
    fn check_copies<L: Link>(rt: &impl Abort, link: &mut L) {
        let mut out = [200; 1070];
        assert_eq!(rt; link.post(0, &[1, 2, 3]), Ok(()));
        assert_eq!(rt; link.copy(0, 1, &mut out), Err(LinkFault::Place));
        for byte in out {
            assert_eq!(rt; byte, 200);
        }
        assert_eq!(rt; link.copy(0, 0, &mut out), Ok(3));
        assert!(rt; out[..3] == [1, 2, 3]);
        for byte in &out[3..1070] {
            assert_eq!(rt; *byte, 200);
        }
    }

    // The longest frame comes back whole.
    fn check_longest<L: Link>(rt: &impl Abort, link: &mut L) {
        let mut out = [0; 1060];
        assert_eq!(rt; link.post(5, &[7; 1060]), Ok(()));
        assert_eq!(rt; link.copy(5, 0, &mut out), Ok(1060));
        for byte in out {
            assert_eq!(rt; byte, 7);
        }
    }

    fn check_link<L: Link>(rt: &impl Abort, link: &mut L) {
        check_refused_copies(rt, link);
        check_refusals(rt, link);
        check_copies(rt, link);
        check_longest(rt, link);
    }

    #[test]
    fn refusals_and_copies(rt: HostRuntime) {
        let mut tray = Tray::new();
        check_link(&rt, &mut tray);
        let mut lines = Lines::new();
        check_link(&rt, &mut lines);
        let mut bridge = Bridge::new(3, Lines::new(), Tray::new());
        check_link(&rt, &mut bridge);
    }

    #[test]
    fn full_comes_before_length(rt: HostRuntime) {
        let mut lines = Lines::new();
        check_posts(&rt, &mut lines, 0, &[6, 6, 6, 6], Ok(()));
        check_length(&rt, &mut lines, 6, 0, LinkFault::Full);
        check_length(&rt, &mut lines, 6, 1061, LinkFault::Full);
        check_length(&rt, &mut lines, 5, 1061, TOO_LONG);
    }

    #[test]
    fn refusals_have_their_numbers(rt: HostRuntime) {
        assert_eq!(rt; LinkFault::Short.row(), 1);
        assert_eq!(rt; LinkFault::Box.row(), 3);
        assert_eq!(rt; LinkFault::Place.row(), 5);
        assert_eq!(rt; LinkFault::Full.row(), 6);
        assert_eq!(rt; EMPTY.row(), 9);
    }
}

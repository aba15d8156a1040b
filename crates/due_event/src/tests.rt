//! Worked samples of event contracts, in both profiles.
use super::*;
use adsc_requests::Range;
use flight_samples::Sample;
use std::process::Abort;

#[test]
fn lateral_event(rt: HostRuntime) {
    let limits = Limits {
        lateral: Some(8),
        vrate: None,
        range: None,
        waypoint: false,
    };
    let mut once = Watch::new(limits, Profile::One);
    let mut again = Watch::new(limits, Profile::Two);
    let mut before = Sample::zero();
    for (xtk, in_one, in_two) in [
        (8, false, false),
        (9, true, true),
        (9, false, false),
        (0, false, false),
        (-9, false, true),
    ] {
        assert!(rt; -9 <= xtk && xtk <= 9);
        let mut now = Sample::zero();
        now.xtk = xtk;
        assert_eq!(rt;
            once.see(&before, &now).lateral,
            in_one,
            "profile 1 at {xtk}"
        );
        assert_eq!(rt;
            again.see(&before, &now).lateral,
            in_two,
            "profile 2 at {xtk}"
        );
        before = now;
    }
}

#[test]
fn range_event(rt: HostRuntime) {
    let limits = Limits {
        lateral: None,
        vrate: None,
        range: Some(Range {
            ceiling: 10000,
            floor: 9000,
        }),
        waypoint: false,
    };
    let mut once = Watch::new(limits, Profile::One);
    let mut again = Watch::new(limits, Profile::Two);
    let mut before = Sample::zero();
    for (alt, in_one, in_two) in [(0, true, true), (9500, false, false), (0, false, true)] {
        assert!(rt; 0 <= alt && alt <= 9500);
        let mut now = Sample::zero();
        now.alt = alt;
        assert_eq!(rt; once.see(&before, &now).range, in_one, "profile 1 at {alt}");
        assert_eq!(rt;
            again.see(&before, &now).range,
            in_two,
            "profile 2 at {alt}"
        );
        before = now;
    }
}

#[test]
fn rate_and_waypoint_events(rt: HostRuntime) {
    let limits = Limits {
        lateral: None,
        vrate: Some(-2),
        range: None,
        waypoint: true,
    };
    let mut watch = Watch::new(limits, Profile::Two);
    let mut before = Sample::zero();
    for (vr, wlon, vrate, waypoint) in [
        (-8, 0, false, false),
        (-9, 1, true, true),
        (0, 1, false, false),
        (-9, 2, false, true),
    ] {
        assert!(rt; -9 <= vr && vr <= 0 && 0 <= wlon && wlon <= 2);
        let mut now = Sample::zero();
        now.vr = vr;
        now.wlon = wlon;
        let fired = watch.see(&before, &now);
        assert_eq!(rt; fired.vrate, vrate, "rate {vr}");
        assert_eq!(rt; fired.waypoint, waypoint, "waypoint at {wlon}");
        before = now;
    }
}

//! Worked histories of a link's emergency mode.
use super::*;
use std::process::Abort;

#[test]
fn crew_switches_on_and_off(rt: HostRuntime) {
    let mut mode = Mode::admit(false, 0);
    assert!(rt; !mode.tick(100), "out of emergency mode");
    assert!(rt; !mode.crew(true, 100), "was not in emergency mode");
    mode.count_report();
    assert!(rt; !mode.tick(304), "before the first moment");
    assert!(rt; mode.tick(404), "the first moment");
    mode.count_report();
    assert_eq!(rt; mode.reports(), 2);
    assert!(rt; !mode.tick(608), "before the second moment");
    assert!(rt; mode.tick(708), "the second moment");
    assert!(rt; mode.crew(false, 708), "was in emergency mode");
    assert!(rt; !mode.tick(1012), "out of emergency mode again");
}

#[test]
fn ground_cancels_the_mode(rt: HostRuntime) {
    let mut mode = Mode::admit(true, 0);
    assert!(rt; mode.is_on(), "admitted while the crew's switch is on");
    assert!(rt; !mode.tick(303), "before the first moment");
    assert!(rt; mode.tick(304), "the first moment");
    mode.cancel();
    assert!(rt; !mode.is_on());
    assert!(rt; !mode.tick(608), "cancelled");
    assert!(rt; !mode.crew(true, 608), "was cancelled");
    assert!(rt; mode.tick(912), "on again, anchored at 608 s");
}

#[test]
fn emergency_contract_gives_the_interval(rt: HostRuntime) {
    let mut mode = Mode::admit(true, 10);
    mode.contract(Some(64), 20);
    mode.count_report();
    assert!(rt; !mode.tick(83), "before the first moment");
    assert!(rt; mode.tick(84), "64 s after the contract");
    mode.contract(None, 90);
    assert_eq!(rt; mode.reports(), 0);
    assert!(rt; !mode.tick(393), "before the first moment");
    assert!(rt; mode.tick(394), "304 s after the cancel of the contract");
}

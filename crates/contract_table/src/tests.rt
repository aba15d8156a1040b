//! Long histories of an aircraft's links, act by act.

ghost use Rattle.std.specs.Prelude.{◌≡◌, ◌<◌, true};
ghost use Rattle.contract_table.specs.Acts.{IsTaken};

use super::*;
use adsc_requests::{Intent, Limits, Message, Moduli, Range, Refusal};
use due_event::Profile;
use flight_samples::Sample;
use std::process::Abort;

/// No optional groups.
const NONE: [bool; 6] = [false; 6];
/// The predicted route, group 13, alone.
const ROUTE: [bool; 6] = [false, true, false, false, false, false];
/// The earth reference, group 14, alone.
const EARTH: [bool; 6] = [false, false, true, false, false, false];

/// Basic reports, and an emergency report.
const BASIC: DueItem = DueItem::Report {
    tag: 7,
    groups: NONE,
};

const BASIC_WITH_ROUTE: DueItem = DueItem::Report {
    tag: 7,
    groups: ROUTE,
};

const EMERGENCY: DueItem = DueItem::Report {
    tag: 9,
    groups: NONE,
};

/// The four events.
const LATERAL: DueItem = DueItem::Report {
    tag: 10,
    groups: NONE,
};

const VERTICAL_RATE: DueItem = DueItem::Report {
    tag: 18,
    groups: EARTH,
};

const OUT_OF_RANGE: DueItem = DueItem::Report {
    tag: 19,
    groups: NONE,
};

const WAYPOINT: DueItem = DueItem::Report {
    tag: 20,
    groups: ROUTE,
};

/// The answer to a reporting interval that stands twice, in the fifth octet of a request with number 1.
const INTERVAL_TWICE: DueItem = DueItem::Nack {
    n: 1,
    reason: 2,
    octet: 5,
};

/// The answers to cancels of what isn't in force.
const NO_CONTRACT_4: DueItem = DueItem::Nack {
    n: 4,
    reason: 5,
    octet: 0,
};

const NO_EMERGENCY_MODE_7: DueItem = DueItem::Nack {
    n: 7,
    reason: 5,
    octet: 0,
};

/// The answer to a request whose number is in force for another.
const NUMBER_2_IN_FORCE: DueItem = DueItem::Nack {
    n: 2,
    reason: 6,
    octet: 0,
};

/// An act of the ground system of link 0, or of the flight, and what is then due on the link.
type Step = (Act, &'static [DueItem]);

#[test]
fn one_link(rt: HostRuntime) {
    let mut table = Table::new(1, Profile::One, None);
    take_steps(&rt, &mut table, &periodic_steps());
    assert_eq!(rt; table.time(), 912);
    take_steps(&rt, &mut table, &emergency_steps());
    take_steps(&rt, &mut table, &event_steps());
    assert!(rt; table.is_live(0));
    take_steps(&rt, &mut table, &session_steps());
    assert!(rt; !table.is_live(0));
    assert_eq!(rt; table.time(), 2804);
}

/// A periodic contract of 304 s, whose reports have group 13 in every second one.
fn periodic_steps() -> [Step; 12] {
    [
        (malformed(), &[]),
        (said(Message::Cancel { n: 2 }), &[]),
        (
            said(every_304_seconds(2)),
            &[DueItem::Ack { n: 2 }, BASIC_WITH_ROUTE],
        ),
        (ticked(0), &[]),
        (ticked(303), &[]),
        (ticked(304), &[BASIC]),
        (said(every_304_seconds(2)), &[DueItem::Ack { n: 2 }]),
        (said(every_312_seconds(2)), &[NUMBER_2_IN_FORCE]),
        (malformed(), &[INTERVAL_TWICE]),
        (ticked(912), &[BASIC_WITH_ROUTE]),
        (ticked(911), &[]),
        (
            said(Message::CancelEmergency { n: 7 }),
            &[NO_EMERGENCY_MODE_7],
        ),
    ]
}

/// Emergency mode, in which no periodic report is due: switched off by the crew, cancelled by the ground, and under an
/// emergency contract.
fn emergency_steps() -> [Step; 17] {
    [
        (Act::Crew { on: true }, &[EMERGENCY]),
        (ticked(1215), &[]),
        (ticked(1216), &[EMERGENCY]),
        (ticked(1520), &[EMERGENCY]),
        (Act::Crew { on: false }, &[DueItem::EmergencyOff { n: 0 }]),
        (ticked(1823), &[]),
        (ticked(1824), &[BASIC]),
        (Act::Crew { on: true }, &[EMERGENCY]),
        (said(once(1)), &[DueItem::Ack { n: 1 }, BASIC]),
        (ticked(2127), &[]),
        (ticked(2128), &[EMERGENCY]),
        (
            said(Message::CancelEmergency { n: 0 }),
            &[DueItem::Ack { n: 0 }],
        ),
        (Act::Crew { on: false }, &[]),
        (said(emergency(5)), &[DueItem::Ack { n: 5 }]),
        (Act::Crew { on: true }, &[EMERGENCY]),
        (ticked(2192), &[EMERGENCY]),
        (Act::Crew { on: false }, &[DueItem::EmergencyOff { n: 5 }]),
    ]
}

/// Event contracts: a later one replaces the one before, and one of all limits fires all four events at one sample.
fn event_steps() -> [Step; 16] {
    [
        (
            said(with_intent(1)),
            &[DueItem::Noncompliance { n: 1 }, BASIC],
        ),
        (said(deviation(3)), &[DueItem::Ack { n: 3 }]),
        (beside(0, 8), &[]),
        (beside(8, 9), &[LATERAL]),
        (beside(9, 9), &[]),
        (beside(9, 0), &[]),
        (beside(0, 9), &[]),
        (said(range(4)), &[DueItem::Ack { n: 4 }]),
        (level(0, 0), &[OUT_OF_RANGE]),
        (level(0, 95), &[]),
        (level(95, 0), &[]),
        (said(Message::Cancel { n: 4 }), &[DueItem::Ack { n: 4 }]),
        (said(Message::Cancel { n: 4 }), &[NO_CONTRACT_4]),
        (said(any_event(6)), &[DueItem::Ack { n: 6 }]),
        (
            past_all_limits(),
            &[LATERAL, VERTICAL_RATE, OUT_OF_RANGE, WAYPOINT],
        ),
        (past_all_limits(), &[WAYPOINT]),
    ]
}

/// The end of the session, and the next one, which begins in emergency mode and has an anchor of its own.
fn session_steps() -> [Step; 10] {
    [
        (Act::Crew { on: true }, &[EMERGENCY]),
        (said(Message::CancelAll), &[]),
        (ticked(2432), &[]),
        (past_all_limits(), &[]),
        (Act::Crew { on: false }, &[]),
        (Act::Crew { on: true }, &[]),
        (ticked(2500), &[]),
        (said(once(1)), &[DueItem::Ack { n: 1 }, BASIC]),
        (ticked(2804), &[EMERGENCY]),
        (said(Message::CancelAll), &[]),
    ]
}

#[test]
fn second_profile(rt: HostRuntime) {
    let mut table = Table::new(1, Profile::Two, None);
    let steps: [Step; 9] = [
        (said(deviation(3)), &[DueItem::Ack { n: 3 }]),
        (beside(0, 9), &[LATERAL]),
        (beside(9, 9), &[]),
        (beside(9, 0), &[]),
        (beside(0, 9), &[LATERAL]),
        (said(range(4)), &[DueItem::Ack { n: 4 }]),
        (level(0, 0), &[OUT_OF_RANGE]),
        (level(0, 95), &[]),
        (level(95, 0), &[OUT_OF_RANGE]),
    ];
    take_steps(&rt, &mut table, &steps);
}

#[test]
fn five_links(rt: HostRuntime) {
    let mut table = Table::new(64, Profile::One, None);
    for link in 0..5u8 {
        assert_eq!(rt; answers(&mut table, link, once(1)), 2, "link {link}");
    }
    assert_eq!(rt; answers(&mut table, 63, once(1)), 0);
    assert!(rt; !table.is_live(63));
    assert_eq!(rt; answers(&mut table, 1, Message::CancelAll), 0);
    assert_eq!(rt; answers(&mut table, 63, once(1)), 2);
    assert!(rt; table.is_live(63));
    let dues = table.step(&Act::Crew { on: true });
    let links = dues.list.iter().map(|due| due.link);
    assert!(rt; links.eq([0, 2, 3, 4, 63].iter().copied()));
}

#[test]
fn kept_connection(rt: HostRuntime) {
    let mut table = Table::new(6, Profile::One, Some(5));
    for (link, items) in [(0, 2), (1, 2), (2, 2), (3, 2), (4, 0), (5, 2)] {
        assert!(rt; link < 6);
        assert_eq!(rt; answers(&mut table, link, once(1)), items, "link {link}");
    }
}

/// Takes steps one by one and compares what is due at each, which is all on link 0.
fn take_steps(rt: &impl Abort, table: &mut Table, steps: &[Step])
    requires { table.old.links ≡ 1 }
    ensures { table.new.links ≡ 1 }
{
    for (place, (act, due)) in steps.iter().enumerate() {
        assert!(rt; is_taken(act), "step {place}");
        let dues = table.step(act);
        assert!(rt; dues.list.iter().all(|due| due.link == 0), "step {place}");
        let items = dues.list.iter().map(|due| due.item);
        assert!(rt; items.eq(due.iter().copied()), "step {place}");
    }
}

/// Whether a table of one link takes an act.
fn is_taken(act: &Act) -> bool
    ensures { result ≡ true → IsTaken 1 act.now }
{
    match act {
        Act::Said { link, .. } | Act::Malformed { link, .. } => *link == 0,
        Act::Ticked { t } => *t <= 999_999_999,
        Act::Moved { .. } | Act::Crew { .. } => true,
    }
}

/// How many items are due at a message of a link.
fn answers(table: &mut Table, link: u8, message: Message) -> usize
    requires { link < table.old.links }
    ensures { table.new.links ≡ table.old.links }
{
    table.step(&Act::Said { link, message }).list.len()
}

fn said(message: Message) -> Act {
    Act::Said { link: 0, message }
}

/// A payload of link 0 with an undefined tag in its fifth octet.
fn malformed() -> Act {
    Act::Malformed {
        link: 0,
        refusal: Refusal {
            bit: 32,
            reason: 2,
            number: 1,
            octet: 5,
        },
    }
}

fn ticked(t: u16) -> Act {
    Act::Ticked { t: u32::from(t) }
}

/// Two samples so far beside the track, in 1/8 nautical mile.
fn beside(before: u8, now: u8) -> Act {
    Act::Moved {
        before: sample_beside(before),
        now: sample_beside(now),
    }
}

fn sample_beside(xtk: u8) -> Sample {
    let mut sample = Sample::zero();
    sample.xtk = i32::from(xtk);
    sample
}

/// Two samples at so many times 400 ft.
fn level(before: u8, now: u8) -> Act {
    Act::Moved {
        before: sample_at(before),
        now: sample_at(now),
    }
}

fn sample_at(level: u8) -> Sample {
    let mut sample = Sample::zero();
    sample.alt = i32::from(level) * 100;
    sample
}

/// A sample beside the track, in a climb of 336 ft/min, at 0 ft, and towards another waypoint than the one before.
fn past_all_limits() -> Act {
    Act::Moved {
        before: Sample::zero(),
        now: towards(climbing(sample_beside(9), 21), 1),
    }
}

/// The sample in a climb of so many times 16 ft/min.
fn climbing(sample: Sample, rate: u8) -> Sample {
    let mut climbing = sample;
    climbing.vr = i32::from(rate);
    climbing
}

/// The sample with the active waypoint at this latitude.
fn towards(sample: Sample, latitude: u8) -> Sample {
    let mut turned = sample;
    turned.wlat = i32::from(latitude);
    turned
}

/// Reports every 304 s, with the predicted route in every second one.
fn every_304_seconds(n: u8) -> Message {
    periodic(n, Some(0xA5), Some(2))
}

/// The same every 312 s.
fn every_312_seconds(n: u8) -> Message {
    periodic(n, Some(0xA6), Some(2))
}

/// One report.
fn once(n: u8) -> Message {
    periodic(n, None, None)
}

fn periodic(n: u8, interval: Option<u8>, route: Option<u8>) -> Message {
    Message::Periodic {
        n,
        interval,
        groups: Moduli {
            m: [None, route, None, None, None, None],
        },
        intent: None,
    }
}

/// One report, with the aircraft intent of ten minutes.
fn with_intent(n: u8) -> Message {
    Message::Periodic {
        n,
        interval: None,
        groups: Moduli { m: [None; 6] },
        intent: Some(Intent {
            modulus: 1,
            minutes: 10,
        }),
    }
}

/// Emergency reports every 64 s.
fn emergency(n: u8) -> Message {
    Message::Emergency {
        n,
        interval: Some(0x87),
        groups: Moduli { m: [None; 6] },
        intent: None,
    }
}

/// More than a nautical mile beside the track.
fn deviation(n: u8) -> Message {
    Message::Event {
        n,
        limits: Limits {
            lateral: Some(8),
            vrate: None,
            range: None,
            waypoint: false,
        },
    }
}

/// Below 36,000 ft or above 40,000 ft.
fn range(n: u8) -> Message {
    Message::Event {
        n,
        limits: Limits {
            lateral: None,
            vrate: None,
            range: Some(Range {
                ceiling: 10000,
                floor: 9000,
            }),
            waypoint: false,
        },
    }
}

/// More than a nautical mile beside the track, a climb of more than 320 ft/min, an altitude out of range, another waypoint.
fn any_event(n: u8) -> Message {
    Message::Event {
        n,
        limits: Limits {
            lateral: Some(8),
            vrate: Some(5),
            range: Some(Range {
                ceiling: 10000,
                floor: 9000,
            }),
            waypoint: true,
        },
    }
}

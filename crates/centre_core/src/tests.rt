//! A centre at work. Texts and octets were made by another program, from the tables of the formats.
ghost use Rattle.std.specs.Prelude.{IfOk, IsSome};
ghost use Rattle.adsc_requests.specs.Kind.{kind_in};

use super::*;
use acars_envelope::{
    Address, Body, Envelope, EnvelopeRefusal, EnvelopeWhy, Registration, Text, seal,
};
use adsc_downlink::{DownRefusal, DownWhy};
use adsc_requests::{Kind, Message, decode_uplink, kind_of};
use afn_logon::AfnRefusal;
use arrayvec::ArrayVec;
use std::process::Abort;
use std::test::Fail;

/// The contact of the aircraft N12345 to the centre at AKLCDYA, and the answer to it.
const CONTACT: &[u8] =
    b"/AKLCDYA.AFN/FMHANZ1,.N12345,C81234,000000/FPON00000E000000,0/FCOADS,013093";

const GREETING: &[u8] = b"/AKLCDYA.AFN/FMHANZ1,.N12345/FAK0/FARADS,05087";

/// A demand; a periodic request of 304 s; one of 1,024 s with two groups; and an event request.
const DEMAND: &[u8] = &[0x07, 0x00];

const PERIODIC: &[u8] = &[0x07, 0x00, 0x0b, 0xa5];

const OVER_THE_OCEAN: &[u8] = &[0x07, 0x00, 0x0b, 0xcf, 0x0d, 0x01, 0x0e, 0x01];

const EVENT: &[u8] = &[0x08, 0x00, 0x0a, 0x10, 0x14];

/// The acknowledgement of request 1 over the ocean, and the report that follows it at once.
const FIRST_REPORT: &[u8] =
    b"/AKLCDYA.ADS.N12345030107000000000000000000000D00000000000000000000000000000000000E000000000036BC";

const KINDS: [Kind; 4] = [Kind::Demand, Kind::Periodic, Kind::Event, Kind::Emergency];

/// A centre at this address for the aircraft N12345.
fn centre(address: &[u8]) -> Result<Centre, Fail> {
    let address = Address::new(address).ok_or("an address")?;
    let registration = Registration::new(b"N12345").ok_or("a registration")?;
    Ok(Centre::new(address, registration))
}

/// The centre at AKLCDYA, which has heard the contact of the aircraft.
fn contacted() -> Result<Centre, Fail> {
    let mut centre = centre(b"AKLCDYA")?;
    match centre.hear(CONTACT) {
        Heard::Contact(_) => Ok(centre),
        _ => Err(Fail::from("a contact")),
    }
}

/// The request that a payload encodes.
fn request(payload: &[u8]) -> Result<Message, Fail>
    ensures { IfOk result (λ request. IsSome (kind_in request)) }
{
    let Ok(uplink) = decode_uplink(payload) else {
        return Err(Fail::from("a payload that is read"));
    };
    match uplink.messages.as_slice() {
        [message] if kind_of(message).is_some() => Ok(*message),
        _ => Err(Fail::from("a payload of one request")),
    }
}

/// Asks for a contract: the text that is sent.
fn ask(centre: &mut Centre, payload: &[u8]) -> Result<Sent, Fail> {
    match centre.ask(&request(payload)?) {
        Ok(sent) => Ok(sent),
        Err(_) => Err(Fail::from("a request that is sent")),
    }
}

/// The text of a downlink with this payload from the aircraft N12345 to the centre at AKLCDYA.
fn downlink(payload: &[u8]) -> Result<Text, Fail> {
    let octets: ArrayVec<u8, 255> = ArrayVec::try_from(payload).ok().ok_or("a payload")?;
    if octets.is_empty() {
        return Err(Fail::from("a payload of octets"));
    }
    let envelope = Envelope {
        address: Address::new(b"AKLCDYA").ok_or("an address")?,
        body: Body::Ads {
            registration: Registration::new(b"N12345").ok_or("a registration")?,
            payload: octets,
        },
    };
    Ok(seal(&envelope))
}

/// What was sent is this text, with a message of this number.
fn is_sent(rt: &impl Abort, sent: &Sent, n: u8, text: &[u8]) {
    assert_eq!(rt; sent.n, n);
    assert_eq!(rt; sent.text.as_slice(), text);
}

/// Hears a downlink: how many items were matched.
fn hear(centre: &mut Centre, text: &[u8]) -> Result<u8, Fail> {
    match centre.hear(text) {
        Heard::Downlink { matched, .. } => Ok(matched),
        _ => Err(Fail::from("a downlink")),
    }
}

/// The centre hears this text as a contact, and answers it by that text.
fn is_greeted(rt: &impl Abort, centre: &mut Centre, contact: &[u8], greeting: &[u8]) {
    match centre.hear(contact) {
        Heard::Contact(sent) => is_sent(rt, &sent, 0, greeting),
        heard => assert!(rt; false, "{heard:?}"),
    }
}

/// The row of each kind is this, in the order of the kinds.
fn shows(rt: &impl Abort, centre: &Centre, rows: [Shown; 4]) {
    for place in 0..4usize {
        assert_eq!(rt; centre.shown(KINDS[place]), rows[place]);
    }
}

#[test]
fn request_is_confirmed_once(rt: HostRuntime) -> Result<(), Fail> {
    let mut centre = centre(b"AKLCDYA")?;
    assert_eq!(rt;
        centre.ask(&request(PERIODIC)?),
        Err(AskRefused::NotLoggedOn)
    );
    is_greeted(&rt, &mut centre, CONTACT, GREETING);
    let sent = ask(&mut centre, PERIODIC)?;
    is_sent(&rt, &sent, 1, b"/AKLCDYA.ADS.N1234507010BA50A3F");
    assert_eq!(rt;
        centre.ask(&request(OVER_THE_OCEAN)?),
        Err(AskRefused::Waiting { n: 1 })
    );
    let asked = request(&[0x07, 0x01, 0x0b, 0xa5])?;
    shows(
        &rt,
        &centre,
        [
            Shown::Nothing,
            Shown::Pending(asked),
            Shown::Nothing,
            Shown::Nothing,
        ],
    );
    // The acknowledgement with the first report, and the acknowledgement of the repeat.
    assert_eq!(rt;
        hear(
            &mut centre,
            b"/AKLCDYA.ADS.N12345030107000000000000000000007E26"
        )?,
        1
    );
    assert_eq!(rt; hear(&mut centre, b"/AKLCDYA.ADS.N123450301718B")?, 0);
    shows(
        &rt,
        &centre,
        [
            Shown::Nothing,
            Shown::Confirmed(asked),
            Shown::Nothing,
            Shown::Nothing,
        ],
    );
    Ok(())
}

#[test]
fn number_comes_again(rt: HostRuntime) -> Result<(), Fail> {
    let mut centre = contacted()?;
    for n in 1..=255u8 {
        assert_eq!(rt; ask(&mut centre, DEMAND)?.n, n);
        assert_eq!(rt; hear(&mut centre, downlink(&[0x03, n])?.as_slice())?, 1);
    }
    assert_eq!(rt; ask(&mut centre, PERIODIC)?.n, 1);
    assert_eq!(rt; hear(&mut centre, b"/AKLCDYA.ADS.N123450301718B")?, 1);
    let confirmed = Shown::Confirmed(request(&[0x07, 0x01, 0x0b, 0xa5])?);
    assert_eq!(rt; centre.shown(Kind::Periodic), confirmed);
    Ok(())
}

#[test]
fn day_over_the_ocean(rt: HostRuntime) -> Result<(), Fail> {
    let mut first = contacted()?;
    let sent = ask(&mut first, OVER_THE_OCEAN)?;
    is_sent(&rt, &sent, 1, b"/AKLCDYA.ADS.N1234507010BCF0D010E0198EA");
    assert_eq!(rt; hear(&mut first, FIRST_REPORT)?, 1);
    let sent = ask(&mut first, EVENT)?;
    is_sent(&rt, &sent, 2, b"/AKLCDYA.ADS.N1234508020A1014FA1D");
    assert_eq!(rt; hear(&mut first, b"/AKLCDYA.ADS.N12345030241E8")?, 1);
    let periodic = request(&[0x07, 0x01, 0x0b, 0xcf, 0x0d, 0x01, 0x0e, 0x01])?;
    let event = request(&[0x08, 0x02, 0x0a, 0x10, 0x14])?;
    shows(
        &rt,
        &first,
        [
            Shown::Nothing,
            Shown::Confirmed(periodic),
            Shown::Confirmed(event),
            Shown::Nothing,
        ],
    );
    is_sent(&rt, &first.cancel_all(), 0, b"/AKLCDYA.ADS.N1234501256D");
    shows(&rt, &first, [Shown::Nothing; 4]);
    Ok(())
}

#[test]
fn next_centre_takes_over(rt: HostRuntime) -> Result<(), Fail> {
    let mut second = centre(b"NFFNDYA")?;
    is_greeted(
        &rt,
        &mut second,
        b"/NFFNDYA.AFN/FMHANZ1,.N12345,C81234,050000/FPON10179E000000,0/FCOADS,012731",
        b"/NFFNDYA.AFN/FMHANZ1,.N12345/FAK0/FARADS,05087",
    );
    let sent = ask(&mut second, OVER_THE_OCEAN)?;
    is_sent(&rt, &sent, 1, b"/NFFNDYA.ADS.N1234507010BCF0D010E0198EA");
    assert_eq!(rt;
        hear(
            &mut second,
            b"/NFFNDYA.ADS.N12345030107075300000000000000000D00001000000000000000000000000000000E0000000000E565"
        )?,
        1
    );
    assert_eq!(rt;
        hear(
            &mut second,
            b"/NFFNDYA.ADS.N123450707C060000000000000000D00001000000000000000000000000000000E0000000000A6DD"
        )?,
        0
    );
    let periodic = request(&[0x07, 0x01, 0x0b, 0xcf, 0x0d, 0x01, 0x0e, 0x01])?;
    shows(
        &rt,
        &second,
        [
            Shown::Nothing,
            Shown::Confirmed(periodic),
            Shown::Nothing,
            Shown::Nothing,
        ],
    );
    Ok(())
}

#[test]
fn cancels_bear_the_number_of_their_row(rt: HostRuntime) -> Result<(), Fail> {
    let mut centre = contacted()?;
    assert_eq!(rt; centre.cancel(Kind::Periodic), Err(NothingShown));
    let _sent = ask(&mut centre, PERIODIC)?;
    match centre.cancel(Kind::Periodic) {
        Ok(sent) => is_sent(&rt, &sent, 1, b"/AKLCDYA.ADS.N12345020142BA"),
        Err(refused) => assert!(rt; false, "{refused:?}"),
    }
    assert_eq!(rt; centre.cancel(Kind::Periodic), Err(NothingShown));
    is_sent(
        &rt,
        &centre.cancel_emergency(),
        0,
        b"/AKLCDYA.ADS.N1234506009E5F",
    );
    Ok(())
}

/// Where a row stands, without its request.
#[derive(Clone, Copy, Debug, PartialEq, Eq)]
enum State {
    Nothing,
    Pending,
    Confirmed,
    Partial,
    Refused,
    Cancelling,
}

fn state_of(shown: Shown) -> State {
    match shown {
        Shown::Nothing => State::Nothing,
        Shown::Pending(_) => State::Pending,
        Shown::Confirmed(_) => State::Confirmed,
        Shown::Partial(_) => State::Partial,
        Shown::Refused(_, _) => State::Refused,
        Shown::Cancelling(_) => State::Cancelling,
    }
}

/// A centre whose periodic row stands so, under number 1.
fn centre_in(state: State) -> Result<Centre, Fail> {
    let mut centre = contacted()?;
    if state == State::Nothing {
        return Ok(centre);
    }
    let _sent = ask(&mut centre, PERIODIC)?;
    let answer: &[u8] = match state {
        State::Confirmed => &[0x03, 0x01],
        State::Partial => &[0x05, 0x01, 0x01, 0x15, 0x40],
        State::Refused => &[0x04, 0x01, 0x0a],
        State::Cancelling => {
            let _sent = centre.cancel(Kind::Periodic);
            return Ok(centre);
        }
        State::Nothing | State::Pending => return Ok(centre),
    };
    let _matched = hear(&mut centre, downlink(answer)?.as_slice())?;
    Ok(centre)
}

/// An acknowledgement of number 1 and of number 2, a noncompliance, a negative acknowledgement, an
/// emergency-off, and a report.
const ITEMS: [&[u8]; 6] = [
    &[0x03, 0x01],
    &[0x03, 0x02],
    &[0x05, 0x01, 0x01, 0x15, 0x40],
    &[0x04, 0x01, 0x06],
    &[0x06, 0x01],
    &[0x07, 0, 0, 0, 0, 0, 0, 0, 0, 0, 0],
];

/// A row before an item, and after each of the items.
const ROWS: [(State, [State; 6]); 6] = [
    (State::Nothing, [State::Nothing; 6]),
    (
        State::Pending,
        [
            State::Confirmed,
            State::Pending,
            State::Partial,
            State::Refused,
            State::Pending,
            State::Pending,
        ],
    ),
    (State::Confirmed, [State::Confirmed; 6]),
    (State::Partial, [State::Partial; 6]),
    (State::Refused, [State::Refused; 6]),
    (
        State::Cancelling,
        [
            State::Nothing,
            State::Cancelling,
            State::Nothing,
            State::Nothing,
            State::Cancelling,
            State::Cancelling,
        ],
    ),
];

#[test]
fn each_row_hears_each_item(rt: HostRuntime) -> Result<(), Fail> {
    for (before, after) in ROWS.iter() {
        for place in 0..6usize {
            let mut centre = centre_in(*before)?;
            assert_eq!(rt; state_of(centre.shown(Kind::Periodic)), *before);
            let matched = hear(&mut centre, downlink(ITEMS[place])?.as_slice())?;
            assert_eq!(rt;
                state_of(centre.shown(Kind::Periodic)),
                after[place],
                "{before:?} {place}"
            );
            assert_eq!(rt;
                matched,
                u8::from(after[place] != *before),
                "{before:?} {place}"
            );
        }
    }
    Ok(())
}

/// Texts, and why the centre at AKLCDYA for the aircraft N12345 ignores them.
fn ignored_texts() -> [(&'static [u8], Ignored); 8] {
    [
        (
            b"hello",
            Ignored::Envelope(EnvelopeRefusal {
                place: 0,
                why: EnvelopeWhy::Slash,
            }),
        ),
        (
            b"/NFFNDYA.ADS.N123450301718C",
            Ignored::Envelope(EnvelopeRefusal {
                place: 23,
                why: EnvelopeWhy::Check {
                    found: 0x718c,
                    due: 0x718b,
                },
            }),
        ),
        (b"/NFFNDYA.ADS.N123450301718B", Ignored::OtherAddress),
        (GREETING, Ignored::Afn(AfnRefusal { place: 16 })),
        (
            b"/AKLCDYA.AFN/FMHANZ1,.N99999,C81234,000000/FPON00000E000000,0/FCOADS,016DB2",
            Ignored::OtherRegistration { place: 21 },
        ),
        (
            b"/AKLCDYA.ADS.N9999903012BCD",
            Ignored::OtherRegistration { place: 12 },
        ),
        (
            b"/AKLCDYA.ADS.N99999030108C70E",
            Ignored::OtherRegistration { place: 12 },
        ),
        (
            b"/AKLCDYA.ADS.N123450301087AB1",
            Ignored::Bits(DownRefusal {
                bit: 16,
                why: DownWhy::Tag,
            }),
        ),
    ]
}

#[test]
fn other_texts_are_ignored(rt: HostRuntime) -> Result<(), Fail> {
    let mut centre = centre_in(State::Pending)?;
    for (text, why) in ignored_texts().iter() {
        assert_eq!(rt; centre.hear(text), Heard::Ignored(*why));
        assert_eq!(rt; state_of(centre.shown(Kind::Periodic)), State::Pending);
    }
    Ok(())
}

//! The texts of worked examples, and texts cut and changed at each place with the place due, which
//! another program found from the form.
use super::*;
use acars_envelope::{Flight, Registration};
use std::process::Abort;
use std::test::Fail;

/// Which text is read.
#[derive(Clone, Copy)]
enum Form {
    Contact,
    Answer,
}

/// The place at which a text is refused.
fn place_of(form: Form, text: &[u8]) -> Option<u32> {
    let refusal = match form {
        Form::Contact => read_contact(text).err(),
        Form::Answer => read_answer(text).err(),
    };
    refusal.map(|refusal| refusal.place)
}

#[test]
fn an_aircraft_logs_on(rt: HostRuntime) -> Result<(), Fail> {
    let flight = Flight::new(b"ANZ1").ok_or("a flight")?;
    let registration = Registration::new(b"N12345").ok_or("a registration")?;
    let position = Position::at(0, 0);
    let contact = Contact::of_aircraft(&flight, &registration, 0xc8_1234, 0, position, false);
    let text = b"/FMHANZ1,.N12345,C81234,000000/FPON00000E000000,0/FCOADS,01".as_slice();
    assert_eq!(rt; write_contact(&contact).as_slice(), text);
    let heard = read_contact(text).ok().ok_or("a contact")?;
    assert_eq!(rt; &heard, &contact);
    let text = b"/FMHANZ1,.N12345/FAK0/FARADS,0".as_slice();
    assert_eq!(rt; write_answer(&heard.accepted()).as_slice(), text);
    assert!(rt; read_answer(text).is_ok());
    let mut logon = Logon::Nothing;
    logon.answer(0);
    assert_eq!(rt; logon, Logon::Nothing);
    logon.contact();
    assert_eq!(rt; logon, Logon::Sent);
    logon.answer(4);
    assert_eq!(rt; logon, Logon::Rejected { code: 4 });
    logon.answer(0);
    assert_eq!(rt; logon, Logon::Accepted);
    Ok(())
}

#[test]
fn positions_are_rounded_down(rt: HostRuntime) {
    assert_eq!(rt;
        parts(Position::at(-524288, -1048576)),
        (true, 54000, true, 108000)
    );
    assert_eq!(rt;
        parts(Position::at(524288, 1048575)),
        (false, 54000, false, 107999)
    );
    assert_eq!(rt; parts(Position::at(-1, 1)), (true, 0, false, 0));
    assert_eq!(rt; parts(Position::at(9, -10)), (false, 0, true, 1));
    assert_eq!(rt; parts(Position::at(100, -100)), (false, 10, true, 10));
}

/// South and latitude, west and longitude.
fn parts(position: Position) -> (bool, u32, bool, u32) {
    (position.south, position.lat, position.west, position.lon)
}

#[test]
fn first_mismatches(rt: HostRuntime) {
    let rows = [
        (Form::Contact, b"".as_slice(), Some(0)),
        (Form::Contact, b"/FMHANZ1".as_slice(), Some(8)),
        (
            Form::Contact,
            b"/FMHANZ1,.N12345,,246000".as_slice(),
            Some(19),
        ),
        (Form::Contact, b"/FMH,".as_slice(), Some(4)),
        (Form::Contact, b"/FMHABCDEFGHI,".as_slice(), Some(12)),
        (Form::Contact, b"/FMHA,.......".as_slice(), Some(12)),
        (Form::Contact, b"/FMHA,.A.".as_slice(), Some(8)),
        (Form::Contact, b"/FMHA,.N12345,C8123,".as_slice(), Some(19)),
        (Form::Contact, b"/FMHA,.N12345,,235960".as_slice(), Some(19)),
        (
            Form::Contact,
            b"/FMHA,.N12345,,000000/FPON90001".as_slice(),
            Some(30),
        ),
        (
            Form::Contact,
            b"/FMHA,.N12345,,000000/FPON90010".as_slice(),
            Some(29),
        ),
        (
            Form::Contact,
            b"/FMHA,.N12345,,000000/FPON90100".as_slice(),
            Some(28),
        ),
        (
            Form::Contact,
            b"/FMHA,.N12345,,000000/FPON91".as_slice(),
            Some(27),
        ),
        (
            Form::Contact,
            b"/FMHA,.N12345,,000000/FPOS00000W181".as_slice(),
            Some(34),
        ),
        (
            Form::Contact,
            b"/FMHA,.N12345,,000000/FPOS00000W2".as_slice(),
            Some(32),
        ),
        (
            Form::Contact,
            b"/FMHA,.N12345,,000000/FPOS00000W180000,0/FAR".as_slice(),
            Some(42),
        ),
        (Form::Answer, b"/FMHANZ1,.N12345,".as_slice(), Some(16)),
        (Form::Answer, b"/FMHANZ1,.N12345/FAK0".as_slice(), Some(21)),
        (
            Form::Answer,
            b"/FMHANZ1,.N12345/FAK0/FCO".as_slice(),
            Some(23),
        ),
        (
            Form::Answer,
            b"/FMHANZ1,.N12345/FAK0/FARADS,05".as_slice(),
            Some(30),
        ),
        (
            Form::Answer,
            b"/FMHA,.N12345/FAK0/FARADS,1/FARADS,2/FARADS,3/FARADS,4/".as_slice(),
            Some(54),
        ),
    ];
    for (form, text, place) in rows {
        assert_eq!(rt; place_of(form, text), place, "of {text:?}");
    }
}

#[test]
fn contact_cut_and_changed(rt: HostRuntime) {
    let text = b"/FMHQF12AB34,..-A1B2,,235959/FPOS89599W179599,1/FCOADS,01/FCOATC,99";
    cut(&rt, Form::Contact, text, &[57]);
    let rows = [
        (
            b'0',
            b"^^^^========^a======^f======^^^^^=====^======^=^^^^^^^^==^^^^^^^^==",
        ),
        (
            b'9',
            b"^^^^========^a======^f^^^=^=^^^^^a=^==^^^=^==^^^^^^^^^^==^^^^^^^^==",
        ),
        (
            b'A',
            b"^^^^========^a======^f^^^^^^^^^^^^^^^^^^^^^^^^^^^^^===^^^^^^^===^^^",
        ),
        (
            b'.',
            b"^^^^^^^^^^^^^===^^^^^^^^^^^^^^^^^^^^^^^^^^^^^^^^^^^^^^^^^^^^^^^^^^^",
        ),
        (
            b',',
            b"^^^^^gfedcba=^^^^^^^==^^^^^^^^^^^^^^^^^^^^^^^=^^^^^^^^=^^^^^^^^^=^^",
        ),
        (
            b'/',
            b"=^^^^^^^^^^^^^^^^^^^^^^^^^^^=^^^^^^^^^^^^^^^^^^=^^^^^^^^^=^^^^^^^^^",
        ),
    ];
    for (character, mask) in rows {
        changed(&rt, Form::Contact, text, character, mask);
    }
    let text =
        b"/FMHA,......Z,0FF0A9,190000/FPON90000E180000,0/FCOADS,01/FCOATC,22/FCOCPD,33/FCOXYZ,44";
    cut(&rt, Form::Contact, text, &[56, 66, 76]);
    let nines =
        b"^^^^=aaaaaa==^======^^=^=^=^^^^^=^^^^^^^^^^^^^^^^^^^^^==^^^^^^^^==^^^^^^^^==^^^^^^^^==";
    changed(&rt, Form::Contact, text, b'9', nines);
    let longer =
        b"/FMHA,......Z,0FF0A9,190000/FPON90000E180000,0/FCOADS,01/FCOATC,22/FCOCPD,33/FCOXYZ,44/FCOABC,55";
    assert_eq!(rt; place_of(Form::Contact, longer), Some(86));
}

#[test]
fn answer_cut_and_changed(rt: HostRuntime) {
    let text = b"/FMHQ,N12345Z/FAK9/FARADS,0/FARATC,9";
    cut(&rt, Form::Answer, text, &[27]);
    let rows = [
        (b'0', b"^^^^=g=======^^^^=^^^^^^^^=^^^^^^^^="),
        (b'A', b"^^^^=g=======^^=^^^^=^===^^^^=^===^^"),
        (b'.', b"^^^^^^=^^^^^^^^^^^^^^^^^^^^^^^^^^^^^"),
        (b',', b"^^^^^=^^^^^^^^^^^^^^^^^^^=^^^^^^^^=^"),
        (b'/', b"=^^^^^^^^^^^^=^^^^=^^^^^^^^=^^^^^^^^"),
    ];
    for (character, mask) in rows {
        changed(&rt, Form::Answer, text, character, mask);
    }
}

/// A right text that is cut is refused at its end, but where what is left is right again.
fn cut(rt: &impl Abort, form: Form, text: &[u8], right: &[usize]) {
    for length in 0..text.len() {
        let due = if right.contains(&length) {
            None
        } else {
            Some(length as u64)
        };
        let found = place_of(form, &text[..length]).map(|place| place as u64);
        assert_eq!(rt; found, due, "of {length} characters");
    }
    assert_eq!(rt; place_of(form, text), None);
}

/// A right text with one character changed: at each place `=` where it stays right, `^` where it is
/// refused at that place, and a letter where it is refused so many places behind.
fn changed(rt: &impl Abort, form: Form, text: &[u8], character: u8, mask: &[u8]) {
    assert!(rt; text.len() == mask.len() && text.len() <= 100);
    let mut other = [0u8; 100];
    let other = &mut other[..text.len()];
    for place in 0..text.len() {
        other.copy_from_slice(text);
        other[place] = character;
        let due = match mask[place] {
            b'=' => None,
            b'^' => Some(place as u64),
            later => Some(place as u64 + later.saturating_sub(b'a') as u64 + 1),
        };
        let found = place_of(form, other).map(|place| place as u64);
        assert_eq!(rt; found, due, "place {place} changed to {character}");
    }
}

//! Scripts of numbers, and a summary, byte by byte. The texts, sizes and check codes were made by another program.
use super::*;
use acars_envelope::{Address, Flight, Registration, check_code};
use aircraft_core::{Craft, Who};
use due_event::Profile;
use flight_samples::Sample;
use std::test::Fail;

/// The script of number 1 with 14 lines.
const SMALL: &[u8] = b"A,N12345,ANZ1,C81234
G,GRND001,GRND002,GRND003,GRND004,GRND005
S,0,0,0,0,0,0,0,0,0,0,0,0,0,0,0,0,0,0,0,0,0,0,0,0,0,0
T,33
E,0
T,68
S,501873,795945,4136,0,0,0,0,2,0,0,0,0,0,0,0,0,0,-24,0,0,0,0,0,0,0,-3
S,371400,880652,3731,0,0,0,0,0,0,0,0,0,0,0,0,0,0,13,0,0,0,0,0,0,0,-18
U,/GRND003.ADS.N123450706CDA8
U,/GRND004.ADS.N1234508040A0214B895
U,/GRND003.ADS.N1234507028D2C
T,82
S,310372,-838294,6579,0,0,0,0,3,0,0,0,0,0,0,0,0,0,-57,0,0,0,0,0,0,0,0
S,237274,400845,3135,0,0,0,0,1,0,0,0,0,0,0,0,0,0,-175,0,0,0,0,0,0,0,-3
";

#[test]
fn scripts(rt: HostRuntime) -> Result<(), Fail> {
    let small = generate_script(rt.alloc(), 1, 14)?;
    assert_eq!(rt; small.as_slice(), SMALL);
    for (number, size, code) in [(7, 69_332, 0xB0BC), (u32::MAX, 67_857, 0xFEAB)] {
        let script = generate_script(rt.alloc(), number, 2000)?;
        assert_eq!(rt; (script.len(), check_code(script.as_slice())), (size, code));
    }
    Ok(())
}

#[test]
fn summary(rt: HostRuntime) -> Result<(), Fail> {
    let who = Who {
        registration: Registration::new(b"N12345").expect(&rt, "a registration"),
        flight: Flight::new(b"ANZ1").expect(&rt, "a flight"),
        airframe: 0xC8_12_34,
        profile: Profile::One,
    };
    let links = [
        Address::new(b"GRND001").expect(&rt, "an address"),
        Address::new(b"GRND002").expect(&rt, "an address"),
    ];
    let craft = Craft::new(rt.alloc(), who, &links, None, Sample::zero())?;
    let text = summarize(rt.alloc(), 1, 3, &craft, 0)?;
    assert_eq!(rt;
        text.as_slice(),
        b"M,1,3,0,0\nM,GRND001,0,0,0000\nM,GRND002,0,0,0000\nOK\n".as_slice()
    );
    Ok(())
}

//! Writing an ADS text at the end of a buffer.
ghost use Rattle.std.specs.Prelude.{◌≡◌, ◌+◌, ◌*◌, ◌≤◌, ◌++◌, length};
ghost use Rattle.std.specs.Vec.{vec_len, vec_capacity};
ghost use Rattle.hex.specs.Hex.{IsBytes, encode_upper};
ghost use Rattle.acars_envelope.specs.declared.texts.Body.TheVariants.{Ads};
ghost use Rattle.acars_envelope.specs.Names.{IsAddress, IsRegistration};
ghost use Rattle.acars_envelope.specs.Texts.{sealed_text};

use crate::encoding::{BLANKS, write_digits};
use crate::names::{Address, Registration};
use crate::writer::check_of_ads;

/// Appends the text that [`seal`](crate::seal) writes of an ADS body to a buffer that has room for it,
/// where a whole [`Text`](crate::Text) would only be copied on. The payload has 1 to 255 octets.
pub fn append_ads_text(
    out: &mut Vec<u8>,
    address: &Address,
    registration: &Registration,
    payload: &[u8],
)
    requires some { 1 ≤ length payload.now }
    requires few { length payload.now ≤ 255 }
    requires room { vec_len out.old + 2 * length payload.now + 23 ≤ vec_capacity out.old }
    ensures text { out.new.items ≡ out.old.items
        ++ sealed_text address.now (Ads registration.now (record { items = payload.now })) }
    ensures len { vec_len out.new ≡ vec_len out.old + 2 * length payload.now + 23 }
    ensures capacity { vec_capacity out.old ≤ vec_capacity out.new }
    ensures forms { IsAddress address.now × IsRegistration registration.now × IsBytes payload.now }
{
    append_bytes(out, b"/");
    append_bytes(out, &address.seven());
    append_bytes(out, b".ADS");
    append_bytes(out, &registration.seven());
    append_as_digits(out, payload);
    append_as_digits(out, &check_of_ads(registration, payload).to_be_bytes());
}

/// Appends bytes to a buffer that has room for them.
fn append_bytes(out: &mut Vec<u8>, bytes: &[u8])
    requires { vec_len out.old + length bytes.now ≤ vec_capacity out.old }
    ensures items { out.new.items ≡ out.old.items ++ bytes.now }
    ensures len { vec_len out.new ≡ vec_len out.old + length bytes.now }
    ensures capacity { vec_capacity out.old ≤ vec_capacity out.new }
{
    match out.extend_from_slice(bytes) {
        Ok(()) => {}
        Err(_) => unreachable!(),
    }
}

/// Appends octets as digits, two an octet, to a buffer that has room for them.
fn append_as_digits(out: &mut Vec<u8>, octets: &[u8])
    requires few { length octets.now ≤ 255 }
    requires room { vec_len out.old + 2 * length octets.now ≤ vec_capacity out.old }
    ensures items { out.new.items ≡ out.old.items ++ encode_upper octets.now }
    ensures len { vec_len out.new ≡ vec_len out.old + 2 * length octets.now }
    ensures capacity { vec_capacity out.old ≤ vec_capacity out.new }
    ensures bytes { IsBytes octets.now }
{
    let start = out.len();
    append_bytes(out, &BLANKS[..2 * octets.len()]);
    write_digits(octets, &mut out.as_mut_slice()[start..]);
}

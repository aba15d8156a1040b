//! What a `G` line lists.

ghost use Rattle.std.specs.Prelude.{◌≡◌, ℕ, ◌+◌, ◌<◌, ◌≤◌, ◌++◌, codes, length, take, IfOk, IfErr, IfSome, IfNone, IsTrue, ◌↔◌};
ghost use Rattle.acars_envelope.specs.Names.{IsAddress};
ghost use Rattle.net_script.specs.Addresses.{AreDifferent, IsFirstRepeat, IsListed, IsRepeat, IsReserved, IsStarred, listed_addresses};
ghost use Rattle.net_script.specs.Faults.{IsFieldsRefusal};
ghost use Rattle.net_script.specs.Fields.{field_at, fields_of};
ghost use Rattle.net_script.specs.Forms.{AreRightBefore};
ghost use Rattle.net_script.specs.Lines.{SaysAddresses};
ghost use Rattle.net_script.specs.declared.limits.TheConstants.{MAX_ADDRESSES};

use crate::addresses::Addresses;
use crate::fields::field_at;
use crate::letter::Letter;
use crate::names::address_of;
use crate::refusal::{Code, LineRefusal, bad, wrong_field};
use acars_envelope::Address;
use std::alloc::Global;

/// The addresses of a `G` line with so many commas, and the place of the one with the star; or its first wrong field, or the
/// first field whose address stands again.
pub(crate) fn read_ground(
    alloc: Global,
    line: &[u8],
    commas: usize,
) -> Result<(Addresses, Option<u8>), LineRefusal>
    requires count { length (fields_of line.now) ≡ commas + 1 }
    requires few { commas ≤ MAX_ADDRESSES }
    ensures ok { IfOk result (λ said. SaysAddresses (fields_of line.now) said.0.items said.1) }
    ensures refused { IfErr result (IsFieldsRefusal Letter.Ground (fields_of line.now)) }
{
    let reserved = first_starred(line, commas);
    let addresses = addresses_of(alloc, line, commas, reserved)?;
    if let Some(place) = first_repeat(addresses.as_slice()) {
        return Err(bad(Code::Twice, place as u32 + 1));
    }
    Ok((Addresses::new(addresses), reserved))
}

/// The place in the list of the first address with a star, counted from 0.
fn first_starred(line: &[u8], commas: usize) -> Option<u8>
    requires count { length (fields_of line.now) ≡ commas + 1 }
    requires few { commas ≤ MAX_ADDRESSES }
    ensures { IsReserved (fields_of line.now) result }
{
    for place in 0..commas {
        if is_starred(field_at(line, place + 1)) {
            return Some(place as u8);
        }
    }
    None
}

/// Whether the field is an address with a star behind it.
fn is_starred(field: &[u8]) -> bool
    ensures { IsTrue result ↔ IsStarred field.now }
{
    starred_address(field).is_some()
}

/// The address that stands before the star at the end of the field.
fn starred_address(field: &[u8]) -> Option<Address>
    ensures address { IfSome result IsAddress }
    ensures some { IfSome result (λ address. field.now ≡ address ++ codes "*") }
    ensures none { IfNone result (¬ IsStarred field.now) }
{
    let (last, front) = field.split_last()?;
    if *last != b'*' {
        return None;
    }
    address_of(front)
}

/// The addresses that the fields behind the letter list, where the first star stands at the reserved place, or the first field
/// that lists none.
fn addresses_of(
    alloc: Global,
    line: &[u8],
    commas: usize,
    reserved: Option<u8>,
) -> Result<Vec<Address>, LineRefusal>
    requires count { length (fields_of line.now) ≡ commas + 1 }
    requires few { commas ≤ MAX_ADDRESSES }
    requires reserved { IsReserved (fields_of line.now) reserved }
    ensures listed { IfOk result (λ addresses.
        addresses.items ≡ listed_addresses (fields_of line.now)) }
    ensures right { IfOk result (λ addresses.
        AreRightBefore Letter.Ground (fields_of line.now) (length (fields_of line.now))) }
    ensures refused { IfErr result (IsFieldsRefusal Letter.Ground (fields_of line.now)) }
{
    let mut addresses = Vec::new(alloc);
    for place in 0..commas {
        let Some(address) = listed_address(line, place, reserved) else {
            return Err(wrong_field(place as u32 + 1));
        };
        match addresses.push(address) {
            Ok(()) => {}
            Err(_) => return Err(LineRefusal::NoMemory),
        }
    }
    Ok(addresses)
}

/// The address at this place of the list, where the first star stands at the reserved place.
fn listed_address(line: &[u8], place: usize, reserved: Option<u8>) -> Option<Address>
    requires inside { place + 1 < length (fields_of line.now) }
    requires few { place < MAX_ADDRESSES }
    requires reserved { IsReserved (fields_of line.now) reserved }
    ensures some { IfSome result (λ address.
        address ≡ take 7 (field_at (fields_of line.now) (place + 1))) }
    ensures listed { IfSome result (λ address. IsListed (fields_of line.now) (place + 1)) }
    ensures none { IfNone result (¬ IsListed (fields_of line.now) (place + 1)) }
{
    let field = field_at(line, place + 1);
    if is_reserved(reserved, place) {
        starred_address(field)
    } else {
        address_of(field)
    }
}

/// Whether this place of the list is the reserved one.
fn is_reserved(reserved: Option<u8>, place: usize) -> bool
    ensures { IsTrue result ↔ (reserved ≡ Some place) }
{
    match reserved {
        Some(star) => usize::from(star) == place,
        None => false,
    }
}

/// The place of the first address that is equal to one before it.
fn first_repeat(addresses: &[Address]) -> Option<usize>
    requires { length addresses.now ≤ MAX_ADDRESSES }
    ensures some { IfSome result (IsFirstRepeat addresses.now) }
    ensures none { IfNone result (AreDifferent addresses.now) }
{
    for place in 0..addresses.len() {
        if is_repeat(addresses, place) {
            return Some(place);
        }
    }
    None
}

/// Whether the address at the place is equal to one before it.
fn is_repeat(addresses: &[Address], place: usize) -> bool
    requires { place < length addresses.now }
    ensures { IsTrue result ↔ IsRepeat addresses.now place }
{
    for earlier in 0..place {
        if addresses[earlier] == addresses[place] {
            return true;
        }
    }
    false
}

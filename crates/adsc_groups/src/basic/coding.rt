//! Encoding and decoding of the basic data.

ghost use Rattle.std.specs.Prelude.{◌≡◌, ◌+◌, ◌≤◌, ◌↔◌, ◌++◌, length, Ok, Err, OnErr};
ghost use Rattle.bit_terms.specs.Reading.{Gives, Unread};
ghost use Rattle.adsc_bits.specs.declared.reader.Short.{Short as ShortValue};
ghost use Rattle.adsc_groups.specs.Fields.{Encodes, WereRead, IsFirstCut, fields_at};
ghost use Rattle.adsc_groups.specs.Basic.{basic_bits, basic_fields};
ghost use Rattle.adsc_groups.specs.BasicView.{basic_data, values_of};
ghost use Rattle.adsc_groups.specs.declared.basic.Basic.{Basic as BasicValue};

use crate::basic::Basic;
use adsc_bits::{BitReader, BitWriter, Short};

/// Writes the basic data, ten octets with the padding zero. There is room for them.
///
/// Source: RTCA DO-258A / EUROCAE ED-100A, ARINC 745 for the order; zeros as padding are this project's
/// profile.
#[tactic(auto, unfolding(crate::specs::Basic::basic_bits))]
pub fn encode_basic(basic: &Basic, out: &mut BitWriter)
    requires { length out.old + 80 ≤ 2040 }
    ensures bits { out.new ≡ out.old ++ basic_bits (basic_data basic.now) }
    ensures len { length out.new ≡ length out.old + 80 }
    // It is an encoding of the data, so reading it gives the data back.
    ensures encodes { Encodes basic_fields (values_of basic.now)
        (basic_bits (basic_data basic.now)) }
{
    out.put_signed(basic.lat, 21);
    out.put_signed(basic.lon, 21);
    out.put_signed(basic.alt, 16);
    out.put(basic.sec, 15);
    out.put(0, 2);
    out.put(basic.tcas as u32, 1);
    out.put(basic.accuracy as u32, 3);
    out.put(basic.redundancy as u32, 1);
}

/// The basic data that stands next, whatever its padding. The reader then stands just past it.
///
/// Source: RTCA DO-258A / EUROCAE ED-100A, ARINC 745 for the order.
///
/// # Errors
///
/// `Short` exactly where a field isn't wholly there, at its first bit; padding is a field too. The
/// reader does not move then.
pub fn decode_basic(from: &mut BitReader) -> Result<Basic, Short>
    // The data is answered exactly where an encoding of it stands next, and this is left behind it.
    ensures read { (basic : BasicValue) (left : Unread) → ((result ≡ Ok basic) × (from.new ≡ left))
        ↔ WereRead basic_fields (values_of basic) from.old left }
    // It is refused exactly where what is left is cut short, at the first field that is cut.
    ensures short { (refusal : ShortValue) → (result ≡ Err refusal)
        ↔ IsFirstCut basic_fields from.old refusal.bit }
    ensures unmoved { OnErr result (from.new ≡ from.old) }
    // This one joins the crates: all of it as a function of what is left, by which decoders above
    // are proved.
    ensures gives { Gives values_of (λ e. e.bit) result from.new (fields_at basic_fields from.old) }
{
    basic_from(from)
}

// Reads with a second reader, so that a refusal leaves the first where it stands.
fn basic_from(from: &mut BitReader) -> Result<Basic, Short>
    ensures gives { Gives values_of (λ e. e.bit) result from.new (fields_at basic_fields from.old) }
    ensures unmoved { OnErr result (from.new ≡ from.old) }
{
    let mut ahead = from.fork();
    let basic = basic_ahead(&mut ahead)?;
    *from = ahead;
    Ok(basic)
}

#[tactic(auto, unfolding(crate::specs::Fields::fields_at))]
fn basic_ahead(from: &mut BitReader) -> Result<Basic, Short>
    ensures { Gives values_of (λ e. e.bit) result from.new (fields_at basic_fields from.old) }
{
    let lat = from.take_signed(21)?;
    let lon = from.take_signed(21)?;
    let alt = from.take_signed(16)?;
    let sec = from.take(15)?;
    from.take(2)?;
    let tcas = from.take(1)? as u8;
    let accuracy = from.take(3)? as u8;
    let redundancy = from.take(1)? as u8;
    Ok(Basic {
        lat,
        lon,
        alt,
        sec,
        tcas,
        accuracy,
        redundancy,
    })
}

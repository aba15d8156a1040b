//! The link to an address.
ghost use Rattle.std.specs.Prelude.{◌≡◌, ◌<◌, ◌≤◌, length, IfSome};
ghost use Rattle.run_rules.specs.Texts.{link_from};

use acars_envelope::Address;
use aircraft_core::Craft;

/// The link of the aircraft to this address, if there is one.
pub(crate) fn link_to(craft: &Craft, address: Address) -> Option<u8>
    requires { length craft.now.setting.addresses ≤ 64 }
    ensures place { link_from 0 craft.now.setting.addresses address ≡ result }
    ensures within { IfSome result (λ link. link < length craft.now.setting.addresses) }
{
    for link in 0..craft.links() {
        if craft.address(link) == address {
            return Some(link as u8);
        }
    }
    None
}

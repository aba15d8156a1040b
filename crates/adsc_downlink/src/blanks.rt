//! What stands in the places of a list that hold no element yet.

ghost use Rattle.std.specs.Prelude.{◌≡◌, pos, [], ◌∷◌};
ghost use Rattle.adsc_downlink.specs.ItemView.{report_group_data};

use crate::item::Item;
use crate::report::ReportGroup;
use adsc_groups::{Airframe, Group};

impl Default for ReportGroup {
    ghost is_default = { λ group.
        report_group_data group ≡ record { tag = 17; values = pos 0 ∷ [] } };

    fn default() -> ReportGroup {
        ReportGroup(Group::Airframe(Airframe { address: 0 }))
    }
}

impl Default for Item {
    ghost use Rattle.adsc_downlink.specs.declared.item.Item.TheVariants.{EmergencyOff};

    ghost is_default = { λ item. item ≡ EmergencyOff 0 };

    fn default() -> Item {
        Item::EmergencyOff { n: 0 }
    }
}

//! What holds of every payload and every value, whoever reads or makes it.

ghost use Rattle.std.specs.Prelude.{◌≡◌, ℕ, Bool, List, ◌⊎◌};
ghost use Rattle.adsc_downlink.specs.Items.{ItemData};
ghost use Rattle.adsc_downlink.specs.ItemView.{item_data, items_data};
ghost use Rattle.adsc_downlink.specs.Encodings.{EncodesDownlink};
ghost use Rattle.adsc_downlink.specs.Faults.{IsFirstDownlinkFault};
ghost use Rattle.adsc_downlink.specs.declared.item.Item.{Item as ItemValue};
ghost use Rattle.adsc_downlink.specs.declared.items.Items.{Items as ItemsValue};
ghost use Rattle.adsc_downlink.specs.declared.refusal.DownWhy.{DownWhy as Cause};

/// Each payload has exactly one reading: it is an encoding of the items of one downlink, or it has
/// one first fault.
pub fn one_reading()
    ensures some { (bits : List Bool) → ((items : List ItemData) × EncodesDownlink items bits)
        ⊎ ((bit : ℕ) × (cause : Cause) × IsFirstDownlinkFault bits bit cause) }
    ensures never_both { (items : List ItemData) (bits : List Bool) (bit : ℕ) (cause : Cause) →
        EncodesDownlink items bits → IsFirstDownlinkFault bits bit cause → ⊥ }
    ensures same_items { (a b : List ItemData) (bits : List Bool) →
        EncodesDownlink a bits → EncodesDownlink b bits → a ≡ b }
    ensures same_fault { (bits : List Bool) (a b : ℕ) (why other : Cause) →
        IsFirstDownlinkFault bits a why → IsFirstDownlinkFault bits b other
        → (a ≡ b) × (why ≡ other) }
{}

/// What contracts see of a value is all of it: two values that are seen alike are one.
pub fn same_data_same_value()
    ensures item { (a b : ItemValue) → item_data a ≡ item_data b → a ≡ b }
    ensures items { (a b : ItemsValue) → items_data a ≡ items_data b → a ≡ b }
{}

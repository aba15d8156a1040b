//! What holds of the values, whoever makes them.

ghost use Rattle.std.specs.Prelude.{◌≡◌};
ghost use Rattle.adsc_groups.specs.BasicView.{basic_data};
ghost use Rattle.adsc_groups.specs.GroupView.{group_data};
ghost use Rattle.adsc_groups.specs.declared.basic.Basic.{Basic as BasicValue};
ghost use Rattle.adsc_groups.specs.declared.group.Group.{Group as GroupValue};

/// What contracts see of a value is all of it: two values that are seen alike are one.
pub fn same_data_same_value()
    ensures basic { (a b : BasicValue) → basic_data a ≡ basic_data b → a ≡ b }
    ensures group { (a b : GroupValue) → group_data a ≡ group_data b → a ≡ b }
{}

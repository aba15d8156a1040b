//! Laws of the definitions.
ghost use Rattle.std.specs.Prelude.{◌≡◌, ◌∷◌, [], List};
ghost use Rattle.aircraft_core.specs.declared.entry.Entry.{Entry};
ghost use Rattle.link_threads.specs.Interleavings.{Interleaves, IsNumbered};

/// An interleaving of one list is the list.
pub fn an_interleaving_of_one_list_is_the_list()
    ensures { (list whole : List Entry) → Interleaves (list ∷ []) whole → whole ≡ list }
{}

/// An interleaving, said step by step, is a log of entries that bear numbers: each list is what
/// bears the number of its place.
pub fn an_interleaving_is_a_numbered_log()
    ensures { (lists : List (List Entry)) → (whole : List Entry) → Interleaves lists whole
        → IsNumbered lists whole }
{}

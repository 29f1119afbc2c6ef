ghost use Rattle.conversion_meaning.specs.Laws.{EntriesAreWellFormed, KeysHaveLattices};

/// The entries of a key make a well-formed lattice.
pub fn entries_are_well_formed()
    ensures { EntriesAreWellFormed }
{}

/// Each key has a lattice with each list of its bounds, so what is said of all lattices of a key is not said of none.
pub fn keys_have_lattices()
    ensures { KeysHaveLattices }
{}

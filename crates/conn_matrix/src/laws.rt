ghost use Rattle.std.specs.Prelude.{◌≡◌, ℕ, List, Ok};
ghost use Rattle.conn_matrix.specs.Costs.{CostTable, IsTable, StandOnTheirLines, table_in};

/// The cost of the right id `r` with the left id `l` stands on line 2 + r·N + l.
pub fn costs_stand_on_their_lines()
    ensures { (lines : List (List ℕ)) (table : CostTable) → table_in lines ≡ Ok table → StandOnTheirLines lines table }
{}

/// A table that a file gives is within its limits.
pub fn tables_are_sound()
    ensures { (lines : List (List ℕ)) (table : CostTable) → table_in lines ≡ Ok table → IsTable table }
{}

ghost use Rattle.std.specs.Prelude.{◌≡◌, ◌≢◌, ◌↔◌, ◌<◌, ◌≤◌, ℕ, pos, List, Some, None, Ok};
ghost use Rattle.std.specs.List.{All, Contains};
ghost use Rattle.std.specs.List.Sorted.{IsPermutation};
ghost use Rattle.mz_base.specs.ByName.{RiseByName};
ghost use Rattle.mz_base.specs.Data.{IsJoinSound};
ghost use Rattle.mz_base.specs.Latest.{latest};
ghost use Rattle.mz_base.specs.Rows.{table_rows};
ghost use Rattle.mz_base.specs.declared.data.IdRow.{IdRow};
ghost use Rattle.mz_base.specs.declared.data.JoinRow.{JoinRow};
ghost use Rattle.mz_base.specs.declared.data.PosRow.{PosRow};
ghost use Rattle.mz_base.specs.declared.data.UnknownRow.{UnknownRow};
ghost use Rattle.pos_table.specs.Classes.{unknown_rows};
ghost use Rattle.pos_table.specs.Ids.{RiseById, id_rows};
ghost use Rattle.pos_table.specs.Joins.{join_rows};
ghost use Rattle.pos_table.specs.Nodes.{AreIds, AreNodes, ArePosNodes};
ghost use Rattle.pos_table.specs.UserPos.{id_of, name_of, pos_in, pos_rows, same_pos};

use crate::unknown::{UNKNOWN_COST, UNKNOWN_ID};

/// What an unknown word costs and its id, where the file has no row of its class. Definitions cite the constants, so a wrong
/// one would move them along.
pub fn limits_are()
    ensures id { UNKNOWN_ID ≡ 0 }
    ensures cost { UNKNOWN_COST ≡ pos 10000 }
{}

/// The rows that a file of unknown words gives are within their limits.
pub fn unknown_rows_are_nodes()
    ensures { (ids : ℕ) (bytes : List ℕ) (rows : List UnknownRow) → 0 < ids → unknown_rows ids bytes ≡ Ok rows → AreNodes ids rows }
{}

/// The ids that an id file gives a feature are there.
pub fn id_rows_are_ids()
    ensures { (ids : ℕ) (bytes : List ℕ) (rows : List IdRow) → id_rows ids bytes ≡ Ok rows → AreIds ids rows }
{}

/// The rows that an id file gives rise by their ids.
pub fn id_rows_rise()
    ensures { (ids : ℕ) (bytes : List ℕ) (rows : List IdRow) → id_rows ids bytes ≡ Ok rows → RiseById rows }
{}

/// The id of a feature is the least of the ids that have exactly this feature. There is none exactly where no id has it.
pub fn id_of_is_least()
    ensures one_of { (rows : List IdRow) (feature : List ℕ) (id : ℕ) → id_of rows feature ≡ Some id → Contains rows (record { id = id; feature = feature }) }
    ensures least { (rows : List IdRow) (feature : List ℕ) (id : ℕ) (row : IdRow) → RiseById rows → id_of rows feature ≡ Some id →
        Contains rows row → row.feature ≡ feature → id ≤ row.id }
    ensures none { (rows : List IdRow) (feature : List ℕ) → (id_of rows feature ≡ None) ↔ ((row : IdRow) → Contains rows row → row.feature ≢ feature) }
{}

/// The rows that a file of parts of speech gives are within their limits.
pub fn pos_rows_are_nodes()
    ensures { (ids : ℕ) (features : List IdRow) (bytes : List ℕ) (rows : List PosRow) → AreIds ids features → pos_rows features bytes ≡ Ok rows → ArePosNodes ids rows }
{}

/// The rows that a file of parts of speech gives are those of its lines that no later row of their name repeats, and the
/// names rise.
pub fn pos_rows_rise()
    ensures same { (features : List IdRow) (bytes : List ℕ) (all rows : List PosRow) → table_rows (pos_in features) bytes ≡ Ok all →
        pos_rows features bytes ≡ Ok rows → IsPermutation (latest same_pos all) rows }
    ensures rise { (features : List IdRow) (bytes : List ℕ) (rows : List PosRow) → pos_rows features bytes ≡ Ok rows → RiseByName name_of rows }
{}

/// The rows that a segment file gives are ranges of ids that there are.
pub fn join_rows_are_sound()
    ensures { (ids : ℕ) (bytes : List ℕ) (rows : List JoinRow) → join_rows ids bytes ≡ Ok rows → All (IsJoinSound ids) rows }
{}

//! What holds of programs, and of tables, each on a function that does nothing.
ghost use Rattle.resin_frame.specs.Frames.{ScriptsAreFramed};
ghost use Rattle.resin_frame.specs.LabelledTables.{KeepsTables, KeepsTableStores, LiftsOdd, ReadsCells};
ghost use Rattle.resin_frame.specs.Rows.{CreateKeeps, InsertKeeps, UpdateKeeps, DeleteKeeps, RowsStay};

/// Whatever a script does, it sees and changes nothing but what its keeper calls name, and they name no session of a visitor.
pub fn frame_law()
    ensures { ScriptsAreFramed }
{}

/// What calls on tables leave alone: every table but the one that they name, and every row but the one that an update or a delete names. An insert
/// puts a row behind the others, under a number that none has; an update leaves the number of each row, and their order; and a call that tells that
/// it did nothing changes nothing. So a row that none of many calls names stands as it did, whatever the keeper answers, and where it fails.
pub fn row_laws()
    ensures create { CreateKeeps }
    ensures insert { InsertKeeps }
    ensures update { UpdateKeeps }
    ensures delete { DeleteKeeps }
    ensures rows { RowsStay }
{}

/// A table is rows of cells that carry their policies: a keeper holds of such tables, and of all of them, what they were made of; the odd ones among
/// those that keepers hold are those that a statement finds absent; and what is answered of a column in a row is read as the entry of the cell that
/// stands there, a text with the policies of its bytes, an integer with those of the byte that stands for it, NULL as none, and a damaged cell as a
/// damaged entry.
pub fn table_laws()
    ensures tables { KeepsTables }
    ensures stores { KeepsTableStores }
    ensures odd { LiftsOdd }
    ensures reads { ReadsCells }
{}

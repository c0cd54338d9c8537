//! What the definitions promise. The functions do nothing: their contracts are the laws.

ghost use Rattle.store_rows.specs.ChangeRows.{ChangeRowsAreApart};
ghost use Rattle.store_rows.specs.Checks.{RowsAreByTable, StatesAreByTable};
ghost use Rattle.store_rows.specs.ReceiptRows.{ReceiptRowsAreApart};
ghost use Rattle.store_rows.specs.RecordRows.{RecordRowsAreApart, KeysAreOfRecords};
ghost use Rattle.store_rows.specs.Listed.{OriginsAreOfZones, ReceiptsAreThose};
ghost use Rattle.store_rows.specs.States.{ZonesAreListed, ZonesStandAtOrigins, LastNumbersCount, StatesAreSound, OrderDoesNotCount, HistoriesAreOne};
ghost use Rattle.store_rows.specs.Batches.{NewTablesHoldNothing};
ghost use Rattle.store_rows.specs.Removals.{GoneRowsAreGoneZones, ZonesGo};

/// A row of `records` is of one origin and one record; and two rows have one key, which is origin, owner, type and data, exactly
/// where they are of one origin and of the same record (RFC 2136 section 1.1.1).
pub fn record_rows_are_apart()
    ensures rows { RecordRowsAreApart }
    ensures keys { KeysAreOfRecords }
{}

/// A row of `receipts` is of one caller, one identifier and one receipt.
pub fn receipt_rows_are_apart()
    ensures { ReceiptRowsAreApart }
{}

/// A row of `changes` is of one origin, one number, one side and one record.
pub fn change_rows_are_apart()
    ensures { ChangeRowsAreApart }
{}

/// There is a state of these rows exactly where they are the one version, the rows of zones and those of receipts.
pub fn states_are_by_table()
    ensures { StatesAreByTable }
{}

/// Rows of three tables are those of zones exactly where each table has rows of the zones of the same origins.
pub fn rows_are_by_table()
    ensures { RowsAreByTable }
{}

/// A zone is held of an origin exactly where its row is there.
pub fn zones_are_listed()
    ensures { ZonesAreListed }
{}

/// No zone is held of an origin exactly where no record stands at it.
pub fn zones_stand_at_origins()
    ensures { ZonesStandAtOrigins }
{}

/// Origins that are listed come once each, and are those of which a zone is held; and receipts that are listed are those that a state
/// has, each once.
pub fn lists_are_whole()
    ensures origins { OriginsAreOfZones }
    ensures receipts { ReceiptsAreThose }
{}

/// The last number of a zone's changes is how many they are.
pub fn last_numbers_count()
    ensures { LastNumbersCount }
{}

/// What is held is zones, and receipts of updates.
pub fn states_are_sound()
    ensures { StatesAreSound }
{}

/// The same rows in another order are the same state.
pub fn order_does_not_count()
    ensures { OrderDoesNotCount }
{}

/// The rows of `changes` tell the changes of each zone that a state has.
pub fn histories_are_one()
    ensures { HistoriesAreOne }
{}

/// Tables that were just made have the rows of the state without zones and receipts.
pub fn new_tables_hold_nothing()
    ensures { NewTablesHoldNothing }
{}

/// A zone that goes takes its records and its changes with it, and leaves all else, receipts too; and rows without those of its origin
/// are the state without it.
pub fn zones_go()
    ensures states { ZonesGo }
    ensures rows { GoneRowsAreGoneZones }
{}

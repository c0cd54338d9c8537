//! What the definitions of `log` and `zones` come to.

ghost use Rattle.cli_store.specs.Log.{ChangesAreAsked, ReceiptsAreAsked, AllChangesAreAsked};
ghost use Rattle.cli_store.specs.ZoneList.{EachReceiptCountsOnce};

/// The changes and the receipts that are printed are those that are asked for: from the number on, of the caller and within the name that
/// are given.
pub fn asked_is_printed()
    ensures changes { ChangesAreAsked }
    ensures receipts { ReceiptsAreAsked }
{}

/// With no number, no name and no caller all changes are printed, numbered from 1.
pub fn all_changes_are_asked()
    ensures { AllChangesAreAsked }
{}

/// Where no two zones have one origin, each receipt is counted once: with its zone, or with those of no zone.
pub fn each_receipt_counts_once()
    ensures { EachReceiptCountsOnce }
{}

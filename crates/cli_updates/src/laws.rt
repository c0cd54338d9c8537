//! What the definitions promise.

ghost use Rattle.cli_updates.specs.Diff.{DiffsLead, DiffsAreMet, DiffsTell, OperationsTell, DiffsHaveRoom, DiffsAreMadeBeside, OperationsAreGuarded, SetsAreEnough, SetsAreTested, NoSoaIsTestedFor, DiffsAreApplied};
ghost use Rattle.cli_updates.specs.SplitPromises.{SplitsArePartsOf, SplitsHaveFewItems, AdvancesKeepOrder};
ghost use Rattle.cli_updates.specs.SplitEffects.{SplitsDoTheSame};

/// The operations between two zones lead from the one to the other, and the prerequisites before them are met in the one. If there are
/// no more than an update has, the items that `diff` prints are read as this update, and `apply` prints of the one the zone to which
/// they lead.
pub fn diffs_lead()
    ensures lead { DiffsLead }
    ensures met { DiffsAreMet }
    ensures applied { DiffsAreApplied }
{}

/// In a zone in which the prerequisites of a diff are met, the operations make of each record set that they change what it is in the new
/// zone, and leave the others: the sets that change have the data of the old zone, and no record is there for which RFC 2136 section
/// 3.4.2.2 leaves out what comes. There are prerequisites exactly where there are operations.
pub fn diffs_are_guarded()
    ensures told { DiffsTell }
    ensures acted { OperationsTell }
    ensures room { DiffsHaveRoom }
    ensures beside { DiffsAreMadeBeside }
    ensures bare { OperationsAreGuarded }
{}

/// The prerequisites on sets only are met wherever the sets that change have the data of the old zone and no record keeps out what comes,
/// whatever else is there. Each is on a set that changes: it tests that set, or what RFC 2136 section 3.4.2.2 leaves it out beside. And no
/// prerequisite of any diff tests that there is no SOA.
pub fn guards_test_sets()
    ensures enough { SetsAreEnough }
    ensures tested { SetsAreTested }
    ensures soa { NoSoaIsTestedFor }
{}

/// The parts of an update have its operations in their order and each of its prerequisites once, those of a record set in one part. No part
/// before that of a prerequisite has an operation at its name, or any if it tests the data of an SOA. If there are at most 64
/// prerequisites at each name, no part has more items than an update may have. A serial that is greater than another stays so if both are
/// advanced as often.
pub fn splits_are_parts()
    ensures parts { SplitsArePartsOf }
    ensures few { SplitsHaveFewItems }
    ensures serials { AdvancesKeepOrder }
{}

/// The updates that are printed of the parts of an update, made in order while nobody else changes the zone, do what that does: all are
/// made exactly where it is, and the zone has the same records after them, the SOA aside. If no operation adds an SOA, the SOA is the
/// same too but for its serial. So it is if one does, where each part before it changes the zone, or where its serial is greater than the
/// zone's, also further by less than there are parts; otherwise the one may take the SOA, and the other not.
pub fn splits_make_the_update()
    ensures { SplitsDoTheSame }
{}

//! Laws of the definitions. The functions do nothing: their contracts are the laws.

ghost use Rattle.zone_tools.specs.History.{ChangesAreUndone, RecordsWereThere, BringersAreLast};
ghost use Rattle.zone_tools.specs.IdleOperations.{IdleOperationsChangeNothing, IdleOperationsNeedTheirPart};
ghost use Rattle.zone_tools.specs.Makers.{MakersNeedTheirPart, MakersAreFound};
ghost use Rattle.zone_tools.specs.Pointers.{PointersAreOne};
ghost use Rattle.zone_tools.specs.ZoneFindings.{CleanZonesHaveGlue};
ghost use Rattle.zone_tools.specs.UpdatesInTurn.{PartsMakeTheRecords, PartsMakeTheZone, PartsTakeTheSoa, PartsTakeANewerSoa, VerdictsStay, PartsAreMet};

/// The number of the change that brought a record is that of the last change that has the record among those that come.
pub fn bringers_are_last()
    ensures { BringersAreLast }
{}

/// Changes that lead from one set of records to another are undone: from the other they give back the one.
pub fn changes_are_undone()
    ensures { ChangesAreUndone }
{}

/// In a zone without findings each server of a delegation that is within the child has an address (RFC 1034 section 4.2.1).
pub fn clean_zones_have_glue()
    ensures { CleanZonesHaveGlue }
{}

/// An operation is said to change nothing exactly where the zone after the operations of its update up to it, were they the whole update,
/// is the zone after those before it; and the part of a zone that the update reads tells it of the zone.
pub fn idle_operations_change_nothing()
    ensures exact { IdleOperationsChangeNothing }
    ensures part { IdleOperationsNeedTheirPart }
{}

/// What an update reads of a zone tells whether it may have made a change of it. And an update that made a change of a zone is among those
/// that may have made it, as they are found, if that change and those after it led to the zone as it is.
pub fn makers_are_found()
    ensures part { MakersNeedTheirPart }
    ensures found { MakersAreFound }
{}

/// Lists with the same records have the same pointers: when they are made again, and whatever the order of the records.
pub fn pointers_are_one()
    ensures { PointersAreOne }
{}

/// A set before some changes has the records that the first change which touches them removed, and those that no change touches.
pub fn records_were_there()
    ensures { RecordsWereThere }
{}

/// Updates made in turn, with the operations of one update in their order, make what that makes, if nobody else changes the zone between:
/// the same records, whatever SOA they add; and if no operation adds an SOA, the same SOA but for its serial. An SOA that is added is
/// compared with that of the zone at that moment (RFC 2136 section 3.4.2.2), whose serial each update before has advanced that changed
/// anything. If its own serial is further by one for each update before, the zones are the same but for the serial in two cases: each of
/// these updates changes the zone, and then both take the SOA or neither does; or its serial is greater than the zone's, however many of
/// these advance it, and then both take it. Otherwise one may take it, and the other not.
///
/// After updates without an operation at the name of a prerequisite it is met exactly where it is before; but if it tests the data of
/// an SOA, they may have no operation at all, since a change advances the serial. So if each prerequisite of an update comes after such
/// updates only, once, and those of a record set are together, all are made exactly where that update is.
pub fn updates_in_turn()
    ensures records { PartsMakeTheRecords }
    ensures zone { PartsMakeTheZone }
    ensures soa { PartsTakeTheSoa }
    ensures newer { PartsTakeANewerSoa }
    ensures stay { VerdictsStay }
    ensures met { PartsAreMet }
{}

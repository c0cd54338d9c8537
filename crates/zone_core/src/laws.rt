//! Laws of the definitions. The functions do nothing: their contracts are the laws.

ghost use Rattle.std.specs.Prelude.{◌≡◌, ℕ, List, Bool, true};
ghost use Rattle.zone_core.specs.Parts.{VerdictsReadTheirNames, OperationsReadTheirNames, UpdatesNeedTheirPart};
ghost use Rattle.zone_core.specs.Visibility.{VerdictsAreIndistinguishable, UpdatesStayIndistinguishable, InvisibleUpdatesAreIndistinguishable, ListingsAreIndistinguishable, PartsAreIndistinguishable, ChangesAreIndistinguishable, InvisibleChangesShowNothing};
ghost use Rattle.zone_core.specs.Accounts.{UpdatesLeave, UpdatesMake};
ghost use Rattle.zone_core.specs.Changes.{ChangesMake, SameSetsAreOne};
ghost use Rattle.zone_core.specs.Rebuilt.{ZonesAreRebuilt};
ghost use Rattle.zone_core.specs.Met.{VerdictsAreFirst};
ghost use Rattle.zone_core.specs.Delegations.{ReportsAreExact};
ghost use Rattle.zone_core.specs.Updates.{OutsidesAreFirst, EqualUpdatesAreOne};
ghost use Rattle.zone_core.specs.Versions.{UpdatesKeepZones, UpdatesAdvance};

/// The prerequisites of an update read the records at their names, and no others.
pub fn verdicts_read_their_names()
    ensures { VerdictsReadTheirNames }
{}

/// The operations of an update read and change the records at their names, and no others.
pub fn operations_read_their_names()
    ensures { OperationsReadTheirNames }
{}

/// An update needs no other records than those at the origin and at its names: the part of a zone that has these is a zone, the
/// verdict in it is that in the zone, and the same records are removed and added.
pub fn updates_need_their_part()
    ensures { UpdatesNeedTheirPart }
{}

/// A record that is no SOA is in the zone after an update exactly where an operation put it there and none later took it away, or
/// it was there and none took it away (RFC 2136 section 3.4.2).
pub fn updates_leave_records()
    ensures { UpdatesLeave }
{}

/// The records of a zone after an update are those that the operations make one after the other: each puts records there and
/// takes some away of what the one before it made, and leaves all others (RFC 2136 section 3.4.2). Where that is another set with
/// the serial as it was, the SOA is one version further (section 3.6).
pub fn updates_make_records()
    ensures { UpdatesMake }
{}

/// The verdict on prerequisites tells the first that is not met, with the code of its kind: those of sets that are given whole
/// are tested after all others (RFC 2136 section 3.2.5).
pub fn verdicts_are_first_unmet()
    ensures { VerdictsAreFirst }
{}

/// What is told of items outside the origin of a zone is the first of them, prerequisites before operations (RFC 2136 sections
/// 3.2 and 3.4.1).
pub fn outsides_are_first()
    ensures { OutsidesAreFirst }
{}

/// A report of records in record order has each name below the origin where an NS stands (RFC 2181 section 6), with each server
/// that an NS there names, and whether a server within that child has an address among the records; and nothing else.
pub fn reports_are_exact()
    ensures { ReportsAreExact }
{}

/// The zone after an update within its origin is a zone (RFC 2136 sections 3.4.2 and 3.6).
pub fn updates_keep_zones()
    ensures { UpdatesKeepZones }
{}

/// The zone after an update within its origin is the zone before; or its SOA is one that the update adds, or its serial is one
/// further (RFC 2136 section 3.6), and in both cases the serial is greater (RFC 1982 section 3.2).
pub fn updates_advance_serials()
    ensures { UpdatesAdvance }
{}

/// Prerequisites that test some names tell nothing of the rest of a zone: two zones that have the same records at these names, the
/// SOA at the origin aside, answer them alike.
pub fn verdicts_are_indistinguishable()
    ensures { (seen : List (List ℕ) → Bool) → VerdictsAreIndistinguishable (λ name. seen name ≡ true) }
{}

/// Two zones that are indistinguishable at some names stay so under the same update at these names.
pub fn updates_stay_indistinguishable()
    ensures { (seen : List (List ℕ) → Bool) → UpdatesStayIndistinguishable (λ name. seen name ≡ true) }
{}

/// A zone is the same at some names after an update that acts at other names only, or that adds an SOA at the origin too.
pub fn invisible_updates_are_indistinguishable()
    ensures { (seen : List (List ℕ) → Bool) → InvisibleUpdatesAreIndistinguishable (λ name. seen name ≡ true) }
{}

/// Lists of the records at some names, without the SOA at the origin, are equal for two zones that are indistinguishable there; and so are
/// those of a part of each.
pub fn listings_are_indistinguishable()
    ensures whole { (seen : List (List ℕ) → Bool) → ListingsAreIndistinguishable (λ name. seen name ≡ true) }
    ensures part { (seen : List (List ℕ) → Bool) → PartsAreIndistinguishable (λ name. seen name ≡ true) }
{}

/// Changes show of the records at some names, without the SOA at the origin, the same for zones that are indistinguishable there
/// before and after; and nothing where the zone after is indistinguishable from the zone before.
pub fn changes_are_indistinguishable()
    ensures alike { (seen : List (List ℕ) → Bool) → ChangesAreIndistinguishable (λ name. seen name ≡ true) }
    ensures invisible { (seen : List (List ℕ) → Bool) → InvisibleChangesShowNothing (λ name. seen name ≡ true) }
{}

/// What two zones differ in fits the one, and made to it, it gives the other.
pub fn changes_make_the_zone_after()
    ensures { ChangesMake }
{}

/// Sets of records differ in nothing exactly where they are one.
pub fn equal_sets_are_one()
    ensures { SameSetsAreOne }
{}

/// Updates have equal items, in the same order, exactly where they are one.
pub fn equal_updates_are_one()
    ensures { EqualUpdatesAreOne }
{}

/// The records of a zone, in whatever order and however often they come, are built as that zone.
pub fn zones_are_built_of_their_records()
    ensures { ZonesAreRebuilt }
{}

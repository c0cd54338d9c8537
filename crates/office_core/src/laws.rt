//! Laws of the definitions. The functions do nothing: their contracts are the laws.

ghost use Rattle.office_core.specs.Footprints.{FootprintsAreAsked, FootprintsAreInOrder};
ghost use Rattle.office_core.specs.Histories.{ReceiptsAreKept, UpdatesAreMadeOnce};
ghost use Rattle.office_core.specs.Isolation.{CallersAreAlone, BlindCallersAreAlone, PoliciesKeepAlone, IsolatedCallersAreAlone};
ghost use Rattle.office_core.specs.Promises.{ListsAreExact, ChangesAreExact, AllCallsAreRight};
ghost use Rattle.office_core.specs.RightAnswers.{AllAnswersAreRight};

/// The footprint of an update has exactly the points that its items ask for, each once and in order: those of prerequisites
/// before those of operations, items by their numbers, and the points of an item by type number.
pub fn footprints_are_asked_in_order()
    ensures points { FootprintsAreAsked }
    ensures order { FootprintsAreInOrder }
{}

/// A caller is told what it would be told if nobody else asked anything, as long as what others change is at none of its own names,
/// those at which the policy grants it something. It must not see the SOA at the origin of a zone, whose serial shows that there
/// were changes: it has no right on it, or at least may neither list nor check it, and then others may add an SOA there. Whatever is
/// asked, the same holds if the policy grants no other caller to change records at its own names, and hence if the policy isolates
/// it, which `isolation` of `policy_tools` decides.
pub fn callers_are_alone()
    ensures rights { CallersAreAlone }
    ensures visibility { BlindCallersAreAlone }
    ensures policy { PoliciesKeepAlone }
    ensures isolation { IsolatedCallersAreAlone }
{}

/// What a caller may list of a zone is every record of it that the policy lets the caller list, no other, and in record order
/// (RFC 4034 section 6).
pub fn lists_are_exact()
    ensures { ListsAreExact }
{}

/// What a caller is told of the changes of a zone, from a number on, is every change of which it may list some record, and no other:
/// by its number, which counts from 1 those of which it may, in their order, and of each side the records that it may list, in
/// theirs.
pub fn changes_are_exact()
    ensures { ChangesAreExact }
{}

/// Whatever is called, one call after the other. An update is made exactly where its identifier is new to the caller, its zone is there,
/// its names are within the zone, the policy grants every point of it and its prerequisites are met; and then it is made whole (RFC 2136
/// section 3.4), the serial is greater where anything has changed (RFC 1982), what moved was granted, and the change is noted. A denial
/// names the first point that is not granted, every other refusal comes exactly where its cause is, and a repeated update is told the reply
/// that was kept; no receipt is lost, and none comes but that of the update. Any other request changes nothing, and is told exactly what
/// the caller may see. So a zone is the one at the start with the updates that were made of it, in order, and the noted changes lead from
/// the one to the other.
pub fn calls_are_right()
    ensures { AllCallsAreRight }
{}

/// The same of what calls are told, by what is held before each call and after it. An update under a new identifier is told exactly
/// what it is due: that it is made, where it may be, and then the records of its zone are those that its operations make in turn
/// (RFC 2136 section 3.4.2); or the first item outside the zone, the first point that is not granted, or the first prerequisite that
/// is not met (section 3.2.5). An update that is called again is told the same again and changes nothing, so that at most one is made
/// under each identifier of a caller. Any other request is told what the caller may list, see or do.
pub fn answers_are_right()
    ensures { AllAnswersAreRight }
{}

/// Over any time, whatever is called and by whatever policies: an update that was answered keeps its receipt, and of the updates of a
/// caller under one identifier only the first changes anything.
pub fn updates_are_made_once()
    ensures kept { ReceiptsAreKept }
    ensures once { UpdatesAreMadeOnce }
{}

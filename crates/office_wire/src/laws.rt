//! Laws of the definitions. The functions do nothing: their contracts are the laws.

ghost use Rattle.office_wire.specs.Exchange.{FramingIsUnique};
ghost use Rattle.office_wire.specs.Lifetimes.{HistoriesAreOne};
ghost use Rattle.office_wire.specs.Paths.{PartsAreSegments, RoutesAreTheirPaths, SegmentsAreBetweenSlashes, TargetsHaveOneRow};
ghost use Rattle.office_wire.specs.Promises.{CrashesLeaveOneMore, ExchangesAreRuns};

/// A stream begins with one whole request at most: the octets determine its head, its body and what follows.
pub fn framing_is_unique()
    ensures { FramingIsUnique }
{}

/// The calls of an exchange, but those that were answered SERVFAIL, are a run of the machine, which gives the same answers and leads
/// to the state after the exchange; so what the office promises of calls holds of them.
pub fn exchanges_are_runs()
    ensures { ExchangesAreRuns }
{}

/// If a crash left nothing but the state before an exchange, after it a crash leaves the state after the requests that were answered, or
/// the one after one request more, which was answered SERVFAIL.
pub fn crashes_leave_one_more()
    ensures { CrashesLeaveOneMore }
{}

/// However many times a service is started, and however each of its lifetimes ends, by its listener or by a crash: there is one history of
/// all requests that were answered, and of at most one in each lifetime that was answered SERVFAIL. It is a run of the machine, each
/// answer is the one at its place, and it leads to what is on the disk.
pub fn histories_are_one()
    ensures { HistoriesAreOne }
{}

/// A row of the routes takes a target exactly where the method is the row's, the target has no query, and its segments meet those of
/// the row's path, one by one and as many: the name of a part is met by any segment that is not empty, another segment by itself only.
pub fn routes_are_their_paths()
    ensures { RoutesAreTheirPaths }
{}

/// No two rows of a method take the same target.
pub fn targets_have_one_row()
    ensures { TargetsHaveOneRow }
{}

/// The segments of a path are the pieces without a slash that make the path with a slash between each two.
pub fn segments_are_between_slashes()
    ensures { SegmentsAreBetweenSlashes }
{}

/// Where a row takes a target, the part of a name is the target's segment at the place of that name in the row's path, decoded.
pub fn parts_are_segments()
    ensures { PartsAreSegments }
{}

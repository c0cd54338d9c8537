//! What the definitions of the migration promise. The function does nothing: its contract is the law.

ghost use Rattle.office_store.specs.MigratedRecords.{MigratedZonesAreEven};

/// In a migrated zone each record has the owner and the data that it had, and the least TTL of its set (RFC 2181 section 5.2); and where
/// that changes a TTL, the serial is one further (RFC 1982 section 3.1).
pub fn migrated_zones_are_even()
    ensures { MigratedZonesAreEven }
{}

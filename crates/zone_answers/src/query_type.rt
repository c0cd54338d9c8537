//! What a question asks for.

use dns_data::RecordType;

/// The type of a question (RFC 1035 section 3.2.3).
#[derive(Clone, Copy, PartialEq, Eq)]
pub enum QueryType {
    /// The records of a type that zones keep.
    Kept(RecordType),
    /// The records of all types, as `ANY` asks for.
    Any,
    /// The records of a type that no zone has.
    Other,
}

impl QueryType {
    /// The types of questions: those that are kept, by number, then all, and then those that no zone has.
    pub const ALL: [QueryType; 12] = [
        QueryType::Kept(RecordType::A),
        QueryType::Kept(RecordType::Ns),
        QueryType::Kept(RecordType::Cname),
        QueryType::Kept(RecordType::Soa),
        QueryType::Kept(RecordType::Ptr),
        QueryType::Kept(RecordType::Mx),
        QueryType::Kept(RecordType::Txt),
        QueryType::Kept(RecordType::Aaaa),
        QueryType::Kept(RecordType::Srv),
        QueryType::Kept(RecordType::Ds),
        QueryType::Any,
        QueryType::Other,
    ];
}

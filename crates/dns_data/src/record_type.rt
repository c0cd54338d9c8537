//! The record types that are kept.

ghost use Rattle.std.specs.Prelude.{◌≡◌, ◌↔◌, ◌==◌, ◌<◌, length, Ok, Some, IfErr};
ghost use Rattle.std.specs.List.{find};
ghost use Rattle.std.specs.Result.{result_ok};
ghost use Rattle.std.specs.Str.{str_eq_ignore_ascii_case};

use crate::data_fault::DataFault;

/// A record type that is kept (RFC 1035 section 3.2.2, RFC 2782, RFC 3596 section 2.1, RFC 4034 section 5).
#[derive(Clone, Copy, PartialEq, Eq)]
pub enum RecordType {
    A,
    Ns,
    Cname,
    Soa,
    Ptr,
    Mx,
    Txt,
    Aaaa,
    Srv,
    Ds,
}

impl RecordType {
    ghost use Rattle.dns_data.specs.Types.{type_text, type_number, type_named, kept_types, place_of, IsCalled};
    ghost use Rattle.dns_data.specs.RecordOrder.{rank_of};

    /// The types that are kept, by number.
    pub const ALL: [RecordType; 10] = [
        RecordType::A,
        RecordType::Ns,
        RecordType::Cname,
        RecordType::Soa,
        RecordType::Ptr,
        RecordType::Mx,
        RecordType::Txt,
        RecordType::Aaaa,
        RecordType::Srv,
        RecordType::Ds,
    ];

    /// The one table of types.
    const fn row(self) -> (&'static str, u16)
        ensures text { result.0.now ≡ type_text self }
        ensures number { result.1 ≡ type_number self }
    {
        match self {
            RecordType::A => ("A", 1),
            RecordType::Ns => ("NS", 2),
            RecordType::Cname => ("CNAME", 5),
            RecordType::Soa => ("SOA", 6),
            RecordType::Ptr => ("PTR", 12),
            RecordType::Mx => ("MX", 15),
            RecordType::Txt => ("TXT", 16),
            RecordType::Aaaa => ("AAAA", 28),
            RecordType::Srv => ("SRV", 33),
            RecordType::Ds => ("DS", 43),
        }
    }

    /// Reads the name of a type, in either letter case. Any other name is `TypeNotKept`.
    pub fn read(text: &[u8]) -> Result<RecordType, DataFault>
        // What is read is the type that is called so.
        ensures found { (record_type : RecordType) → (result ≡ Ok record_type) ↔ IsCalled record_type text.now }
        // The same by a definition that computes.
        ensures exact { result_ok result ≡ type_named text.now }
        ensures refused { IfErr result (λ e. e ≡ DataFault.TypeNotKept) }
    {
        RecordType::called(text).ok_or(DataFault::TypeNotKept)
    }

    /// The first of the types with this name, in either letter case.
    fn called(text: &[u8]) -> Option<RecordType>
        ensures { result ≡ type_named text.now }
    {
        RecordType::ALL
            .iter()
            .copied()
            .find(|record_type| record_type.is_called(text))
    }

    /// Whether a text is the name of the type, in either letter case.
    fn is_called(self, text: &[u8]) -> bool
        ensures { result ≡ str_eq_ignore_ascii_case (type_text self) text.now }
    {
        self.text().as_bytes().eq_ignore_ascii_case(text)
    }

    /// The name of the type, in capitals.
    pub const fn text(self) -> &'static str
        ensures { result.now ≡ type_text self }
    {
        self.row().0
    }

    /// The number of the type in messages.
    pub const fn number(self) -> u16
        ensures { result ≡ type_number self }
    {
        self.row().1
    }

    /// The place of the type in `ALL`, from 0.
    pub const fn place(self) -> usize
        ensures value { result ≡ place_of self }
        ensures below { result < length kept_types }
    {
        self as usize
    }

    /// The place of the type among the records of one owner: 0 for SOA, and the number for the others.
    pub const fn rank(self) -> u16
        ensures { result ≡ rank_of self }
    {
        match self {
            RecordType::Soa => 0,
            other => other.number(),
        }
    }

    /// The kept type with this number, if there is one.
    pub fn from_number(number: u16) -> Option<RecordType>
        ensures { (record_type : RecordType) → (result ≡ Some record_type) ↔ (type_number record_type ≡ number) }
    {
        RecordType::numbered(number)
    }

    /// The first of the types with this number.
    fn numbered(number: u16) -> Option<RecordType>
        ensures { result ≡ find (λ t. type_number t == number) RecordType.ALL }
    {
        RecordType::ALL
            .iter()
            .copied()
            .find(|record_type| record_type.number() == number)
    }
}

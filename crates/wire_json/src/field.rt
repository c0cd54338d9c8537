//! The fields of objects.

ghost use Rattle.std.specs.Prelude.{◌≡◌};
ghost use Rattle.wire_json.specs.Fields.{field_text, prerequisite_fields, operation_fields};

use zone_core::{OperationKind, PrerequisiteKind};

/// A field of an object.
#[derive(Clone, Copy, PartialEq, Eq)]
pub(crate) enum Field {
    Addresses,
    Child,
    Data,
    Id,
    Name,
    Op,
    Operations,
    Prerequisites,
    Servers,
    Test,
    Ttl,
    Type,
}

impl Field {
    /// What it is called.
    pub(crate) const fn text(self) -> &'static str
        ensures { result.now ≡ field_text self }
    {
        match self {
            Field::Addresses => "addresses",
            Field::Child => "child",
            Field::Data => "data",
            Field::Id => "id",
            Field::Name => "name",
            Field::Op => "op",
            Field::Operations => "operations",
            Field::Prerequisites => "prerequisites",
            Field::Servers => "servers",
            Field::Test => "test",
            Field::Ttl => "ttl",
            Field::Type => "type",
        }
    }
}

/// The fields of a prerequisite of a kind.
pub(crate) const fn prerequisite_fields(kind: PrerequisiteKind) -> &'static [Field]
    ensures { result.now ≡ prerequisite_fields kind }
{
    match kind {
        PrerequisiteKind::RrsetExists | PrerequisiteKind::RrsetAbsent => {
            &[Field::Test, Field::Name, Field::Type]
        }
        PrerequisiteKind::RrsetEquals => &[Field::Test, Field::Name, Field::Type, Field::Data],
        PrerequisiteKind::NameUsed | PrerequisiteKind::NameUnused => &[Field::Test, Field::Name],
    }
}

/// The fields of an operation of a kind.
pub(crate) const fn operation_fields(kind: OperationKind) -> &'static [Field]
    ensures { result.now ≡ operation_fields kind }
{
    match kind {
        OperationKind::Add => &[Field::Op, Field::Name, Field::Ttl, Field::Type, Field::Data],
        OperationKind::DeleteRrset => &[Field::Op, Field::Name, Field::Type],
        OperationKind::DeleteName => &[Field::Op, Field::Name],
        OperationKind::DeleteRecord => &[Field::Op, Field::Name, Field::Type, Field::Data],
    }
}

//! The kinds of prerequisites and of operations.

ghost use Rattle.std.specs.Prelude.{◌≡◌, ◌↔◌, Some};
ghost use Rattle.zone_core.specs.Kinds.{prerequisite_word, operation_word, prerequisite_named, operation_named, prerequisite_kind, operation_kind};

use crate::update::{Operation, Prerequisite};

/// A kind of prerequisite (RFC 2136 section 2.4).
#[derive(Clone, Copy, PartialEq, Eq)]
pub enum PrerequisiteKind {
    /// Some record has this owner and type (section 2.4.1).
    RrsetExists,
    /// The set has these data (section 2.4.2).
    RrsetEquals,
    /// No record has this owner and type (section 2.4.3).
    RrsetAbsent,
    /// Some record has this owner (section 2.4.4).
    NameUsed,
    /// No record has this owner (section 2.4.5).
    NameUnused,
}

/// A kind of operation (RFC 2136 section 2.5).
#[derive(Clone, Copy, PartialEq, Eq)]
pub enum OperationKind {
    /// Adds a record to a set (section 2.5.1).
    Add,
    /// Deletes a set (section 2.5.2).
    DeleteRrset,
    /// Deletes all sets at a name (section 2.5.3).
    DeleteName,
    /// Deletes a record of a set (section 2.5.4).
    DeleteRecord,
}

impl PrerequisiteKind {
    /// The kinds that there are.
    pub const ALL: [PrerequisiteKind; 5] = [
        PrerequisiteKind::RrsetExists,
        PrerequisiteKind::RrsetEquals,
        PrerequisiteKind::RrsetAbsent,
        PrerequisiteKind::NameUsed,
        PrerequisiteKind::NameUnused,
    ];

    /// The word for it in requests.
    pub const fn text(self) -> &'static str
        ensures { result.now ≡ prerequisite_word self }
    {
        match self {
            PrerequisiteKind::RrsetExists => "rrset-exists",
            PrerequisiteKind::RrsetEquals => "rrset-equals",
            PrerequisiteKind::RrsetAbsent => "rrset-absent",
            PrerequisiteKind::NameUsed => "name-used",
            PrerequisiteKind::NameUnused => "name-unused",
        }
    }

    /// The kind of this word, which is read only as it is written.
    pub fn read(word: &[u8]) -> Option<PrerequisiteKind>
        ensures exact { result ≡ prerequisite_named word.now }
        ensures spelled { (kind : PrerequisiteKind) → (result ≡ Some kind) ↔ (prerequisite_word kind ≡ word.now) }
    {
        PrerequisiteKind::called(word)
    }

    /// The first of the kinds with this word.
    fn called(word: &[u8]) -> Option<PrerequisiteKind>
        ensures { result ≡ prerequisite_named word.now }
    {
        PrerequisiteKind::ALL
            .iter()
            .copied()
            .find(|kind| kind.text().as_bytes() == word)
    }
}

impl OperationKind {
    /// The kinds that there are.
    pub const ALL: [OperationKind; 4] = [
        OperationKind::Add,
        OperationKind::DeleteRrset,
        OperationKind::DeleteName,
        OperationKind::DeleteRecord,
    ];

    /// The word for it in requests.
    pub const fn text(self) -> &'static str
        ensures { result.now ≡ operation_word self }
    {
        match self {
            OperationKind::Add => "add",
            OperationKind::DeleteRrset => "delete-rrset",
            OperationKind::DeleteName => "delete-name",
            OperationKind::DeleteRecord => "delete-record",
        }
    }

    /// The kind of this word, which is read only as it is written.
    pub fn read(word: &[u8]) -> Option<OperationKind>
        ensures exact { result ≡ operation_named word.now }
        ensures spelled { (kind : OperationKind) → (result ≡ Some kind) ↔ (operation_word kind ≡ word.now) }
    {
        OperationKind::called(word)
    }

    /// The first of the kinds with this word.
    fn called(word: &[u8]) -> Option<OperationKind>
        ensures { result ≡ operation_named word.now }
    {
        OperationKind::ALL
            .iter()
            .copied()
            .find(|kind| kind.text().as_bytes() == word)
    }
}

impl Prerequisite {
    /// Its kind.
    pub fn kind(&self) -> PrerequisiteKind
        ensures { result ≡ prerequisite_kind self.now }
    {
        match self {
            Prerequisite::RrsetExists { .. } => PrerequisiteKind::RrsetExists,
            Prerequisite::RrsetEquals { .. } => PrerequisiteKind::RrsetEquals,
            Prerequisite::RrsetAbsent { .. } => PrerequisiteKind::RrsetAbsent,
            Prerequisite::NameUsed(_) => PrerequisiteKind::NameUsed,
            Prerequisite::NameUnused(_) => PrerequisiteKind::NameUnused,
        }
    }
}

impl Operation {
    /// Its kind.
    pub fn kind(&self) -> OperationKind
        ensures { result ≡ operation_kind self.now }
    {
        match self {
            Operation::Add(_) => OperationKind::Add,
            Operation::DeleteRrset { .. } => OperationKind::DeleteRrset,
            Operation::DeleteName(_) => OperationKind::DeleteName,
            Operation::DeleteRecord { .. } => OperationKind::DeleteRecord,
        }
    }
}

//! The records that grants include.

ghost use Rattle.std.specs.Prelude.{◌≡◌, ◌++◌, [], ◌∷◌, if◌then◌else◌, IfOk, OnOk};
ghost use Rattle.office_model.specs.Tables.{included};

use dns_data::Record;
use grant_policy::Grants;
use std::alloc::{AllocError, Global};

/// Whether grants include a record.
fn is_included(grants: &mut Grants<'_>, rr: &Record) -> bool
    ensures value { included grants.old (rr.now ∷ []) ≡ (if result then rr.now ∷ [] else []) }
    ensures same { grants.new ≡ grants.old }
{
    grants.include(&rr.owner, rr.record_type())
}

/// Records, and after them copies of those of some others that grants include. The only error is out of memory.
pub fn with_included(
    alloc: Global,
    mut all: Vec<Record>,
    grants: &mut Grants<'_>,
    records: &[Record],
) -> Result<Vec<Record>, AllocError>
    ensures value { IfOk result (λ rs. rs.items ≡ all.items ++ included grants.old records.now) }
    ensures same { grants.new ≡ grants.old }
{
    for record in records {
        if is_included(grants, record) {
            all.push(record.try_copy(alloc)?)?;
        }
    }
    Ok(all)
}

/// Appends a record, if grants include it. The only error is out of memory.
fn push_included(
    all: &mut Vec<Record>,
    grants: &mut Grants<'_>,
    rr: Record,
) -> Result<(), AllocError>
    ensures value { OnOk result (all.new.items ≡ all.old.items ++ included grants.old (rr ∷ [])) }
    ensures same { grants.new ≡ grants.old }
{
    if is_included(grants, &rr) {
        all.push(rr)?;
    }
    Ok(())
}

/// Those of some records that grants include. The only error is out of memory.
pub fn included(
    alloc: Global,
    grants: &mut Grants<'_>,
    records: Vec<Record>,
) -> Result<Vec<Record>, AllocError>
    ensures value { IfOk result (λ rs. rs.items ≡ included grants.old records.items) }
    ensures same { grants.new ≡ grants.old }
{
    let mut all = Vec::with_capacity(alloc, records.len())?;
    for record in records {
        push_included(&mut all, grants, record)?;
    }
    Ok(all)
}

//! What is asked of a table.

ghost use Rattle.std.specs.Prelude.{◌≡◌, None, IfOk, OnOk, OnErr};
ghost use Rattle.office_model.specs.States.{State, zone_at};
ghost use Rattle.office_model.specs.Tables.{Fits, addition_in, committed};

use dns_names::Name;
use grant_policy::Identifier;
use office_model::{Addition, Receipt, TableFault, ZoneTable};
use std::alloc::Global;
use zone_core::{Change, Zone};

/// `ZoneTable::commit` of a receipt alone, by what it requires.
pub fn commit_receipt<T: ZoneTable>(
    alloc: Global,
    table: &mut T,
    caller: Identifier,
    id: Identifier,
    receipt: Receipt,
) -> Result<(), TableFault>
    requires { T.is_honest table.old → (s : State) → T.holds table.old s → s.receipts caller id ≡ None }
{
    let change: Option<Change> = None;
    table.commit(
        alloc,
        Addition {
            caller,
            id,
            receipt,
            change,
        },
    )
}

/// `ZoneTable::commit`, and `ZoneTable::zone` after it. The addition comes back where an edit does not commit it: to drop it here would
/// be proved with the edit.
pub fn zone_behind<T: ZoneTable>(
    alloc: Global,
    table: &mut T,
    added: Addition,
    at: &Name,
) -> (
    Result<(), TableFault>,
    Result<Option<Zone>, TableFault>,
    Option<Addition>,
)
    requires { T.is_honest table.old → (s : State) → T.holds table.old s → Fits s (addition_in added) }
    ensures { T.is_honest table.new
        → OnOk result.0 (IfOk result.1 (λ zone. (s : State) → T.holds table.old s → zone ≡ zone_at (committed (addition_in added) s) at.now)) }
{
    let made = table.commit(alloc, added);
    (made, table.zone(alloc, at), None)
}

/// `ZoneTable::commit`, and `ZoneTable::zone` after one that failed, beside the zone that the addition makes.
pub fn zone_behind_failure<T: ZoneTable>(
    alloc: Global,
    table: &mut T,
    added: Addition,
    at: &Name,
    _changed: &mut Option<Zone>,
) -> (Result<(), TableFault>, Result<Option<Zone>, TableFault>)
    requires fits { T.is_honest table.old → (s : State) → T.holds table.old s → Fits s (addition_in added) }
    requires changed { T.is_honest table.old → (s : State) → T.holds table.old s → _changed.old ≡ zone_at (committed (addition_in added) s) at.now }
    ensures { T.is_honest table.new → OnErr result.0 (IfOk result.1 (λ zone. (s : State) → T.holds table.old s → zone ≡ zone_at s at.now)) }
{
    let done = table.commit(alloc, added);
    (done, table.zone(alloc, at))
}

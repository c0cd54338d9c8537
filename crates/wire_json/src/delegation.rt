//! The bodies of delegations.

ghost use Rattle.std.specs.Prelude.{◌≡◌, ℕ, List, Ok, IfOk};
ghost use Rattle.serde_json.specs.View.{view};
ghost use Rattle.zone_core.specs.Updates.{IsUpdate};
ghost use Rattle.wire_json.specs.Faults.{Gives, of_delegations};
ghost use Rattle.wire_json.specs.Bodies.{RequestOf, IsDelegationValue, IsDelegationBody};
ghost use Rattle.wire_json.specs.Delegating.{request_of, delegated};
ghost use Rattle.wire_json.specs.Reading.{RequestBody, request_in, body_with, delegation_of_body};
ghost use Rattle.wire_json.specs.Requests.{body_of};

use crate::body::UpdateBody;
use crate::body_fault::BodyFault;
use crate::field::Field;
use crate::field_values::{read_id, read_name, read_ttl};
use crate::server::read_servers;
use crate::value::{check_fields, json_of, read_items};
use dns_names::Name;
use grant_policy::Identifier;
use serde_json::Value;
use std::alloc::Global;
use zone_core::{DelegationRequest, Update, delegation_update};

/// The request of a delegation, under an identifier of the caller's choice.
#[derive(Drop)]
struct RequestedDelegation {
    id: Identifier,
    request: DelegationRequest,
}

/// The request of a JSON value.
fn read_request(alloc: Global, value: &Value) -> Result<RequestedDelegation, BodyFault>
    ensures exact { Gives body_of result (request_in (view value.now)) }
    ensures found { IfOk result (λ body. IsDelegationValue body.id (request_of body.request) (view value.now)) }
{
    let fields = [Field::Id, Field::Child, Field::Ttl, Field::Servers];
    check_fields(value, &fields, &fields)?;
    let id = read_id(alloc, value)?;
    let child = read_name(alloc, value, Field::Child)?;
    let ttl = read_ttl(value)?;
    let items = read_items(value, Field::Servers)?;
    let servers = read_servers(alloc, items)?;
    let request = DelegationRequest {
        child,
        ttl,
        servers,
    };
    Ok(RequestedDelegation { id, request })
}

/// The update of a request.
fn update_of(alloc: Global, origin: &Name, request: &DelegationRequest) -> Result<Update, BodyFault>
    ensures update { IfOk result IsUpdate }
    ensures exact { Gives (λ update. update) result (of_delegations (delegated origin.now (request_of request.now))) }
{
    let update = delegation_update(alloc, origin, request)?;
    // the proof needs that it is an update
    let _ = update.operations();
    Ok(update)
}

/// Reads the body of a request to delegate a child zone (RFC 1034 section 4.2.1) in a zone of this origin, a JSON object in
/// UTF-8 (RFC 8259), as the update that makes the delegation. Of a key that comes twice the last value stays.
///
/// ```text
/// {"id": "d1", "child": "physics.example.org.", "ttl": 3600,
///  "servers": [{"name": "ns1.physics.example.org.", "addresses": ["192.0.2.53"]}, {"name": "ns.example.net.", "addresses": []}]}
/// ```
///
/// `id` is an identifier, names are absolute texts, `ttl` is a whole number of seconds, 0 to 2,147,483,647, and an address is an
/// IPv6 address where it has a colon, and else an IPv4 address.
///
/// Of several refusals the first of these is answered: `NotJson`; `BadField` where the body is no object; `UnknownField`;
/// `MissingField`; `BadField` for its values; then server by server `BadField` where it is no object, `UnknownField`,
/// `MissingField`, and `BadField` for its values; then `Delegation` with `NotBelowOrigin`, `NoServer`, `GlueMissing` and
/// `TooManyItems`. `NoMemory` comes at the growth that was refused.
pub fn read_delegation(alloc: Global, body: &[u8], origin: &Name) -> Result<UpdateBody, BodyFault>
    // What is read is the update of the delegation that the body asks for.
    ensures found { IfOk result (λ read. (request : RequestOf) × IsDelegationBody body.now read.id request × (delegated origin.now request ≡ Ok read.update)) }
    // What is read is an update.
    ensures update { IfOk result (λ read. IsUpdate read.update) }
    // A body that asks for a delegation is read as its update, or refused as it is, unless memory runs out.
    ensures only { (id : List ℕ) (request : RequestOf) → IsDelegationBody body.now id request
        → Gives (λ read. read) result (body_with id (of_delegations (delegated origin.now request))) }
    // Which refusal it is.
    ensures exact { Gives (λ read. read) result (delegation_of_body origin.now body.now) }
{
    delegation_of_body(alloc, body, origin)
}

/// The update of a body that asks for a delegation, or its first refusal.
fn delegation_of_body(alloc: Global, body: &[u8], origin: &Name) -> Result<UpdateBody, BodyFault>
    ensures found { IfOk result (λ read. (request : RequestOf) × IsDelegationBody body.now read.id request × (delegated origin.now request ≡ Ok read.update)) }
    ensures update { IfOk result (λ read. IsUpdate read.update) }
    ensures exact { Gives (λ read. read) result (delegation_of_body origin.now body.now) }
{
    let value = json_of(alloc, body)?;
    let RequestedDelegation { id, request } = read_request(alloc, &value)?;
    let update = update_of(alloc, origin, &request)?;
    Ok(UpdateBody { id, update })
}

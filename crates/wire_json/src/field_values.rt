//! The fields of bodies.

ghost use Rattle.std.specs.Prelude.{◌≡◌, IfOk};
ghost use Rattle.dns_data.specs.Rdata.{type_of};
ghost use Rattle.serde_json.specs.View.{view};
ghost use Rattle.wire_json.specs.Faults.{Gives};
ghost use Rattle.wire_json.specs.Bodies.{IsIdField, IsNameField, IsTypeField, IsTtlField, IsDataField};
ghost use Rattle.wire_json.specs.Reading.{ttl_of, id_in, name_in, type_in, ttl_in, data_in};

use crate::body_fault::BodyFault;
use crate::data::data_of_text;
use crate::field::Field;
use crate::value::read_text;
use dns_data::{Data, RecordType, Ttl};
use dns_names::Name;
use grant_policy::Identifier;
use serde_json::Value;
use std::alloc::Global;

/// The identifier of a request.
pub(crate) fn read_id(alloc: Global, value: &Value) -> Result<Identifier, BodyFault>
    ensures exact { Gives (λ id. id) result (id_in (view value.now)) }
    ensures found { IfOk result (λ id. IsIdField id (view value.now)) }
{
    let text = read_text(value, Field::Id)?;
    Ok(Identifier::read(alloc, text.as_bytes())?)
}

/// The absolute name of a field.
pub(crate) fn read_name(alloc: Global, value: &Value, field: Field) -> Result<Name, BodyFault>
    ensures exact { Gives (λ name. name) result (name_in field (view value.now)) }
    ensures found { IfOk result (λ name. IsNameField field name (view value.now)) }
{
    let text = read_text(value, field)?;
    Ok(Name::read_absolute(alloc, text.as_bytes())?)
}

/// The type of an item.
pub(crate) fn read_type(value: &Value) -> Result<RecordType, BodyFault>
    ensures exact { Gives (λ record_type. record_type) result (type_in (view value.now)) }
    ensures found { IfOk result (λ record_type. IsTypeField record_type (view value.now)) }
{
    let text = read_text(value, Field::Type)?;
    match RecordType::read(text.as_bytes()) {
        Ok(record_type) => Ok(record_type),
        Err(_) => Err(BodyFault::BadField),
    }
}

/// A TTL of so many seconds.
fn ttl_of(seconds: u64) -> Option<Ttl>
    ensures { result ≡ ttl_of seconds }
{
    match u32::try_from(seconds) {
        Ok(seconds) => Ttl::new(seconds),
        Err(_) => None,
    }
}

/// The TTL of an item, a whole number.
pub(crate) fn read_ttl(value: &Value) -> Result<Ttl, BodyFault>
    ensures exact { Gives (λ ttl. ttl) result (ttl_in (view value.now)) }
    ensures found { IfOk result (λ ttl. IsTtlField ttl (view value.now)) }
{
    let seconds = value.get(Field::Ttl.text()).and_then(Value::as_u64);
    ttl_of(seconds.ok_or(BodyFault::BadField)?).ok_or(BodyFault::BadField)
}

/// The data of an item of this type.
pub(crate) fn read_rdata(
    alloc: Global,
    record_type: RecordType,
    value: &Value,
) -> Result<Data, BodyFault>
    ensures exact { Gives (λ rdata. rdata) result (data_in record_type (view value.now)) }
    ensures found { IfOk result (λ rdata. IsDataField rdata (view value.now)) }
    ensures typed { IfOk result (λ rdata. type_of rdata ≡ record_type) }
{
    let text = read_text(value, Field::Data)?;
    data_of_text(alloc, record_type, text.as_bytes())
}

//! The bodies of replies that are short.

ghost use Rattle.std.specs.Prelude.{◌≡◌, ◌≤◌, ◌+◌, length, IsOk, codes};
ghost use Rattle.std.specs.Vec.{vec_capacity};
ghost use Rattle.grant_policy.specs.Identifiers.{IsIdentifier};
ghost use Rattle.wire_json.specs.Json.{escaped};
ghost use Rattle.wire_json.specs.Appending.{Appends};
ghost use Rattle.wire_json.specs.Replies.{rule_of, refusal_body, code_body, form_error_body, place_body, refusing_body, refused_body, granted_body, update_body, right_body};

use crate::piece::push_all;
use grant_policy::{CLOSING, Identifier};
use itoa::Buffer;
use office_model::{Right, UpdateReply};
use std::alloc::AllocError;
use zone_core::{ItemList, Rcode};

/// The identifier of a rule, or the name of the closing default.
fn rule_of(by: &Option<Identifier>) -> &[u8]
    ensures rule { result.now ≡ rule_of by.now }
    ensures identifier { IsIdentifier result.now }
{
    match by {
        Some(rule) => rule.as_bytes(),
        None => CLOSING.as_bytes(),
    }
}

/// The published number of a refusal.
pub(crate) fn push_refusal(out: &mut Vec<u8>, number: u8) -> Result<(), AllocError>
    ensures text { Appends out.old out.new (refusal_body number) result }
    ensures room { length out.old.items + 256 ≤ vec_capacity out.old → IsOk result }
{
    let mut digits = Buffer::new();
    let number = digits.format(number).as_bytes();
    push_all(out, &[r#"{"refusal":"#.as_bytes(), number, "}".as_bytes()])
}

/// FORMERR, and the published number of a refusal.
pub(crate) fn push_form_error(out: &mut Vec<u8>, number: u8) -> Result<(), AllocError>
    ensures text { Appends out.old out.new (form_error_body number) result }
    ensures room { length out.old.items + 256 ≤ vec_capacity out.old → IsOk result }
{
    let mut digits = Buffer::new();
    let number = digits.format(number).as_bytes();
    push_all(
        out,
        &[
            r#"{"code":1,"name":"FORMERR","refusal":"#.as_bytes(),
            number,
            "}".as_bytes(),
        ],
    )
}

/// A code alone.
pub(crate) fn push_code(out: &mut Vec<u8>, code: Rcode) -> Result<(), AllocError>
    ensures text { Appends out.old out.new (code_body code) result }
    ensures room { length out.old.items + 256 ≤ vec_capacity out.old → IsOk result }
{
    let mut digits = Buffer::new();
    let number = digits.format(code.number()).as_bytes();
    push_all(
        out,
        &[
            r#"{"code":"#.as_bytes(),
            number,
            r#","name":""#.as_bytes(),
            code.text().as_bytes(),
            r#""}"#.as_bytes(),
        ],
    )
}

/// A code, and the item that it is of.
fn push_place(out: &mut Vec<u8>, code: Rcode, item: usize, list: ItemList) -> Result<(), AllocError>
    ensures text { Appends out.old out.new (place_body code item list) result }
    ensures room { length out.old.items + 256 ≤ vec_capacity out.old → IsOk result }
{
    let mut code_digits = Buffer::new();
    let mut item_digits = Buffer::new();
    let number = code_digits.format(code.number()).as_bytes();
    let item = item_digits.format(item).as_bytes();
    push_all(
        out,
        &[
            r#"{"code":"#.as_bytes(),
            number,
            r#","item":"#.as_bytes(),
            item,
            r#","list":""#.as_bytes(),
            list.text().as_bytes(),
            r#"","name":""#.as_bytes(),
            code.text().as_bytes(),
            r#""}"#.as_bytes(),
        ],
    )
}

/// REFUSED, by a rule or the closing default, and the item that it is of.
fn push_refused(
    out: &mut Vec<u8>,
    by: &Option<Identifier>,
    item: usize,
    list: ItemList,
) -> Result<(), AllocError>
    ensures text { Appends out.old out.new (refused_body (rule_of by.now) item list) result }
    ensures room { length out.old.items + 256 ≤ vec_capacity out.old → IsOk result }
{
    let mut digits = Buffer::new();
    push_refusal_of(out, rule_of(by), digits.format(item), list.text())
}

/// REFUSED, by a rule, and the item that it is of: the digits of its number, and its list.
fn push_refusal_of<'a>(
    out: &mut Vec<u8>,
    rule: &'a [u8],
    item: &'a str,
    list: &'a str,
) -> Result<(), AllocError>
    requires rule { IsIdentifier rule.now }
    requires item { length item.now ≤ 40 }
    requires list { length list.now ≤ 13 }
    requires plain { escaped list.now ≡ list.now }
    ensures text { Appends out.old out.new (refusing_body rule.now item.now list.now) result }
    ensures room { length out.old.items + 256 ≤ vec_capacity out.old → IsOk result }
{
    push_all(
        out,
        &[
            r#"{"by":""#.as_bytes(),
            rule,
            r#"","code":5,"item":"#.as_bytes(),
            item.as_bytes(),
            r#","list":""#.as_bytes(),
            list.as_bytes(),
            r#"","name":"REFUSED"}"#.as_bytes(),
        ],
    )
}

/// The reply to an update.
pub(crate) fn push_update_reply(out: &mut Vec<u8>, reply: &UpdateReply) -> Result<(), AllocError>
    ensures text { Appends out.old out.new (update_body reply.now) result }
    ensures room { length out.old.items + 256 ≤ vec_capacity out.old → IsOk result }
{
    match reply {
        UpdateReply::NoError => push_code(out, Rcode::NoError),
        UpdateReply::NotAuth => push_code(out, Rcode::NotAuth),
        UpdateReply::NotZone(place) => push_place(out, Rcode::NotZone, place.item, place.list),
        UpdateReply::Refused { place, by } => { push_refused(out, by, place.item, place.list) }
        UpdateReply::Failed(failed) => {
            push_place(
                out,
                failed.code.rcode(),
                failed.item,
                ItemList::Prerequisites,
            )
        }
    }
}

/// That a rule decided so.
fn push_decision(out: &mut Vec<u8>, rule: &[u8], granted: &str) -> Result<(), AllocError>
    requires rule { IsIdentifier rule.now }
    requires short { length granted.now ≤ 5 }
    ensures text { Appends out.old out.new (granted_body rule.now granted.now) result }
    ensures room { length out.old.items + 256 ≤ vec_capacity out.old → IsOk result }
{
    push_all(
        out,
        &[
            r#"{"by":""#.as_bytes(),
            rule,
            r#"","granted":"#.as_bytes(),
            granted.as_bytes(),
            "}".as_bytes(),
        ],
    )
}

/// What the policy decides.
pub(crate) fn push_right(out: &mut Vec<u8>, right: &Right) -> Result<(), AllocError>
    ensures text { Appends out.old out.new (right_body right.now) result }
    ensures room { length out.old.items + 256 ≤ vec_capacity out.old → IsOk result }
{
    match right {
        Right::Granted(rule) => push_decision(out, rule.as_bytes(), "true"),
        Right::Denied(by) => push_decision(out, rule_of(by), "false"),
    }
}

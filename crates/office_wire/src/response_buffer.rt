//! The text of the response that is to be written.

ghost use Rattle.std.specs.Prelude.{◌≡◌, ◌≤◌, ◌<◌, ◌+◌, ◌++◌, ℕ, List, length, drop, vec_len, IsOk, OnErr, OnOk};
ghost use Rattle.std.specs.Vec.{vec_capacity};
ghost use Rattle.office_wire.specs.Texts.{text_of, head_end, head_text, head_parts, sent_body, status_of, type_of};
ghost use Rattle.office_wire.specs.ShortResponses.{IsShortResponse, IsPut};

use crate::method::Method;
use crate::response::Response;
use crate::status::phrase;
use itoa::Buffer;
use office_model::{Reply, StepFault, TableFault};
use std::alloc::{AllocError, Global};
use std::marker::Model;
use wire_json::push_all;

/// The room for a short response.
const ROOM: usize = 512;

/// The room for a head, and the room for a short body.
const HALF: usize = 256;

/// The text of the response that is to be written. The room for a short response is taken when it is made; a longer one takes
/// memory of its own. The body is printed after room for the head, which is written last, since it gives the body's length.
#[derive(Drop)]
pub(crate) struct ResponseBuffer {
    head: Vec<u8>,
    text: Vec<u8>,
    start: usize,
}

impl Model for ResponseBuffer {
    ghost Value = { List ℕ };

    ghost view = { λ s. drop s.start s.text.items };

    ghost invariant = { λ s. (256 ≤ vec_capacity s.head) × (512 ≤ vec_capacity s.text) × (256 ≤ vec_len s.text) × (s.start ≤ 256) };
}

/// The end of a head.
const fn head_end(closing: bool) -> &'static str
    ensures text { result.now ≡ head_end closing }
    ensures short { length result.now ≤ 23 }
{
    if closing {
        "\r\nConnection: close\r\n\r\n"
    } else {
        "\r\n\r\n"
    }
}

/// Appends the head of a response by its parts: the digits of the status, its phrase, the media type, the digits of the body's
/// length, and the end.
fn push_parts<'a>(
    out: &mut Vec<u8>,
    code: &'a str,
    phrase: &'a str,
    media: &'a str,
    digits: &'a str,
    end: &'a str,
) -> Result<(), AllocError>
    requires code { length code.now ≤ 3 }
    requires phrase { length phrase.now ≤ 21 }
    requires media { length media.now ≤ 16 }
    requires digits { length digits.now ≤ 40 }
    requires end { length end.now ≤ 23 }
    ensures text { OnOk result (out.new.items ≡ out.old.items ++ head_parts code.now phrase.now media.now digits.now end.now) }
    ensures short { length (head_parts code.now phrase.now media.now digits.now end.now) ≤ 256 }
    ensures capacity { vec_capacity out.old ≤ vec_capacity out.new }
    ensures room { length out.old.items + 256 ≤ vec_capacity out.old → IsOk result }
{
    push_all(
        out,
        &[
            "HTTP/1.1 ".as_bytes(),
            code.as_bytes(),
            " ".as_bytes(),
            phrase.as_bytes(),
            "\r\nContent-Type: ".as_bytes(),
            media.as_bytes(),
            "\r\nContent-Length: ".as_bytes(),
            digits.as_bytes(),
            end.as_bytes(),
        ],
    )
}

/// Puts the head of a response with a body of so many octets, into a row with room for it, in place of what was there.
fn put_head(out: &mut Vec<u8>, response: &Response, count: usize, closing: bool)
    requires { 256 ≤ vec_capacity out.old }
    ensures text { out.new.items ≡ head_text (status_of response.now) (type_of response.now) count closing }
    ensures short { length out.new.items ≤ 256 }
    ensures capacity { vec_capacity out.old ≤ vec_capacity out.new }
{
    out.clear();
    let mut digits = Buffer::new();
    let status = response.status();
    let Ok(()) = push_parts(
        out,
        status.as_str(),
        phrase(status),
        response.media_type(),
        digits.format(count),
        head_end(closing),
    ) else {
        unreachable!()
    };
}

/// Puts a head right before the octets after the room for it, and answers where it begins.
fn place_head(text: &mut Vec<u8>, head: &[u8]) -> usize
    requires head { length head.now ≤ 256 }
    requires text { 256 ≤ vec_len text.old }
    ensures text { drop result text.new.items ≡ head.now ++ drop 256 text.old.items }
    ensures within { result ≤ 256 }
    ensures len { vec_len text.new ≡ vec_len text.old }
    ensures capacity { vec_capacity text.new ≡ vec_capacity text.old }
{
    let start = HALF - head.len();
    text[start..HALF].copy_from_slice(head);
    start
}

/// Lets a body go that is not sent, since the request's method is HEAD; it stands after the room for the head.
fn drop_unsent(text: &mut Vec<u8>, method: Method)
    requires { 256 ≤ vec_len text.old }
    ensures sent { drop 256 text.new.items ≡ sent_body method (drop 256 text.old.items) }
    ensures len { 256 ≤ vec_len text.new }
    ensures capacity { vec_capacity text.old ≤ vec_capacity text.new }
{
    match method {
        Method::Head => text.truncate(HALF),
        Method::Get | Method::Post | Method::Other => {}
    }
}

impl ResponseBuffer {
    /// An empty one, with room for a short response. The only error is out of memory.
    pub(crate) fn new(alloc: Global) -> Result<ResponseBuffer, AllocError> {
        Ok(ResponseBuffer {
            head: Vec::with_capacity(alloc, HALF)?,
            text: vec![in alloc; 0; ROOM]?,
            start: 0,
        })
    }

    /// The text.
    pub(crate) fn as_slice(&self) -> &[u8]
        ensures { result.now ≡ self.now }
    {
        &self.text[self.start..]
    }

    /// Puts the whole text of a response to a request of a method in place of what was there. The only error is out of memory,
    /// which does not come where the response is short.
    fn try_put(
        &mut self,
        method: Method,
        response: &Response,
        closing: bool,
    ) -> Result<(), AllocError>
        ensures text { OnOk result (self.new ≡ text_of method response.now closing) }
        ensures room { OnErr result (IsShortResponse response.now → ⊥) }
    {
        self.text.truncate(HALF);
        self.start = 0;
        match response.push_body(&mut self.text) {
            Ok(()) => {
                put_head(&mut self.head, response, self.text.len() - HALF, closing);
                drop_unsent(&mut self.text, method);
                self.start = place_head(&mut self.text, self.head.as_slice());
                Ok(())
            }
            Err(fault) => Err(fault),
        }
    }

    /// Puts the text of a short response, for which there is room.
    pub(crate) fn put_short(&mut self, method: Method, response: &Response, closing: bool)
        requires { IsShortResponse response.now }
        ensures { self.new ≡ text_of method response.now closing }
    {
        let Ok(()) = self.try_put(method, response, closing) else {
            unreachable!()
        };
    }

    /// Puts the text of a response. Where there is no memory for it that of SERVFAIL is put, and the answer is false.
    pub(crate) fn put(&mut self, method: Method, response: &Response, closing: bool) -> bool
        ensures { IsPut method response.now closing result self.new }
    {
        match self.try_put(method, response, closing) {
            Ok(()) => true,
            Err(_) => {
                let servfail = Reply::Servfail(StepFault::BeforeCommit(TableFault::NoMemory));
                self.put_short(method, &Response::Replied(servfail), closing);
                false
            }
        }
    }
}

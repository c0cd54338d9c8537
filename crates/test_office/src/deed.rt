use anyhow::Result;
use std::alloc::Global;
use test_rows::Row;

/// What is done to a store: a verb, what stands after it, and the lines below.
#[derive(Drop)]
pub struct Deed {
    pub verb: String,
    pub text: Vec<u8>,
    pub body: Vec<u8>,
}

impl Deed {
    fn new(alloc: Global, verb: &str, text: &[u8], body: &[u8]) -> Result<Deed> {
        let verb = String::from_str(alloc, verb)?;
        let text = Vec::from_slice(alloc, text)?;
        let body = Vec::from_slice(alloc, body)?;
        Ok(Deed { verb, text, body })
    }

    /// What a row says.
    pub fn of(alloc: Global, row: &Row<'_>) -> Result<Deed> {
        Deed::new(alloc, row.verb, &row.text, &row.body)
    }

    /// What stands after the verb of a row.
    pub fn behind_verb(alloc: Global, row: &Row<'_>) -> Result<Deed> {
        let (verb, text) = row.split();
        Deed::new(alloc, str::from_utf8(verb)?, text, &row.body)
    }

    /// A verb with lines below.
    pub fn below(alloc: Global, verb: &str, lines: &[u8]) -> Result<Deed> {
        Deed::new(alloc, verb, &[], lines)
    }
}

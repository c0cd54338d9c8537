//! Names, read from columns in which one often repeats.

ghost use Rattle.std.specs.Prelude.{◌≡◌, Ok, IfOk, IfSome, string_bytes};
ghost use Rattle.dns_names.specs.Labels.{IsName};
ghost use Rattle.dns_names.specs.Spelling.{name_text};
ghost use Rattle.store_rows.specs.RowFaults.{Reads};
ghost use Rattle.store_rows.specs.RowReading.{name_from, name_in};

use crate::columns::{name_from, read_origin};
use crate::row_fault::RowFault;
use dns_names::Name;
use std::alloc::{AllocError, Global};

/// A name, with its canonical text.
#[derive(Drop)]
struct LastName {
    text: String,
    name: Name,
    ghost spelled: { string_bytes text ≡ name_text name },
}

impl LastName {
    /// Copies of a name and its text. The only error is out of memory.
    fn new(alloc: Global, text: &str, name: &Name) -> Result<LastName, AllocError>
        requires { text.now ≡ name_text name.now }
    {
        Ok(LastName {
            text: String::from_str(alloc, text)?,
            name: name.try_copy(alloc)?,
        })
    }

    /// The name, if this is its text.
    fn of_text(&self, text: &str) -> Option<&Name>
        ensures { IfSome result (λ name. IsName name.now × (name_in text.now ≡ Ok name.now)) }
    {
        if self.text.as_str() != text {
            return None;
        }
        // the proof needs that it is a name
        let _ = self.name.labels();
        Some(&self.name)
    }
}

/// Reads the canonical texts of names. It keeps the last one, so that a text that comes again is not read again.
#[derive(Drop)]
pub(crate) struct NameReader {
    last: Option<LastName>,
}

impl NameReader {
    /// A reader that has read nothing.
    pub(crate) const fn new() -> NameReader {
        NameReader { last: None }
    }

    /// The name of a text, if this is the text that was read last.
    pub(crate) fn known(&self, text: &str) -> Option<&Name>
        ensures { IfSome result (λ name. IsName name.now × (name_in text.now ≡ Ok name.now)) }
    {
        match &self.last {
            Some(last) => last.of_text(text),
            None => None,
        }
    }

    /// Reads the canonical text of a name. Any other text is `BadRow`.
    pub(crate) fn read(&mut self, alloc: Global, text: &str) -> Result<Name, RowFault>
        ensures name { IfOk result IsName }
        ensures exact { Reads (λ name. name) result (name_in text.now) }
    {
        if let Some(name) = self.known(text) {
            return Ok(name.try_copy(alloc)?);
        }
        let name = read_origin(alloc, text)?;
        self.last = Some(LastName::new(alloc, text, &name)?);
        Ok(name)
    }

    /// The name of a text that the store has, in whichever spelling.
    pub(crate) fn stored(&mut self, alloc: Global, text: &str) -> Result<Name, RowFault>
        ensures name { IfOk result IsName }
        ensures exact { Reads (λ name. name) result (name_from text.now) }
    {
        match self.read(alloc, text) {
            Ok(name) => Ok(name),
            Err(RowFault::BadRow) => name_from(alloc, text),
            Err(RowFault::NoMemory) => Err(RowFault::NoMemory),
        }
    }
}

use crate::octets::push_octets;
use std::alloc::{AllocError, Global};

/// The text before its first space, and what stands after it; all of it, and nothing, where there is no space.
pub fn word(text: &[u8]) -> (&[u8], &[u8]) {
    match text.iter().position(|octet| *octet == b' ') {
        Some(at) => (&text[..at], &text[at + 1..]),
        None => (text, &[]),
    }
}

/// The text of octets, or none where they are not UTF-8.
pub fn text_of(octets: &[u8]) -> &str {
    str::from_utf8(octets).unwrap_or("")
}

/// The number that a text writes in decimal digits, if it is one.
pub fn number(text: &[u8]) -> Option<usize> {
    text_of(text).parse().ok()
}

/// A row: what is asked, and of what.
#[derive(Drop)]
pub struct Row<'a> {
    /// The first word of the line.
    pub verb: &'a str,
    /// What stands after the first word and a space.
    pub text: Vec<u8>,
    /// The lines below.
    pub body: Vec<u8>,
}

impl<'a> Row<'a> {
    /// Reads the line of a row, whose body is empty.
    pub fn read(alloc: Global, line: &'a str) -> Result<Self, AllocError> {
        let (verb, rest) = line.split_once(' ').unwrap_or((line, ""));
        let mut text = Vec::new(alloc);
        push_octets(rest, &mut text)?;
        Ok(Row {
            verb,
            text,
            body: Vec::new(alloc),
        })
    }

    /// Appends a line, which begins with `|`, to the body.
    pub fn push_line(&mut self, line: &str) -> Result<(), AllocError> {
        match line.strip_prefix("|- ") {
            Some(text) => push_octets(text, &mut self.body),
            None => {
                push_octets(line.strip_prefix("| ").unwrap_or(""), &mut self.body)?;
                self.body.push(b'\n')?;
                Ok(())
            }
        }
    }

    /// The first word of the text, and what stands after it.
    pub fn split(&self) -> (&[u8], &[u8]) {
        word(&self.text)
    }

    /// The words of the text, with one space between two.
    pub fn words(&self, alloc: Global) -> Result<Vec<&[u8]>, AllocError> {
        self.text.split(|octet| *octet == b' ').collect(alloc)
    }
}

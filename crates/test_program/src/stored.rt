//! Answers to rows of files.

use crate::callers_office::listening;
use crate::client::{push_answered, sent};
use crate::program::{Told, push_run, told_by};
use crate::store_file::{execute, found, fresh_path, remove};
use anyhow::{Result, bail};
use std::alloc::{AllocError, Global};
use std::fs;
use test_rows::{Answers, Row, push_unanswered, text_of};

/// A store and a policy in files, and the machine that has them.
#[derive(Drop)]
pub struct Files<'a> {
    rt: &'a HostRuntime,
    /// The path of the store.
    store: String,
    /// The path of the policy.
    policy: String,
}

impl Answers for Files<'_> {
    fn answer(
        &mut self,
        alloc: Global,
        row: &Row<'_>,
        answer: &mut Vec<u8>,
    ) -> Result<(), AllocError> {
        let answered = self.answer_to(row, answer);
        push_unanswered(alloc, answered, answer)
    }
}

impl<'a> Files<'a> {
    /// No files, and no paths.
    pub fn new(rt: &'a HostRuntime) -> Files<'a> {
        Files {
            rt,
            store: String::new(rt.alloc()),
            policy: String::new(rt.alloc()),
        }
    }

    fn answer_to(&mut self, row: &Row<'_>, answer: &mut Vec<u8>) -> Result<()> {
        match row.verb {
            "files" => self.begin(&row.text),
            "remove" => self.end(),
            "store" => write(self.rt, self.store.as_str(), &row.body),
            "policy" => write(self.rt, self.policy.as_str(), &row.body),
            "comment" => self.write_comment(&row.text),
            "sql" => execute(self.rt, self.store.as_str(), &row.body),
            "run" => self.run(row, answer),
            "listed" => self.run_listed(row, answer),
            "request" => self.request(row, answer),
            _ => self.push_told(row, answer),
        }
    }

    /// Begins with files of a name, which are not there.
    fn begin(&mut self, name: &[u8]) -> Result<()> {
        self.store = fresh_path(self.rt, name, "store")?;
        self.policy = fresh_path(self.rt, name, "policy")?;
        Ok(())
    }

    /// Appends what the program does with the words of a row, which have bars between them. `STORE` and `POLICY` are the two paths.
    fn run<'x>(&'x self, row: &'x Row<'_>, answer: &mut Vec<u8>) -> Result<()> {
        let words = self.words(text_of(&row.text))?;
        Ok(push_run(self.rt, &words, &row.body, answer)?)
    }

    /// The same of an input whose lines are those of the body, each with the path of the policy after it.
    fn run_listed<'x>(&'x self, row: &'x Row<'_>, answer: &mut Vec<u8>) -> Result<()> {
        let words = self.words(text_of(&row.text))?;
        let mut input = Vec::new(self.rt.alloc());
        for line in text_of(&row.body).lines() {
            input.extend_from_slice(line.as_bytes())?;
            input.push(b' ')?;
            input.extend_from_slice(self.policy.as_bytes())?;
            input.push(b'\n')?;
        }
        Ok(push_run(self.rt, &words, &input, answer)?)
    }

    /// Appends what the program does with the words of a row while a client calls it with the body, without the port at which it listens,
    /// and what the client is answered.
    fn request<'x>(&'x self, row: &'x Row<'_>, answer: &mut Vec<u8>) -> Result<()> {
        let words = self.words(text_of(&row.text))?;
        let listener = listening(self.rt)?;
        let mut client = sent(self.rt, &listener, &row.body)?;
        let told = told_by(self.rt, Some(&listener), &words, &[]);
        answer.extend_from_slice(before_port(&told.output)?.as_bytes())?;
        answer.extend_from_slice(&told.trace)?;
        answer.push(b'\n')?;
        push_answered(&mut client, answer)
    }

    /// The words of a text, which have bars between them.
    fn words<'b>(&'b self, text: &'b str) -> Result<Vec<&'b str>> {
        let mut words = Vec::new(self.rt.alloc());
        for word in text.split('|') {
            words.push(self.word(word))?;
        }
        Ok(words)
    }

    /// What the program writes of words and an input to standard output.
    fn told_of(&self, words: &[&str], input: &[u8]) -> Vec<u8> {
        let Told { output, .. } = told_by(self.rt, None, words, input);
        output
    }

    fn word<'b>(&'b self, word: &'b str) -> &'b str {
        match word {
            "STORE" => self.store.as_str(),
            "POLICY" => self.policy.as_str(),
            word => word,
        }
    }

    /// Removes the files.
    fn end(&self) -> Result<()> {
        remove(self.rt, self.store.as_str())?;
        remove(self.rt, self.log()?.as_str())?;
        remove(self.rt, self.policy.as_str())
    }

    /// Writes a comment of so many octets to the file of the policy.
    fn write_comment(&self, octets: &[u8]) -> Result<()> {
        let octets = str::from_utf8(octets)?.parse::<usize>()?;
        let text = "#".repeat(self.rt.alloc(), octets)?;
        Ok(fs::write(self.rt, self.policy.as_str(), text.as_str())?)
    }

    fn push_told(&self, row: &Row<'_>, answer: &mut Vec<u8>) -> Result<()> {
        Ok(answer.extend_from_slice(&self.told(row)?)?)
    }

    /// What is told of a row that writes no file itself.
    fn told(&self, row: &Row<'_>) -> Result<Vec<u8>> {
        match row.verb {
            "look" => self.look(),
            "pages" => self.pages(),
            "frames" => self.frames(),
            "migrate" => Ok(self.told_of(&["migrate", "--store", self.store.as_str()], &[])),
            "serve" => Ok(self.served(text_of(&row.text))),
            "listens" => self.without_port(text_of(&row.text)),
            "taken" => self.at_taken(),
            _ => self.zone_told(row),
        }
    }

    /// What a command prints of a zone in the store.
    fn zone_told(&self, row: &Row<'_>) -> Result<Vec<u8>> {
        let (store, origin) = (self.store.as_str(), text_of(&row.text));
        let zone = ["--store", store, "--origin", origin];
        let [a, b, c, d] = zone;
        match row.verb {
            "import" => Ok(self.told_of(&["import", a, b, c, d], &row.body)),
            "replace" => Ok(self.told_of(&["import", "--replace", a, b, c, d], &row.body)),
            "export" => Ok(self.told_of(&["export", a, b, c, d], &[])),
            "relative" => Ok(self.told_of(&["export", "--relative", a, b, c, d], &[])),
            _ => bail!("no such verb"),
        }
    }

    /// Whether the store has a file.
    fn look(&self) -> Result<Vec<u8>> {
        spelled(self.rt.alloc(), found(self.rt, self.store.as_str())?)
    }

    /// The octets 16 and 17 of a database are the size of its pages.
    fn pages(&self) -> Result<Vec<u8>> {
        let octets = fs::read(self.rt, self.store.as_str())?;
        Ok(Vec::from_slice(self.rt.alloc(), octets.get(16..18).unwrap_or(&[]))?)
    }

    /// How many frames the log of the store has. It has a header of 32 octets, and each frame 24 octets before its page.
    fn frames(&self) -> Result<Vec<u8>> {
        let log = fs::read(self.rt, self.log()?.as_str())?;
        let frames = log.len().saturating_sub(32) / (24 + usize::from(self.page_size()?));
        let text = format!(in self.rt.alloc(); "{frames} frames")?;
        spelled(self.rt.alloc(), text.as_str())
    }

    /// The path of the log of the store.
    fn log(&self) -> Result<String> {
        Ok(format!(in self.rt.alloc(); "{}-wal", self.store.as_str())?)
    }

    /// The size of the store's pages, in octets.
    fn page_size(&self) -> Result<u16> {
        match self.pages()?.as_slice() {
            [high, low] => Ok(u16::from_be_bytes([*high, *low])),
            _ => bail!("no database"),
        }
    }

    /// What `serve` prints of a service for no connection.
    fn served(&self, listen: &str) -> Vec<u8> {
        let (store, policy) = (self.store.as_str(), self.policy.as_str());
        let words = [
            "serve",
            "--store",
            store,
            "--policy",
            policy,
            "--listen",
            listen,
            "--connections",
            "0",
        ];
        self.told_of(&words, &[])
    }

    /// What is told of a service before the port at which it listens.
    fn without_port(&self, listen: &str) -> Result<Vec<u8>> {
        spelled(self.rt.alloc(), before_port(&self.served(listen))?)
    }

    /// What is told of a service where another one listens.
    fn at_taken(&self) -> Result<Vec<u8>> {
        let other = listening(self.rt)?;
        let taken = format!(in self.rt.alloc(); "{}", other.local_addr()?)?;
        Ok(self.served(taken.as_str()))
    }
}

/// What is told before a port.
fn before_port(told: &[u8]) -> Result<&str> {
    let text = str::from_utf8(told)?;
    Ok(text.rsplit_once(':').unwrap_or((text, "")).0)
}

fn write(rt: &HostRuntime, path: &str, text: &[u8]) -> Result<()> {
    Ok(fs::write(rt, path, text)?)
}

fn spelled(alloc: Global, text: &str) -> Result<Vec<u8>> {
    Ok(Vec::from_slice(alloc, text.as_bytes())?)
}

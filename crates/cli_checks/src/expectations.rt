//! The expectations of a text.

ghost use Rattle.std.specs.Prelude.{◌≡◌, List};
ghost use Rattle.policy_tools.specs.declared.expectation_lines.ExpectationLine.{ExpectationLine as RowOf};
ghost use Rattle.cli_core.specs.LineFaults.{Gives};
ghost use Rattle.cli_checks.specs.Expect.{word_fault, of_expectations, expectations_read};

use cli_core::{LineFault, Refusal, WordFault};
use policy_tools::{ExpectationFault, ExpectationLine, ExpectationsFault, read_expectations};
use std::alloc::Global;
use std::marker::Model;

/// What is expected, line by line. A contract sees the list of it.
#[derive(Drop)]
pub(crate) struct Expectations {
    rows: Vec<ExpectationLine>,
}

impl Model for Expectations {
    ghost Value = { List RowOf };

    ghost view = { λ e. e.rows.items };
}

impl Expectations {
    /// The expectations, in order.
    pub(crate) fn rows(&self) -> &[ExpectationLine]
        ensures { result.now ≡ self.now }
    {
        &self.rows
    }
}

/// What is wrong with the words of a line; `None` where memory ran out.
fn word_fault(fault: ExpectationFault) -> Option<WordFault>
    ensures { result ≡ word_fault fault }
{
    match fault {
        ExpectationFault::Form => Some(WordFault::Expectation),
        ExpectationFault::NoCaller => Some(WordFault::Caller),
        ExpectationFault::Name(fault) => Some(WordFault::Name(fault)),
        ExpectationFault::TypeNotKept => Some(WordFault::Type),
        ExpectationFault::NoAction => Some(WordFault::Action),
        ExpectationFault::NoRule => Some(WordFault::Rule),
        ExpectationFault::NoMemory => None,
    }
}

/// The refusal of a text that has no expectations.
fn of_expectations(fault: ExpectationsFault) -> LineFault
    ensures { result ≡ of_expectations fault }
{
    let line = fault.line;
    match word_fault(fault.fault) {
        Some(fault) => LineFault::Refused(Refusal::Line { line, fault }),
        None => LineFault::NoMemory,
    }
}

/// The expectations of a text, whose octets are given back.
pub(crate) fn expectations_in(alloc: Global, text: Vec<u8>) -> Result<Expectations, LineFault>
    ensures { Gives (λ rows. rows) result (expectations_read text.items) }
{
    match read_expectations(alloc, &text) {
        Ok(rows) => Ok(Expectations { rows }),
        Err(fault) => Err(of_expectations(fault)),
    }
}

//! What a server answers from a zone.

ghost use Rattle.std.specs.Prelude.{◌≡◌, ◌++◌, IfOk, OnOk, map, option_map};
ghost use Rattle.std.specs.List.{flat_map};
ghost use Rattle.zone_answers.specs.Views.{answer_of};
ghost use Rattle.dns_data.specs.Text.{record_line};
ghost use Rattle.cli_core.specs.LineFaults.{Gives, GivesOf};
ghost use Rattle.cli_text.specs.QuestionViews.{question_view, inquiry_view};
ghost use Rattle.cli_text.specs.Questions.{inquiry_of};
ghost use Rattle.cli_text.specs.Answer.{question_line, answer_lines, answer_in_form, question_text, answers_text, answers_behind, answers_of, answer_text, inquiry_read, IsInquiryRead, IsInquired};

use crate::answer_fault::AnswerFault;
use crate::answer_object::push_object;
use crate::canon::{read_name, zone_of_file};
use crate::questions::{Inquiry, Question, inquiry_in, inquiry_of};
use crate::record_lines::push_records;
use crate::task::Task;
use cli_core::{
    Answer, Input, JobFault, LineFault, TextForm, read_input, write_refusal, write_text,
};
use dns_data::Record;
use dns_master::Sink;
use std::alloc::{AllocError, Global};
use zone_answers::ZoneIndex;

/// Appends the line of a question and of the code of its answer, a comment. The only error is out of memory.
fn push_question(
    alloc: Global,
    text: &mut Vec<u8>,
    question: &Question,
    answer: &zone_answers::Answer,
) -> Result<(), AllocError>
    ensures { OnOk result (text.new.items ≡ text.old.items ++ question_line (question_view question.now) (answer_of answer.now)) }
{
    let head = format!(in alloc; "; {} ", question.name)?;
    text.extend_from_slice(head.as_bytes())?;
    text.extend_from_slice(&question.word)?;
    text.push(b' ')?;
    text.extend_from_slice(answer.code.text().as_bytes())?;
    let end = if answer.authoritative { " aa\n" } else { "\n" };
    text.extend_from_slice(end.as_bytes())
}

/// Appends what is printed of an answer. The only error is out of memory.
fn push_answer(
    alloc: Global,
    text: &mut Vec<u8>,
    question: &Question,
    answer: &zone_answers::Answer,
) -> Result<(), AllocError>
    ensures { OnOk result (text.new.items ≡ text.old.items ++ answer_lines (question_view question.now) (answer_of answer.now)) }
{
    push_question(alloc, text, question, answer)?;
    push_records(alloc, text, &answer.answer)?;
    push_records(alloc, text, &answer.authority)?;
    push_records(alloc, text, &answer.additional)
}

/// Appends what is printed of an answer, as lines or as JSON. The only error is out of memory.
fn push_in_form(
    alloc: Global,
    text: &mut Vec<u8>,
    form: TextForm,
    question: &Question,
    answer: &zone_answers::Answer,
) -> Result<(), AllocError>
    ensures { OnOk result (text.new.items ≡ text.old.items ++ answer_in_form form (question_view question.now) (answer_of answer.now)) }
{
    match form {
        TextForm::Plain => push_answer(alloc, text, question, answer),
        TextForm::Json => push_object(alloc, text, question, answer),
    }
}

/// Appends what is printed of a question. The only error is out of memory.
fn push_answered(
    alloc: Global,
    text: &mut Vec<u8>,
    form: TextForm,
    index: &ZoneIndex,
    question: &Question,
) -> Result<(), AllocError>
    ensures { OnOk result (text.new.items ≡ text.old.items ++ question_text form index.now (question_view question.now)) }
{
    let answer = index.answer(alloc, &question.name, question.asked)?;
    push_in_form(alloc, text, form, question, &answer)
}

/// What is printed of questions. The only error is out of memory.
fn answers_text(
    alloc: Global,
    form: TextForm,
    index: &ZoneIndex,
    questions: &[Question],
) -> Result<Vec<u8>, AllocError>
    ensures { IfOk result (λ text. text.items ≡ answers_text form index.now (map question_view questions.now)) }
{
    let mut text = Vec::new(alloc);
    for question in questions {
        push_answered(alloc, &mut text, form, index, question)?;
    }
    Ok(text)
}

/// What is printed of an inquiry about the zone of a master file, whose octets are given back.
fn answers_behind(alloc: Global, inquiry: Inquiry, text: Vec<u8>) -> Result<Vec<u8>, LineFault>
    ensures { Gives (λ text. text.items) result (answers_behind (inquiry_view inquiry) text.items) }
{
    let Inquiry {
        origin,
        form,
        questions,
    } = inquiry;
    let zone = zone_of_file(alloc, origin, text)?;
    let index = ZoneIndex::new(alloc, zone)?;
    Ok(answers_text(alloc, form, &index, &questions)?)
}

/// What is printed of an inquiry about the zone that a reader gives.
fn answered<R: Input>(alloc: Global, inquiry: Inquiry, reader: &mut R) -> Result<Vec<u8>, LineFault>
    ensures { GivesOf (λ text. text.items) (R.left reader.old) (answers_of (inquiry_view inquiry)) result (R.fine reader.old reader.new)
        (R.failed reader.old reader.new) }
{
    let text = read_input(alloc, reader)?;
    answers_behind(alloc, inquiry, text)
}

/// The task `answer`, once the questions were read: to read a master file, and to write what a server answers from its zone.
impl Task for Inquiry {
    ghost answer = { λ i. answers_of (inquiry_view i) };

    fn run<R: Input, W: Sink>(
        self,
        alloc: Global,
        reader: &mut R,
        writer: &mut W,
    ) -> Result<(), JobFault> {
        match answered(alloc, self, reader) {
            Ok(text) => {
                write_text(writer, &text)?;
                Ok(())
            }
            Err(fault) => Err(write_refusal(alloc, writer, fault)),
        }
    }
}

/// What is printed of the question of words about the zone that a reader gives.
fn answer<R: Input>(alloc: Global, words: Answer<'_>, reader: &mut R) -> Result<Vec<u8>, LineFault>
    ensures { GivesOf (λ text. text.items) (R.left reader.old) (answer_text words.entry.form words.entry.origin.now words.entry.name.now (option_map (λ t. t.now) words.entry.asked)) result
        (R.fine reader.old reader.new) (R.failed reader.old reader.new) }
{
    let inquiry = inquiry_of(alloc, words)?;
    let text = read_input(alloc, reader)?;
    answers_behind(alloc, inquiry, text)
}

/// The task `answer` of one question: to read a master file, and to write what a server answers from its zone (RFC 1034 section 4.3.2):
/// a comment with the question, the code, and `aa` where the server has authority; and the records of the answer, authority and
/// additional sections; or all of it as an object of JSON. Otherwise one line tells the refusal that comes first: of the origin, of the name, of the type, that the input is
/// too large, of the master file, of its records as a zone.
impl Task for Answer<'_> {
    ghost answer = { λ w. answer_text w.form w.origin.now w.name.now (option_map (λ t. t.now) w.asked) };

    fn run<R: Input, W: Sink>(
        self,
        alloc: Global,
        reader: &mut R,
        writer: &mut W,
    ) -> Result<(), JobFault> {
        match answer(alloc, self, reader) {
            Ok(text) => {
                write_text(writer, &text)?;
                Ok(())
            }
            Err(fault) => Err(write_refusal(alloc, writer, fault)),
        }
    }
}

/// The questions that a reader gives, about the zone of a word that is its origin.
fn read_inquiry<R: Input>(
    alloc: Global,
    what: (&str, TextForm),
    reader: &mut R,
) -> Result<Inquiry, LineFault>
    ensures { GivesOf inquiry_view (R.left reader.old) (inquiry_read what.entry.1 what.entry.0.now) result (R.fine reader.old reader.new) (R.failed reader.old reader.new) }
{
    let (origin, form) = what;
    let origin = read_name(alloc, origin)?;
    let text = read_input(alloc, reader)?;
    inquiry_in(alloc, origin, form, &text)
}

/// The questions that a reader gives. On a failure, a line tells why.
fn first_inquiry<R: Input, W: Sink>(
    alloc: Global,
    what: (&str, TextForm),
    reader: &mut R,
    writer: &mut W,
) -> Result<Inquiry, JobFault>
    ensures { IsInquiryRead what.entry.1 what.entry.0.now (R.left reader.old) (W.contents writer.old) (W.contents writer.new) result (R.fine reader.old reader.new)
        (R.failed reader.old reader.new) (W.failures writer.old) (W.failures writer.new) }
{
    match read_inquiry(alloc, what, reader) {
        Ok(inquiry) => Ok(inquiry),
        Err(fault) => Err(write_refusal(alloc, writer, fault)),
    }
}

/// Writes what a server answers to questions about the zone of an origin, as the task `answer` does to one, in a form. One input has the questions, one in each
/// entry of a master file: a name, and a type or none; another has the zone. Otherwise one line tells the refusal that comes first: of the
/// origin, that the questions are too large, of the first line that is no question; and of the zone, which is read after them.
pub fn do_answers<R: Input, N: Input, W: Sink>(
    alloc: Global,
    what: (&str, TextForm),
    questions: &mut R,
    zone: &mut N,
    writer: &mut W,
) -> Result<(), AnswerFault>
    ensures { IsInquired what.entry.1 what.entry.0.now
        (record { left = R.left questions.old; fine = R.fine questions.old questions.new; failed = R.failed questions.old questions.new })
        (record { left = N.left zone.old; fine = N.fine zone.old zone.new; failed = N.failed zone.old zone.new })
        (W.contents writer.old) (W.contents writer.new) result (W.failures writer.old) (W.failures writer.new) }
{
    let inquiry = match first_inquiry(alloc, what, questions, writer) {
        Ok(inquiry) => inquiry,
        Err(fault) => return Err(AnswerFault::Questions(fault)),
    };
    match inquiry.run(alloc, zone, writer) {
        Ok(()) => Ok(()),
        Err(fault) => Err(AnswerFault::Zone(fault)),
    }
}

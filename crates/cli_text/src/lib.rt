//! The commands on one zone or one policy, `canon`, `apply`, `answer`, `split`, `rights` and `explain`: each writes its answer to an input, or one
//! line that says why it has no answer. And what other commands read and print as these do.
#![tactic(auto)]

mod answer;
mod answer_fault;
mod answer_object;
mod apply;
mod canon;
mod changed_answers;
mod explain;
mod laws;
mod line_objects;
mod parting;
mod parts;
mod query_type;
mod questions;
mod record_lines;
mod rights;
mod rights_object;
mod task;

pub use answer::do_answers;
pub use answer_fault::AnswerFault;
pub use answer_object::{push_owner, push_section, push_string};
pub use apply::{Apply, InputRead, read_parts, read_records, zone_of_records};
pub use canon::{print_zone_in, read_name, read_zone, zone_of_file};
pub use changed_answers::{answer_lines, push_questions};
pub use laws::{text_is_divided, zones_are_read_again};
pub use line_objects::{LineKind, in_form, objects_array};
pub use questions::name_on;
pub use record_lines::{line_of, push_records};
pub use rights::{caller_if, decision_text, read_caller};
pub use task::Task;

//! What an authoritative server answers from a zone (RFC 1034 section 4.3.2), with wildcards (RFC 4592), negative answers (RFC
//! 2308) and codes after aliases (RFC 6604). DNSSEC is left out. An index is built once of a zone, and answers questions.
#![tactic(auto)]

mod answer;
mod changes;
mod cut_names;
mod enclosers;
mod finding;
mod known_names;
mod laws;
mod places;
mod query_type;
mod referrals;
mod rows;
mod sameness;
mod unchanged;
mod zone_index;

pub use answer::Answer;
pub use changes::{ChangedAnswers, QuestionGroup, changed_answers};
pub use laws::{
    answers_are_of_zones, cuts_refer, missing_names_are_nowhere,
    names_of_groups_are_answered_alike, questions_have_one_answer,
};
pub use query_type::QueryType;
pub use zone_index::ZoneIndex;

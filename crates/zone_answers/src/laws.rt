//! Laws of the definition. The functions do nothing: their contracts are the laws.

ghost use Rattle.zone_answers.specs.AnswerLaws.{QuestionsHaveOneAnswer, AnswersAreOfZones, CutsRefer, MissingNamesAreNowhere};
ghost use Rattle.zone_answers.specs.AnswerChanges.{NamesOfGroupsAreAnsweredAlike};

/// Each question about a zone has one answer, and no other.
pub fn questions_have_one_answer()
    ensures { QuestionsHaveOneAnswer }
{}

/// No answer has a record that the zone has not, but for the owner of one that a wildcard answers with, and the TTL of the SOA of a
/// negative answer.
pub fn answers_are_of_zones()
    ensures { AnswersAreOfZones }
{}

/// At or below a cut there are only referrals, to the outermost cut, but for the DS of a cut (RFC 1034 section 4.2.1).
pub fn cuts_refer()
    ensures { CutsRefer }
{}

/// NXDOMAIN, without an alias before, is the answer exactly where neither the name nor anything below it exists, nor a wildcard that
/// applies, and no cut is at or above it (RFC 8020 section 2, RFC 4592 section 2.2).
pub fn missing_names_are_nowhere()
    ensures { MissingNamesAreNowhere }
{}

/// The names below one that a group has are answered alike, each by its own name.
pub fn names_of_groups_are_answered_alike()
    ensures { NamesOfGroupsAreAnsweredAlike }
{}

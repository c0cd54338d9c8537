//! What the table of refusals promises.

ghost use Rattle.refusals.specs.Laws.{RowsAreOfTheirNumber, NumbersAreApart, TextsArePlain};

/// The rows of a refusal's number are those of its parts.
pub fn rows_are_of_their_number()
    ensures { RowsAreOfTheirNumber }
{}

/// Each number, and each code, has one row.
pub fn numbers_are_apart()
    ensures { NumbersAreApart }
{}

/// No text of the table that is printed as JSON needs an escape.
pub fn texts_are_plain()
    ensures { TextsArePlain }
{}

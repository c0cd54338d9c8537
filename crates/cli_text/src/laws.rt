//! What the definitions promise.

ghost use Rattle.std.specs.Prelude.{◌≡◌, ◌↔◌, List, ℕ, Some};
ghost use Rattle.cli_text.specs.Canon.{ZonesAreReadAgain};
ghost use Rattle.cli_text.specs.Parts.{Parts, IsDivided, divided};

/// A text is parted at its first line that is a divider, and at no other place.
pub fn text_is_divided()
    ensures { (text : List ℕ) (parts : Parts) → (divided text ≡ Some parts) ↔ IsDivided text parts }
{}

/// A zone whose records are exported and printed in either form, and whose text is read and built again, is that zone, if its text
/// is not too long for a master file.
pub fn zones_are_read_again()
    ensures { ZonesAreReadAgain }
{}

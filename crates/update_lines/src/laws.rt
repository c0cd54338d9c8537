//! What the definitions promise.

ghost use Rattle.std.specs.Prelude.{◌≡◌, Ok};
ghost use Rattle.zone_core.specs.Updates.{UpdateOf, IsUpdate};
ghost use Rattle.update_lines.specs.ItemLines.{IsUpdateText};
ghost use Rattle.update_lines.specs.Reading.{items_of};
ghost use Rattle.update_lines.specs.Texts.{update_text};

/// The text of an update has its items, and is read as that update.
pub fn items_are_read()
    ensures { (update : UpdateOf) → IsUpdate update → IsUpdateText (update_text update) update × (items_of (update_text update) ≡ Ok update) }
{}

//! What the definitions promise.

ghost use Rattle.std.specs.Prelude.{◌≡◌, ◌≤◌, List, ℕ, Option, length, map, []};
ghost use Rattle.std.specs.List.{AllByRecursion};
ghost use Rattle.dns_names.specs.Labels.{IsName};
ghost use Rattle.dns_data.specs.declared.record.Record.{Record};
ghost use Rattle.dns_data.specs.Rdata.{IsRecord};
ghost use Rattle.dns_master.specs.Pieces.{Piece, lexed};
ghost use Rattle.dns_master.specs.Grammar.{ArePieces};
ghost use Rattle.dns_master.specs.Entries.{from};
ghost use Rattle.dns_master.specs.Depth.{split_behind};
ghost use Rattle.dns_master.specs.declared.statement.Statement.{Statement};
ghost use Rattle.dns_master.specs.InForce.{InForce, AreInForce};
ghost use Rattle.dns_master.specs.FileGrammar.{IsFile};
ghost use Rattle.dns_master.specs.ZoneText.{zone_text, relative_zone_text};

/// A text has at most one list of pieces.
pub fn pieces_are_one_list()
    ensures { (ps qs : List Piece) (a b : Option ℕ) (text : List ℕ) → ArePieces ps a text → ArePieces qs b text → (ps ≡ qs) × (a ≡ b) }
{}

/// The pieces that are read of a text are its pieces.
pub fn pieces_are_read()
    ensures { (text : List ℕ) → ArePieces (map (λ p. p.piece) (lexed text).pieces) (lexed text).open_quote text }
{}

/// The depth at which the pieces are split is the number of parentheses that open before, less those that close.
pub fn depths_are_counted()
    ensures { (text : List ℕ) → from 0 0 text ≡ split_behind (lexed text).open_quote [] (lexed text).pieces 0 }
{}

/// For all statements of entries there is an account of what is in force before each.
pub fn defaults_are_there()
    ensures { (statements : List Statement) (origin : List (List ℕ)) → (before : ℕ → InForce) × AreInForce statements origin before }
{}

/// There is one such account, up to the last entry.
pub fn defaults_are_one()
    ensures { (statements : List Statement) (origin : List (List ℕ)) (first second : ℕ → InForce) → AreInForce statements origin first → AreInForce statements origin second → (k : ℕ) → k ≤ length statements → first k ≡ second k }
{}

/// The text of a zone that is printed has the records of the zone, in their order, whichever origin is handed in.
pub fn printed_is_read()
    ensures { (handed origin : List (List ℕ)) (records : List Record) → IsName origin → AllByRecursion IsRecord records → IsFile (zone_text origin records) handed records }
{}

/// The text of a zone that is printed relative to its origin has the records of the zone too, in their order, whichever origin is
/// handed in.
pub fn relative_is_read()
    ensures { (handed origin : List (List ℕ)) (records : List Record) → IsName origin → AllByRecursion IsRecord records → IsFile (relative_zone_text origin records) handed records }
{}

//! What the definitions of parts promise.

ghost use Rattle.std.specs.Prelude.{◌≡◌, ◌<◌, ◌≤◌, List, ℕ, Bool, Option, Some, Ok, length};
ghost use Rattle.std.specs.List.{AllByRecursion, count_by};
ghost use Rattle.dns_names.specs.Labels.{IsName};
ghost use Rattle.dns_data.specs.Items.{ItemText};
ghost use Rattle.dns_data.specs.Rdata.{IsRecord};
ghost use Rattle.dns_master.specs.InForce.{or_else};
ghost use Rattle.dns_master.specs.OtherGrammar.{StatesOther};
ghost use Rattle.dns_master.specs.declared.parting.FilePart.{FilePart};
ghost use Rattle.dns_master.specs.declared.parting.FilePart.TheVariants.{Kept};
ghost use Rattle.dns_master.specs.Files.{file_of};
ghost use Rattle.dns_master.specs.AnyRecords.{AnyRecord, StatedOther, other_of, any_file};
ghost use Rattle.dns_master.specs.Parting.{IsKept, is_in, records_in, kept_of, all_parts, part_text};

/// What an entry is read as where its type is not kept, its items state.
pub fn others_are_stated()
    ensures { (origin : List (List ℕ)) (owner : Option (List (List ℕ))) (white : Bool) (items : List ItemText) (o : StatedOther) → IsName origin
        → AllByRecursion (λ item. AllByRecursion (λ c. c < 256) item.raw) items → other_of origin owner white items ≡ Ok o → StatesOther origin white items o }
{}

/// And what its items state so, with an owner or after one, it is read as.
pub fn stated_others_are_read()
    ensures { (origin : List (List ℕ)) (owner : Option (List (List ℕ))) (white : Bool) (items : List ItemText) (o : StatedOther) (name : List (List ℕ)) → IsName origin
        → or_else o.owner owner ≡ Some name → StatesOther origin white items o → other_of origin owner white items ≡ Ok o }
{}

/// Each record is of exactly one part.
pub fn parts_are_apart()
    ensures { (r : AnyRecord) → count_by (λ p. is_in p r) all_parts ≡ 1 }
{}

/// The text of the part that is kept has its records for the reader of files too, in their order, whichever origin is handed in.
pub fn kept_part_is_read()
    ensures { (handed origin : List (List ℕ)) (rs : List AnyRecord) → IsName handed → IsName origin → AllByRecursion IsRecord (kept_of rs)
        → length (part_text Kept origin rs) ≤ 4194304 → file_of (part_text Kept origin rs) handed ≡ Ok (kept_of rs) }
{}

/// The text of a part of a text has the records of the part, in their order, whichever origin is handed in.
pub fn parts_are_read()
    ensures { (p : FilePart) (text : List ℕ) (handed origin : List (List ℕ)) (rs : List AnyRecord) → IsName handed → IsName origin → AllByRecursion (λ o. o < 256) text
        → any_file text origin ≡ Ok rs → AllByRecursion IsKept (records_in p rs) → length (part_text p origin rs) ≤ 4194304 → any_file (part_text p origin rs) handed ≡ Ok (records_in p rs) }
{}

//! The values of a file of groups.

ghost use Rattle.std.specs.Prelude.{◌≡◌, ◌==◌, Result, List, ℕ, option_map, position, codes};
ghost use Rattle.std.specs.List.{list_any};
ghost use Rattle.toml.specs.Data.{Data};
ghost use Rattle.toml.specs.View.{view};
ghost use Rattle.policy_build.specs.declared.build_fault.BuildFault.{BuildFault as FaultOf};
ghost use Rattle.policy_build.specs.declared.place.Place.{Place as PlaceOf};
ghost use Rattle.policy_build.specs.Faults.{Reads};
ghost use Rattle.policy_build.specs.Reading.{word_of, identifier_in, name_in, cut, names_in, list_unless};

use crate::build_fault::BuildFault;
use crate::from_toml::{FromToml, list, text_at};
use crate::list_or_parameter::ListOrParameter;
use crate::member::Member;
use crate::names::Names;
use crate::place::Place;
use crate::selection::Selection;
use dns_data::RecordType;
use dns_names::Name;
use grant_policy::{Action, Callers, Effect, Identifier, IdentifierFault, Scope};
use std::alloc::Global;
use toml::Value;

/// What a text may stand for.
pub(crate) trait FromText: Drop {
    ghost text_of: { PlaceOf → List ℕ → Result Self FaultOf };

    /// What the text at a place stands for, or the refusal that comes first.
    fn of_text(alloc: Global, place: Place, text: &str) -> Result<Self, BuildFault>
        ensures { Reads (λ x. x) result (text_of place text.now) };
}

/// What the text of a value stands for.
fn word<T: FromText>(alloc: Global, place: Place, value: &Value) -> Result<T, BuildFault>
    ensures { Reads (λ x. x) result (word_of T.text_of place (view value.now)) }
{
    T::of_text(alloc, place, text_at(place, value)?)
}

/// The identifier of a text.
fn identifier(alloc: Global, place: Place, text: &[u8]) -> Result<Identifier, BuildFault>
    ensures { Reads (λ identifier. identifier) result (identifier_in place text.now) }
{
    match Identifier::read(alloc, text) {
        Ok(identifier) => Ok(identifier),
        Err(IdentifierFault::Malformed) => Err(BuildFault::BadValue(place)),
        Err(IdentifierFault::NoMemory) => Err(BuildFault::NoMemory),
    }
}

impl FromText for Identifier {
    ghost use Rattle.policy_build.specs.Reading.{identifier_in};

    ghost text_of = { identifier_in };

    fn of_text(alloc: Global, place: Place, text: &str) -> Result<Identifier, BuildFault> {
        identifier(alloc, place, text.as_bytes())
    }
}

impl FromText for Effect {
    ghost use Rattle.policy_build.specs.Reading.{effect_in};

    ghost text_of = { effect_in };

    fn of_text(_alloc: Global, place: Place, text: &str) -> Result<Effect, BuildFault> {
        Effect::read(text.as_bytes()).ok_or(BuildFault::BadValue(place))
    }
}

impl FromText for RecordType {
    ghost use Rattle.policy_build.specs.Reading.{type_in};

    ghost text_of = { type_in };

    fn of_text(_alloc: Global, place: Place, text: &str) -> Result<RecordType, BuildFault> {
        RecordType::read(text.as_bytes())
            .ok()
            .ok_or(BuildFault::BadValue(place))
    }
}

impl FromText for Action {
    ghost use Rattle.policy_build.specs.Reading.{action_in};

    ghost text_of = { action_in };

    fn of_text(_alloc: Global, place: Place, text: &str) -> Result<Action, BuildFault> {
        Action::read(text.as_bytes()).ok_or(BuildFault::BadValue(place))
    }
}

impl FromText for Callers {
    ghost use Rattle.policy_build.specs.Reading.{callers_in};

    ghost text_of = { callers_in };

    fn of_text(alloc: Global, place: Place, text: &str) -> Result<Callers, BuildFault> {
        if text == "*" {
            return Ok(Callers::Every);
        }
        Ok(Callers::One(identifier(alloc, place, text.as_bytes())?))
    }
}

/// The absolute name of a text.
fn name(alloc: Global, place: Place, text: &[u8]) -> Result<Name, BuildFault>
    ensures { Reads (λ name. name) result (name_in place text.now) }
{
    match Name::read_absolute(alloc, text) {
        Ok(name) => Ok(name),
        Err(fault) => Err(BuildFault::of_name(place, fault)),
    }
}

/// Where the first space of a text is.
fn space_in(text: &[u8]) -> Option<usize>
    ensures { result ≡ position (λ octet. octet == 32) text.now }
{
    text.iter().position(|octet| *octet == b' ')
}

/// Whether a text has a space.
fn has_space(text: &[u8]) -> bool
    ensures { result ≡ list_any (λ octet. octet == 32) text.now }
{
    text.iter().any(|octet| *octet == b' ')
}

/// What is before and after the only space of a text.
fn cut_at_space(text: &[u8]) -> Option<(&[u8], &[u8])>
    ensures { option_map (λ parts. (parts.0.now, parts.1.now)) result ≡ cut text.now }
{
    match space_in(text) {
        Some(space) if !has_space(&text[space + 1..]) => Some((&text[..space], &text[space + 1..])),
        _ => None,
    }
}

impl FromText for Names {
    ghost use Rattle.policy_build.specs.Reading.{names_in};

    ghost text_of = { names_in };

    fn of_text(alloc: Global, place: Place, text: &str) -> Result<Names, BuildFault> {
        let Some((word, rest)) = cut_at_space(text.as_bytes()) else {
            return Err(BuildFault::BadValue(place));
        };
        let Some(scope) = Scope::read(word) else {
            return Err(BuildFault::BadValue(place));
        };
        Ok(Names {
            scope,
            at: name(alloc, place, rest)?,
        })
    }
}

impl<T: FromText> FromText for Member<T> {
    ghost use Rattle.policy_build.specs.Reading.{member_in};

    ghost text_of = { member_in T.text_of };

    fn of_text(alloc: Global, place: Place, text: &str) -> Result<Member<T>, BuildFault> {
        match text.as_bytes() {
            [first, rest @ ..] if *first == b'@' => {
                Ok(Member::Group(identifier(alloc, place, rest)?))
            }
            _ => Ok(Member::One(T::of_text(alloc, place, text)?)),
        }
    }
}

impl FromToml for Identifier {
    ghost use Rattle.policy_build.specs.Reading.{identifier_in, word_of};

    ghost read_of = { word_of identifier_in };

    fn read(alloc: Global, place: Place, value: &Value) -> Result<Identifier, BuildFault> {
        word(alloc, place, value)
    }
}

impl FromToml for Effect {
    ghost use Rattle.policy_build.specs.Reading.{effect_in, word_of};

    ghost read_of = { word_of effect_in };

    fn read(alloc: Global, place: Place, value: &Value) -> Result<Effect, BuildFault> {
        word(alloc, place, value)
    }
}

impl FromToml for RecordType {
    ghost use Rattle.policy_build.specs.Reading.{type_in, word_of};

    ghost read_of = { word_of type_in };

    fn read(alloc: Global, place: Place, value: &Value) -> Result<RecordType, BuildFault> {
        word(alloc, place, value)
    }
}

impl FromToml for Action {
    ghost use Rattle.policy_build.specs.Reading.{action_in, word_of};

    ghost read_of = { word_of action_in };

    fn read(alloc: Global, place: Place, value: &Value) -> Result<Action, BuildFault> {
        word(alloc, place, value)
    }
}

impl<T: FromText> FromToml for Member<T> {
    ghost use Rattle.policy_build.specs.Reading.{member_in, word_of};

    ghost read_of = { word_of (member_in T.text_of) };

    fn read(alloc: Global, place: Place, value: &Value) -> Result<Member<T>, BuildFault> {
        word(alloc, place, value)
    }
}

/// The items of a list, or `None` where the value is one word.
fn list_unless<T: FromToml>(
    alloc: Global,
    place: Place,
    value: &Value,
    word: &str,
) -> Result<Option<Vec<T>>, BuildFault>
    ensures { Reads (λ items. option_map (λ v. v.items) items) result (list_unless word.now T.read_of place (view value.now)) }
{
    match value.as_str() {
        Some(text) if text == word => Ok(None),
        _ => Ok(Some(list(alloc, place, value)?)),
    }
}

/// What a list of a template's rule may be in place of members.
pub(crate) trait Parameter: FromText {
    ghost parameter: { List ℕ };

    /// How the parameter is written.
    fn parameter() -> &'static str
        ensures { result.now ≡ parameter };
}

impl Parameter for Callers {
    ghost parameter = { codes "$callers" };

    fn parameter() -> &'static str {
        "$callers"
    }
}

impl Parameter for Names {
    ghost parameter = { codes "$names" };

    fn parameter() -> &'static str {
        "$names"
    }
}

impl<T: Parameter> FromToml for ListOrParameter<T> {
    ghost use Rattle.policy_build.specs.Reading.{member_in, word_of, list_unless};

    ghost read_of = { list_unless T.parameter (word_of (member_in T.text_of)) };

    fn read(alloc: Global, place: Place, value: &Value) -> Result<ListOrParameter<T>, BuildFault> {
        match list_unless(alloc, place, value, T::parameter())? {
            Some(members) => Ok(ListOrParameter::of(members)),
            None => Ok(ListOrParameter::parameter()),
        }
    }
}

impl<T: FromToml> FromToml for Selection<T> {
    ghost use Rattle.policy_build.specs.Reading.{list_unless};

    ghost read_of = { list_unless (codes "*") T.read_of };

    fn read(alloc: Global, place: Place, value: &Value) -> Result<Selection<T>, BuildFault> {
        match list_unless(alloc, place, value, "*")? {
            Some(items) => Ok(Selection::of(items)),
            None => Ok(Selection::every()),
        }
    }
}

//! The choice that bytes follow, and the choice that JSON names.

ghost use Rattle.serde_json.specs.View.{view};
ghost use Rattle.std.specs.Prelude.{OnOk, bytes_eq, codes, drop, length, option_map, take, ◌≡◌};
ghost use Rattle.forms_values.specs.Choices.{chosen, follows, is_choice, is_named};
ghost use Rattle.forms_values.specs.Raw.{hex, one};
ghost use Rattle.forms_values.specs.Search.{first, held};
ghost use Rattle.forms_values.specs.Sent.{Sent, events};
ghost use Rattle.forms_values.specs.Tables.{choice_view, choices_view};

use crate::events::{Aside, Stopped, begin_map, end_map, key};
use crate::form::Choice;
use crate::names::{is_reserved, is_same};
use crate::values_shown::send_hex;
use serde::Serializer;
use serde_json::Value;

/// True unless the choice has a reserved name.
pub(crate) fn is_choice(choice: &Choice<'_>) -> bool
    ensures { result ≡ is_choice (choice_view choice.now) }
{
    !is_reserved(choice.name)
}

// True if bytes have the length and the prefix of a choice.
fn follows(bytes: &[u8], choice: &Choice<'_>) -> bool
    ensures { result ≡ follows bytes.now (choice_view choice.now) }
{
    is_choice(choice)
        && choice.len.unwrap_or(bytes.len()) == bytes.len()
        && begins(bytes, choice.prefix)
}

fn begins(bytes: &[u8], prefix: &[u8]) -> bool
    ensures { result ≡ bytes_eq (take (length prefix.now) bytes.now) prefix.now }
{
    if prefix.len() > bytes.len() {
        return false;
    }
    let (front, _) = bytes.split_at(prefix.len());
    front == prefix
}

// The first choice that bytes follow.
fn choice_of<'a>(choices: &[Choice<'a>], bytes: &[u8]) -> Option<Choice<'a>>
    ensures { option_map choice_view result ≡ first (follows bytes.now) (choices_view choices.now) }
{
    match choices.split_first() {
        Some((first, _)) if follows(bytes, first) => Some(*first),
        Some((_, others)) => choice_of(others, bytes),
        None => None,
    }
}

// The first choice of a name.
fn choice_named<'a>(choices: &[Choice<'a>], name: &str) -> Option<Choice<'a>>
    ensures { option_map choice_view result ≡ first (is_named name.now) (choices_view choices.now) }
{
    match choices.split_first() {
        Some((first, _)) if is_choice(first) && is_same(first.name, name) => Some(*first),
        Some((_, others)) => choice_named(others, name),
        None => None,
    }
}

/// The first choice that bytes follow, if no earlier one has its name.
pub fn chosen<'a>(choices: &[Choice<'a>], bytes: &[u8]) -> Option<Choice<'a>>
    ensures { option_map choice_view result ≡ chosen (choices_view choices.now) bytes.now }
{
    let choice = match choice_of(choices, bytes) {
        Some(choice) => choice,
        None => return None,
    };
    let named = match choice_named(choices, choice.name) {
        Some(named) => named,
        None => return None,
    };
    if !follows(bytes, &named) {
        return None;
    }
    Some(named)
}

pub fn bytes_from(bytes: &[u8], place: usize) -> &[u8]
    ensures { result.now ≡ drop place bytes.now }
{
    if place > bytes.len() {
        return &[];
    }
    let (_, after) = bytes.split_at(place);
    after
}

/// Sends bytes that follow no choice, as `{"Other":"dead"}`.
#[inline(never)]
pub fn send_unknown<S: Serializer>(
    bytes: &[u8],
    out: &mut S,
    aside: &mut Aside<S::Error>,
) -> Result<(), Stopped>
    ensures { OnOk result (Sent (events (one (codes "Other") (hex bytes.now))) (S.written out.old) (S.written out.new)) }
{
    begin_map(out, aside)?;
    key("Other", out, aside)?;
    send_hex(bytes, out, aside)?;
    end_map(out, aside)
}

/// The first choice with the name of a member, and the member's value.
pub fn choice_held<'a, 'v>(
    choices: &[Choice<'a>],
    value: &'v Value,
) -> Option<(Choice<'a>, &'v Value)>
    ensures { option_map (λ m. (choice_view m.0, view m.1.now)) result ≡ held (λ c. c.name) is_choice (choices_view choices.now) (view value.now) }
{
    match choices.split_first() {
        Some((first, others)) => match value.get(first.name) {
            Some(held) if is_choice(first) => Some((*first, held)),
            _ => choice_held(others, value),
        },
        None => None,
    }
}

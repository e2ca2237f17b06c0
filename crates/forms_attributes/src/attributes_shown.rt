//! Frames, and the JSON of attributes, without the values in them.

ghost use Rattle.nla_frames.specs.Value.{ends_in_nul, le_value};
ghost use Rattle.serde_json.specs.Data.{member, no_members, number, unsigned};
ghost use Rattle.std.specs.Prelude.{IfSome, OnOk, length, option_map, take, ◌≡◌, ◌≤◌};
ghost use Rattle.forms_attributes.specs.Attributes.{bare_member, kind_shown, other, pad_member, tail_shown, beside, word_and_hex};
ghost use Rattle.forms_attributes.specs.Frames.{after_first, frame_view, front};
ghost use Rattle.forms_attributes.specs.Kinds.{kind_in, kind_text, own_kind};
ghost use Rattle.forms_values.specs.Sent.{Sent, events, items_events, members_events};

use crate::rows::type_of;
use forms_values::events::{Aside, Stopped, begin_map, end_map, key, string, truth, unsigned};
use forms_values::records::{is_blank, split};
use forms_values::values_shown::{send_hex, send_raw};
use nla_frames::strip_nul;
use serde::Serializer;

/// A frame: an attribute on the wire.
#[derive(Clone, Copy)]
pub struct Frame<'a> {
    /// `nla_type`, with its flags.
    pub word: u16,
    /// The payload.
    pub value: &'a [u8],
    /// The padding after the payload, unchanged. The last frame may lack some.
    pub pad: &'a [u8],
}

/// The frame at the front, and the bytes after it. `None` if the bytes don't begin with a frame.
#[inline(always)]
pub fn front(bytes: &[u8]) -> Option<(Frame<'_>, &[u8])>
    ensures frame { option_map (λ r. frame_view r.0) result ≡ front bytes.now }
    ensures after { IfSome result (λ r. r.1.now ≡ after_first bytes.now) }
{
    if bytes.len() < 4 {
        return None;
    }
    let len = usize::from(two_bytes(bytes));
    if len < 4 {
        return None;
    }
    if len > bytes.len() {
        return None;
    }
    let (frame, rest) = bytes.split_at(len);
    let (pad, after) = split(rest, Some((4 - len % 4) % 4));
    let word = two_bytes(&bytes[2..]);
    let value = &frame[4..];
    Some((Frame { word, value, pad }, after))
}

// The number of the first two bytes.
fn two_bytes(bytes: &[u8]) -> u16
    requires { 2 ≤ length bytes.now }
    ensures { result ≡ le_value (take 2 bytes.now) }
{
    match bytes {
        [a, b, ..] => u16::from_le_bytes([*a, *b]),
        _ => 0,
    }
}

// The text of a value, without one NUL at its end.
fn kind_text(value: &[u8]) -> Option<&str>
    ensures { option_map (λ t. t.now) result ≡ kind_text value.now }
{
    match str::from_utf8(strip_nul(value)) {
        Ok(text) => Some(text),
        Err(_) => None,
    }
}

/// The kind that a frame sets, in a list that has kinds.
#[inline(always)]
pub fn kind_in<'a>(has: bool, frame: &Frame<'a>) -> Option<&'a str>
    ensures { option_map (λ t. t.now) result ≡ kind_in has (frame_view frame.now) }
{
    if has && type_of(frame.word) == 1 {
        kind_text(frame.value)
    } else {
        None
    }
}

/// The first kind in a list. Empty if no attribute sets one.
pub fn own_kind(bytes: &[u8]) -> &str
    ensures { result.now ≡ own_kind (length bytes.now) bytes.now }
{
    let mut left = bytes;
    for _count in 0..bytes.len() {
        let (frame, after) = match front(left) {
            Some(found) => found,
            None => return "",
        };
        if let Some(kind) = kind_in(true, &frame) {
            return kind;
        }
        left = after;
    }
    ""
}

/// Sends the bytes after the last frame, if there are any.
pub fn send_tail<S: Serializer>(
    bytes: &[u8],
    out: &mut S,
    aside: &mut Aside<S::Error>,
) -> Result<(), Stopped>
    ensures { OnOk result (Sent (items_events (tail_shown bytes.now)) (S.written out.old) (S.written out.new)) }
{
    if bytes.is_empty() {
        return Ok(());
    }
    send_raw(bytes, out, aside)
}

/// Sends an attribute that sets a kind.
#[inline(never)]
pub fn send_kind<S: Serializer>(
    kind: &str,
    frame: &Frame<'_>,
    out: &mut S,
    aside: &mut Aside<S::Error>,
) -> Result<(), Stopped>
    ensures { OnOk result (Sent (events (kind_shown (frame_view frame.now) kind.now)) (S.written out.old) (S.written out.new)) }
{
    begin_map(out, aside)?;
    key("Kind", out, aside)?;
    string(kind, out, aside)?;
    send_kind_beside(frame, out, aside)?;
    end_map(out, aside)
}

// Sends the members of a kind: "bare" if it has no NUL, "word" and "pad".
fn send_kind_beside<S: Serializer>(
    frame: &Frame<'_>,
    out: &mut S,
    aside: &mut Aside<S::Error>,
) -> Result<(), Stopped>
    ensures { OnOk result (Sent (members_events (bare_member frame.now.value.now (beside 1 (frame_view frame.now)))) (S.written out.old) (S.written out.new)) }
{
    if ends_in_nul(frame.value) {
        return send_beside(1, frame, out, aside);
    }
    key("bare", out, aside)?;
    truth(true, out, aside)?;
    send_beside(1, frame, out, aside)
}

// True if the last byte is a NUL.
fn ends_in_nul(value: &[u8]) -> bool
    ensures { result ≡ ends_in_nul value.now }
{
    matches!(value, [.., 0])
}

/// Sends the `nla_type` if it isn't the row's, and the padding if it isn't zeros.
#[inline(always)]
pub fn send_beside<S: Serializer>(
    wanted: u16,
    frame: &Frame<'_>,
    out: &mut S,
    aside: &mut Aside<S::Error>,
) -> Result<(), Stopped>
    ensures { OnOk result (Sent (members_events (beside wanted (frame_view frame.now))) (S.written out.old) (S.written out.new)) }
{
    if frame.word == wanted {
        return send_pad(frame, out, aside);
    }
    key("word", out, aside)?;
    unsigned(u64::from(frame.word), out, aside)?;
    send_pad(frame, out, aside)
}

/// Sends the padding if it isn't zeros.
#[inline(always)]
pub fn send_pad<S: Serializer>(
    frame: &Frame<'_>,
    out: &mut S,
    aside: &mut Aside<S::Error>,
) -> Result<(), Stopped>
    ensures { OnOk result (Sent (members_events (pad_member (frame_view frame.now))) (S.written out.old) (S.written out.new)) }
{
    if is_blank(Some((4 - frame.value.len() % 4) % 4), frame.pad) {
        return Ok(());
    }
    key("pad", out, aside)?;
    send_hex(frame.pad, out, aside)
}

/// An attribute that no row has.
#[inline(never)]
pub fn send_other<S: Serializer>(
    frame: &Frame<'_>,
    out: &mut S,
    aside: &mut Aside<S::Error>,
) -> Result<(), Stopped>
    ensures { OnOk result (Sent (events (other (frame_view frame.now))) (S.written out.old) (S.written out.new)) }
{
    begin_map(out, aside)?;
    key("Other", out, aside)?;
    send_word_and_hex(frame, out, aside)?;
    send_pad(frame, out, aside)?;
    end_map(out, aside)
}

fn send_word_and_hex<S: Serializer>(
    frame: &Frame<'_>,
    out: &mut S,
    aside: &mut Aside<S::Error>,
) -> Result<(), Stopped>
    ensures { OnOk result (Sent (events (word_and_hex (frame_view frame.now))) (S.written out.old) (S.written out.new)) }
{
    begin_map(out, aside)?;
    send_word("word", frame.word, out, aside)?;
    key("value", out, aside)?;
    send_hex(frame.value, out, aside)?;
    end_map(out, aside)
}

/// Sends a member with an `nla_type`.
pub fn send_word<S: Serializer>(
    name: &str,
    word: u16,
    out: &mut S,
    aside: &mut Aside<S::Error>,
) -> Result<(), Stopped>
    ensures { OnOk result (Sent (members_events (member name.now (number (unsigned word)) no_members))
        (S.written out.old) (S.written out.new)) }
{
    key(name, out, aside)?;
    unsigned(u64::from(word), out, aside)
}

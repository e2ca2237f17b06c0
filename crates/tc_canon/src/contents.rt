//! Tests of flags and plain values.

ghost use Rattle.std.specs.Prelude.{◌≡◌, ◌<◌, ◌+◌, ◌⊎◌, ◌↔◌, [], ◌∷◌, length, true, IsTrue};
ghost use Rattle.std.specs.Str.{is_utf8};
ghost use Rattle.nla_frames.specs.Value.{le_value};
ghost use Rattle.nla_frames.specs.Frame.{type_of};
ghost use Rattle.nla_frames.specs.Buffer.{frame_of};
ghost use Rattle.tc_canon.specs.Canonical.{IsTerminated, IsUnterminated};

use nla_frames::{NLA_F_NESTED, NlaBuffer};

/// True if the word has no flags.
pub(crate) fn is_plain(frame: &NlaBuffer<'_>) -> bool
    ensures { IsTrue result ↔ (frame_of frame.now).word ≡ type_of (frame_of frame.now).word }
{
    frame.word() == frame.kind()
}

/// True if the word has `NLA_F_NESTED` and not `NLA_F_NET_BYTEORDER`.
pub(crate) fn is_nested(frame: &NlaBuffer<'_>) -> bool
    ensures { IsTrue result
        ↔ (frame_of frame.now).word ≡ 0x8000 + type_of (frame_of frame.now).word }
{
    frame.word() == NLA_F_NESTED + frame.kind()
}

/// True if the value is UTF-8.
pub(crate) fn is_text(bytes: &[u8]) -> bool
    ensures { IsTrue result ↔ is_utf8 bytes.now ≡ true }
{
    std::str::from_utf8(bytes).is_ok()
}

/// True if the value is a text and one NUL after it.
pub(crate) fn is_terminated(value: &[u8]) -> bool
    ensures { IsTrue result ↔ IsTerminated value.now }
{
    match value {
        [text @ .., 0] => is_text(text),
        _ => false,
    }
}

/// True if the value is a text without a NUL at its end.
pub(crate) fn is_unterminated(value: &[u8]) -> bool
    ensures { IsTrue result ↔ IsUnterminated value.now }
{
    match value {
        [.., 0] => false,
        _ => is_text(value),
    }
}

/// True if the value is one byte below a bound.
pub(crate) fn is_u8_below(value: &[u8], bound: u8) -> bool
    ensures { IsTrue result ↔ ((length value.now ≡ 1) × (le_value value.now < bound)) }
{
    match value {
        [byte] => *byte < bound,
        _ => false,
    }
}

/// True if the value is four bytes whose little-endian number is below a bound.
pub(crate) fn is_u32_below(value: &[u8], bound: u32) -> bool
    ensures { IsTrue result ↔ ((length value.now ≡ 4) × (le_value value.now < bound)) }
{
    match value {
        [a, b, c, d] => u32::from_le_bytes([*a, *b, *c, *d]) < bound,
        _ => false,
    }
}

/// True if the value is one byte, 0 or 1.
pub(crate) fn is_truth(value: &[u8]) -> bool
    ensures { IsTrue result ↔ ((value.now ≡ 0 ∷ []) ⊎ (value.now ≡ 1 ∷ [])) }
{
    matches!(value, [0] | [1])
}

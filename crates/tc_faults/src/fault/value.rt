//! The faults of values.

ghost use Rattle.std.specs.Prelude.{◌≡◌, None, Some, length, nat_lt, if◌then◌else◌};
ghost use Rattle.std.specs.Str.{is_utf8};
ghost use Rattle.nla_frames.specs.declared.error.DecodeError.TheVariants.{BufferTooSmall};
ghost use Rattle.nla_frames.specs.Value.{exactly, strip, text};
ghost use Rattle.tc_meaning.specs.Content.{read_selector, read_xstats};
ghost use Rattle.tc_faults.specs.Check.{check_fault};
ghost use Rattle.tc_faults.specs.Fault.{fault_of};

use super::action::own_error;
use crate::check::Check;
use nla_frames::{DecodeError, parse_u32, strip_nul};

// The fault of a value under this kind, if it fails the check.
pub(super) fn error_of(check: Check, value: &[u8], kind: &[u8]) -> Option<DecodeError>
    ensures { result ≡ check_fault check kind.now value.now }
{
    match check {
        Check::Any => None,
        Check::Bytes(expected) => width_error(expected, value),
        Check::Fields(needed) => fields_error(needed, value),
        Check::Text => text_error(value),
        Check::Selector => selector_error(value),
        Check::Xstats => statistics_error(value, kind),
        Check::Action => own_error(value),
    }
}

fn width_error(expected: usize, value: &[u8]) -> Option<DecodeError>
    ensures { result ≡ fault_of (exactly expected value.now) }
{
    let got = value.len();
    if got == expected {
        return None;
    }
    Some(DecodeError::WrongLength { expected, got })
}

fn text_error(value: &[u8]) -> Option<DecodeError>
    ensures { result ≡ fault_of (text value.now) }
{
    if is_text(value) {
        return None;
    }
    Some(DecodeError::NotUtf8)
}

// True if a value is UTF-8, before a final NUL.
pub(super) fn is_text(value: &[u8]) -> bool
    ensures { result ≡ is_utf8 (strip value.now) }
{
    match std::str::from_utf8(strip_nul(value)) {
        Ok(_) => true,
        Err(_) => false,
    }
}

fn fields_error(needed: usize, value: &[u8]) -> Option<DecodeError>
    ensures { result ≡ (if nat_lt (length value.now) needed then Some (BufferTooSmall (length value.now) needed) else None) }
{
    let len = value.len();
    if len < needed {
        return Some(DecodeError::BufferTooSmall { len, needed });
    }
    None
}

fn selector_error(value: &[u8]) -> Option<DecodeError>
    ensures { result ≡ fault_of (read_selector value.now) }
{
    let len = value.len();
    if len < 16 {
        return Some(DecodeError::SelectorShort { len, needed: 16 });
    }
    let needed = 16 + 16 * usize::from(value[2]);
    if len < needed {
        return Some(DecodeError::SelectorShort { len, needed });
    }
    None
}

fn statistics_error(value: &[u8], kind: &[u8]) -> Option<DecodeError>
    ensures { result ≡ fault_of (read_xstats kind.now value.now) }
{
    if kind != b"fq_codel".as_slice() {
        return None;
    }
    if value.len() < 4 {
        return Some(DecodeError::XstatsShort { len: value.len() });
    }
    let (number, rest) = value.split_at(4);
    match parse_u32(number) {
        Ok(0) => fields_error(36, rest),
        Ok(1) => fields_error(24, rest),
        _ => None,
    }
}

//! Numbers as JSON, both ways.

ghost use Rattle.nla_frames.specs.Value.{be_value, le_value};
ghost use Rattle.serde_json.specs.Data.{number};
ghost use Rattle.serde_json.specs.Find.{as_number, as_str};
ghost use Rattle.serde_json.specs.View.{view};
ghost use Rattle.std.specs.Prelude.{OnOk, Some, codes, length, option_and_then, option_map, ◌*◌, ◌<◌, ◌≡◌, ◌≤◌};
ghost use Rattle.forms_values.specs.Appended.{Appended};
ghost use Rattle.forms_values.specs.Numbers.{bits, bits_of, bytes_of, half, is_big, is_signed, name_of, named_made, named_or, num, number_made, number_of};
ghost use Rattle.forms_values.specs.Raw.{one};
ghost use Rattle.forms_values.specs.Sent.{Sent, events};
ghost use Rattle.forms_values.specs.Values.{plain_shown};
ghost use Rattle.forms_values.specs.Tables.{no_table, names_view};
ghost use Rattle.forms_values.specs.Widths.{number_width};

use crate::error::Wanted;
use crate::events::{Aside, Stopped, begin_map, end_map, key, signed, string, unsigned};
use crate::form::{Form, Name, Number};
use crate::maker::{Maker, Stop};
use crate::names::is_same;
use crate::values_shown::send_raw;
use serde::Serializer;
use serde_json::Value;

/// The name of a number.
pub(crate) fn name_of<'a>(names: &[Name<'a>], number: u64) -> Option<&'a str>
    ensures { option_map (λ name. name.now) result ≡ name_of (names_view names.now) number }
{
    match names.split_first() {
        Some((first, _)) if first.number == number => Some(first.name),
        Some((_, others)) => name_of(others, number),
        None => None,
    }
}

/// The number of a name.
pub(crate) fn number_of(names: &[Name<'_>], name: &str) -> Option<u64>
    ensures { result ≡ number_of (names_view names.now) name.now }
{
    match names.split_first() {
        Some((first, _)) if is_same(first.name, name) => Some(first.number),
        Some((_, others)) => number_of(others, name),
        None => None,
    }
}

// The bits of a number.
#[inline(always)]
pub(crate) fn bits_of(number: Number, bytes: &[u8]) -> u64
    requires { length bytes.now ≡ number_width number }
    ensures value { result ≡ bits_of number bytes.now }
    ensures small { result < 2 * half number }
{
    if is_big(number) {
        big(bytes)
    } else {
        little(bytes)
    }
}

/// True for a big-endian number.
#[inline(always)]
pub(crate) fn is_big(number: Number) -> bool
    ensures { result ≡ is_big number }
{
    matches!(number, Number::U16Be | Number::U32Be | Number::U64Be)
}

// The little-endian number of at most eight bytes.
#[inline(always)]
fn little(bytes: &[u8]) -> u64
    requires { length bytes.now ≤ 8 }
    ensures { result ≡ le_value bytes.now }
{
    match bytes {
        [a] => u64::from(*a),
        [a, b] => u64::from(u16::from_le_bytes([*a, *b])),
        [a, b, c, d] => u64::from(u32::from_le_bytes([*a, *b, *c, *d])),
        _ => little_by_one(bytes),
    }
}

// Byte by byte.
#[inline(never)]
fn little_by_one(bytes: &[u8]) -> u64
    requires { length bytes.now ≤ 8 }
    ensures { result ≡ le_value bytes.now }
{
    match bytes.split_first() {
        Some((first, others)) => u64::from(*first) + 256 * little_by_one(others),
        None => 0,
    }
}

// The big-endian number of at most eight bytes.
#[inline(never)]
fn big(bytes: &[u8]) -> u64
    requires { length bytes.now ≤ 8 }
    ensures { result ≡ be_value bytes.now }
{
    match bytes.split_last() {
        Some((last, others)) => u64::from(*last) + 256 * big(others),
        None => 0,
    }
}

/// Half the number of values: the first number whose sign bit is set.
#[inline(always)]
pub(crate) fn half(number: Number) -> u64
    ensures { result ≡ half number }
{
    match number {
        Number::U8 | Number::I8 => 0x80,
        Number::U16 | Number::I16 | Number::U16Be => 0x8000,
        Number::U32 | Number::I32 | Number::U32Be => 0x8000_0000,
        Number::U64 | Number::I64 | Number::U64Be => 0x8000_0000_0000_0000,
    }
}

#[inline(always)]
pub(crate) fn is_signed(number: Number) -> bool
    ensures { result ≡ is_signed number }
{
    matches!(number, Number::I8 | Number::I16 | Number::I32 | Number::I64)
}

/// Sends bytes as a number, or raw if they have another length.
#[inline(always)]
pub fn send_bytes_number<S: Serializer>(
    number: Number,
    bytes: &[u8],
    out: &mut S,
    aside: &mut Aside<S::Error>,
) -> Result<(), Stopped>
    ensures { OnOk result (Sent (events (plain_shown no_table (Form.Number number) bytes.now)) (S.written out.old) (S.written out.new)) }
{
    if bytes.len() != number.width() {
        return send_raw(bytes, out, aside);
    }
    send_number(number, bits_of(number, bytes), out, aside)
}

#[inline(always)]
pub(crate) fn send_number<S: Serializer>(
    which: Number,
    bits: u64,
    out: &mut S,
    aside: &mut Aside<S::Error>,
) -> Result<(), Stopped>
    requires { bits < 2 * half which }
    ensures { OnOk result (Sent (events (number (num which bits))) (S.written out.old) (S.written out.new)) }
{
    let half = half(which);
    if is_signed(which) && bits >= half {
        let above = half - 1 - (bits - half);
        signed(-1 - (above as i64), out, aside)
    } else {
        unsigned(bits, out, aside)
    }
}

#[inline(never)]
pub(crate) fn send_named<S: Serializer>(
    names: &[Name<'_>],
    which: Number,
    bits: u64,
    out: &mut S,
    aside: &mut Aside<S::Error>,
) -> Result<(), Stopped>
    requires { bits < 2 * half which }
    ensures { OnOk result (Sent (events (named_or (names_view names.now) bits (one (codes "Other") (number (num which bits)))
        (name_of (names_view names.now) bits))) (S.written out.old) (S.written out.new)) }
{
    if let Some(name) = name_of(names, bits) {
        if let Some(again) = number_of(names, name) {
            if again == bits {
                return string(name, out, aside);
            }
        }
    }
    begin_map(out, aside)?;
    key("Other", out, aside)?;
    send_number(which, bits, out, aside)?;
    end_map(out, aside)
}

pub(crate) fn make_number<'v>(
    maker: &mut Maker<'v>,
    which: Number,
    value: &'v Value,
) -> Result<(), Stop>
    ensures { Appended (number_made which (view value.now)) maker.old.bytes.items maker.new.bytes.items result }
{
    match bits_in(which, value) {
        Some(bits) => put_bits(maker, which, bits),
        None => Err(maker.unfit(value, wanted(which))),
    }
}

// The range of numbers.
fn wanted(which: Number) -> Wanted {
    let (least, most) = match which {
        Number::U8 => (0, 0xff),
        Number::U16 | Number::U16Be => (0, 0xffff),
        Number::U32 | Number::U32Be => (0, 0xffff_ffff),
        Number::U64 | Number::U64Be => (0, u64::MAX),
        Number::I8 => (-0x80, 0x7f),
        Number::I16 => (-0x8000, 0x7fff),
        Number::I32 => (-0x8000_0000, 0x7fff_ffff),
        Number::I64 => (i64::MIN, 0x7fff_ffff_ffff_ffff),
    };
    Wanted::Number { least, most }
}

// The bits of a number in JSON, if it is in range.
fn bits_in(which: Number, value: &Value) -> Option<u64>
    ensures { result ≡ option_and_then (bits which) (as_number (view value.now)) }
{
    let half = half(which);
    if let Some(bits) = value.as_u64() {
        if is_signed(which) {
            return if bits < half { Some(bits) } else { None };
        }
        return if bits / 2 < half { Some(bits) } else { None };
    }
    let negative = match value.as_i64() {
        Some(negative) => negative,
        None => return None,
    };
    if negative >= 0 || !is_signed(which) {
        return None;
    }
    let below = negative.unsigned_abs() - 1;
    if below < half {
        Some(half - 1 - below + half)
    } else {
        None
    }
}

fn put_bits(maker: &mut Maker<'_>, which: Number, bits: u64) -> Result<(), Stop>
    ensures { Appended (Some (bytes_of which bits)) maker.old.bytes.items maker.new.bytes.items result }
{
    if is_big(which) {
        maker.put_big(bits, which.width())
    } else {
        maker.put_little(bits, which.width())
    }
}

pub(crate) fn make_named<'v>(
    maker: &mut Maker<'v>,
    names: &'static [Name<'static>],
    which: Number,
    value: &'v Value,
) -> Result<(), Stop>
    ensures { Appended (named_made which (option_and_then (number_of (names_view names.now)) (as_str (view value.now))) (view value.now))
        maker.old.bytes.items maker.new.bytes.items result }
{
    if let Some(name) = value.as_str() {
        if let Some(bits) = number_of(names, name) {
            return put_bits(maker, which, bits);
        }
    }
    match value.get("Other") {
        Some(other) => match bits_in(which, other) {
            Some(bits) => put_bits(maker, which, bits),
            None => Err(maker.wrong_member("Other", other, wanted(which))),
        },
        None => match bits_in(which, value) {
            Some(bits) => put_bits(maker, which, bits),
            None => Err(maker.unfit(value, Wanted::NamedNumber(names))),
        },
    }
}

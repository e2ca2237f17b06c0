//! The bytes of attributes, without the values in them, and of frames.

ghost use Rattle.serde_json.specs.Find.{as_array, get};
ghost use Rattle.serde_json.specs.View.{items_view, view};
ghost use Rattle.std.specs.Prelude.{IfErr, IfOk, None, OnOk, Some, [], codes, drop, false, length, option_and_then, option_map, take, true, unwrap_or};
ghost use Rattle.std.specs.Prelude.{◌+◌, ◌++◌, ◌∷◌, ◌≡◌, ◌≤◌};
ghost use Rattle.forms_values.specs.Appended.{Appended};
ghost use Rattle.forms_attributes.specs.AttributesMade.{by_kind_made, framed_with, other_made, unlayered, word_made, word_or};
ghost use Rattle.forms_attributes.specs.Kinds.{kind_named, kind_value, own_kind_named};
ghost use Rattle.forms_values.specs.declared.maker.Stop.TheVariants.{OutOfMemory};

use forms_values::Wanted;
use forms_values::maker::{Maker, Stop};
use forms_values::pointer::Step;
use forms_values::values_made::{make_hex_at, put_text};
use serde_json::Value;

/// The value in a layer, or the value itself if the layer has no name.
pub fn unlayered<'v>(layer: &str, value: &'v Value) -> Option<&'v Value>
    ensures { option_map (λ v. view v.now) result ≡ unlayered layer.now (view value.now) }
{
    if layer.is_empty() {
        return Some(value);
    }
    value.get(layer)
}

/// Notes that no row has the attribute's name.
pub fn no_row<'v>(maker: &mut Maker<'v>, has: bool, value: &'v Value) -> Stop {
    match value.get("Kind") {
        Some(kind) if has => maker.wrong_member("Kind", kind, Wanted::Text),
        _ => maker.unknown(value, Wanted::Attribute),
    }
}

/// The kind that an item sets, in a list with kinds.
pub fn kind_named<'v>(has: bool, value: &'v Value) -> Option<&'v str>
    ensures { option_map (λ t. t.now) result ≡ kind_named has (view value.now) }
{
    if !has {
        return None;
    }
    match value.get("Kind") {
        Some(kind) => kind.as_str(),
        None => None,
    }
}

/// The first kind that the items of a list set.
pub fn own_kind_named<'v>(value: &'v Value) -> &'v str
    ensures { result.now ≡ unwrap_or (option_map own_kind_named (as_array (view value.now))) [] }
{
    match value.as_array() {
        Some(items) => first_kind_named(items.as_slice()),
        None => "",
    }
}

fn first_kind_named<'v>(items: &'v [Value]) -> &'v str
    ensures { result.now ≡ own_kind_named (items_view items.now) }
{
    match items.split_first() {
        Some((first, others)) => match kind_named(true, first) {
            Some(kind) => kind,
            None => first_kind_named(others),
        },
        None => "",
    }
}

/// Appends an attribute that sets a kind.
pub fn make_kind<'v>(maker: &mut Maker<'v>, kind: &'v str, value: &'v Value) -> Result<(), Stop>
    ensures { Appended (by_kind_made (λ k f d. None) [] true [] (view value.now) (Some kind.now)) maker.old.bytes.items maker.new.bytes.items result }
{
    let word = match word_or(1, value) {
        Some(word) => word,
        None => return Err(maker.wrong_or_missing(value, "word", Wanted::Word)),
    };
    let start = match begin(maker) {
        Ok(start) => start,
        Err(e) => return Err(e),
    };
    match make_kind_value(maker, kind, value) {
        Ok(()) => end(maker, start, word, "Kind", value, value.get("pad")),
        Err(e) => Err(e),
    }
}

// Appends a kind's text, with a NUL unless it is bare.
fn make_kind_value<'v>(maker: &mut Maker<'v>, kind: &str, value: &'v Value) -> Result<(), Stop>
    ensures { Appended (kind_value kind.now (get (codes "bare") (view value.now))) maker.old.bytes.items maker.new.bytes.items result }
{
    let bare = match value.get("bare") {
        Some(bare) => bare,
        None => return put_text(maker, kind),
    };
    match bare.as_bool() {
        Some(true) => maker.put(kind.as_bytes()),
        Some(false) => put_text(maker, kind),
        None => Err(maker.wrong_member("bare", bare, Wanted::Bool)),
    }
}

/// An attribute that no row has.
pub fn make_other<'v>(maker: &mut Maker<'v>, other: &'v Value, value: &'v Value) -> Result<(), Stop>
    ensures { Appended (other_made (view value.now) (view other.now)) maker.old.bytes.items maker.new.bytes.items result }
{
    let word = match word_at(other, "word") {
        Some(word) => word,
        None => {
            let stop = maker.wrong_or_missing(other, "word", Wanted::Word);
            maker.at(Step::Member("Other"));
            return Err(stop);
        }
    };
    let held = match other.get("value") {
        Some(held) => held,
        None => {
            let stop = maker.missing(other, "value");
            maker.at(Step::Member("Other"));
            return Err(stop);
        }
    };
    let start = match begin(maker) {
        Ok(start) => start,
        Err(e) => return Err(e),
    };
    match make_hex_at(maker, "value", held) {
        Ok(()) => end(maker, start, word, "Other", value, value.get("pad")),
        Err(e) => {
            maker.at(Step::Member("Other"));
            Err(e)
        }
    }
}

/// The `nla_type` in the member of this name.
pub fn word_at(value: &Value, name: &str) -> Option<u16>
    ensures { result ≡ option_and_then word_made (get name.now (view value.now)) }
{
    match value.get(name) {
        Some(member) => word_of(member),
        None => None,
    }
}

fn word_of(value: &Value) -> Option<u16>
    ensures { result ≡ word_made (view value.now) }
{
    match value.as_u64() {
        Some(word) if word <= 0xffff => Some(word as u16),
        _ => None,
    }
}

/// The `nla_type` in the member "word", or this one if there is no such member.
pub fn word_or(word: u16, value: &Value) -> Option<u16>
    ensures { result ≡ word_or word (get (codes "word") (view value.now)) }
{
    match value.get("word") {
        Some(named) => word_of(named),
        None => Some(word),
    }
}

/// Begins an attribute with zeros for its length and its `nla_type`, and returns its place.
#[inline(always)]
pub fn begin(maker: &mut Maker<'_>) -> Result<usize, Stop>
    ensures place { IfOk result (λ n. n ≡ length maker.old.bytes.items) }
    ensures zeros { OnOk result (maker.new.bytes.items ≡ maker.old.bytes.items ++ (0 ∷ 0 ∷ 0 ∷ 0 ∷ [])) }
    ensures memory { IfErr result (λ e. e ≡ OutOfMemory) }
{
    let start = maker.bytes.len();
    match maker.put(&[0, 0, 0, 0]) {
        Ok(()) => Ok(start),
        Err(e) => Err(e),
    }
}

/// Ends an attribute that began at a place: writes its length and its `nla_type`, and appends the padding.
pub fn end<'v>(
    maker: &mut Maker<'v>,
    start: usize,
    word: u16,
    name: &'static str,
    value: &'v Value,
    pad: Option<&'v Value>,
) -> Result<(), Stop>
    requires { start + 4 ≤ length maker.old.bytes.items }
    ensures { Appended (framed_with word (drop (start + 4) maker.old.bytes.items) (option_map (λ p. view p.now) pad.entry))
        (take start maker.old.bytes.items) maker.new.bytes.items result }
{
    let len = maker.bytes.len() - start;
    if len > 65535 {
        return Err(maker.wrong_or_missing(value, name, Wanted::Fitting));
    }
    patch(
        maker,
        start,
        (len % 256) as u8,
        (len / 256) as u8,
        (word % 256) as u8,
        (word / 256) as u8,
    );
    match pad {
        Some(pad) => make_hex_at(maker, "pad", pad),
        None => maker.put_zeros((4 - len % 4) % 4),
    }
}

// Writes four bytes over those at a place.
fn patch(maker: &mut Maker<'_>, start: usize, a: u8, b: u8, c: u8, d: u8)
    requires { start + 4 ≤ length maker.old.bytes.items }
    ensures { maker.new.bytes.items ≡ take start maker.old.bytes.items ++ (a ∷ b ∷ c ∷ d ∷ drop (start + 4) maker.old.bytes.items) }
{
    maker.bytes[start] = a;
    maker.bytes[start + 1] = b;
    maker.bytes[start + 2] = c;
    maker.bytes[start + 3] = d;
}

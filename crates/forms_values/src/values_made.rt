//! The bytes of values whose form contains no other form.

ghost use Rattle.serde_json.specs.View.{view};
ghost use Rattle.std.specs.Prelude.{IfNone, IfOk, IfSome, List, None, Option, Some, [], option_map, ℕ, ◌++◌, ◌∷◌, ◌≡◌};
ghost use Rattle.forms_values.specs.Appended.{Appended};
ghost use Rattle.forms_values.specs.Raw.{hex_made, hex_of, or_raw, raw_of};
ghost use Rattle.forms_values.specs.Tables.{no_table};
ghost use Rattle.forms_values.specs.Values.{ipv4_of, ipv6_of, mac_of, plain_made};

use crate::error::Wanted;
use crate::form::Form;
use crate::maker::{Maker, Stop};
use crate::numbers::{make_named, make_number};
use crate::places::names_at;
use crate::tables::Tables;
use nla_frames::laws::in_range::bytes_are_in_range;
use serde_json::Value;
use std::alloc::{AllocError, Global};
use tc_texts::{handle_from_tc_text, read_hex, read_ipv4, read_ipv6, read_mac};

/// Appends the bytes of `{"raw":"dead"}`. `None`, and nothing is appended, if the value isn't such an object.
#[inline(always)]
pub fn put_raw(maker: &mut Maker<'_>, value: &Value) -> Option<Result<(), Stop>>
    ensures raw { IfSome result (λ r. (other : Option (List ℕ)) → Appended (or_raw (raw_of (view value.now)) other)
        maker.old.bytes.items maker.new.bytes.items r) }
    ensures none { IfNone result (raw_of (view value.now) ≡ None) }
    ensures kept { IfNone result (maker.new.bytes.items ≡ maker.old.bytes.items) }
{
    if !value.is_object() {
        return None;
    }
    let held = match value.get("raw") {
        Some(held) => held,
        None => return None,
    };
    match hex_of(maker.alloc, held) {
        Ok(Some(bytes)) => Some(maker.put(&bytes)),
        Ok(None) => None,
        Err(_) => Some(Err(Stop::OutOfMemory)),
    }
}

pub(crate) fn hex_of(alloc: Global, value: &Value) -> Result<Option<Vec<u8>>, AllocError>
    ensures { IfOk result (λ r. option_map (λ v. v.items) r ≡ hex_made (view value.now)) }
{
    match value.as_str() {
        Some(text) => bytes_of_hex(alloc, text),
        None => Ok(None),
    }
}

fn bytes_of_hex(alloc: Global, text: &str) -> Result<Option<Vec<u8>>, AllocError>
    ensures { IfOk result (λ r. option_map (λ v. v.items) r ≡ hex_of text.now) }
{
    match read_hex(alloc, text) {
        Ok(Some(bytes)) => {
            bytes_are_in_range(&bytes);
            Ok(Some(bytes))
        }
        Ok(None) => Ok(None),
        Err(e) => Err(e),
    }
}

/// Appends the bytes of a value whose form contains no other form.
pub fn make_plain<'v, T: Tables>(
    maker: &mut Maker<'v>,
    table: T,
    form: Form,
    value: &'v Value,
) -> Result<(), Stop>
    ensures { Appended (plain_made (T.parts_of table) form (view value.now)) maker.old.bytes.items maker.new.bytes.items result }
{
    match form {
        Form::Number(number) => make_number(maker, number, value),
        Form::Named(number, place) => make_named(maker, names_at(table, place), number, value),
        Form::Handle => make_handle(maker, value),
        Form::Flag => make_flag(maker, value),
        Form::Truth => make_truth(maker, value),
        Form::Bare => make_bare(maker, value),
        Form::Text => make_text(maker, value),
        Form::Hex => make_hex(maker, value),
        Form::Bytes(len) => make_hex_of(maker, len, value),
        Form::Pad(len) => make_hex_of(maker, len, value),
        Form::Mac => make_mac(maker, value),
        Form::Ipv4 => make_ipv4(maker, value),
        Form::Ipv6 => make_ipv6(maker, value),
        _ => Err(maker.unfit(value, Wanted::Raw)),
    }
}

fn make_handle<'v>(maker: &mut Maker<'v>, value: &'v Value) -> Result<(), Stop>
    ensures { Appended (plain_made no_table Form.Handle (view value.now)) maker.old.bytes.items maker.new.bytes.items result }
{
    let text = match value.as_str() {
        Some(text) => text,
        None => return Err(maker.unfit(value, Wanted::Handle)),
    };
    match handle_from_tc_text(text) {
        Some(handle) => maker.put_little(u64::from(handle), 4),
        None => Err(maker.unfit(value, Wanted::Handle)),
    }
}

fn make_flag<'v>(maker: &mut Maker<'v>, value: &'v Value) -> Result<(), Stop>
    ensures { Appended (plain_made no_table Form.Flag (view value.now)) maker.old.bytes.items maker.new.bytes.items result }
{
    match value.as_bool() {
        Some(true) => Ok(()),
        _ => Err(maker.unfit(value, Wanted::True)),
    }
}

fn make_truth<'v>(maker: &mut Maker<'v>, value: &'v Value) -> Result<(), Stop>
    ensures { Appended (plain_made no_table Form.Truth (view value.now)) maker.old.bytes.items maker.new.bytes.items result }
{
    match value.as_bool() {
        Some(true) => maker.put_byte(1),
        Some(false) => maker.put_byte(0),
        None => Err(maker.unfit(value, Wanted::Bool)),
    }
}

fn make_bare<'v>(maker: &mut Maker<'v>, value: &'v Value) -> Result<(), Stop>
    ensures { Appended (plain_made no_table Form.Bare (view value.now)) maker.old.bytes.items maker.new.bytes.items result }
{
    match value.as_str() {
        Some(text) => maker.put(text.as_bytes()),
        None => Err(maker.unfit(value, Wanted::Text)),
    }
}

fn make_text<'v>(maker: &mut Maker<'v>, value: &'v Value) -> Result<(), Stop>
    ensures { Appended (plain_made no_table Form.Text (view value.now)) maker.old.bytes.items maker.new.bytes.items result }
{
    match value.as_str() {
        Some(text) => put_text(maker, text),
        None => Err(maker.unfit(value, Wanted::Text)),
    }
}

/// Appends a text and a NUL.
pub fn put_text(maker: &mut Maker<'_>, text: &str) -> Result<(), Stop>
    ensures { Appended (Some (text.now ++ 0 ∷ [])) maker.old.bytes.items maker.new.bytes.items result }
{
    match maker.put(text.as_bytes()) {
        Ok(()) => maker.put_byte(0),
        Err(e) => Err(e),
    }
}

fn make_mac<'v>(maker: &mut Maker<'v>, value: &'v Value) -> Result<(), Stop>
    ensures { Appended (plain_made no_table Form.Mac (view value.now)) maker.old.bytes.items maker.new.bytes.items result }
{
    let text = match value.as_str() {
        Some(text) => text,
        None => return Err(maker.unfit(value, Wanted::Mac)),
    };
    match mac_of(text) {
        Some(octets) => maker.put(&octets),
        None => Err(maker.unfit(value, Wanted::Mac)),
    }
}

fn mac_of(text: &str) -> Option<[u8; 6]>
    ensures { result ≡ mac_of text.now }
{
    read_mac(text)
}

fn make_ipv4<'v>(maker: &mut Maker<'v>, value: &'v Value) -> Result<(), Stop>
    ensures { Appended (plain_made no_table Form.Ipv4 (view value.now)) maker.old.bytes.items maker.new.bytes.items result }
{
    let text = match value.as_str() {
        Some(text) => text,
        None => return Err(maker.unfit(value, Wanted::Ipv4)),
    };
    match ipv4_of(text) {
        Some(octets) => maker.put(&octets),
        None => Err(maker.unfit(value, Wanted::Ipv4)),
    }
}

fn ipv4_of(text: &str) -> Option<[u8; 4]>
    ensures { result ≡ ipv4_of text.now }
{
    read_ipv4(text)
}

fn make_ipv6<'v>(maker: &mut Maker<'v>, value: &'v Value) -> Result<(), Stop>
    ensures { Appended (plain_made no_table Form.Ipv6 (view value.now)) maker.old.bytes.items maker.new.bytes.items result }
{
    let text = match value.as_str() {
        Some(text) => text,
        None => return Err(maker.unfit(value, Wanted::Ipv6)),
    };
    match ipv6_of(text) {
        Some(octets) => maker.put(&octets),
        None => Err(maker.unfit(value, Wanted::Ipv6)),
    }
}

fn ipv6_of(text: &str) -> Option<[u8; 16]>
    ensures { result ≡ ipv6_of text.now }
{
    read_ipv6(text)
}

/// Appends bytes in hex, the value of a member of this name.
pub fn make_hex_at<'v>(
    maker: &mut Maker<'v>,
    name: &'static str,
    value: &'v Value,
) -> Result<(), Stop>
    ensures { Appended (hex_made (view value.now)) maker.old.bytes.items maker.new.bytes.items result }
{
    match hex_of(maker.alloc, value) {
        Ok(Some(bytes)) => maker.put(&bytes),
        Ok(None) => Err(maker.wrong_member(name, value, Wanted::Hex)),
        Err(_) => Err(Stop::OutOfMemory),
    }
}

// Bytes in hex.
pub(crate) fn make_hex<'v>(maker: &mut Maker<'v>, value: &'v Value) -> Result<(), Stop>
    ensures { Appended (hex_made (view value.now)) maker.old.bytes.items maker.new.bytes.items result }
{
    match hex_of(maker.alloc, value) {
        Ok(Some(bytes)) => maker.put(&bytes),
        Ok(None) => Err(maker.unfit(value, Wanted::Hex)),
        Err(_) => Err(Stop::OutOfMemory),
    }
}

// This number of bytes in hex.
fn make_hex_of<'v>(maker: &mut Maker<'v>, len: usize, value: &'v Value) -> Result<(), Stop>
    ensures { Appended (plain_made no_table (Form.Bytes len) (view value.now)) maker.old.bytes.items maker.new.bytes.items result }
{
    match hex_of(maker.alloc, value) {
        Ok(Some(bytes)) => {
            if bytes.len() != len {
                return Err(maker.unfit(value, Wanted::HexOf(len)));
            }
            maker.put(&bytes)
        }
        Ok(None) => Err(maker.unfit(value, Wanted::HexOf(len))),
        Err(_) => Err(Stop::OutOfMemory),
    }
}

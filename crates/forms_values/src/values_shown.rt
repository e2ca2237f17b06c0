//! The JSON of values whose form contains no other form.

ghost use Rattle.std.specs.Prelude.{OnOk, [], bytes_eq, option_map, ◌∷◌, ◌≡◌};
ghost use Rattle.forms_values.specs.Raw.{hex, raw};
ghost use Rattle.forms_values.specs.Sent.{Sent, events};
ghost use Rattle.forms_values.specs.Tables.{no_table};
ghost use Rattle.forms_values.specs.Values.{plain_shown, text_in};

use crate::events::{Aside, Stopped, begin_map, end_map, key, string, truth};
use crate::form::Form;
use crate::numbers::{bits_of, send_bytes_number, send_named};
use crate::places::names_at;
use crate::tables::Tables;
use serde::Serializer;
use tc_texts::{handle_text, hex_string, ipv4_text, ipv6_text, mac_text};

/// Sends a value whose form contains no other form.
#[inline(never)]
pub fn send_plain<S: Serializer, T: Tables>(
    table: T,
    form: Form,
    bytes: &[u8],
    out: &mut S,
    aside: &mut Aside<S::Error>,
) -> Result<(), Stopped>
    ensures { OnOk result (Sent (events (plain_shown (T.parts_of table) form bytes.now)) (S.written out.old) (S.written out.new)) }
{
    match form {
        Form::Number(number) => send_bytes_number(number, bytes, out, aside),
        Form::Named(number, place) => {
            if bytes.len() != number.width() {
                return send_raw(bytes, out, aside);
            }
            send_named(
                names_at(table, place),
                number,
                bits_of(number, bytes),
                out,
                aside,
            )
        }
        Form::Handle => send_handle(bytes, out, aside),
        Form::Flag => {
            if !bytes.is_empty() {
                return send_raw(bytes, out, aside);
            }
            truth(true, out, aside)
        }
        Form::Truth => send_truth(bytes, out, aside),
        Form::Bare => send_bare(bytes, out, aside),
        Form::Text => send_text(bytes, out, aside),
        Form::Hex => send_hex(bytes, out, aside),
        Form::Bytes(len) | Form::Pad(len) => {
            if bytes.len() != len {
                return send_raw(bytes, out, aside);
            }
            send_hex(bytes, out, aside)
        }
        Form::Mac => send_mac(bytes, out, aside),
        Form::Ipv4 => send_ipv4(bytes, out, aside),
        Form::Ipv6 => send_ipv6(bytes, out, aside),
        _ => send_raw(bytes, out, aside),
    }
}

#[inline(never)]
fn send_handle<S: Serializer>(
    bytes: &[u8],
    out: &mut S,
    aside: &mut Aside<S::Error>,
) -> Result<(), Stopped>
    ensures { OnOk result (Sent (events (plain_shown no_table Form.Handle bytes.now)) (S.written out.old) (S.written out.new)) }
{
    match bytes {
        [a, b, c, d] => string(
            handle_text(u32::from_le_bytes([*a, *b, *c, *d])).as_str(),
            out,
            aside,
        ),
        _ => send_raw(bytes, out, aside),
    }
}

#[inline(never)]
fn send_mac<S: Serializer>(
    bytes: &[u8],
    out: &mut S,
    aside: &mut Aside<S::Error>,
) -> Result<(), Stopped>
    ensures { OnOk result (Sent (events (plain_shown no_table Form.Mac bytes.now)) (S.written out.old) (S.written out.new)) }
{
    match bytes.try_into() {
        Ok(octets) => string(mac_text(octets).as_str(), out, aside),
        Err(_) => send_raw(bytes, out, aside),
    }
}

#[inline(never)]
fn send_ipv4<S: Serializer>(
    bytes: &[u8],
    out: &mut S,
    aside: &mut Aside<S::Error>,
) -> Result<(), Stopped>
    ensures { OnOk result (Sent (events (plain_shown no_table Form.Ipv4 bytes.now)) (S.written out.old) (S.written out.new)) }
{
    match bytes.try_into() {
        Ok(octets) => string(ipv4_text(octets).as_str(), out, aside),
        Err(_) => send_raw(bytes, out, aside),
    }
}

#[inline(never)]
fn send_ipv6<S: Serializer>(
    bytes: &[u8],
    out: &mut S,
    aside: &mut Aside<S::Error>,
) -> Result<(), Stopped>
    ensures { OnOk result (Sent (events (plain_shown no_table Form.Ipv6 bytes.now)) (S.written out.old) (S.written out.new)) }
{
    match bytes.try_into() {
        Ok(octets) => string(ipv6_text(octets).as_str(), out, aside),
        Err(_) => send_raw(bytes, out, aside),
    }
}

#[inline(never)]
fn send_truth<S: Serializer>(
    bytes: &[u8],
    out: &mut S,
    aside: &mut Aside<S::Error>,
) -> Result<(), Stopped>
    ensures { OnOk result (Sent (events (plain_shown no_table Form.Truth bytes.now)) (S.written out.old) (S.written out.new)) }
{
    if is_byte(bytes, 0) {
        return truth(false, out, aside);
    }
    if is_byte(bytes, 1) {
        return truth(true, out, aside);
    }
    send_raw(bytes, out, aside)
}

fn is_byte(bytes: &[u8], byte: u8) -> bool
    ensures { result ≡ bytes_eq bytes.now (byte ∷ []) }
{
    let one = [byte];
    bytes == one.as_slice()
}

#[inline(never)]
fn send_bare<S: Serializer>(
    bytes: &[u8],
    out: &mut S,
    aside: &mut Aside<S::Error>,
) -> Result<(), Stopped>
    ensures { OnOk result (Sent (events (plain_shown no_table Form.Bare bytes.now)) (S.written out.old) (S.written out.new)) }
{
    match str::from_utf8(bytes) {
        Ok(text) => string(text, out, aside),
        Err(_) => send_raw(bytes, out, aside),
    }
}

#[inline(never)]
fn send_text<S: Serializer>(
    bytes: &[u8],
    out: &mut S,
    aside: &mut Aside<S::Error>,
) -> Result<(), Stopped>
    ensures { OnOk result (Sent (events (plain_shown no_table Form.Text bytes.now)) (S.written out.old) (S.written out.new)) }
{
    match text_in(bytes) {
        Some(text) => string(text, out, aside),
        None => send_raw(bytes, out, aside),
    }
}

/// Sends bytes that don't follow their form, as `{"raw":"dead"}`.
#[inline(never)]
pub fn send_raw<S: Serializer>(
    bytes: &[u8],
    out: &mut S,
    aside: &mut Aside<S::Error>,
) -> Result<(), Stopped>
    ensures { OnOk result (Sent (events (raw bytes.now)) (S.written out.old) (S.written out.new)) }
{
    begin_map(out, aside)?;
    key("raw", out, aside)?;
    send_hex(bytes, out, aside)?;
    end_map(out, aside)
}

/// Bytes in hex.
#[inline(never)]
pub fn send_hex<S: Serializer>(
    bytes: &[u8],
    out: &mut S,
    aside: &mut Aside<S::Error>,
) -> Result<(), Stopped>
    ensures { OnOk result (Sent (events (hex bytes.now)) (S.written out.old) (S.written out.new)) }
{
    match hex_string(aside.alloc, bytes) {
        Ok(text) => string(text.as_str(), out, aside),
        Err(_) => {
            aside.error = Some(out.custom("out of memory"));
            Err(Stopped::Failed)
        }
    }
}

// The text of bytes that end in a NUL.
fn text_in(bytes: &[u8]) -> Option<&str>
    ensures { option_map (λ t. t.now) result ≡ text_in bytes.now }
{
    let (last, front) = match bytes.split_last() {
        Some(parts) => parts,
        None => return None,
    };
    if *last != 0 {
        return None;
    }
    match str::from_utf8(front) {
        Ok(text) => Some(text),
        Err(_) => None,
    }
}

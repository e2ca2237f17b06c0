//! Writing a list of attributes, one frame after the other.

ghost use Rattle.std.specs.Prelude.{◌≡◌, ◌↔◌, IsTrue, length, map};
ghost use Rattle.std.specs.List.{AllByRecursion};
ghost use Rattle.nla_frames.specs.Emission.{list_bytes, ListFits, NestedFits, Measures, Writes, HasRoom};

use crate::nla::{NLA_VALUE_MAX_SIZE, Nla};

/// The length of the frames in bytes, or `None` if the list can't be encoded: an attribute doesn't fit, or the total
/// overflows `usize`.
pub fn list_checked_len<T: Nla>(items: &[T]) -> Option<usize>
    ensures { Measures result (ListFits T.codec.Fits T.codec.write (map T.see items.now))
        (list_bytes T.codec.write (map T.see items.now)) }
{
    let mut total: usize = 0;
    let mut left = items;
    while let [item, after @ ..] = left {
        match item.checked_frame_len() {
            None => return None,
            Some(len) => match total.checked_add(len) {
                None => return None,
                Some(more) => total = more,
            },
        }
        left = after;
    }
    Some(total)
}

/// The length of the frames in bytes, or `None` if they can't be encoded as the value of an attribute: the list can't
/// be encoded, or has more than 65,531 bytes.
pub fn nested_checked_len<T: Nla>(items: &[T]) -> Option<usize>
    ensures { Measures result (NestedFits T.codec.Fits T.codec.write (map T.see items.now))
        (list_bytes T.codec.write (map T.see items.now)) }
{
    match list_checked_len(items) {
        Some(len) if len <= NLA_VALUE_MAX_SIZE => Some(len),
        _ => None,
    }
}

/// True if the list can be encoded: each attribute fits, and the total length fits in `usize`.
pub fn list_fits<T: Nla>(items: &[T]) -> bool
    ensures { IsTrue result ↔ ListFits T.codec.Fits T.codec.write (map T.see items.now) }
{
    list_checked_len(items).is_some()
}

/// True if the list can be encoded as the value of an attribute: in at most 65,531 bytes.
pub fn nested_fits<T: Nla>(items: &[T]) -> bool
    ensures { IsTrue result ↔ NestedFits T.codec.Fits T.codec.write (map T.see items.now) }
{
    nested_checked_len(items).is_some()
}

/// The length of the frames in bytes.
pub fn list_len<T: Nla>(items: &[T]) -> usize
    requires { ListFits T.codec.Fits T.codec.write (map T.see items.now) }
    ensures { result ≡ length (list_bytes T.codec.write (map T.see items.now)) }
{
    list_checked_len(items).unwrap_or(0)
}

/// Writes the frames at the front of the buffer, each padded with zeros, and returns their length.
pub fn put_list<T: Nla>(items: &[T], buffer: &mut [u8]) -> usize
    requires fits { ListFits T.codec.Fits T.codec.write (map T.see items.now) }
    requires room { HasRoom (list_bytes T.codec.write (map T.see items.now)) buffer.old }
    ensures written { Writes (list_bytes T.codec.write (map T.see items.now))
        buffer.old buffer.new }
    ensures length { result ≡ length (list_bytes T.codec.write (map T.see items.now)) }
    ensures typed { AllByRecursion T.codec.Typed (map T.see items.now) }
{
    let mut at: usize = 0;
    let mut left = items;
    while let [item, after @ ..] = left {
        at += item.put_frame(&mut buffer[at..]);
        left = after;
    }
    at
}

/// Writes the frames at the front of the buffer, each padded with zeros.
pub fn emit_list<T: Nla>(items: &[T], buffer: &mut [u8])
    requires fits { ListFits T.codec.Fits T.codec.write (map T.see items.now) }
    requires room { HasRoom (list_bytes T.codec.write (map T.see items.now)) buffer.old }
    ensures { Writes (list_bytes T.codec.write (map T.see items.now)) buffer.old buffer.new }
{
    put_list(items, buffer);
}

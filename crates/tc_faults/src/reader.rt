//! Finding the first fault of a message.

ghost use Rattle.std.specs.Prelude.{◌≡◌, ◌≤◌, ◌-◌, ◌^◌, length, IfSome, min, option_map};
ghost use Rattle.nla_frames.specs.Fault.{seen};
ghost use Rattle.tc_index.specs.Views.{items_left};
ghost use Rattle.tc_faults.specs.Located.{first_fault, first_offset, items_of_message, message_fault, message_offset};
ghost use Rattle.tc_faults.specs.Places.{offset_of};

use crate::fault::{Fault, error_in, fault_at};
use crate::path::Path;
use crate::what::What;
use nla_frames::{DecodeError, Res};
use tc_index::{Attribute, Attributes, BrokenFrame};

// The first fault of a message, without its path, which takes another walk.
#[derive(Drop)]
struct Refused<'a> {
    error: DecodeError,
    at: At<'a>,
    // The number of attributes up to and including its own.
    count: usize,
}

// The place of a fault.
#[derive(Clone, Copy)]
enum At<'a> {
    // In the value of this attribute.
    Attribute(Attribute<'a>),
    // In the malformed frame at this offset.
    Frame(usize),
}

/// The first fault of a message, in the order of parsing. `None` if the message can be parsed.
pub fn locate(bytes: &[u8], what: What) -> Option<Fault>
    ensures error { option_map (λ fault. fault.error) result ≡ message_fault (items_of_message what bytes.now) }
    ensures offset { option_map (λ fault. fault.offset) result ≡ message_offset (items_of_message what bytes.now) }
    ensures place { IfSome result (λ fault. fault.offset ≤ length bytes.now) }
{
    match attributes_of(bytes, what) {
        Err(error) => Some(header_fault(error)),
        Ok(attributes) => {
            let refused = first_fault(attributes)?;
            let path = path_of(bytes, what, refused.count);
            Some(within(fault_of(refused, &path), bytes.len()))
        }
    }
}

fn first_fault(attributes: Attributes<'_>) -> Option<Refused<'_>>
    ensures error { option_map (λ refused. refused.error) result ≡ first_fault (items_left attributes.entry) }
    ensures offset { option_map (λ refused. offset_of refused.at) result ≡ first_offset (items_left attributes.entry) }
{
    let mut count = 0usize;
    for attribute in attributes {
        match attribute {
            Err(broken) => return Some(broken_after(count, broken)),
            Ok(attribute) => {
                count = count.saturating_add(1);
                if let Some(error) = error_in(&attribute) {
                    return Some(Refused {
                        error,
                        at: At::Attribute(attribute),
                        count,
                    });
                }
            }
        }
    }
    None
}

// The fault of a malformed frame after `count` attributes.
fn broken_after<'a>(count: usize, broken: BrokenFrame) -> Refused<'a>
    ensures error { result.error ≡ broken.fault }
    ensures offset { offset_of result.at ≡ broken.offset }
{
    Refused {
        error: broken.fault,
        at: At::Frame(broken.offset),
        count,
    }
}

// The path of the attribute number `count`.
fn path_of(bytes: &[u8], what: What, count: usize) -> Path {
    let mut path = Path::new();
    let attributes = match attributes_of(bytes, what) {
        Ok(attributes) => attributes,
        Err(_) => return path,
    };
    let mut left = count;
    for attribute in attributes {
        let attribute = match attribute {
            Ok(attribute) => attribute,
            Err(_) => return path,
        };
        if left == 0 {
            return path;
        }
        path.enter(&attribute);
        left = left.saturating_sub(1);
    }
    path
}

// The fault, with its path.
fn fault_of(refused: Refused<'_>, path: &Path) -> Fault
    ensures error { result.error ≡ refused.entry.error }
    ensures offset { result.offset ≡ min (offset_of refused.entry.at) (2 ^ 64 - 1) }
{
    let Refused {
        error,
        at,
        count: _,
    } = refused;
    match at {
        At::Attribute(attribute) => fault_at(&attribute, path, error),
        At::Frame(offset) => broken_at(path, offset, error),
    }
}

// The fault, with an offset within a message of this length.
fn within(fault: Fault, len: usize) -> Fault
    ensures offset { result.offset ≡ min fault.offset len }
    ensures error { result.error ≡ fault.error }
{
    Fault {
        offset: fault.offset.min(len),
        error: fault.error,
        path: fault.path,
    }
}

// The attributes of a message. Fails if it is shorter than its header.
fn attributes_of(bytes: &[u8], what: What) -> Res<Attributes<'_>>
    ensures { seen items_left result ≡ items_of_message what bytes.now }
{
    match what {
        What::Action => Attributes::of_action(bytes),
        _ => Attributes::of_tc(bytes),
    }
}

// The fault of a malformed frame at this offset, after the attribute at a path.
fn broken_at(before: &Path, offset: usize, error: DecodeError) -> Fault
    ensures error { result.error ≡ error }
    ensures offset { result.offset ≡ offset }
{
    let mut path = *before;
    path.enter_at(offset);
    Fault {
        offset,
        error,
        path,
    }
}

// The fault of a message that is shorter than its header.
fn header_fault(error: DecodeError) -> Fault
    ensures place { result.offset ≡ 0 }
    ensures error { result.error ≡ error }
{
    Fault {
        offset: 0,
        error,
        path: Path::new(),
    }
}

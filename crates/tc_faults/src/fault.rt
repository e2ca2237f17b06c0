//! The first fault of a message, with its offset and path.

ghost use Rattle.std.specs.Prelude.{◌≡◌, ◌-◌, ◌^◌, min};
ghost use Rattle.tc_index.specs.Views.{placed_of};
ghost use Rattle.tc_faults.specs.Located.{own_fault, own_offset};

mod action;
mod value;

use crate::check::check_of;
use crate::path::Path;
use action::place_in;
use nla_frames::DecodeError;
use tc_index::{Attribute, Table};
use value::error_of;

/// Why a message is refused, and where.
#[derive(Drop)]
pub struct Fault {
    /// The offset in the message, in bytes: for a malformed frame or a short header of its first byte, for a value of
    /// the first byte of the value.
    pub offset: usize,
    pub error: DecodeError,
    /// The path of the attribute in the message.
    pub path: Path,
}

// The fault of an attribute, not counting those nested in it.
pub(crate) fn error_in(attribute: &Attribute<'_>) -> Option<DecodeError>
    ensures { result ≡ own_fault (placed_of attribute.now) }
{
    let check = check_of(attribute.table, attribute.number());
    error_of(check, attribute.value, attribute.kind)
}

// The fault of an attribute at a path; within an action the path goes on to the frame.
pub(crate) fn fault_at(attribute: &Attribute<'_>, path: &Path, error: DecodeError) -> Fault
    ensures error { result.error ≡ error }
    ensures offset { result.offset ≡ min (own_offset (placed_of attribute.now)) (2 ^ 64 - 1) }
{
    let (offset, path) = match attribute.table {
        Table::Actions => place_in(attribute, path),
        _ => (attribute.offset, *path),
    };
    Fault {
        offset,
        error,
        path,
    }
}

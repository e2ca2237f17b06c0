//! Whole messages.

ghost use Rattle.std.specs.Prelude.{◌↔◌, [], IsTrue};
ghost use Rattle.tc_canon.specs.Descriptor.{table};
ghost use Rattle.tc_canon.specs.Kind.{kind_of_frame};
ghost use Rattle.tc_canon.specs.Tables.Messages.{attributes, action_message_attributes};
ghost use Rattle.tc_canon.specs.Canonical.{CanonTable, IsCanonAtEach, CanonTc, CanonAct};

use crate::actions::Actions;
use crate::contents::{is_plain, is_terminated, is_unterminated};
use crate::front::split_padded;
use crate::kinds::kind_after;
use crate::lists::{Table, is_canonical_list};
use crate::options::{canon_options, has_options};
use crate::records::{is_action_message_header, is_stats, is_tc_header};
use crate::statistics::{Stats2, is_xstats};
use nla_frames::NlaBuffer;

/// `TcAttribute`.
struct Attributes;

impl Table for Attributes {
    ghost Canon = { CanonTable (table attributes) };

    fn is_canonical(kind: &[u8], frame: &NlaBuffer<'_>) -> bool {
        let value = frame.value();
        match frame.kind() {
            1 => is_plain(frame) && is_terminated(value), // Kind
            2 => !has_options(kind) || is_plain(frame) && canon_options(value, kind), // Options, OptionsRaw
            3 => is_plain(frame) && is_stats(value), // Stats
            4 => is_plain(frame) && is_xstats(value, kind), // Xstats
            5 | 6 | 8 => is_plain(frame), // Rate, Fcnt, Stab
            7 => is_plain(frame) && is_canonical_list::<Stats2>(value, kind), // Stats2
            10 => is_plain(frame) && value.is_empty(), // DumpInvisible
            11 => is_plain(frame) && value.len() == 4, // Chain
            12 => is_plain(frame) && value.len() == 1, // HwOffload
            _ => true,
        }
    }
}

/// `TcActionMessageAttribute`.
struct ActionMessageAttributes;

impl Table for ActionMessageAttributes {
    ghost Canon = { CanonTable (table action_message_attributes) };

    fn is_canonical(kind: &[u8], frame: &NlaBuffer<'_>) -> bool {
        let value = frame.value();
        match frame.kind() {
            1 => is_plain(frame) && is_canonical_list::<Actions>(value, kind), // Actions
            2 => is_plain(frame) && value.len() == 8, // Flags
            3 | 4 => is_plain(frame) && value.len() == 4, // RootCount, RootTimeDelta
            5 => is_plain(frame) && is_unterminated(value), // RootExtWarnMsg
            _ => true,
        }
    }
}

/// True if the bytes are the canonical attributes of a traffic control message, each under the kind that is set last
/// before it.
fn is_canonical_body(bytes: &[u8]) -> bool
    ensures { IsTrue result
        ↔ IsCanonAtEach (CanonTable (table attributes)) kind_of_frame [] bytes.now }
{
    let mut kind: &[u8] = &[];
    let mut rest = bytes;
    while !rest.is_empty() {
        match split_padded(rest) {
            Some((frame, after)) => {
                if !Attributes::is_canonical(kind, &frame) {
                    return false;
                }
                kind = kind_after(kind, &frame);
                rest = after;
            }
            None => return false,
        }
    }
    true
}

/// True if the bytes are a canonical traffic control message.
pub fn is_canonical_tc(bytes: &[u8]) -> bool
    ensures { IsTrue result ↔ CanonTc bytes.now }
{
    if bytes.len() < 20 {
        return false;
    }
    let (header, body) = bytes.split_at(20);
    is_tc_header(header) && is_canonical_body(body)
}

/// True if the bytes are a canonical action message.
pub fn is_canonical_action(bytes: &[u8]) -> bool
    ensures { IsTrue result ↔ CanonAct bytes.now }
{
    if bytes.len() < 4 {
        return false;
    }
    let (header, body) = bytes.split_at(4);
    is_action_message_header(header) && is_canonical_list::<ActionMessageAttributes>(body, &[])
}

//! The faults of an action itself: a malformed frame, a kind that isn't UTF-8, no kind or several.

ghost use Rattle.std.specs.Prelude.{◌≡◌, ◌-◌, ◌^◌, min};
ghost use Rattle.nla_frames.specs.Buffer.{frame_of};
ghost use Rattle.nla_frames.specs.Cutting.{cut, items_of};
ghost use Rattle.nla_frames.specs.Frame.{frame_length};
ghost use Rattle.tc_faults.specs.Fault.{action_fault, one_more, count_error};
ghost use Rattle.tc_faults.specs.Located.{is_wrong_kind, offset_in_frames};

use super::value::is_text;
use crate::path::Path;
use nla_frames::{DecodeError, NLA_HEADER_SIZE, NlaBuffer, NlasIterator};
use tc_index::Attribute;

// The fault of an action's frames.
#[tactic(auto, using(crate::proofs::OwnKinds::error_after_is))]
pub(super) fn own_error(value: &[u8]) -> Option<DecodeError>
    ensures { result ≡ action_fault value.now }
{
    let mut kinds = 0;
    for frame in NlasIterator::new(value) {
        match frame {
            Err(error) => return Some(error),
            Ok(frame) => {
                if frame.kind() == 1 {
                    if !is_text(frame.value()) {
                        return Some(DecodeError::NotUtf8);
                    }
                    kinds = one_more(kinds);
                }
            }
        }
    }
    count_error(kinds)
}

// Offset and path of the first frame of an action that is malformed or a kind that isn't UTF-8; of the action itself if
// there is none.
#[tactic(auto, using(crate::proofs::Offsets::next_capped))]
pub(super) fn place_in(action: &Attribute<'_>, path: &Path) -> (usize, Path)
    ensures { result.0 ≡ min (offset_in_frames action.now.offset action.now.offset (items_of (cut action.now.value.now))) (2 ^ 64 - 1) }
{
    let mut inside = *path;
    let mut at = action.offset;
    for frame in NlasIterator::new(action.value) {
        match frame {
            Err(_) => {
                inside.enter_in_action(action, None);
                return (at, inside);
            }
            Ok(frame) => {
                inside.enter_in_action(action, Some(frame.kind()));
                if is_wrong_kind(&frame) {
                    return (at.saturating_add(NLA_HEADER_SIZE), inside);
                }
                at = at.saturating_add(frame_length(&frame));
            }
        }
    }
    (action.offset, *path)
}

// True for a kind that isn't UTF-8.
fn is_wrong_kind(frame: &NlaBuffer<'_>) -> bool
    ensures { result ≡ is_wrong_kind (frame_of frame.now) }
{
    frame.kind() == 1 && !is_text(frame.value())
}

// The length of a frame, with its padding.
fn frame_length(frame: &NlaBuffer<'_>) -> usize
    ensures { result ≡ frame_length (frame_of frame.now) }
{
    let len = frame.value().len();
    NLA_HEADER_SIZE + len + (4 - len % 4) % 4
}

// Counts kinds: none, one, or several.
fn one_more(kinds: u8) -> u8
    ensures { result ≡ one_more kinds }
{
    if kinds == 0 { 1 } else { 2 }
}

// The fault of a number of kinds.
fn count_error(kinds: u8) -> Option<DecodeError>
    ensures { result ≡ count_error kinds }
{
    match kinds {
        0 => Some(DecodeError::MissingKind),
        1 => None,
        _ => Some(DecodeError::DuplicateKind),
    }
}

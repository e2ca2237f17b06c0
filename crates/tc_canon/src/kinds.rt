//! The kinds that frames set.

ghost use Rattle.std.specs.Prelude.{◌≡◌, List, ℕ, MatchOption};
ghost use Rattle.nla_frames.specs.Buffer.{frame_of};
ghost use Rattle.nla_frames.specs.Place.{kind_then};
ghost use Rattle.tc_canon.specs.Kind.{kind_of_frame, SetsOneKind};
ghost use Rattle.tc_canon.specs.Canonical.{IsPaddedList};

use crate::front::split_padded;
use nla_frames::NlaBuffer;
use nla_frames::values::read::strip_nul;

/// The one kind that the frames of an action set, at any place among them. `None` if they set no kind or several, or
/// if the bytes aren't frames padded with zeros.
pub(crate) fn own_kind(value: &[u8]) -> Option<&[u8]>
    ensures { MatchOption result
        ((own : List ℕ) → IsPaddedList (λ fs. SetsOneKind fs own) value.now → ⊥)
        (λ own. IsPaddedList (λ fs. SetsOneKind fs own.now) value.now) }
{
    let mut own = None;
    let mut rest = value;
    while !rest.is_empty() {
        match split_padded(rest) {
            Some((frame, after)) => {
                if frame.kind() == 1 {
                    if own.is_some() {
                        return None;
                    }
                    own = Some(strip_nul(frame.value()));
                }
                rest = after;
            }
            None => return None,
        }
    }
    own
}

/// The kind after a frame: its text if it is a `TCA_KIND`, and otherwise the kind before it.
pub(crate) fn kind_after<'a>(kind: &'a [u8], frame: &NlaBuffer<'a>) -> &'a [u8]
    ensures { result.now ≡ kind_then kind_of_frame kind.now (frame_of frame.now) }
{
    match frame.kind() {
        1 => strip_nul(frame.value()),
        _ => kind,
    }
}

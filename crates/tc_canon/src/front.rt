//! The first frame of a list that is padded with zeros.

ghost use Rattle.std.specs.Prelude.{◌≡◌, ◌≤◌, ◌++◌, ◌↔◌, List, ℕ, length, replicate, IsTrue, MatchOption};
ghost use Rattle.nla_frames.specs.Frame.{Frame, IsFrame, frame_bytes};
ghost use Rattle.nla_frames.specs.Buffer.{frame_of};
ghost use Rattle.tc_canon.specs.Front.{StartsPadded};

use nla_frames::NlaBuffer;

/// The first frame and what follows it, or `None` if it isn't padded in full with zeros.
pub(crate) fn split_padded(bytes: &[u8]) -> Option<(NlaBuffer<'_>, &[u8])>
    ensures { MatchOption result ((f : Frame) (after : List ℕ) → StartsPadded bytes.now f after → ⊥)
        (λ x. StartsPadded bytes.now (frame_of x.0) x.1.now) }
{
    let frame = match NlaBuffer::new_checked(bytes) {
        Ok(frame) => frame,
        Err(_) => return None,
    };
    let length = frame.length() as usize;
    let end = (length + 3) / 4 * 4;
    if bytes.len() < end {
        return None;
    }
    let (whole, rest) = bytes.split_at(end);
    let (_, pad) = whole.split_at(length);
    if is_zero(pad) {
        Some((frame, rest))
    } else {
        None
    }
}

/// True if all bytes are zero.
fn is_zero(pad: &[u8]) -> bool
    requires few { length pad.now ≤ 3 }
    ensures { IsTrue result ↔ pad.now ≡ replicate (length pad.now) 0 }
{
    matches!(pad, [] | [0] | [0, 0] | [0, 0, 0])
}

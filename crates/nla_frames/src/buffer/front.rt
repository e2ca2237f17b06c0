//! Splitting the first frame from the bytes after it.

ghost use Rattle.std.specs.Prelude.{◌≡◌};
ghost use Rattle.nla_frames.specs.Fault.{seen};
ghost use Rattle.nla_frames.specs.Cutting.{next_frame};
ghost use Rattle.nla_frames.specs.Buffer.{frame_of};

use super::NlaBuffer;
use crate::error::{DecodeError, Res};
use crate::nla::NLA_HEADER_SIZE;

// The first frame, and the bytes after its padding.
#[tactic(auto, using(crate::proofs::Front::after_padding), unfolding(crate::specs::Cutting::next_frame))]
pub(crate) fn split_first(bytes: &[u8]) -> Res<(NlaBuffer<'_>, &[u8])>
    ensures { seen (λ x. (frame_of x.0, x.1.now)) result ≡ next_frame bytes.now }
{
    if bytes.len() < NLA_HEADER_SIZE {
        return Err(DecodeError::FrameHeaderShort { left: bytes.len() });
    }
    let length = u16::from_le_bytes([bytes[0], bytes[1]]) as usize;
    if bytes.len() < length {
        return Err(DecodeError::FrameTooLong {
            length,
            left: bytes.len(),
        });
    }
    if length < NLA_HEADER_SIZE {
        return Err(DecodeError::FrameTooShort { length });
    }
    let word = u16::from_le_bytes([bytes[2], bytes[3]]);
    let (frame, _) = bytes.split_at(length);
    let (_, rest) = bytes.split_at(bytes.len().min((length + 3) / 4 * 4));
    let value = &frame[NLA_HEADER_SIZE..];
    Ok((NlaBuffer { word, value }, rest))
}

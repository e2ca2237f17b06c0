//! Reads a list of frames that holds its own kind. One scan cuts the frames and finds broken frames and kinds that aren't
//! UTF-8 in order.

ghost use Rattle.std.specs.Prelude.{◌≡◌, List, ℕ, [], Option, map, IfOk};
ghost use Rattle.std.specs.Result.{MatchResult};
ghost use Rattle.nla_frames.specs.Fault.{Returns, IfRefused, seen, refused};
ghost use Rattle.nla_frames.specs.Buffer.{frame_of};
ghost use Rattle.nla_frames.specs.Reading.{read_list, keep};
ghost use Rattle.tc_meaning.specs.Own.{read_own};
ghost use Rattle.tc_meaning.specs.OwnGrammar.{first_look, OwnReads, OwnFault};
ghost use Rattle.tc_actions.specs.Scan.{Scanned};

use nla_frames::{
    DecodeError, NlaBuffer, NlasIterator, OnlyKind, ParseableParametrized, Res, first_capacity,
    parse_frames_with,
};
use std::alloc::Allocator;
use tc_meaning::laws::own_grammar;
use tc_values::kind_set_by_frame;

/// Reads each frame under the kind that one of them sets. The first fault is a broken frame or a kind that isn't UTF-8,
/// else no kind or several, else the fault of a frame.
pub(crate) fn parse_list_own<A: Allocator + Copy, T: ParseableParametrized<A> + Drop>(
    alloc: A,
    bytes: &[u8],
) -> Res<Vec<T, A>>
    ensures found { IfOk result (λ v. OwnReads T.codec.read bytes.now (map T.see v.items)) }
    ensures refused { IfRefused result (OwnFault T.codec.read bytes.now) }
    ensures exact { Returns (seen (λ v. map T.see v.items) result) (read_own T.codec.read bytes.now) }
{
    // Does nothing at run time: its law, that `read_own` is what the grammar reads, gives the clauses `found` and `refused`.
    own_grammar::<T>(bytes);
    parse_own(alloc, bytes)
}

fn parse_own<A: Allocator + Copy, T: ParseableParametrized<A> + Drop>(
    alloc: A,
    bytes: &[u8],
) -> Res<Vec<T, A>>
    ensures { Returns (seen (λ v. map T.see v.items) result) (read_own T.codec.read bytes.now) }
{
    let (frames, only) = scan(alloc, bytes)?;
    match only {
        OnlyKind::Missing => Err(DecodeError::MissingKind),
        OnlyKind::One(kind) => parse_frames_with(alloc, &frames, kind),
        OnlyKind::Several => Err(DecodeError::DuplicateKind),
    }
}

// The frames and the kinds that they set, or the first broken frame or kind that isn't UTF-8.
fn scan<'a, A: Allocator>(alloc: A, bytes: &'a [u8]) -> Res<(Vec<NlaBuffer<'a>, A>, OnlyKind<'a>)>
    ensures { MatchResult result (λ found. Scanned bytes.now found.0.items found.1) (λ e.
        Returns (refused e) (read_list first_look keep [] bytes.now)) }
{
    let mut frames = Vec::with_capacity(alloc, first_capacity(bytes))?;
    let mut only = OnlyKind::Missing;
    for frame in NlasIterator::new(bytes) {
        let frame = frame?;
        only = only.and(kind_set_by_frame(&frame)?);
        frames.push(frame)?;
    }
    Ok((frames, only))
}

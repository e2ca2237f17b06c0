//! Reading lists of frames.

ghost use Rattle.std.specs.Prelude.{◌≡◌, ◌/◌, List, ℕ, [], min, map, length, IfOk};
ghost use Rattle.nla_frames.specs.Fault.{Returns, IfRefused, seen};
ghost use Rattle.nla_frames.specs.Buffer.{frame_of};
ghost use Rattle.nla_frames.specs.ListGrammar.{ReadEach, ListReads, IsListFault, IsFirstRefusal};
ghost use Rattle.nla_frames.specs.Reading.{read_list, read_each, whole, keep};

use crate::buffer::NlaBuffer;
use crate::error::Res;
use crate::iterator::NlasIterator;
use crate::meaning::FrameMeaning;
use crate::parse::{Parseable, ParseableParametrized};
use std::alloc::Allocator;

/// A way to read frames, each as a `T`, all under one kind.
pub trait FrameReader<A: Allocator, T: FrameMeaning> {
    ghost kind: { Self → List ℕ };

    /// Reads the frame under that kind, or fails with its first fault.
    fn read(&self, alloc: A, buf: &NlaBuffer<'_>) -> Res<T>
        ensures { Returns (seen T.see result) (T.codec.read (kind self.now) (frame_of buf.now)) };
}

// Reads frames before any kind is set.
#[derive(Drop)]
struct KindlessReader;

impl<A: Allocator, T: Parseable<A>> FrameReader<A, T> for KindlessReader {
    ghost kind = { λ _. [] };

    fn read(&self, alloc: A, buf: &NlaBuffer<'_>) -> Res<T> {
        T::parse(alloc, buf)
    }
}

// Reads frames under this kind.
#[derive(Drop)]
struct KindReader<'a>(&'a str);

impl<A: Allocator, T: ParseableParametrized<A>> FrameReader<A, T> for KindReader<'_> {
    ghost kind = { λ reader. reader.0.now };

    fn read(&self, alloc: A, buf: &NlaBuffer<'_>) -> Res<T> {
        T::parse_with_param(alloc, buf, self.0)
    }
}

/// Reads the bytes as a list of frames, or fails with the first fault.
pub fn parse_list<A: Allocator + Copy, T: Parseable<A> + Drop>(
    alloc: A,
    bytes: &[u8],
) -> Res<Vec<T, A>>
    ensures found { IfOk result (λ v.
        ListReads T.codec.read keep [] bytes.now (map T.see v.items)) }
    ensures refused { IfRefused result (IsListFault T.codec.read keep [] bytes.now) }
    ensures exact { Returns (seen (λ v. map T.see v.items) result)
        (read_list T.codec.read keep [] bytes.now) }
{
    parse_list_by(alloc, bytes, &KindlessReader)
}

/// Reads the bytes as a list of frames, each under this kind, or fails with the first fault.
pub fn parse_list_with<A: Allocator + Copy, T: ParseableParametrized<A> + Drop>(
    alloc: A,
    bytes: &[u8],
    kind: &str,
) -> Res<Vec<T, A>>
    ensures found { IfOk result (λ v.
        ListReads T.codec.read keep kind.now bytes.now (map T.see v.items)) }
    ensures refused { IfRefused result (IsListFault T.codec.read keep kind.now bytes.now) }
    ensures exact { Returns (seen (λ v. map T.see v.items) result)
        (read_list T.codec.read keep kind.now bytes.now) }
{
    parse_list_by(alloc, bytes, &KindReader(kind))
}

/// Reads the bytes as a list of frames, each with this reader, or fails with the first fault.
pub fn parse_list_by<A: Allocator + Copy, T: FrameMeaning + Drop, R: FrameReader<A, T>>(
    alloc: A,
    bytes: &[u8],
    reader: &R,
) -> Res<Vec<T, A>>
    ensures found { IfOk result (λ v.
        ListReads T.codec.read keep (R.kind reader.now) bytes.now (map T.see v.items)) }
    ensures refused { IfRefused result
        (IsListFault T.codec.read keep (R.kind reader.now) bytes.now) }
    ensures exact { Returns (seen (λ v. map T.see v.items) result)
        (read_list T.codec.read keep (R.kind reader.now) bytes.now) }
{
    read_all(alloc, bytes, reader)
}

fn read_all<A: Allocator + Copy, T: FrameMeaning + Drop, R: FrameReader<A, T>>(
    alloc: A,
    bytes: &[u8],
    reader: &R,
) -> Res<Vec<T, A>>
    ensures { Returns (seen (λ v. map T.see v.items) result)
        (read_list T.codec.read keep (R.kind reader.now) bytes.now) }
{
    let mut list = Vec::with_capacity(alloc, first_capacity(bytes))?;
    for frame in NlasIterator::new(bytes) {
        let frame = frame?;
        // Space is reserved before the value is read, so that the value is built in place: a push that fails would
        // return it.
        list.reserve(1)?;
        let item = reader.read(alloc, &frame)?;
        list.push_reserved(item);
    }
    Ok(list)
}

/// Reads frames that are already cut, each under this kind, or fails with the first fault.
pub fn parse_frames_with<A: Allocator + Copy, T: ParseableParametrized<A> + Drop>(
    alloc: A,
    frames: &[NlaBuffer<'_>],
    kind: &str,
) -> Res<Vec<T, A>>
    ensures found { IfOk result (λ v.
        ReadEach T.codec.read keep kind.now (map frame_of frames.now) (map T.see v.items)) }
    ensures refused { IfRefused result
        (IsFirstRefusal T.codec.read kind.now (map frame_of frames.now)) }
    ensures exact { Returns (seen (λ v. map T.see v.items) result)
        (read_each T.codec.read keep kind.now (whole (map frame_of frames.now))) }
{
    read_frames(alloc, frames, kind)
}

fn read_frames<A: Allocator + Copy, T: ParseableParametrized<A> + Drop>(
    alloc: A,
    frames: &[NlaBuffer<'_>],
    kind: &str,
) -> Res<Vec<T, A>>
    ensures { Returns (seen (λ v. map T.see v.items) result)
        (read_each T.codec.read keep kind.now (whole (map frame_of frames.now))) }
{
    let mut list = Vec::with_capacity(alloc, frames.len())?;
    for frame in frames {
        list.reserve(1)?;
        let item = T::parse_with_param(alloc, frame, kind)?;
        list.push_reserved(item);
    }
    Ok(list)
}

/// The initial capacity of a list of frames: one element for every eight bytes, and at most 16, so that a short list
/// takes one allocation and a wrong guess costs little.
pub fn first_capacity(bytes: &[u8]) -> usize
    ensures { result ≡ min (length bytes.now / 8) 16 }
{
    (bytes.len() / 8).min(16)
}

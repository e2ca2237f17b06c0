//! Traits of values that are read from frames or bytes, and of values that are written as bytes.

ghost use Rattle.std.specs.Prelude.{◌≡◌, ◌↔◌, [], length, IsTrue};
ghost use Rattle.nla_frames.specs.Fault.{Returns, seen};
ghost use Rattle.nla_frames.specs.Buffer.{frame_of};
ghost use Rattle.nla_frames.specs.Emission.{Measures, Writes, HasRoom};

use crate::buffer::NlaBuffer;
use crate::error::Res;
use crate::meaning::{BytesMeaning, FrameMeaning};
use std::alloc::Allocator;

/// A value that is read from a frame, whatever the kind.
pub trait Parseable<A: Allocator>: FrameMeaning {
    /// Reads the frame, or fails with its first fault.
    fn parse(alloc: A, buf: &NlaBuffer<'_>) -> Res<Self>
        ensures { Returns (seen Self.see result) (Self.codec.read [] (frame_of buf.now)) };
}

/// A value that is read from a frame under a kind: the `TCA_KIND` text that was set last before it.
pub trait ParseableParametrized<A: Allocator>: FrameMeaning {
    /// Reads the frame under this kind, or fails with its first fault.
    fn parse_with_param(alloc: A, buf: &NlaBuffer<'_>, kind: &str) -> Res<Self>
        ensures { Returns (seen Self.see result) (Self.codec.read kind.now (frame_of buf.now)) };
}

/// A value that is read from bytes.
pub trait ParseableBytes<A: Allocator>: BytesMeaning {
    /// Reads the bytes, or fails with their first fault.
    fn parse(alloc: A, bytes: &[u8]) -> Res<Self>
        ensures { Returns (seen Self.see result) (Self.codec.read [] bytes.now) };
}

/// A value that is written as bytes.
pub trait Emitable: BytesMeaning {
    /// The encoded length in bytes, or `None` if the value can't be encoded: a payload has more than 65,531 bytes, a
    /// u32 selector has another number of keys than its `nkeys` says, or the total overflows `usize`.
    fn checked_len(&self) -> Option<usize>
        ensures { Measures result (Self.codec.Fits (Self.see self.now))
            (Self.codec.write (Self.see self.now)) };

    /// Writes the value at the front of the buffer. The rest of the buffer is unchanged.
    fn emit(&self, buffer: &mut [u8])
        requires fits { Self.codec.Fits (Self.see self.now) }
        requires room { HasRoom (Self.codec.write (Self.see self.now)) buffer.old }
        ensures written { Writes (Self.codec.write (Self.see self.now)) buffer.old buffer.new }
        ensures typed { Self.codec.Typed (Self.see self.now) };

    /// True if the value can be encoded: no payload has more than 65,531 bytes, every u32 selector has as many keys as
    /// its `nkeys` says, and the total length fits in `usize`.
    final fn fits(&self) -> bool
        ensures { IsTrue result ↔ Self.codec.Fits (Self.see self.now) }
    {
        self.checked_len().is_some()
    }

    /// The encoded length in bytes.
    final fn buffer_len(&self) -> usize
        requires { Self.codec.Fits (Self.see self.now) }
        ensures { result ≡ length (Self.codec.write (Self.see self.now)) }
    {
        self.checked_len().unwrap_or(0)
    }
}

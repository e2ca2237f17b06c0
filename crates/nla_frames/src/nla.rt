//! Writing an attribute.

ghost use Rattle.std.specs.Prelude.{◌≡◌, ◌≤◌, ◌↔◌, ◌+◌, ◌++◌, length, replicate, IsTrue, IsBitSet};
ghost use Rattle.std.specs.Option.{MatchOption};
ghost use Rattle.nla_frames.specs.Frame.{Frame, header, padding, padded, frame_bytes, frame_length};
ghost use Rattle.nla_frames.specs.Emission.{Measures, Writes, HasRoom};

use crate::meaning::FrameMeaning;
use crate::values::write::emit_u16;

/// `NLA_F_NESTED` of `linux/netlink.h`: the payload is a list of attributes.
pub const NLA_F_NESTED: u16 = 0x8000;

/// `NLA_F_NET_BYTEORDER` of `linux/netlink.h`: the payload is big-endian.
pub const NLA_F_NET_BYTEORDER: u16 = 0x4000;

/// `NLA_TYPE_MASK` of `linux/netlink.h`: the bits of `nla_type` that are the type.
pub const NLA_TYPE_MASK: u16 = 0x3FFF;

/// `NLA_HDRLEN` of `linux/netlink.h`: the bytes of `nla_len` and `nla_type`.
pub const NLA_HEADER_SIZE: usize = 4;

/// The maximum length of a value in bytes: `nla_len` is a `u16` and includes the header.
pub const NLA_VALUE_MAX_SIZE: usize = 65531;

/// An attribute that can be written as a frame.
pub trait Nla: FrameMeaning {
    /// `nla_type`: the type and the two flags.
    fn kind(&self) -> u16
        ensures { result ≡ (Self.codec.write (Self.see self.now)).word };

    /// The length of the value in bytes, or `None` if it can't be encoded: it, or a value nested in it, has more than
    /// 65,531 bytes, or a u32 selector in it has another number of keys than its `nkeys` says.
    fn checked_len(&self) -> Option<usize>
        ensures { Measures result (Self.codec.Fits (Self.see self.now))
            (Self.codec.write (Self.see self.now)).value };

    /// Writes the value at the front of the buffer and returns its length.
    fn put_value(&self, buffer: &mut [u8]) -> usize
        requires fits { Self.codec.Fits (Self.see self.now) }
        requires room { HasRoom (Self.codec.write (Self.see self.now)).value buffer.old }
        ensures written { Writes (Self.codec.write (Self.see self.now)).value
            buffer.old buffer.new }
        ensures length { result ≡ length (Self.codec.write (Self.see self.now)).value }
        ensures typed { Self.codec.Typed (Self.see self.now) };

    ghost is_short: { (x : Self.Seen) → Self.codec.Fits x
        → length (Self.codec.write x).value ≤ 65531 };

    /// True if the attribute can be encoded: the value and all nested values have at most 65,531 bytes, and each u32
    /// selector in them has as many keys as its `nkeys` says.
    final fn fits(&self) -> bool
        ensures { IsTrue result ↔ Self.codec.Fits (Self.see self.now) }
    {
        self.checked_len().is_some()
    }

    /// The length of the value in bytes.
    final fn value_len(&self) -> usize
        requires { Self.codec.Fits (Self.see self.now) }
        ensures { result ≡ length (Self.codec.write (Self.see self.now)).value }
    {
        self.checked_len().unwrap_or(0)
    }

    /// True if the word has `NLA_F_NESTED`.
    final fn is_nested(&self) -> bool
        ensures { IsTrue result ↔ IsBitSet (Self.codec.write (Self.see self.now)).word 15 }
    {
        self.kind() & NLA_F_NESTED != 0
    }

    /// True if the word has `NLA_F_NET_BYTEORDER`.
    final fn is_network_byteorder(&self) -> bool
        ensures { IsTrue result ↔ IsBitSet (Self.codec.write (Self.see self.now)).word 14 }
    {
        self.kind() & NLA_F_NET_BYTEORDER != 0
    }

    /// The length of the frame in bytes, padding included.
    #[tactic(auto, using(crate::proofs::FrameBytes::length_frame_bytes))]
    final fn frame_len(&self) -> usize
        requires { Self.codec.Fits (Self.see self.now) }
        ensures parts { result ≡ frame_length (Self.codec.write (Self.see self.now)) }
        ensures bytes { result ≡ length (frame_bytes (Self.codec.write (Self.see self.now))) }
    {
        frame_len_of(self.value_len())
    }

    /// The length of the frame in bytes, padding included, or `None` if the attribute can't be encoded.
    final fn checked_frame_len(&self) -> Option<usize>
        ensures { MatchOption result (Self.codec.Fits (Self.see self.now) → ⊥) (λ n.
            Self.codec.Fits (Self.see self.now)
            × (n ≡ frame_length (Self.codec.write (Self.see self.now)))) }
    {
        match self.checked_len() {
            Some(len) => Some(frame_len_of(len)),
            None => None,
        }
    }

    /// Writes the frame at the front of the buffer, padded with zeros, and returns its length.
    #[tactic(auto, using(crate::proofs::Writing::parts), unfolding(crate::specs::Frame::frame_bytes))]
    final fn put_frame(&self, buffer: &mut [u8]) -> usize
        requires fits { Self.codec.Fits (Self.see self.now) }
        requires room { HasRoom (frame_bytes (Self.codec.write (Self.see self.now))) buffer.old }
        ensures written { Writes (frame_bytes (Self.codec.write (Self.see self.now)))
            buffer.old buffer.new }
        ensures length { result ≡ frame_length (Self.codec.write (Self.see self.now)) }
        ensures typed { Self.codec.Typed (Self.see self.now) }
    {
        // The word comes first, so that the compiler matches on the attribute's type once, for its word and its value.
        let word = self.kind();
        let len = put_padded(&mut buffer[NLA_HEADER_SIZE..], self);
        put_header(buffer, len, word);
        frame_len_of(len)
    }

    /// Writes the value over a buffer of exactly its length.
    final fn emit_value(&self, buffer: &mut [u8])
        requires fits { Self.codec.Fits (Self.see self.now) }
        requires whole { length buffer.old ≡ length (Self.codec.write (Self.see self.now)).value }
        ensures { buffer.new ≡ (Self.codec.write (Self.see self.now)).value }
    {
        self.put_value(buffer);
    }

    /// Writes the frame at the front of the buffer, padded with zeros.
    final fn emit_frame(&self, buffer: &mut [u8])
        requires fits { Self.codec.Fits (Self.see self.now) }
        requires room { HasRoom (frame_bytes (Self.codec.write (Self.see self.now))) buffer.old }
        ensures { Writes (frame_bytes (Self.codec.write (Self.see self.now)))
            buffer.old buffer.new }
    {
        self.put_frame(buffer);
    }
}

/// Writes an attribute's value and its padding, and returns the length of the value.
#[tactic(auto, unfolding(crate::specs::Frame::padded))]
fn put_padded<T: Nla>(buffer: &mut [u8], item: &T) -> usize
    requires fits { T.codec.Fits (T.see item.now) }
    requires room { HasRoom (padded (T.codec.write (T.see item.now)).value) buffer.old }
    ensures written { Writes (padded (T.codec.write (T.see item.now)).value) buffer.old buffer.new }
    ensures length { result ≡ length (T.codec.write (T.see item.now)).value }
    ensures typed { T.codec.Typed (T.see item.now) }
{
    let len = item.put_value(buffer);
    put_zeros(&mut buffer[len..], padding_len(len));
    len
}

/// Writes the header of a frame whose value has `len` bytes.
#[tactic(auto, unfolding(crate::specs::Frame::header))]
fn put_header(buffer: &mut [u8], len: usize, word: u16)
    requires short { len ≤ 65531 }
    requires room { HasRoom (header len word) buffer.old }
    ensures { Writes (header len word) buffer.old buffer.new }
{
    emit_u16(&mut buffer[2..], word);
    emit_u16(buffer, (NLA_HEADER_SIZE + len) as u16);
}

/// Writes `count` zeros without a call: there are at most three, and mostly none.
fn put_zeros(buffer: &mut [u8], count: usize)
    requires few { count ≤ 3 }
    requires room { HasRoom (replicate count 0) buffer.old }
    ensures { Writes (replicate count 0) buffer.old buffer.new }
{
    if count == 0 {
        return;
    }
    buffer[0] = 0;
    if count == 1 {
        return;
    }
    buffer[1] = 0;
    if count == 2 {
        return;
    }
    buffer[2] = 0;
}

/// The length of a frame whose value has `len` bytes, padding included.
fn frame_len_of(len: usize) -> usize
    requires { len ≤ 65531 }
    ensures { result ≡ 4 + len + padding len }
{
    (NLA_HEADER_SIZE + len + 3) / 4 * 4
}

/// The length of the padding after `len` bytes.
fn padding_len(len: usize) -> usize
    ensures { result ≡ padding len }
{
    (4 - len % 4) % 4
}

//! Payloads that nest: lists of attributes, records, or either of two.

ghost use Rattle.std.specs.Prelude.{◌≡◌, ◌≤◌, ◌↔◌, List, ℕ, [], IsTrue, length, map};
ghost use Rattle.std.specs.List.{AllByRecursion};
ghost use Rattle.nla_frames.specs.Reading.{keep};
ghost use Rattle.nla_frames.specs.Emission.{list_bytes, NestedFits, Measures, Writes, HasRoom};
ghost use Rattle.nla_frames.specs.Codec.{SettledEach};
ghost use Rattle.tc_values.specs.Bodies.{either_of, EitherHolds};

use nla_frames::{
    Emitable, NLA_VALUE_MAX_SIZE, Nla, Settle, SettleBytes, list_settled_under, nested_checked_len,
    put_list,
};

/// A nested payload: a list of attributes, a record, or either of two.
pub trait Body {
    // The encoded bytes.
    ghost bytes: { Self → List ℕ };

    // It can be encoded.
    ghost Fits: { Self → Type 0 };

    // Each number in it is in the range of its type, each text is UTF-8.
    ghost Typed: { Self → Type 0 };

    // Encoding it and parsing the bytes under this kind returns it unchanged.
    ghost Settled: { List ℕ → Self → Type 0 };

    /// The encoded length in bytes, or `None` if it can't be encoded.
    fn checked_len(&self) -> Option<usize>
        ensures { Measures result (Self.Fits self.now) (Self.bytes self.now) };

    /// Writes the payload at the front of the buffer and returns its length in bytes.
    fn put(&self, buffer: &mut [u8]) -> usize
        requires fits { Self.Fits self.now }
        requires room { HasRoom (Self.bytes self.now) buffer.old }
        ensures written { Writes (Self.bytes self.now) buffer.old buffer.new }
        ensures length { result ≡ length (Self.bytes self.now) }
        ensures typed { Self.Typed self.now };

    /// True if encoding it and parsing the bytes under this kind returns it unchanged.
    fn is_settled_under(&self, kind: &str) -> bool
        ensures settled { IsTrue result ↔ Self.Settled kind.now self.now }
        ensures typed { IsTrue result → Self.Typed self.now };
}

/// The nested payload of enums whose attributes nest nothing. It has no values.
#[derive(Drop)]
pub struct NoBody {}

impl Body for NoBody {
    ghost bytes = { λ _. [] };

    ghost Fits = { λ _. Unit {0} };

    ghost Typed = { λ _. Unit {0} };

    ghost Settled = { λ _ _. Unit {0} };

    fn checked_len(&self) -> Option<usize> {
        Some(0)
    }

    fn put(&self, _buffer: &mut [u8]) -> usize {
        0
    }

    fn is_settled_under(&self, _kind: &str) -> bool {
        true
    }
}

/// A list of attributes.
#[derive(Drop)]
pub struct Items<'a, T>(pub &'a [T]);

impl<'a, T: Nla + Settle> Body for Items<'a, T> {
    ghost bytes = { λ xs. list_bytes T.codec.write (map T.see xs.0.now) };

    ghost Fits = { λ xs. NestedFits T.codec.Fits T.codec.write (map T.see xs.0.now) };

    ghost Typed = { λ xs. AllByRecursion T.codec.Typed (map T.see xs.0.now) };

    ghost Settled = { λ kind xs. SettledEach T.codec.Settled keep kind (map T.see xs.0.now) };

    fn checked_len(&self) -> Option<usize> {
        nested_checked_len(self.0)
    }

    fn put(&self, buffer: &mut [u8]) -> usize {
        put_list(self.0, buffer)
    }

    fn is_settled_under(&self, kind: &str) -> bool {
        list_settled_under(self.0, kind)
    }
}

/// A record, a selector or statistics: a payload without nested attributes.
#[derive(Drop)]
pub struct Record<'a, R>(pub &'a R);

impl<'a, R: Emitable + SettleBytes> Body for Record<'a, R> {
    ghost bytes = { λ r. R.codec.write (R.see r.0.now) };

    ghost Fits = { λ r. R.codec.Fits (R.see r.0.now)
        × (length (R.codec.write (R.see r.0.now)) ≤ 65531) };

    ghost Typed = { λ r. R.codec.Typed (R.see r.0.now) };

    ghost Settled = { λ kind r. R.codec.Settled kind (R.see r.0.now) };

    fn checked_len(&self) -> Option<usize> {
        match self.0.checked_len() {
            Some(len) if len <= NLA_VALUE_MAX_SIZE => Some(len),
            _ => None,
        }
    }

    #[inline(always)]
    fn put(&self, buffer: &mut [u8]) -> usize {
        self.0.emit(buffer);
        self.0.buffer_len()
    }

    fn is_settled_under(&self, kind: &str) -> bool {
        self.0.is_settled_under(kind)
    }
}

/// Either of two payloads, for enums whose attributes nest both.
#[derive(Drop)]
pub enum Either<L, R> {
    Left(L),
    Right(R),
}

impl<L: Body, R: Body> Body for Either<L, R> {
    ghost bytes = { either_of L.bytes R.bytes };

    ghost Fits = { EitherHolds L.Fits R.Fits };

    ghost Typed = { EitherHolds L.Typed R.Typed };

    ghost Settled = { λ kind. EitherHolds (L.Settled kind) (R.Settled kind) };

    fn checked_len(&self) -> Option<usize> {
        match self {
            Either::Left(body) => body.checked_len(),
            Either::Right(body) => body.checked_len(),
        }
    }

    #[inline(always)]
    fn put(&self, buffer: &mut [u8]) -> usize {
        match self {
            Either::Left(body) => body.put(buffer),
            Either::Right(body) => body.put(buffer),
        }
    }

    fn is_settled_under(&self, kind: &str) -> bool {
        match self {
            Either::Left(body) => body.is_settled_under(kind),
            Either::Right(body) => body.is_settled_under(kind),
        }
    }
}

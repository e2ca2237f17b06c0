//! The bytes of a fixed record, including padding.

ghost use Rattle.std.specs.Prelude.{◌≡◌, length};
ghost use Rattle.nla_frames.specs.Fault.{seen};
ghost use Rattle.tc_meaning.specs.Layout.{fields_bytes};
ghost use Rattle.tc_raw.specs.Buffers.{first_bytes, raw_bytes};

use nla_frames::{DecodeError, Res};
use std::marker::PhantomData;
use tc_records::{FixedRecord, emit_record};

/// The N bytes of a record R, including padding.
#[derive(Drop)]
#[derive_where(PartialEq, Eq, Clone, Debug)]
pub struct Raw<R, const N: usize> {
    bytes: [u8; N],
    of: PhantomData<R>,
}

impl<R, const N: usize> Raw<R, N> {
    /// Copies the bytes at the front and ignores what follows. Fails with `BufferTooSmall` if there are fewer.
    pub fn read_from_prefix(bytes: &[u8]) -> Res<Raw<R, N>>
        ensures { seen raw_bytes result ≡ first_bytes N bytes.now }
    {
        if bytes.len() < N {
            return Err(DecodeError::BufferTooSmall {
                len: bytes.len(),
                needed: N,
            });
        }
        let mut first = [0; N];
        first.copy_from_slice(&bytes[..N]);
        Ok(Raw::of_bytes(first))
    }

    pub(crate) fn of_bytes(bytes: [u8; N]) -> Raw<R, N>
        ensures { raw_bytes result ≡ bytes.entry }
    {
        Raw {
            bytes,
            of: PhantomData,
        }
    }

    /// The bytes as read, or the bytes of the record that this was built from, with zeros for padding.
    pub fn as_bytes(&self) -> [u8; N]
        ensures { result ≡ raw_bytes self.now }
    {
        self.bytes
    }
}

impl<R: FixedRecord<N>, const N: usize> From<&R> for Raw<R, N> {
    ghost from_gives = { λ value raw. raw_bytes raw ≡ fields_bytes R.layout (R.scalars value.now) };

    fn from(value: &R) -> Raw<R, N> {
        value.ref_in_range();
        Raw::of_bytes(record_bytes(value))
    }
}

// The bytes of a record, with zeros for padding.
fn record_bytes<R: FixedRecord<N>, const N: usize>(value: &R) -> [u8; N]
    requires { length (fields_bytes R.layout (R.scalars value.now)) ≡ N }
    ensures { result ≡ fields_bytes R.layout (R.scalars value.now) }
{
    let mut bytes = [0; N];
    emit_record(value, &mut bytes);
    bytes
}

//! The trait of fixed records, and what it provides for each.

ghost use Rattle.std.specs.Prelude.{◌≡◌, ◌≤◌, ◌+◌, ◌++◌, ◌↔◌, IsTrue, Some, List, length};
ghost use Rattle.nla_frames.specs.Fault.{seen};
ghost use Rattle.nla_frames.specs.Emission.{Writes, HasRoom};
ghost use Rattle.tc_canon.specs.Descriptor.{Field};
ghost use Rattle.tc_meaning.specs.Tree.{Scalar};
ghost use Rattle.tc_meaning.specs.Layout.{size_of, read_fields, fields_bytes, TypedFields, SettledFields};
ghost use Rattle.tc_meaning.specs.Content.{read_record};
ghost use Rattle.tc_records.specs.Record.{written, filled, after_fields};

use crate::{Fields, Octets};
use nla_frames::{DecodeError, Res, put_bytes};

/// A record of N bytes: its layout, the abstract values of its fields, and how they are read and written in order.
/// Handles and named numbers are records of one field.
pub trait FixedRecord<const N: usize>: Drop {
    ghost layout: { List Field };

    ghost scalars: { Self → List Scalar };

    /// Reads the fields in order.
    fn read(fields: &mut Fields<'_>) -> Self
        requires { size_of layout ≤ length fields.old.0.now }
        ensures value { scalars result ≡ read_fields layout fields.old.0.now }
        ensures rest { fields.new.0.now ≡ after_fields layout fields.old.0.now }
        ensures left { length fields.old.0.now ≡ size_of layout + length fields.new.0.now };

    /// Writes the fields in order, and zeros for padding.
    fn write(&self, out: &mut Octets)
        requires { filled out.old + size_of layout ≤ 40 }
        ensures written { written out.new
            ≡ written out.old ++ fields_bytes layout (scalars self.now) }
        ensures len { filled out.new ≡ filled out.old + size_of layout };

    /// True if writing and reading it returns it unchanged: if no number in it is an `Other` of a number that has a
    /// name.
    fn is_settled(&self) -> bool
        ensures { IsTrue result ↔ SettledFields layout (scalars self.now) };

    /// A copy, for records that aren't `Copy`.
    fn copied(&self) -> Self
        ensures { result ≡ self.now };

    /// Does nothing. Its contract: each field is in the range of the layout's width and has the layout's names. Records
    /// with equal abstract values are equal, and no record is longer than the scratch array.
    fn in_range(self, other: Self)
        ensures typed { TypedFields layout (scalars self) }
        ensures forgets_nothing { scalars self ≡ scalars other → self ≡ other }
        ensures short { size_of layout ≤ 40 };

    ghost whole: { size_of layout ≡ N };

    /// Does nothing. Its contract is the one of `in_range`, for a reference.
    final fn ref_in_range(&self)
        ensures typed { TypedFields layout (scalars self.now) }
        ensures short { size_of layout ≤ 40 }
    {
        self.copied().in_range(self.copied());
    }
}

/// Parses the record at the front of the payload and ignores what follows. Fails with `BufferTooSmall` if there are
/// fewer bytes.
pub fn parse_record<R: FixedRecord<N>, const N: usize>(payload: &[u8]) -> Res<R>
    ensures { seen R.scalars result ≡ read_record R.layout payload.now }
{
    if payload.len() < N {
        return Err(DecodeError::BufferTooSmall {
            len: payload.len(),
            needed: N,
        });
    }
    Ok(R::read(&mut Fields(payload)))
}

/// The length of a record in bytes: always `Some(N)`.
pub fn record_len<R: FixedRecord<N>, const N: usize>(value: &R) -> Option<usize>
    ensures { result ≡ Some (length (fields_bytes R.layout (R.scalars value.now))) }
{
    value.ref_in_range();
    Some(N)
}

/// Writes a record at the front of the buffer. What follows is unchanged.
pub fn emit_record<R: FixedRecord<N>, const N: usize>(value: &R, buffer: &mut [u8])
    requires { HasRoom (fields_bytes R.layout (R.scalars value.now)) buffer.old }
    ensures written { Writes (fields_bytes R.layout (R.scalars value.now)) buffer.old buffer.new }
    ensures typed { TypedFields R.layout (R.scalars value.now) }
{
    value.ref_in_range();
    let mut out = Octets::new();
    value.write(&mut out);
    put_bytes(buffer, out.as_slice());
}

/// True if writing and reading the record returns it unchanged.
pub fn is_settled_record<R: FixedRecord<N>, const N: usize>(value: &R) -> bool
    ensures settled { IsTrue result ↔ SettledFields R.layout (R.scalars value.now) }
    ensures typed { TypedFields R.layout (R.scalars value.now) }
{
    value.ref_in_range();
    value.is_settled()
}

//! The address family as a field of a record.

ghost use Rattle.std.specs.Prelude.{◌≡◌, ◌∷◌, [], refl};
ghost use Rattle.tc_canon.specs.Descriptor.{named};
ghost use Rattle.tc_canon.specs.Layouts.{address_families};
ghost use Rattle.tc_meaning.specs.Equal.{same_scalar};
ghost use Rattle.tc_records.specs.Numbers.{family_scalar};

use crate::{Fields, FixedRecord, Octets};
use nla_frames::AddressFamily;

impl FixedRecord<1> for AddressFamily {
    ghost layout = { named 1 address_families ∷ [] };

    ghost scalars = { λ family. family_scalar family ∷ [] };

    fn read(fields: &mut Fields<'_>) -> Self {
        Self::from(fields.u8())
    }

    fn write(&self, out: &mut Octets) {
        out.u8(u8::from(*self));
    }

    fn is_settled(&self) -> bool {
        match *self {
            Self::Other(number) => matches!(Self::from(number), Self::Other(_)),
            _ => true,
        }
    }

    fn copied(&self) -> Self {
        *self
    }

    fn in_range(self, _other: Self) {}

    ghost whole = { refl };
}

/// True if both are the same family, or `Other` with the same number.
pub fn same_family(one: AddressFamily, other: AddressFamily) -> bool
    ensures { result ≡ same_scalar (family_scalar one) (family_scalar other) }
{
    match (one, other) {
        (AddressFamily::Other(number), AddressFamily::Other(another)) => number == another,
        (AddressFamily::Other(_), _) | (_, AddressFamily::Other(_)) => false,
        _ => u8::from(one) == u8::from(other),
    }
}

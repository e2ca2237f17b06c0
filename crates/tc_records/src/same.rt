//! Conjunction, as contracts state it.

ghost use Rattle.std.specs.Prelude.{◌≡◌, ◌&&◌};

/// True if both are true. The `==` of a record is a chain of these over its fields that ends in `true`, as in the
/// comparison of abstract values.
pub(crate) fn both(one: bool, other: bool) -> bool
    ensures { result ≡ (one && other) }
{
    one && other
}

//! Tests of whether values read back as themselves: of one attribute under a kind, and of lists, under one kind, under
//! the kind that is set last before each place, and under the one kind that a list sets itself.

ghost use Rattle.std.specs.Prelude.{◌≡◌, ◌↔◌, List, ℕ, [], Option, map, IsTrue};
ghost use Rattle.std.specs.List.{AllByRecursion};
ghost use Rattle.nla_frames.specs.Reading.{keep};
ghost use Rattle.nla_frames.specs.Codec.{SettledEach};
ghost use Rattle.nla_frames.specs.OnlyKind.{SettledUnderOwn};

use crate::meaning::{BytesMeaning, FrameMeaning};
use crate::only_kind::{OnlyKind, SetsKind, kind_then, only_kind_set};

/// An attribute with a test of whether it is settled: whether its bytes read back as itself.
pub trait Settle: FrameMeaning {
    /// True if the attribute's frame, read under this kind, is the attribute again.
    fn is_settled_under(&self, kind: &str) -> bool
        ensures settled { IsTrue result ↔ Self.codec.Settled kind.now (Self.see self.now) }
        ensures typed { IsTrue result → Self.codec.Typed (Self.see self.now) };

    /// True if the attribute's frame, read before any kind is set, is the attribute again.
    final fn is_settled(&self) -> bool
        ensures settled { IsTrue result ↔ Self.codec.Settled [] (Self.see self.now) }
        ensures typed { IsTrue result → Self.codec.Typed (Self.see self.now) }
    {
        self.is_settled_under("")
    }
}

/// A value without a frame of its own, a record or statistics, with a test of whether it is settled.
pub trait SettleBytes: BytesMeaning {
    /// True if its bytes, read under this kind, are the value again.
    fn is_settled_under(&self, kind: &str) -> bool
        ensures settled { IsTrue result ↔ Self.codec.Settled kind.now (Self.see self.now) }
        ensures typed { IsTrue result → Self.codec.Typed (Self.see self.now) };
}

/// True if each attribute is settled under one kind.
pub fn list_settled_under<T: Settle>(items: &[T], kind: &str) -> bool
    ensures settled { IsTrue result
        ↔ SettledEach T.codec.Settled keep kind.now (map T.see items.now) }
    ensures typed { IsTrue result → AllByRecursion T.codec.Typed (map T.see items.now) }
{
    for item in items {
        if !item.is_settled_under(kind) {
            return false;
        }
    }
    true
}

/// True if each attribute is settled under the kind that is set last before its place, or under the empty kind if none
/// is set.
pub fn list_settled_carrying<T: Settle + SetsKind>(items: &[T]) -> bool
    ensures settled { IsTrue result
        ↔ SettledEach (λ kind item. T.codec.Settled kind (T.see item)) T.sets [] items.now }
    ensures typed { IsTrue result → AllByRecursion T.codec.Typed (map T.see items.now) }
{
    let mut in_force = "";
    for item in items {
        if !item.is_settled_under(in_force) {
            return false;
        }
        in_force = kind_then(in_force, item.kind_set());
    }
    true
}

/// True if the list sets one kind, once, and each attribute is settled under it.
pub fn list_settled_own<T: Settle + SetsKind>(items: &[T]) -> bool
    ensures settled { IsTrue result ↔ SettledUnderOwn T.see T.codec.Settled T.sets items.now }
    ensures typed { IsTrue result → AllByRecursion T.codec.Typed (map T.see items.now) }
{
    match only_kind_set(items) {
        OnlyKind::One(kind) => list_settled_under(items, kind),
        _ => false,
    }
}

//! Equality of two attributes of one enum.

ghost use Rattle.std.specs.Prelude.{◌≡◌, ◌&&◌, Bool, true, nat_eq};
ghost use Rattle.std.specs.Cmp.Lexicographic.{pointwise};
ghost use Rattle.tc_values.specs.Same.{holding, in_memory, same_holding, same_value};
ghost use Rattle.tc_values.specs.Bodies.{same_of_either};

use crate::body::{Either, Items, NoBody, Record};
use crate::value::Value;

/// A nested payload that can be compared.
pub trait Same {
    ghost same: { Self → Self → Bool };

    fn same(&self, other: &Self) -> bool
        ensures { result ≡ same self.now other.now };
}

impl Same for NoBody {
    ghost same = { λ _ _. true };

    fn same(&self, _other: &NoBody) -> bool {
        true
    }
}

impl<'a, T: PartialEq> Same for Items<'a, T> {
    ghost same = { λ xs ys. pointwise T.eq xs.0.now ys.0.now };

    fn same(&self, other: &Items<'a, T>) -> bool {
        self.0 == other.0
    }
}

impl<'a, R: PartialEq> Same for Record<'a, R> {
    ghost same = { λ r s. R.eq r.0.now s.0.now };

    fn same(&self, other: &Record<'a, R>) -> bool {
        self.0 == other.0
    }
}

impl<L: Same, R: Same> Same for Either<L, R> {
    ghost same = { same_of_either L.same R.same };

    fn same(&self, other: &Either<L, R>) -> bool {
        match (self, other) {
            (Either::Left(one), Either::Left(another)) => one.same(another),
            (Either::Right(one), Either::Right(another)) => one.same(another),
            _ => false,
        }
    }
}

/// A value without its width, byte order and mask, for comparing.
#[derive(Drop)]
enum Held<'a, N> {
    Flag(bool),
    Number(u32),
    Bytes(&'a [u8]),
    Kept(&'a [u8]),
    Nested(&'a N),
}

impl<'a, N: Same> Held<'a, N> {
    fn same(&self, other: &Held<'a, N>) -> bool
        ensures { result ≡ same_holding N.same (in_memory self.now) (in_memory other.now) }
    {
        match (self, other) {
            (Held::Flag(one), Held::Flag(another)) => one == another,
            (Held::Number(one), Held::Number(another)) => one == another,
            (Held::Bytes(one), Held::Bytes(another)) => one == another,
            (Held::Kept(one), Held::Kept(another)) => one == another,
            (Held::Nested(one), Held::Nested(another)) => one.same(another),
            _ => false,
        }
    }
}

impl<'a, N: Same> Value<'a, N> {
    fn held(&self) -> Held<'_, N>
        ensures { in_memory result ≡ holding self.now }
    {
        match self {
            Value::Presence(is_true) | Value::Truth(is_true) => Held::Flag(*is_true),
            Value::U8(n) | Value::Bits1(n) | Value::Bits3(n) => Held::Number(u32::from(*n)),
            Value::U16(n) | Value::U16Be(n) => Held::Number(u32::from(*n)),
            Value::U32(n) | Value::U32Be(n) | Value::Bits20(n) => Held::Number(*n),
            Value::Octets4(octets) => Held::Bytes(octets),
            Value::Octets6(octets) => Held::Bytes(octets),
            Value::Octets8(octets) => Held::Bytes(octets),
            Value::Octets16(octets) => Held::Bytes(octets),
            Value::Bytes(bytes) => Held::Bytes(bytes),
            Value::Text(text) | Value::Warning(text) => Held::Bytes(text.as_bytes()),
            Value::Kept(bytes) => Held::Kept(bytes),
            Value::Nested(nested) => Held::Nested(nested),
        }
    }
}

/// True if two attributes of one enum are equal, each as its `nla_type` and its value.
pub fn same_row<N: Same>(one: &(u16, Value<'_, N>), other: &(u16, Value<'_, N>)) -> bool
    ensures { result ≡ (nat_eq one.now.0 other.now.0 && same_value N.same one.now.1 other.now.1) }
{
    one.0 == other.0 && one.1.held().same(&other.1.held())
}

//! Selectors with equal abstract values have equal fields.

ghost use Rattle.std.specs.Prelude.{◌≡◌, map};
ghost use Rattle.std.specs.Int.{w16, cast_unsigned};
ghost use Rattle.tc_records.specs.Selector.{key_scalars, selector_of};

use crate::{FixedRecord, TcU32Key, TcU32Selector};
use std::alloc::Allocator;

/// Selectors with equal abstract values have the same fields and the same keys.
pub fn selector_forgets_nothing<A: Allocator>(a: &TcU32Selector<A>, b: &TcU32Selector<A>)
    ensures flags { selector_of a.now ≡ selector_of b.now → a.now.flags ≡ b.now.flags }
    ensures offshift { selector_of a.now ≡ selector_of b.now → a.now.offshift ≡ b.now.offshift }
    ensures nkeys { selector_of a.now ≡ selector_of b.now → a.now.nkeys ≡ b.now.nkeys }
    ensures offmask { selector_of a.now ≡ selector_of b.now → a.now.offmask ≡ b.now.offmask }
    ensures off { selector_of a.now ≡ selector_of b.now → a.now.off ≡ b.now.off }
    ensures offoff { selector_of a.now ≡ selector_of b.now → a.now.offoff ≡ b.now.offoff }
    ensures hoff { selector_of a.now ≡ selector_of b.now → a.now.hoff ≡ b.now.hoff }
    ensures hmask { selector_of a.now ≡ selector_of b.now → a.now.hmask ≡ b.now.hmask }
    ensures keys { selector_of a.now ≡ selector_of b.now → a.now.keys.items ≡ b.now.keys.items }
{
    i16_forgets_nothing(a.offoff, b.offoff);
    i16_forgets_nothing(a.hoff, b.hoff);
    keys_forget_nothing(&a.keys, &b.keys);
}

// Keys with equal abstract values are equal.
fn keys_forget_nothing(a: &[TcU32Key], b: &[TcU32Key])
    ensures { map key_scalars a.now ≡ map key_scalars b.now → a.now ≡ b.now }
{
    if let (Some((x, xs)), Some((y, ys))) = (a.split_first(), b.split_first()) {
        x.copied().in_range(y.copied());
        keys_forget_nothing(xs, ys);
    }
}

// Signed numbers with equal two's complements are equal.
fn i16_forgets_nothing(a: i16, b: i16)
    ensures { cast_unsigned w16 a ≡ cast_unsigned w16 b → a ≡ b }
{}

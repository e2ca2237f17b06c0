//! The options of actions, in the format of the kind.

ghost use Rattle.std.specs.Prelude.{◌≡◌, map};
ghost use Rattle.nla_frames.specs.Fault.{Returns, seen};
ghost use Rattle.nla_frames.specs.Reading.{read_list, keep};
ghost use Rattle.tc_canon.specs.Descriptor.{by_kind, is_known};
ghost use Rattle.tc_canon.specs.Tables.Actions.{action_option_kinds};
ghost use Rattle.tc_values.specs.AttributeWords.{on, Attribute, table_codec, table_short, same_attribute, attribute_equiv, attribute_per};
ghost use Rattle.tc_actions.specs.ActionOption.{action_option};

use crate::actions::mirror::{TcActionMirror, TcActionMirrorOption};
use crate::actions::nat::{TcActionNat, TcActionNatOption};
use crate::actions::one_kind::{Mirror, Nat, TunnelKey};
use crate::actions::tunnel_key::{TcActionTunnelKey, TcActionTunnelKeyOption};
use nla_frames::{
    DefaultNla, FrameMeaning, FrameReader, Nla, NlaBuffer, Parseable, ParseableParametrized, Res,
    Settle, parse_list_by, parse_list_with,
};
use std::alloc::{Allocator, Global};
use tc_values::is_settled_of_kind;

/// One option of an action, in the variant of the action's kind.
#[derive(Drop)]
#[derive_where(Debug)]
#[derive_where(Clone; A)]
pub enum TcActionOption<A: Allocator = Global> {
    /// Under the kind `mirred`.
    Mirror(TcActionMirrorOption<A>),
    /// Under the kind `nat`.
    Nat(TcActionNatOption<A>),
    /// Under the kind `tunnel_key`.
    TunnelKey(TcActionTunnelKeyOption<A>),
    /// Under any other kind.
    Other(DefaultNla<A>),
}

impl<A: Allocator> FrameMeaning for TcActionOption<A> {
    ghost Seen = { Attribute };

    ghost see = { action_option };

    ghost codec = { table_codec (by_kind action_option_kinds) };
}

impl<A: Allocator> ParseableParametrized<A> for TcActionOption<A> {
    fn parse_with_param(alloc: A, buf: &NlaBuffer<'_>, kind: &str) -> Res<TcActionOption<A>> {
        if kind == TcActionMirror::KIND {
            return Mirror.read(alloc, buf);
        }
        if kind == TcActionNat::KIND {
            return Nat.read(alloc, buf);
        }
        if kind == TcActionTunnelKey::KIND {
            return TunnelKey.read(alloc, buf);
        }
        Ok(Self::Other(DefaultNla::parse(alloc, buf)?))
    }
}

/// Reads the options of an action of this kind, or returns the first fault. The kind is compared once, not per option.
pub fn read_options<A: Allocator + Copy>(
    alloc: A,
    bytes: &[u8],
    kind: &str,
) -> Res<Vec<TcActionOption<A>, A>>
    ensures { Returns (seen (λ v. map action_option v.items) result)
        (read_list (table_codec (by_kind action_option_kinds)).read keep kind.now bytes.now) }
{
    if kind == TcActionMirror::KIND {
        return parse_list_by(alloc, bytes, &Mirror);
    }
    if kind == TcActionNat::KIND {
        return parse_list_by(alloc, bytes, &Nat);
    }
    if kind == TcActionTunnelKey::KIND {
        return parse_list_by(alloc, bytes, &TunnelKey);
    }
    parse_list_with(alloc, bytes, kind)
}

// True if options of this kind are typed.
fn is_known_kind(kind: &str) -> bool
    ensures { result ≡ is_known action_option_kinds kind.now }
{
    kind == TcActionMirror::KIND || kind == TcActionNat::KIND || kind == TcActionTunnelKey::KIND
}

impl<A: Allocator> Nla for TcActionOption<A> {
    fn kind(&self) -> u16 {
        match self {
            Self::Mirror(option) => option.kind(),
            Self::Nat(option) => option.kind(),
            Self::TunnelKey(option) => option.kind(),
            Self::Other(nla) => nla.kind(),
        }
    }

    fn checked_len(&self) -> Option<usize> {
        match self {
            Self::Mirror(option) => option.checked_len(),
            Self::Nat(option) => option.checked_len(),
            Self::TunnelKey(option) => option.checked_len(),
            Self::Other(nla) => nla.checked_len(),
        }
    }

    fn put_value(&self, buffer: &mut [u8]) -> usize {
        match self {
            Self::Mirror(option) => option.put_value(buffer),
            Self::Nat(option) => option.put_value(buffer),
            Self::TunnelKey(option) => option.put_value(buffer),
            Self::Other(nla) => nla.put_value(buffer),
        }
    }

    ghost is_short = { table_short (by_kind action_option_kinds) };
}

impl<A: Allocator> Settle for TcActionOption<A> {
    fn is_settled_under(&self, kind: &str) -> bool {
        match self {
            Self::Mirror(option) => is_settled_of_kind(option, TcActionMirror::KIND, kind),
            Self::Nat(option) => is_settled_of_kind(option, TcActionNat::KIND, kind),
            Self::TunnelKey(option) => is_settled_of_kind(option, TcActionTunnelKey::KIND, kind),
            Self::Other(nla) => nla.is_settled_under(kind) && !is_known_kind(kind),
        }
    }
}

impl<A: Allocator> PartialEq for TcActionOption<A> {
    ghost eq = { on action_option same_attribute };

    ghost laws = { attribute_per action_option };

    fn eq(&self, other: &TcActionOption<A>) -> bool {
        match (self, other) {
            (Self::Mirror(one), Self::Mirror(another)) => one == another,
            (Self::Nat(one), Self::Nat(another)) => one == another,
            (Self::TunnelKey(one), Self::TunnelKey(another)) => one == another,
            (Self::Other(one), Self::Other(another)) => one == another,
            _ => false,
        }
    }
}

impl<A: Allocator> Eq for TcActionOption<A> {
    ghost laws = { attribute_equiv action_option };
}

//! Readers of the options of one kind, for lists whose kind is known before their first option.

ghost use Rattle.std.specs.Prelude.{codes};

use crate::actions::mirror::TcActionMirrorOption;
use crate::actions::nat::TcActionNatOption;
use crate::actions::option::TcActionOption;
use crate::actions::tunnel_key::TcActionTunnelKeyOption;
use nla_frames::{FrameReader, NlaBuffer, Parseable, Res};
use std::alloc::Allocator;

/// Reads options of `mirred`.
#[derive(Drop)]
pub(crate) struct Mirror;

impl<A: Allocator> FrameReader<A, TcActionOption<A>> for Mirror {
    ghost kind = { λ _. codes "mirred" };

    #[inline(always)]
    fn read(&self, alloc: A, buf: &NlaBuffer<'_>) -> Res<TcActionOption<A>> {
        Ok(TcActionOption::Mirror(TcActionMirrorOption::parse(alloc, buf)?))
    }
}

/// Reads options of `nat`.
#[derive(Drop)]
pub(crate) struct Nat;

impl<A: Allocator> FrameReader<A, TcActionOption<A>> for Nat {
    ghost kind = { λ _. codes "nat" };

    #[inline(always)]
    fn read(&self, alloc: A, buf: &NlaBuffer<'_>) -> Res<TcActionOption<A>> {
        Ok(TcActionOption::Nat(TcActionNatOption::parse(alloc, buf)?))
    }
}

/// Reads options of `tunnel_key`.
#[derive(Drop)]
pub(crate) struct TunnelKey;

impl<A: Allocator> FrameReader<A, TcActionOption<A>> for TunnelKey {
    ghost kind = { λ _. codes "tunnel_key" };

    #[inline(always)]
    fn read(&self, alloc: A, buf: &NlaBuffer<'_>) -> Res<TcActionOption<A>> {
        Ok(TcActionOption::TunnelKey(TcActionTunnelKeyOption::parse(alloc, buf)?))
    }
}

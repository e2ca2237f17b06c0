//! Canonical fixed records: of the exact length, with their padding zero.

ghost use Rattle.std.specs.Prelude.{◌↔◌, IsTrue};
ghost use Rattle.tc_canon.specs.Layouts.{tc_header, action_message_header, stats, stats_basic, stats_queue, tcf, mirror, nat, tunnel_key};
ghost use Rattle.tc_canon.specs.Canonical.{CanonFields, CanonSelector};

/// `TcHeader`.
pub(crate) fn is_tc_header(bytes: &[u8]) -> bool
    ensures { IsTrue result ↔ CanonFields tc_header bytes.now }
{
    bytes.len() == 20 && bytes[1..4] == [0; 3]
}

/// `TcActionMessageHeader`.
pub(crate) fn is_action_message_header(bytes: &[u8]) -> bool
    ensures { IsTrue result ↔ CanonFields action_message_header bytes.now }
{
    matches!(bytes, [_, 0, 0, 0])
}

/// `TcStats`.
pub(crate) fn is_stats(value: &[u8]) -> bool
    ensures { IsTrue result ↔ CanonFields stats value.now }
{
    value.len() == 40 && value[36..] == [0; 4]
}

/// `TcStatsBasic`.
pub(crate) fn is_stats_basic(value: &[u8]) -> bool
    ensures { IsTrue result ↔ CanonFields stats_basic value.now }
{
    value.len() == 16 && value[12..] == [0; 4]
}

/// `TcStatsQueue`.
pub(crate) fn is_stats_queue(value: &[u8]) -> bool
    ensures { IsTrue result ↔ CanonFields stats_queue value.now }
{
    value.len() == 20
}

/// `Tcf`.
pub(crate) fn is_tcf(value: &[u8]) -> bool
    ensures { IsTrue result ↔ CanonFields tcf value.now }
{
    value.len() == 32
}

/// `TcMirror`.
pub(crate) fn is_mirror(value: &[u8]) -> bool
    ensures { IsTrue result ↔ CanonFields mirror value.now }
{
    value.len() == 28
}

/// `TcNat`.
pub(crate) fn is_nat(value: &[u8]) -> bool
    ensures { IsTrue result ↔ CanonFields nat value.now }
{
    value.len() == 36
}

/// `TcTunnelKey`.
pub(crate) fn is_tunnel_key(value: &[u8]) -> bool
    ensures { IsTrue result ↔ CanonFields tunnel_key value.now }
{
    value.len() == 24
}

/// `TcU32Selector`, with exactly as many keys as its `nkeys` says.
pub(crate) fn is_selector(value: &[u8]) -> bool
    ensures { IsTrue result ↔ CanonSelector value.now }
{
    match value {
        [_, _, keys, 0, ..] => value.len() == 16 + 16 * *keys as usize,
        _ => false,
    }
}

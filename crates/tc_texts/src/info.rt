//! `tcm_info` of a filter: a priority and a protocol.

ghost use Rattle.std.specs.Prelude.{◌≡◌};
ghost use Rattle.tc_texts.specs.Info.{filter_info, priority_of, protocol_of};

/// `tcm_info` of a priority and a protocol (EtherType, 0x0800 for IPv4): the priority in the upper half, the protocol's
/// two bytes, swapped, in the lower, as on a little-endian machine.
pub fn filter_info(priority: u16, protocol: u16) -> u32
    ensures { result ≡ filter_info priority protocol }
{
    priority as u32 * 0x10000 + protocol.swap_bytes() as u32
}

/// The priority in a filter's `tcm_info`.
pub fn info_priority(info: u32) -> u16
    ensures { result ≡ priority_of info }
{
    (info / 0x10000) as u16
}

/// The protocol in a filter's `tcm_info` (EtherType).
pub fn info_protocol(info: u32) -> u16
    ensures { result ≡ protocol_of info }
{
    ((info % 0x10000) as u16).swap_bytes()
}

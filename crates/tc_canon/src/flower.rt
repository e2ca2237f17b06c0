//! The options of flower.

ghost use Rattle.std.specs.Prelude.{◌≡◌, ◌↔◌, List, ℕ, IsTrue};
ghost use Rattle.tc_canon.specs.Widths.{width_at, look_up};
ghost use Rattle.tc_canon.specs.Descriptor.{table, list_of};
ghost use Rattle.tc_canon.specs.Tables.Flower.{lse_options, mpls_options, flower_options};
ghost use Rattle.tc_canon.specs.Canonical.{CanonTable, CanonClass};

use crate::actions::Actions;
use crate::contents::{is_nested, is_plain, is_terminated, is_u8_below, is_u32_below};
use crate::lists::{Table, is_canonical_list};
use nla_frames::NlaBuffer;

/// `TcFilterFlowerMplsLseOption`.
struct LseOptions;

impl Table for LseOptions {
    ghost Canon = { CanonTable (table lse_options) };

    fn is_canonical(_kind: &[u8], frame: &NlaBuffer<'_>) -> bool {
        let value = frame.value();
        match frame.kind() {
            1..=4 => is_plain(frame) && value.len() == 1, // LseDepth, LseTtl, LseBos, LseTc
            5 => is_plain(frame) && is_u32_below(value, 1 << 20), // LseLabel
            _ => true,
        }
    }
}

/// `TcFilterFlowerMplsOption`.
struct MplsOptions;

impl Table for MplsOptions {
    ghost Canon = { CanonTable (table mpls_options) };

    fn is_canonical(kind: &[u8], frame: &NlaBuffer<'_>) -> bool {
        match frame.kind() {
            1 => is_nested(frame) && is_canonical_list::<LseOptions>(frame.value(), kind), // Lse
            _ => true,
        }
    }
}

/// True if a value is a canonical list of the options of one MPLS label stack entry, which is the same under every kind.
pub fn canon_lse(value: &[u8]) -> bool
    ensures { (kind : List ℕ)
        → IsTrue result ↔ CanonClass (list_of (table lse_options)) kind value.now }
{
    is_canonical_list::<LseOptions>(value, &[])
}

/// True if a value is a canonical list of MPLS options, which is the same under every kind.
pub fn canon_mpls(value: &[u8]) -> bool
    ensures { (kind : List ℕ)
        → IsTrue result ↔ CanonClass (list_of (table mpls_options)) kind value.now }
{
    is_canonical_list::<MplsOptions>(value, &[])
}

/// Options that are numbers, addresses and arrays: the first and last type of a range, and the length of their values.
const WIDTHS: [(u16, u16, usize); 30] = [
    (4, 7, 6), // EthDst to EthSrcMask
    (8, 8, 2), // EthType
    (9, 9, 1), // IpProto
    (10, 13, 4), // Ipv4Src to Ipv4DstMask
    (14, 17, 16), // Ipv6Src to Ipv6DstMask
    (18, 21, 2), // TcpSrc to UdpDst
    (22, 22, 4), // Flags
    (23, 23, 2), // VlanId
    (24, 24, 1), // VlanPrio
    (25, 25, 2), // VlanEthType
    (26, 30, 4), // EncKeyId, EncKeyIpv4Src to EncKeyIpv4DstMask
    (31, 34, 16), // EncKeyIpv6Src to EncKeyIpv6DstMask
    (35, 46, 2), // TcpSrcMask to EncKeyUdpDstPortMask
    (47, 48, 4), // KeyFlags, KeyFlagsMask
    (49, 56, 1), // Icmpv4Code to Icmpv6TypeMask
    (57, 60, 4), // ArpSip to ArpTipMask
    (61, 62, 1), // ArpOp, ArpOpMask
    (63, 66, 6), // ArpSha to ArpThaMask
    (67, 67, 1), // MplsTtl
    (71, 72, 2), // TcpFlags, TcpFlagsMask
    (73, 76, 1), // IpTos to IpTtlMask
    (77, 77, 2), // CvlanId
    (78, 78, 1), // CvlanPrio
    (79, 79, 2), // CvlanEthType
    (80, 83, 1), // EncKeyIpTos to EncKeyIpTtlMask
    (86, 86, 4), // InHwCount
    (87, 94, 2), // PortSrcMin to CtZoneMask
    (95, 96, 4), // CtMark, CtMarkMask
    (97, 98, 16), // CtLabels, CtLabelsMask
    (100, 101, 4), // KeyHash, KeyHashMask
];

/// The length of the value of a number, an address or an array. `None` for other options.
fn width_of(kind: u16) -> Option<usize>
    ensures { result ≡ width_at flower_options kind }
{
    find_width(&WIDTHS, kind)
}

/// The length of the first range that has the type.
#[tactic(auto, unfolding(crate::specs::Widths::look_up))]
fn find_width(ranges: &[(u16, u16, usize)], kind: u16) -> Option<usize>
    ensures { result ≡ look_up ranges.now kind }
{
    for (first, last, bytes) in ranges {
        if *first <= kind && kind <= *last {
            return Some(*bytes);
        }
    }
    None
}

/// `TcFilterFlowerOption`.
pub(crate) struct FlowerOptions;

impl Table for FlowerOptions {
    ghost Canon = { CanonTable (table flower_options) };

    fn is_canonical(kind: &[u8], frame: &NlaBuffer<'_>) -> bool {
        let value = frame.value();
        match frame.kind() {
            2 => is_plain(frame) && is_terminated(value), // InDev
            3 => is_plain(frame) && is_canonical_list::<Actions>(value, kind), // Actions
            68 => is_plain(frame) && is_u8_below(value, 1 << 1), // MplsBos
            69 => is_plain(frame) && is_u8_below(value, 1 << 3), // MplsTc
            70 => is_plain(frame) && is_u32_below(value, 1 << 20), // MplsLabel
            99 => is_nested(frame) && is_canonical_list::<MplsOptions>(value, kind), // MplsOpts
            other => match width_of(other) {
                Some(bytes) => is_plain(frame) && value.len() == bytes,
                None => true,
            },
        }
    }
}

//! Address families.

ghost use Rattle.std.specs.Prelude.{◌≡◌};
ghost use Rattle.nla_frames.specs.Family.{family_of, number_of};

/// An address family, one byte in a message: `AF_*` of `linux/socket.h`.
#[derive(PartialEq, Eq, Clone, Copy, Default, Debug)]
pub enum AddressFamily {
    /// `AF_UNSPEC`, 0: unspecified.
    #[default]
    Unspec,

    /// `AF_UNIX`, 1: local sockets.
    Unix,

    /// `AF_INET`, 2: IPv4.
    Inet,

    /// `AF_BRIDGE`, 7: Ethernet bridges.
    Bridge,

    /// `AF_INET6`, 10: IPv6.
    Inet6,

    /// `AF_NETLINK`, 16: netlink.
    Netlink,

    /// `AF_PACKET`, 17: packets at the device.
    Packet,

    /// `AF_MPLS`, 28: MPLS.
    Mpls,

    /// Any other number.
    Other(u8),
}

impl From<u8> for AddressFamily {
    ghost from_gives = { λ number family. family ≡ family_of number };

    fn from(number: u8) -> AddressFamily {
        match number {
            0 => AddressFamily::Unspec,
            1 => AddressFamily::Unix,
            2 => AddressFamily::Inet,
            7 => AddressFamily::Bridge,
            10 => AddressFamily::Inet6,
            16 => AddressFamily::Netlink,
            17 => AddressFamily::Packet,
            28 => AddressFamily::Mpls,
            other => AddressFamily::Other(other),
        }
    }
}

impl From<AddressFamily> for u8 {
    ghost from_gives = { λ family number. number ≡ number_of family };

    fn from(family: AddressFamily) -> u8 {
        match family {
            AddressFamily::Unspec => 0,
            AddressFamily::Unix => 1,
            AddressFamily::Inet => 2,
            AddressFamily::Bridge => 7,
            AddressFamily::Inet6 => 10,
            AddressFamily::Netlink => 16,
            AddressFamily::Packet => 17,
            AddressFamily::Mpls => 28,
            AddressFamily::Other(number) => number,
        }
    }
}

//! Records, numbers and flags.

use bitflags::Flags;
use nla_frames::{DecodeError, Emitable};
use std::net::Ipv4Addr;
use std::test::Fail;
use tc_raw::{TcNatBuffer, TcStatsBasicBuffer};
use tc_records::{
    TcActionGeneric, TcActionType, TcHandle, TcMirror, TcNat, TcNatFlags, TcStatsBasic,
};

#[test]
fn the_raw_buffer_alone_keeps_padding(rt: HostRuntime) -> Result<(), Fail> {
    #[rattlefmt::skip]
    let bytes = [1, 0, 0, 0, 0, 0, 0, 0, 2, 0, 0, 0, 0xaa, 0xbb, 0xcc, 0xdd, 0xee];
    let stats = TcStatsBasic::parse(&bytes)?;
    assert!(rt; stats.bytes == 1 && stats.packets == 2);
    let read = TcStatsBasicBuffer::read_from_prefix(&bytes)?;
    assert!(rt; &read.as_bytes()[..] == &bytes[..16]);
    let made = TcStatsBasicBuffer::from(&stats).as_bytes();
    assert!(rt; made == [1, 0, 0, 0, 0, 0, 0, 0, 2, 0, 0, 0, 0, 0, 0, 0]);
    Ok(())
}

#[test]
fn a_translation_has_36_bytes(rt: HostRuntime) -> Result<(), Fail> {
    #[rattlefmt::skip]
    let bytes = [
        1, 0, 0, 0, 0, 0, 0, 0, 0xff, 0xff, 0xff, 0xff, 1, 0, 0, 0, 0, 0, 0, 0,
        10, 0, 0, 1, 10, 0, 0, 2, 0xff, 0xff, 0xff, 0xff, 1, 0, 4, 0,
    ];
    let nat = TcNat {
        generic: TcActionGeneric {
            index: 1,
            capab: 0,
            action: TcActionType::Unspec,
            refcnt: 1,
            bindcnt: 0,
        },
        old_addr: Ipv4Addr::new(10, 0, 0, 1),
        new_addr: Ipv4Addr::new(10, 0, 0, 2),
        mask: Ipv4Addr::new(255, 255, 255, 255),
        flags: TcNatFlags::Egress.union(TcNatFlags::Replace),
    };
    let mut buffer = [0x55; 36];
    nat.emit(&mut buffer);
    assert!(rt; buffer == bytes);
    assert!(rt; TcNatBuffer::from(&nat).as_bytes() == bytes);
    assert!(rt; TcNat::parse(&bytes)? == nat);
    Ok(())
}

#[test]
fn numbers_and_flags_stay(rt: HostRuntime) -> Result<(), Fail> {
    let action = TcActionType::from(9);
    assert!(rt; action == TcActionType::Other(9));
    assert!(rt; i32::from(action) == 9);
    let flags = TcNatFlags::from_bits(0x8000_0000).ok_or("flags of any bit")?;
    assert!(rt; flags.bits() == 0x8000_0000);
    let short = DecodeError::BufferTooSmall {
        len: 20,
        needed: 28,
    };
    assert!(rt; TcMirror::parse(&[0; 20]).err() == Some(short));
    let ingress = TcHandle::from(0xFFFF_FFF1);
    assert!(rt; ingress == TcHandle::INGRESS);
    assert!(rt; format!(in rt.alloc(); "{ingress}")?.as_str() == "65535:65521");
    Ok(())
}

//! Flower's options: types that aren't read, options that are written as other bytes, and which are settled. `rust/conjareho/tests/known` has the
//! known answer of each.

use crate::tables::{are_known, is_attribute, settles};
use nla_frames::{DefaultNla, Settle};
use std::alloc::Global;
use std::test::Fail;
use tc_flower::{TcFilterFlowerMplsLseOption, TcFilterFlowerMplsOption, TcFilterFlowerOption};

/// Types that aren't read, words with another flag, and numbers of which not every bit is written.
static OTHERS: &str = r#"
0600080008000000 | EthType(2048)
0600170064000000 | VlanId(100)
08002f0000000001 | KeyFlags(1)
06005d0007000000 | CtZone(7)
08001a0000000064 | EncKeyId(100)
0800010001000000 | Other(DefaultNla { word: 1, value: [1, 0, 0, 0] })
0500540001000000 | Other(DefaultNla { word: 84, value: [1] })
0500550001000000 | Other(DefaultNla { word: 85, value: [1] })
0600174064000000 | VlanId(100) | 0600170064000000
180063001400018005000100010000000800050045230100 | MplsOpts([Lse([LseDepth(1), LseLabel(74565)])]) | 180063801400018005000100010000000800050045230100
180063801400010005000100010000000800050045230100 | MplsOpts([Lse([LseDepth(1), LseLabel(74565)])]) | 180063801400018005000100010000000800050045230100
0500440003000000 | MplsBos(3) | 0500440001000000
050045000f000000 | MplsTc(15) | 0500450007000000
080046004523f1ff | MplsLabel(4293993285) | 0800460045230100
100063800c000180080005004523f1ff | MplsOpts([Lse([LseLabel(4293993285)])]) | 100063800c0001800800050045230100
"#;

#[test]
fn options(rt: HostRuntime) -> Result<(), Fail> {
    are_known::<TcFilterFlowerOption>(rt.alloc(), OTHERS)
}

/// True if an option is settled.
fn is_settled(option: TcFilterFlowerOption) -> bool {
    option.is_settled()
}

// True if a class is written as it has to be.
fn is_class(alloc: Global, class_id: TcFilterFlowerOption) -> bool {
    is_attribute(alloc, &class_id, "ClassId(1)", "08000100 01000000")
}

// A class is written, and read as an attribute of an unknown type.
#[test]
fn class_id(rt: HostRuntime) {
    assert!(rt; is_class(rt.alloc(), TcFilterFlowerOption::ClassId(1)));
    assert!(rt; !is_settled(TcFilterFlowerOption::ClassId(1)));
}

/// An attribute that is kept raw, of this type and without a payload.
fn kept(alloc: Global, word: u16) -> DefaultNla {
    DefaultNla::new(word, Vec::new(alloc))
}

#[test]
fn settled(rt: HostRuntime) {
    let alloc = rt.alloc();
    assert!(rt; is_settled(TcFilterFlowerOption::MplsBos(1)));
    assert!(rt; !is_settled(TcFilterFlowerOption::MplsBos(2)));
    assert!(rt; is_settled(TcFilterFlowerOption::MplsTc(7)));
    assert!(rt; !is_settled(TcFilterFlowerOption::MplsTc(8)));
    assert!(rt; is_settled(TcFilterFlowerOption::MplsLabel(0xf_ffff)));
    assert!(rt; !is_settled(TcFilterFlowerOption::MplsLabel(0x10_0000)));
    assert!(rt; is_settled(TcFilterFlowerOption::Other(kept(alloc, 84))));
    assert!(rt; is_settled(TcFilterFlowerOption::Other(kept(alloc, 1))));
    assert!(rt; !is_settled(TcFilterFlowerOption::Other(kept(alloc, 101))));
}

#[test]
fn settled_labels(rt: HostRuntime) {
    assert!(rt; settles(TcFilterFlowerMplsLseOption::<Global>::LseBos(255)));
    assert!(rt; settles(TcFilterFlowerMplsLseOption::<Global>::LseTc(255)));
    assert!(rt; !settles(TcFilterFlowerMplsLseOption::<Global>::LseLabel(0x10_0000)));
    assert!(rt; !settles(TcFilterFlowerMplsOption::Other(kept(rt.alloc(), 1))));
}

//! The sizes of values in memory: a list has a place of this size for each element.

use std::mem::size_of;
use tc_wire::{
    TcActionAttribute, TcActionOption, TcAttribute, TcFilterBpfOption, TcFilterFlowerOption,
    TcFilterMatchAllOption, TcFilterU32Option, TcOption, TcQdiscFqCodelOption,
    TcQdiscIngressOption,
};

#[test]
fn of_options_and_attributes(rt: HostRuntime) {
    assert!(rt; size_of::<TcQdiscFqCodelOption>() == 40);
    assert!(rt; size_of::<TcQdiscIngressOption>() == 40);
    assert!(rt; size_of::<TcFilterFlowerOption>() == 40);
    assert!(rt; size_of::<TcFilterU32Option>() == 48);
    assert!(rt; size_of::<TcFilterMatchAllOption>() == 40);
    assert!(rt; size_of::<TcFilterBpfOption>() == 40);
    assert!(rt; size_of::<TcOption>() == 56);
    assert!(rt; size_of::<TcAttribute>() == 56);
    assert!(rt; size_of::<TcActionOption>() == 56);
    assert!(rt; size_of::<TcActionAttribute>() == 40);
}

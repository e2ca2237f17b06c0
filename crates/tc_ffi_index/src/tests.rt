//! Known answers of the exports.

use crate::index::{vtc_action_index, vtc_index};
use crate::next::{VtcAttr, vtc_next};
use crate::node::VtcNode;
use crate::verdicts::{vtc_action_is_canonical, vtc_is_canonical};

// An fq_codel qdisc with a limit of 10240 packets.
const FQ_CODEL: [u8; 48] = [
    0, 0, 0, 0, 2, 0, 0, 0, 0, 0, 1, 0, 255, 255, 255, 255, 0, 0, 0, 0, 13, 0, 1, 0, 102, 113, 95,
    99, 111, 100, 101, 108, 0, 0, 0, 0, 12, 0, 2, 0, 8, 0, 2, 0, 0, 40, 0, 0,
];

// An action message with a nat action.
const NAT: [u8; 20] = [
    0, 0, 0, 0, 16, 0, 1, 0, 12, 0, 1, 0, 8, 0, 1, 0, 110, 97, 116, 0,
];

const EMPTY: VtcNode = VtcNode {
    offset: 0,
    len: 0,
    word: 0,
    table: 255,
    depth: 0,
};

#[test]
fn index_of_a_qdisc(rt: HostRuntime) {
    let mut slots = [EMPTY; 4];
    assert!(rt; vtc_is_canonical(&FQ_CODEL) == 1);
    assert!(rt; vtc_index(&FQ_CODEL, &mut slots) == 3);
    let option = slots[2];
    assert!(rt; option.offset == 44 && option.len == 4 && option.word == 2);
    assert!(rt; option.table == 10 && option.depth == 1 && slots[3].table == 255);
    let mut one = [EMPTY; 1];
    assert!(rt; vtc_index(&FQ_CODEL, &mut one) == 3 && one[0].len == 9);
}

#[test]
fn index_of_actions(rt: HostRuntime) {
    let mut slots = [EMPTY; 4];
    assert!(rt; vtc_action_is_canonical(&NAT) == 1);
    assert!(rt; vtc_action_index(&NAT, &mut slots) == 3);
    assert!(rt;
        slots[0].table == 1 && slots[1].table == 3 && slots[2].table == 4 && slots[2].offset == 16
    );
}

#[test]
fn next_attributes(rt: HostRuntime) {
    let mut attr = VtcAttr {
        offset: 0,
        len: 0,
        word: 0,
    };
    let mut at = 20;
    assert!(rt; vtc_next(&FQ_CODEL, &mut at, &mut attr) == 0);
    assert!(rt; at == 36 && attr.offset == 24 && attr.len == 9 && attr.word == 1);
    at = 46;
    assert!(rt; vtc_next(&FQ_CODEL, &mut at, &mut attr) == 2 && at == 46);
    at = 48;
    assert!(rt; vtc_next(&FQ_CODEL, &mut at, &mut attr) == 14);
}

// Bytes that are no message: not canonical, and shorter than the header no attribute either.
#[test]
fn no_message(rt: HostRuntime) {
    let mut slots = [EMPTY; 4];
    assert!(rt; vtc_is_canonical(&FQ_CODEL[..47]) == 0);
    assert!(rt; vtc_action_is_canonical(&NAT[..19]) == 0);
    assert!(rt; vtc_index(&FQ_CODEL[..19], &mut slots) == 0);
    assert!(rt; vtc_action_index(&NAT[..3], &mut slots) == 0);
    assert!(rt; slots[0].table == 255);
}

//! Known answers of the exports. The JSON is written by `model/`, which shares nothing with the crates.

use crate::action::{
    vtc_action_check, vtc_action_json, vtc_action_make, vtc_action_make_as_given,
    vtc_action_rewrite, vtc_action_settle,
};
use crate::tc::{vtc_check, vtc_json, vtc_make, vtc_make_as_given, vtc_rewrite, vtc_settle};
use crate::verdict::{VtcFault, VtcVerdict};

// An fq_codel qdisc with a limit of 10240 packets.
const FQ_CODEL: [u8; 48] = [
    0, 0, 0, 0, 2, 0, 0, 0, 0, 0, 1, 0, 255, 255, 255, 255, 0, 0, 0, 0, 13, 0, 1, 0, 102, 113, 95,
    99, 111, 100, 101, 108, 0, 0, 0, 0, 12, 0, 2, 0, 8, 0, 2, 0, 0, 40, 0, 0,
];

const FQ_CODEL_JSON: &[u8] =
    br#"{"header":{"family":"Unspec","index":2,"handle":"1:","parent":"root","info":0},"attributes":[{"Kind":"fq_codel"},{"Options":[{"FqCodel":{"Limit":10240}}]}]}"#;

// An action message with a nat action.
const NAT: [u8; 20] = [
    0, 0, 0, 0, 16, 0, 1, 0, 12, 0, 1, 0, 8, 0, 1, 0, 110, 97, 116, 0,
];

const NAT_JSON: &[u8] =
    br#"{"header":{"family":"Unspec"},"attributes":[{"Actions":[{"tab":1,"attributes":[{"Kind":"nat"}]}]}]}"#;

const NO_VERDICT: VtcVerdict = VtcVerdict {
    length: 0,
    fits: 9,
    settled: 9,
    canonical: 9,
};

const NO_FAULT: VtcFault = VtcFault {
    first: 0,
    second: 0,
    offset: 0,
};

fn is_good(verdict: &VtcVerdict, length: usize) -> bool {
    verdict.length == length && verdict.fits == 1 && verdict.settled == 1 && verdict.canonical == 1
}

#[test]
fn verdicts(rt: HostRuntime) {
    let (mut verdict, mut fault) = (NO_VERDICT, NO_FAULT);
    assert!(rt; vtc_check(rt.alloc(), &FQ_CODEL, &mut verdict, &mut fault) == 0);
    assert!(rt; is_good(&verdict, 48));
    assert!(rt; vtc_action_check(rt.alloc(), &NAT, &mut verdict, &mut fault) == 0);
    assert!(rt; is_good(&verdict, 20));
    // `VTC_BUFFER_TOO_SMALL`: a header takes 20 bytes.
    assert!(rt; vtc_check(rt.alloc(), &FQ_CODEL[..19], &mut verdict, &mut fault) == 1);
    assert!(rt; fault.first == 19 && fault.second == 20 && fault.offset == 0);
}

#[test]
fn rewritten(rt: HostRuntime) {
    let (mut buffer, mut length) = ([0u8; 64], 0);
    assert!(rt; vtc_rewrite(rt.alloc(), &FQ_CODEL, &mut buffer, &mut length) == 0);
    assert!(rt; buffer[..length] == FQ_CODEL[..]);
    assert!(rt; vtc_action_rewrite(rt.alloc(), &NAT, &mut buffer, &mut length) == 0);
    assert!(rt; buffer[..length] == NAT[..]);
}

#[test]
fn settled(rt: HostRuntime) {
    let (mut buffer, mut length, mut rewrites) = ([0u8; 64], 0, 9);
    assert!(rt;
        vtc_settle(
            rt.alloc(),
            &FQ_CODEL,
            &mut buffer,
            &mut length,
            &mut rewrites
        ) == 0
            && rewrites == 0
    );
    assert!(rt; buffer[..length] == FQ_CODEL[..]);
    assert!(rt;
        vtc_action_settle(rt.alloc(), &NAT, &mut buffer, &mut length, &mut rewrites) == 0
            && rewrites == 0
    );
    assert!(rt; buffer[..length] == NAT[..]);
}

#[test]
fn shown(rt: HostRuntime) {
    let (mut buffer, mut length) = ([0u8; 256], 0);
    assert!(rt; vtc_json(rt.alloc(), &FQ_CODEL, &mut buffer, &mut length) == 0);
    assert!(rt; &buffer[..length] == FQ_CODEL_JSON);
    assert!(rt; vtc_action_json(rt.alloc(), &NAT, &mut buffer, &mut length) == 0);
    assert!(rt; &buffer[..length] == NAT_JSON);
}

#[test]
fn made(rt: HostRuntime) {
    let (mut buffer, mut length) = ([0u8; 64], 0);
    let (mut why, mut why_length) = ([0u8; 64], 9);
    assert!(rt;
        vtc_make(
            rt.alloc(),
            FQ_CODEL_JSON,
            &mut buffer,
            &mut length,
            &mut why,
            &mut why_length
        ) == 0
            && why_length == 0
    );
    assert!(rt; buffer[..length] == FQ_CODEL[..]);
    assert!(rt;
        vtc_action_make(
            rt.alloc(),
            NAT_JSON,
            &mut buffer,
            &mut length,
            &mut why,
            &mut why_length
        ) == 0
    );
    assert!(rt; buffer[..length] == NAT[..]);
}

#[test]
fn made_as_given(rt: HostRuntime) {
    let (mut buffer, mut length) = ([0u8; 64], 0);
    let (mut why, mut why_length) = ([0u8; 64], 9);
    let given = br#"{"raw":"00ff"}"#;
    assert!(rt;
        vtc_make_as_given(
            rt.alloc(),
            given,
            &mut buffer,
            &mut length,
            &mut why,
            &mut why_length
        ) == 0
    );
    assert!(rt; buffer[..length] == [0u8, 255][..]);
    assert!(rt;
        vtc_action_make_as_given(
            rt.alloc(),
            NAT_JSON,
            &mut buffer,
            &mut length,
            &mut why,
            &mut why_length,
        ) == 0
    );
    assert!(rt; buffer[..length] == NAT[..]);
}

// `VTC_NOT_JSON` and `VTC_NO_MESSAGE` say why, and leave the buffer.
#[test]
fn not_made(rt: HostRuntime) {
    let (mut buffer, mut length) = ([7u8; 64], 0);
    let (mut why, mut why_length) = ([0u8; 64], 9);
    assert!(rt;
        vtc_make(
            rt.alloc(),
            b"{",
            &mut buffer,
            &mut length,
            &mut why,
            &mut why_length
        ) == 15
            && why_length > 0
    );
    let text = br#"{"header":{"family":"Unspec"},"attributes":7}"#;
    assert!(rt;
        vtc_action_make(
            rt.alloc(),
            text,
            &mut buffer,
            &mut length,
            &mut why,
            &mut why_length
        ) == 16
    );
    assert!(rt; &why[..why_length] == b"/attributes: found 7, wanted a list".as_slice());
    assert!(rt; buffer == [7u8; 64]);
}

// Bytes that can't be read: the status of their first fault, and an unchanged buffer.
#[test]
fn not_read(rt: HostRuntime) {
    let (mut verdict, mut fault) = (NO_VERDICT, NO_FAULT);
    let (mut buffer, mut length, mut rewrites) = ([7u8; 64], 0, 9);
    // `VTC_FRAME_TOO_LONG`: 15 bytes are left for an attribute of 16.
    assert!(rt; vtc_action_check(rt.alloc(), &NAT[..19], &mut verdict, &mut fault) == 3);
    assert!(rt; fault.first == 16 && fault.second == 15 && fault.offset == 4);
    assert!(rt; verdict.fits == 9);
    assert!(rt; vtc_rewrite(rt.alloc(), &FQ_CODEL[..19], &mut buffer, &mut length) == 1);
    assert!(rt; vtc_action_rewrite(rt.alloc(), &NAT[..19], &mut buffer, &mut length) == 3);
    assert!(rt;
        vtc_settle(
            rt.alloc(),
            &FQ_CODEL[..19],
            &mut buffer,
            &mut length,
            &mut rewrites
        ) == 1
    );
    assert!(rt;
        vtc_action_settle(
            rt.alloc(),
            &NAT[..19],
            &mut buffer,
            &mut length,
            &mut rewrites
        ) == 3
    );
    assert!(rt; buffer == [7u8; 64]);
}

// `VTC_NO_ROOM`: the length that is needed, and an unchanged buffer.
#[test]
fn no_room(rt: HostRuntime) {
    let (mut buffer, mut length, mut rewrites) = ([7u8; 19], 0, 9);
    assert!(rt; vtc_rewrite(rt.alloc(), &FQ_CODEL, &mut buffer, &mut length) == 13);
    assert!(rt; length == 48);
    assert!(rt; vtc_action_rewrite(rt.alloc(), &NAT, &mut buffer, &mut length) == 13);
    assert!(rt; length == 20);
    assert!(rt;
        vtc_settle(
            rt.alloc(),
            &FQ_CODEL,
            &mut buffer,
            &mut length,
            &mut rewrites
        ) == 13
            && rewrites == 0
    );
    assert!(rt; length == 48);
    assert!(rt; vtc_action_settle(rt.alloc(), &NAT, &mut buffer, &mut length, &mut rewrites) == 13);
    assert!(rt; length == 20);
    assert!(rt; vtc_json(rt.alloc(), &FQ_CODEL, &mut buffer, &mut length) == 13);
    assert!(rt; length == FQ_CODEL_JSON.len());
    assert!(rt; vtc_action_json(rt.alloc(), &NAT, &mut buffer, &mut length) == 13);
    assert!(rt; length == NAT_JSON.len());
    assert!(rt; buffer == [7u8; 19]);
}

#[test]
fn not_made_as_given(rt: HostRuntime) {
    let (mut buffer, mut length) = ([7u8; 64], 0);
    let (mut why, mut why_length) = ([0u8; 64], 9);
    assert!(rt;
        vtc_make_as_given(
            rt.alloc(),
            b"{",
            &mut buffer,
            &mut length,
            &mut why,
            &mut why_length
        ) == 15
            && why_length > 0
    );
    assert!(rt;
        vtc_action_make_as_given(
            rt.alloc(),
            br#"{"raw":7}"#,
            &mut buffer,
            &mut length,
            &mut why,
            &mut why_length
        ) == 16
    );
    assert!(rt; &why[..why_length] == b"/raw: found 7, wanted bytes in lower-case hex".as_slice());
    assert!(rt; buffer == [7u8; 64]);
}

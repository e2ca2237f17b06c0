//! Actions: worked actions, what Linux sends, and refused memory.

use crate::tables::{bytes_of, cells, is_attribute, is_written, or_same, pair, rows};
use failing_alloc::Failing;
use nla_frames::{DecodeError, Nla, NlaBuffer, Parseable, Res, Settle};
use std::alloc::Global;
use std::test::Fail;
use tc_actions::{TcAction, TcActionAttribute};

/// The action of a frame.
fn action(alloc: Global, frame: &[u8]) -> Res<TcAction> {
    TcAction::parse(alloc, &NlaBuffer::new_checked(frame)?)
}

/// Statistics of a kind that has some, and of one that has none; options of an unknown kind, which are kept; the kind last; an action with a flag,
/// which is read away; a truth value of 2, which is written as 1. A row is a frame, the action that it is read as, and what is written of that, where
/// it isn't the same.
static ACTIONS: &str = r#"
20000100 0d00010066715f636f64656c000000000c0004000800040002000000 | TcAction { tab: 1, attributes: [Kind("fq_codel"), Stats([App(FqCodel(Other([2, 0, 0, 0])))])] }
18000100 080001006e6174000c0004000800040002000000 | TcAction { tab: 1, attributes: [Kind("nat"), Stats([App(Other([2, 0, 0, 0]))])] }
1c000100 0900010067616374000000000c0002800800010000000000 | TcAction { tab: 1, attributes: [Kind("gact"), Options([Other(DefaultNla { word: 1, value: [0, 0, 0, 0] })])] }
20000100 0c00028005000c00070000000f00010074756e6e656c5f6b65790000 | TcAction { tab: 1, attributes: [Options([TunnelKey(EncTos(7))]), Kind("tunnel_key")] }
14000180 0800030005000000080001006e617400 | TcAction { tab: 1, attributes: [Index(5), Kind("nat")] } | 14000100 0800030005000000080001006e617400
20000100 0f00010074756e6e656c5f6b657900000c00028005000a0002000000 | TcAction { tab: 1, attributes: [Kind("tunnel_key"), Options([TunnelKey(NoCsum(true))])] } | 20000100 0f00010074756e6e656c5f6b657900000c00028005000a0001000000
"#;

/// True if the frame of a row is read as its action, which is settled, and is written as it has to be.
fn is_known(alloc: Global, row: &str) -> Res<bool> {
    let Some((frame, text, written)) = cells(row) else {
        return Ok(false);
    };
    let read = action(alloc, &bytes_of(alloc, &[], frame)?)?;
    Ok(read.is_settled() && is_attribute(alloc, &read, text, or_same(frame, written)))
}

#[test]
fn are_read_and_written(rt: HostRuntime) {
    for row in rows(ACTIONS) {
        assert!(rt; matches!(is_known(rt.alloc(), row), Ok(true)), "{row}");
    }
}

/// What `tc` sends to make an action `mirred` and one of `tunnel_key`, and what Linux tells of `gact` and `mirred`; then what is written of these. The
/// word of their options has no nested flag.
static CAPTURED: &str = r#"
340001000b0001006d69727265640000240002802000020000000000000000000300000000000000000000000200000006000000 |
3c0001000f00010074756e6e656c5f6b657900002800028005000a00000000001c000200000000000000000003000000000000000000000002000000 |
b000010009000100676163740000000004000500500004000400060014000100000000000000000000000000000000000400060014000700000000000000000000000000000000000400060018000300000000000000000000000000000000000000000008000a00000000004400020018000200010000000000000002000000010000000000000004000400240001000000000000000000000000000000000000000000000000000000000000000000 | b000010009000100676163740000000004000500500004000400060014000100000000000000000000000000000000000400060014000700000000000000000000000000000000000400060018000300000000000000000000000000000000000000000008000a00000000004400028018000200010000000000000002000000010000000000000004000400240001000000000000000000000000000000000000000000000000000000000000000000
b40001000b0001006d69727265640000500004000400060014000100000000000000000000000000000000000400060014000700000000000000000000000000000000000400060018000300000000000000000000000000000000000000000008000a00000000004c000200200002000100000000000000040000000100000001000000010000000800000004000300240001004000000000000000400000000000000000000000000000000000000000000000 | b40001000b0001006d69727265640000500004000400060014000100000000000000000000000000000000000400060014000700000000000000000000000000000000000400060018000300000000000000000000000000000000000000000008000a00000000004c000280200002000100000000000000040000000100000001000000010000000800000004000300240001004000000000000000400000000000000000000000000000000000000000000000
"#;

/// Linux's message about an action `nat` with a cookie.
static NAT_TOLD: &str =
    "70000300080001006e617400040005005000040004000600140001000000000000000000000000000000000004000600140007000000000000000000000000000000000004000600180003000000000000000000000000000000000000000000080003002100000006000600cafe0000";

/// True if the action of a frame is settled, and is written so.
fn is_rewritten(alloc: Global, frame: &str, written: &str) -> Res<bool> {
    let read = action(alloc, &bytes_of(alloc, &[], frame)?)?;
    Ok(read.is_settled() && is_written(&read, written))
}

#[test]
fn options_are_written_with_the_nested_flag(rt: HostRuntime) -> Result<(), Fail> {
    let alloc = rt.alloc();
    for row in rows(CAPTURED) {
        let (frame, written) = pair(row).ok_or("two cells")?;
        assert!(rt;
            is_rewritten(alloc, frame, or_same(frame, written))?,
            "{row}"
        );
    }
    assert!(rt; is_rewritten(alloc, NAT_TOLD, NAT_TOLD)?);
    Ok(())
}

// Made by hand, flags are written and not settled.
#[test]
fn flags_of_an_action_are_written(rt: HostRuntime) -> Result<(), Fail> {
    let alloc = rt.alloc();
    let kind = TcActionAttribute::Kind("nat".to_string(alloc)?);
    let mut made: TcAction = TcAction::default_in(alloc);
    made.tab = 0x8001;
    made.attributes.push(kind)?;
    assert!(rt; !made.is_settled());
    assert!(rt; is_written(&made, "0c000180 08000100 6e617400"));
    Ok(())
}

fn fault_of(alloc: Global, frame: &[u8]) -> Option<DecodeError> {
    action(alloc, frame).err()
}

#[rattlefmt::skip]
static TWO_KINDS: [u8; 28] = [
    0x1c, 0, 1, 0, 8, 0, 1, 0, 0x6e, 0x61, 0x74, 0, 8, 0, 1, 0, 0x6e, 0x61, 0x74, 0, 5, 0, 3, 0, 0, 0, 0, 0,
];

#[test]
fn faults_of_an_action_have_their_order(rt: HostRuntime) {
    let alloc = rt.alloc();
    let too_short = Some(DecodeError::FrameTooShort { length: 3 });
    assert!(rt; fault_of(alloc, &[4, 0, 1, 0]) == Some(DecodeError::MissingKind));
    assert!(rt; fault_of(alloc, &[8, 0, 1, 0, 3, 0, 1, 0]) == too_short);
    // though the index is a byte wide
    assert!(rt; fault_of(alloc, &TWO_KINDS) == Some(DecodeError::DuplicateKind));
    // a text before a broken frame, and after one
    let text_first = [16, 0, 1, 0, 5, 0, 1, 0, 0xff, 0, 0, 0, 3, 0, 1, 0];
    assert!(rt; fault_of(alloc, &text_first) == Some(DecodeError::NotUtf8));
    let text_last = [16, 0, 1, 0, 3, 0, 1, 0, 5, 0, 1, 0, 0xff, 0, 0, 0];
    assert!(rt; fault_of(alloc, &text_last) == too_short);
}

#[test]
fn the_default_has_no_kind(rt: HostRuntime) {
    let default: TcAction = TcAction::default_in(rt.alloc());
    assert!(rt; !default.is_settled());
    assert!(rt; is_written(&default, "04000100"));
}

// Attributes of the same value and of different types.
#[test]
fn an_index_is_no_count(rt: HostRuntime) {
    let index: TcActionAttribute = TcActionAttribute::Index(5);
    assert!(rt; index != TcActionAttribute::InHwCount(5));
}

#[test]
fn a_cookie_has_at_most_65531_bytes(rt: HostRuntime) -> Result<(), Fail> {
    let alloc = rt.alloc();
    let fits: TcActionAttribute = TcActionAttribute::Cookie(vec![in alloc; 0; 65531]?);
    assert!(rt; fits.fits());
    let too_long: TcActionAttribute = TcActionAttribute::Cookie(vec![in alloc; 0; 65532]?);
    assert!(rt; !too_long.fits());
    Ok(())
}

/// True if an action is settled and written as its frame, which takes no memory.
fn is_written_without_memory(
    failing: &Failing<Global>,
    action: &TcAction<&Failing<Global>>,
    frame: &str,
) -> bool {
    failing.refuse(1);
    action.is_settled() && is_written(action, frame) && !failing.has_refused()
}

/// True if an action is read although the request of this number was to be refused: none had it. Where one was refused, the read fails for that.
fn is_read(alloc: Global, frame: &str, at: u64) -> Result<bool, Fail> {
    let bytes = bytes_of(alloc, &[], frame)?;
    let failing = Failing::new(alloc, at);
    let read = TcAction::parse(&failing, &NlaBuffer::new_checked(&bytes)?);
    let is_right = match &read {
        Ok(action) => {
            !failing.has_refused() && is_written_without_memory(&failing, action, frame)
        }
        Err(fault) => failing.has_refused() && *fault == DecodeError::OutOfMemory,
    };
    if is_right {
        Ok(read.is_ok())
    } else {
        Err(Fail::new(format_args!("request {at}")))
    }
}

#[test]
fn every_refused_allocation_is_reported(rt: HostRuntime) -> Result<(), Fail> {
    let mut is_done = false;
    for at in 1..1000u64 {
        is_done = is_read(rt.alloc(), NAT_TOLD, at)?;
        if is_done {
            break;
        }
    }
    assert!(rt; is_done);
    Ok(())
}

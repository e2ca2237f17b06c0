//! Worked messages: what they are read as, what is written of them, and why others are refused.

use crate::calls::{fault_of, is_canonical, is_made, is_read_as};
use crate::rewriting::{cause_of, is_fault, is_rewritten};
use crate::tables::{bytes_of, cells, is_shown, or_same, pair, rows};
use nla_frames::{AddressFamily, DecodeError};
use std::alloc::{AllocError, Global};
use std::test::Fail;
use tc_action_messages::TcActionMessage;
use tests_data::Form;

// A row of messages that are read: frames in hex, the attributes that they are read as, and the frames that are written of these, where they
// aren't the same, which only canonical ones are. A row of those that are refused: frames in hex, and the first fault in them.

/// Messages that are settled, after a header of 20 zeros.
static TC: &str = r#"
 | []
08000100 75333200 0c000200 08000200 05000000 0d000100 66715f636f64656c00000000 0c000200 08000200 05000000 | [Kind("u32"), Options([U32(Hash(5))]), Kind("fq_codel"), Options([FqCodel(Limit(5))])]
08000180 75333200 0c000200 08000200 05000000 0d000100 66715f636f64656c00000000 0c000200 08000200 05000000 | [Kind("u32"), Options([U32(Hash(5))]), Kind("fq_codel"), Options([FqCodel(Limit(5))])] | 08000100 75333200 0c000200 08000200 05000000 0d000100 66715f636f64656c00000000 0c000200 08000200 05000000
0c000200 08000200 00280000 | [OptionsRaw(DefaultNla { word: 2, value: [8, 0, 2, 0, 0, 40, 0, 0] })]
08000100 73667100 08000280 01020304 | [Kind("sfq"), OptionsRaw(DefaultNla { word: 32770, value: [1, 2, 3, 4] })]
05000200 01 | [OptionsRaw(DefaultNla { word: 2, value: [1] })] | 05000200 01000000
0e000100 66715f636f64656c00000000 0c000200 08000200 00280000 | [Kind("fq_codel\0"), OptionsRaw(DefaultNla { word: 2, value: [8, 0, 2, 0, 0, 40, 0, 0] })]
0b000100 666c6f7765720000 1c000200 18006380 14000180 05000100 01000000 08000500 45230100 | [Kind("flower"), Options([Flower(MplsOpts([Lse([LseDepth(1), LseLabel(74565)])]))])]
05000c00 01 | [HwOffload(1)] | 05000c00 01000000
08000100 75333200 28000200 24000500 01000100 0f00000000000000 00000000 ffffffff 0a000001 10000000 00000000 | [Kind("u32"), Options([U32(Selector(TcU32Selector { flags: TcU32SelectorFlags(1), offshift: 0, nkeys: 1, offmask: 3840, off: 0, offoff: 0, hoff: 0, hmask: 0, keys: [TcU32Key { mask: 4294967295, val: 167772161, off: 16, offmask: 0 }] }))])]
08000100 75333200 30000200 2c000500 01000100 0f00000000000000 00000000 ffffffff 0a000001 10000000 00000000 0000000000000000 | [Kind("u32"), Options([U32(Selector(TcU32Selector { flags: TcU32SelectorFlags(1), offshift: 0, nkeys: 1, offmask: 3840, off: 0, offoff: 0, hoff: 0, hmask: 0, keys: [TcU32Key { mask: 4294967295, val: 167772161, off: 16, offmask: 0 }] }))])] | 08000100 75333200 28000200 24000500 01000100 0f00000000000000 00000000 ffffffff 0a000001 10000000 00000000
0d000100 66715f636f64656c00000000 08000400 02000000 | [Kind("fq_codel"), Xstats(FqCodel(Other([2, 0, 0, 0])))]
0d000100 66715f636f64656c00000000 2c000400 01000000 000000000000000000000000000000000000000000000000000000000000000000000000 | [Kind("fq_codel"), Xstats(FqCodel(Class(TcFqCodelClStats { deficit: 0, ldelay: 0, count: 0, lastcount: 0, dropping: 0, drop_next: 0 })))] | 0d000100 66715f636f64656c00000000 20000400 01000000 000000000000000000000000000000000000000000000000
0d000100 6d61746368616c6c00000000 0c000200 08000300 01000000 | [Kind("matchall"), Options([MatchAll(Flags(1))])]
0c000100 696e677265737300 04000200 | [Kind("ingress"), Options([])]
0c000100 696e677265737300 0c000200 08006300 01020304 | [Kind("ingress"), Options([Ingress(Other(DefaultNla { word: 99, value: [1, 2, 3, 4] }))])]
08000100 62706600 0c000200 06000700 70000000 | [Kind("bpf"), Options([Bpf(ProgName("p"))])]
08000100 75333200 04000280 | [Kind("u32"), Options([])] | 08000100 75333200 04000200
2c000300 00000000000000000000000000000000000000000000000000000000000000000000000000000001 | [Stats(TcStats { bytes: 0, packets: 0, drops: 0, overlimits: 0, bps: 0, pps: 0, qlen: 0, backlog: 0 })] | 2c000300 00000000000000000000000000000000000000000000000000000000000000000000000000000000
080063c0 01020304 | [Other(DefaultNla { word: 49251, value: [1, 2, 3, 4] })]
08000b80 07000000 | [Chain(7)] | 08000b00 07000000
07000100 75333200 | [Kind("u32")] | 08000100 75333200
05000a00 07000000 | [DumpInvisible(true)] | 04000a00
08000100 75333200 60000200 38000700 34000100 0b000100 6d69727265640000 24000280 20000200 0000000000000000 04000000 0000000000000000 01000000 04000000 24000500 01000100 0000000000000000 00000000 ffffffff 01020307 0c000000 00000000 | [Kind("u32"), Options([U32(Action([TcAction { tab: 1, attributes: [Kind("mirred"), Options([Mirror(Parms(TcMirror { generic: TcActionGeneric { index: 0, capab: 0, action: Stolen, refcnt: 0, bindcnt: 0 }, eaction: EgressRedir, ifindex: 4 }))])] }])), U32(Selector(TcU32Selector { flags: TcU32SelectorFlags(1), offshift: 0, nkeys: 1, offmask: 0, off: 0, offoff: 0, hoff: 0, hmask: 0, keys: [TcU32Key { mask: 4294967295, val: 16909063, off: 12, offmask: 0 }] }))])]
"#;

/// Messages that aren't settled.
static TC_UNSETTLED: &str = r#"
0b000100 666c6f7765720000 0c000200 05004400 03000000 | [Kind("flower"), Options([Flower(MplsBos(3))])] | 0b000100 666c6f7765720000 0c000200 05004400 01000000
"#;

/// Messages that are refused.
static TC_FAULTS: &str = r#"
05000100ff000000 | NotUtf8
08000300 00000000 | BufferTooSmall { len: 4, needed: 40 }
08000b00 07000000 aabb | FrameHeaderShort { left: 2 }
0d000100 66715f636f64656c00000000 07000400 01020300 | XstatsShort { len: 3 }
0d000100 66715f636f64656c00000000 08000400 00000000 | BufferTooSmall { len: 0, needed: 36 }
08000100 75333200 18000200 13000500 000001000000000000000000 00000000 | SelectorShort { len: 15, needed: 16 }
08000100 75333200 18000200 14000500 000001000000000000000000 00000000 | SelectorShort { len: 16, needed: 32 }
08000100 75333200 18000200 14000500 0000ff000000000000000000 00000000 | SelectorShort { len: 16, needed: 4096 }
08000100 62706600 10000200 0b000a00 0102030405060700 | WrongLength { expected: 8, got: 7 }
0d000100 6d61746368616c6c00000000 1c000200 18000200 14000100 08000100 6e617400 08000280 ff006300 | FrameTooLong { length: 255, left: 4 }
0d000100 6d61746368616c6c00000000 1c000200 18000200 14000100 08000900 6e617400 08000280 ff006300 | MissingKind
0d000100 66715f636f64656c00000000 0c000200 09000200 00280000 | FrameTooLong { length: 9, left: 8 }
0d000100 66715f636f64656c00000000 0c000200 07000200 00280000 | WrongLength { expected: 4, got: 3 }
0d000100 66715f636f64656c00000000 0c000200 04000200 00280000 | WrongLength { expected: 4, got: 0 }
0d000100 66715f636f64656c00000000 0c000200 03000200 00280000 | FrameTooShort { length: 3 }
"#;

/// Action messages that are settled, after a header of 4 zeros.
static ACTIONS: &str = r#"
 | []
18000100 14000100 08000300 05000000 08000100 6e617400 | [Actions([TcAction { tab: 1, attributes: [Index(5), Kind("nat")] }])]
18000100 14000180 08000300 05000000 08000100 6e617400 | [Actions([TcAction { tab: 1, attributes: [Index(5), Kind("nat")] }])] | 18000100 14000100 08000300 05000000 08000100 6e617400
08000300 06000000 | [RootCount(6)]
08000400 63000000 | [RootTimeDelta(99)]
24000100 20000100 0f000100 74756e6e656c5f6b65790000 0c000280 05000a00 02000000 | [Actions([TcAction { tab: 1, attributes: [Kind("tunnel_key"), Options([TunnelKey(NoCsum(true))])] }])] | 24000100 20000100 0f000100 74756e6e656c5f6b65790000 0c000280 05000a00 01000000
0c000200 01000000 01000000 | [Flags(TcActionMessageFlagsWithSelector { flags: TcActionMessageFlags(1), selector: TcActionMessageFlags(1) })]
04000100 | [Actions([])]
06000500 68690000 | [RootExtWarnMsg("hi")]
06000500 61000000 | [RootExtWarnMsg("a")] | 05000500 61000000
05000500 00000000 | [RootExtWarnMsg("")] | 04000500
"#;

/// Action messages that aren't settled.
static ACTIONS_UNSETTLED: &str = r#"
07000500 61000000 | [RootExtWarnMsg("a\0")] | 06000500 61000000
08000500 61000000 | [RootExtWarnMsg("a\0\0")] | 07000500 61000000
08000500 61000000 07000500 62000000 | [RootExtWarnMsg("a\0\0"), RootExtWarnMsg("b\0")] | 07000500 61000000 06000500 62000000
"#;

/// Action messages that are refused.
static ACTION_FAULTS: &str = r#"
08000100 04000100 | MissingKind
0c000100 08000100 03000100 | FrameTooShort { length: 3 }
20000100 1c000100 08000100 6e617400 08000100 6e617400 05000300 00000000 | DuplicateKind
08000100 63000000 | FrameTooLong { length: 99, left: 4 }
08000200 01000000 | WrongLength { expected: 8, got: 4 }
05000500 ff000000 | NotUtf8
08000300 06000000 0000 | FrameHeaderShort { left: 2 }
"#;

/// The text of `Debug` before the attributes of a message with an empty header.
pub(crate) static NO_HEADER: &str = "TcMessage { header: TcHeader { family: Unspec, index: 0, \
handle: TcHandle { major: 0, minor: 0 }, parent: TcHandle { major: 0, minor: 0 }, info: 0 }, attributes: ";

/// The same of an action message.
pub(crate) static NO_ACTION_HEADER: &str =
    "TcActionMessage { header: TcActionMessageHeader { family: Unspec }, attributes: ";

/// True if bytes are read as this message, and that is written, settled, rewritten and canonical as it has to be.
pub(crate) fn is_message(
    alloc: Global,
    form: Form,
    bytes: &[u8],
    shown: (&str, &str),
    written: (&[u8], bool),
) -> bool {
    is_read_as(alloc, form, bytes, shown, Some(written))
        && is_canonical(form, bytes) == (bytes == written.0)
        && is_rewritten(alloc, form, bytes, written)
}

/// The text of `Debug` before the attributes of a message of this form with an empty header.
pub(crate) fn front_of(form: Form) -> &'static str {
    match form {
        Form::Tc => NO_HEADER,
        Form::Action => NO_ACTION_HEADER,
    }
}

/// True if the message of a row is read, written and settled as it has to be; written as it came where the row has no other frames.
fn is_read(alloc: Global, form: Form, row: &str, is_settled: bool) -> Result<bool, AllocError> {
    let Some((frames, attributes, written)) = cells(row) else {
        return Ok(false);
    };
    let bytes = bytes_of(alloc, form.header(), frames)?;
    let written = bytes_of(alloc, form.header(), or_same(frames, written))?;
    Ok(is_message(
        alloc,
        form,
        &bytes,
        (front_of(form), attributes),
        (&written, is_settled),
    ))
}

/// True if the message of a row is refused with its fault, by each of the calls.
fn is_refused(alloc: Global, form: Form, row: &str) -> Result<bool, AllocError> {
    let Some((frames, text)) = pair(row) else {
        return Ok(false);
    };
    let bytes = bytes_of(alloc, form.header(), frames)?;
    Ok(match &fault_of(alloc, form, &bytes) {
        Some(fault) => {
            is_shown(alloc, fault, text) && is_fault(&cause_of(alloc, form, &bytes), fault)
        }
        None => false,
    })
}

/// Checks each row of messages that are settled, or aren't, and fails at the first that is wrong.
fn are_read(alloc: Global, form: Form, table: &str, is_settled: bool) -> Result<(), Fail> {
    for row in rows(table) {
        if !is_read(alloc, form, row, is_settled)? {
            return Err(Fail::new(row));
        }
    }
    Ok(())
}

/// Checks each row of messages that are refused, and fails at the first that is wrong.
fn are_refused(alloc: Global, form: Form, table: &str) -> Result<(), Fail> {
    for row in rows(table) {
        if !is_refused(alloc, form, row)? {
            return Err(Fail::new(row));
        }
    }
    Ok(())
}

#[test]
fn messages(rt: HostRuntime) -> Result<(), Fail> {
    are_read(rt.alloc(), Form::Tc, TC, true)?;
    are_read(rt.alloc(), Form::Tc, TC_UNSETTLED, false)?;
    are_refused(rt.alloc(), Form::Tc, TC_FAULTS)
}

#[test]
fn action_messages(rt: HostRuntime) -> Result<(), Fail> {
    are_read(rt.alloc(), Form::Action, ACTIONS, true)?;
    are_read(rt.alloc(), Form::Action, ACTIONS_UNSETTLED, false)?;
    are_refused(rt.alloc(), Form::Action, ACTION_FAULTS)
}

static INET: &str =
    "TcActionMessage { header: TcActionMessageHeader { family: Inet }, attributes: ";

static OTHER: &str =
    "TcActionMessage { header: TcActionMessageHeader { family: Other(2) }, attributes: ";

// True if an action message of this family and no attributes, made by hand, is what it has to be.
fn is_family(alloc: Global, family: AddressFamily, front: &str, written: (&[u8], bool)) -> bool {
    let mut message = TcActionMessage::default_in(alloc);
    message.header.family = family;
    is_made(alloc, Some(message), (front, "[]"), Some(written))
}

// A header with a family, and with padding that isn't zero; one whose family is a number that has a name; and one that is short.
#[test]
fn headers_of_action_messages(rt: HostRuntime) {
    let alloc = rt.alloc();
    let (zeros, inet, padded) = ([0; 4], [2, 0, 0, 0], [2, 0, 0, 7]);
    assert!(rt; is_message(alloc, Form::Action, &padded, (INET, "[]"), (&inet, true)));
    let unspec = AddressFamily::Unspec;
    assert!(rt; is_family(alloc, unspec, NO_ACTION_HEADER, (&zeros, true)));
    assert!(rt; is_family(alloc, AddressFamily::Other(2), OTHER, (&inet, false)));
    let fault = DecodeError::BufferTooSmall { len: 3, needed: 4 };
    assert!(rt; fault_of(alloc, Form::Action, &[0; 3]) == Some(fault));
}

//! Worked messages.

use crate::calls::{are_attributes, are_options, fault_of, is_cut_option, is_made, is_read_option};
use crate::made::{kept, message, pushed};
use crate::worked::{NO_HEADER, is_message};
use std::alloc::{AllocError, Global};
use std::test::Fail;
use tc_wire::{DecodeError, TcAttribute, TcHeader, TcMessage};
use tests_data::Form;

/// A message about a qdisc `fq_codel` with a limit of 10240 packets: its header, its kind and its options.
#[rattlefmt::skip]
pub(crate) static FQ_CODEL: [u8; 48] = [
    0, 0, 0, 0, 2, 0, 0, 0, 0, 0, 1, 0, 0xff, 0xff, 0xff, 0xff, 0, 0, 0, 0,
    0x0d, 0, 0x01, 0, 0x66, 0x71, 0x5f, 0x63, 0x6f, 0x64, 0x65, 0x6c, 0, 0, 0, 0,
    0x0c, 0, 0x02, 0, 0x08, 0, 0x02, 0, 0, 0x28, 0, 0,
];

/// The value of its options.
static LIMIT: [u8; 8] = [0x08, 0, 0x02, 0, 0, 0x28, 0, 0];

/// That message with a second NUL in its kind, which then is no known one.
fn with_two_nuls() -> [u8; 48] {
    let mut bytes = FQ_CODEL;
    bytes[20] = 0x0e;
    bytes
}

/// The text of `Debug` before its attributes.
pub(crate) static FRONT: &str =
    "TcMessage { header: TcHeader { family: Unspec, index: 2, handle: TcHandle { major: 1, minor: 0 }, \
parent: TcHandle { major: 65535, minor: 65535 }, info: 0 }, attributes: ";

/// The attributes of these two, as text.
static LIMITED: &str = "[Kind(\"fq_codel\"), Options([FqCodel(Limit(10240))])]";

static LIMITED_RAW: &str =
    "[Kind(\"fq_codel\\0\"), OptionsRaw(DefaultNla { word: 2, value: [8, 0, 2, 0, 0, 40, 0, 0] })]";

#[test]
fn messages_are_read_and_written(rt: HostRuntime) {
    let alloc = rt.alloc();
    assert!(rt;
        is_message(
            alloc,
            Form::Tc,
            &FQ_CODEL,
            (FRONT, LIMITED),
            (&FQ_CODEL, true)
        )
    );
    let bytes = with_two_nuls();
    assert!(rt;
        is_message(
            alloc,
            Form::Tc,
            &bytes,
            (FRONT, LIMITED_RAW),
            (&bytes, true)
        )
    );
}

#[test]
fn padding_of_a_header_is_dropped(rt: HostRuntime) {
    let mut padded = [0; 20];
    padded[1] = 7;
    let written = ([0; 20].as_slice(), true);
    assert!(rt; is_message(rt.alloc(), Form::Tc, &padded, (NO_HEADER, "[]"), written));
}

fn too_small(len: usize) -> Option<DecodeError> {
    Some(DecodeError::BufferTooSmall { len, needed: 20 })
}

#[test]
fn short_headers_are_refused(rt: HostRuntime) {
    let alloc = rt.alloc();
    assert!(rt; fault_of(alloc, Form::Tc, &[]) == too_small(0));
    assert!(rt; fault_of(alloc, Form::Tc, &[0; 19]) == too_small(19));
}

static KEPT: &str = "[Other(DefaultNla { word: 2, value: [8, 0, 2, 0, 0, 40, 0, 0] })]";

static KEPT_LIMIT: &str = "[Other(DefaultNla { word: 2, value: [0, 40, 0, 0] })]";

// The frame of its options, and the one in it. Under another kind, the payload and the frame in it are kept raw.
#[test]
fn options_go_by_the_kind(rt: HostRuntime) -> Result<(), Fail> {
    let alloc = rt.alloc();
    let limit = "[FqCodel(Limit(10240))]";
    assert!(rt; are_options(alloc, "fq_codel", &FQ_CODEL[36..], limit)?);
    assert!(rt; is_cut_option(alloc, "fq_codel", &LIMIT, limit)?);
    assert!(rt; are_options(alloc, "sfq", &FQ_CODEL[36..], KEPT)?);
    assert!(rt; is_cut_option(alloc, "sfq", &LIMIT, KEPT_LIMIT)?);
    Ok(())
}

#[test]
fn parts_are_read_alone(rt: HostRuntime) -> Result<(), Fail> {
    let alloc = rt.alloc();
    let option = "FqCodel(Limit(10240))";
    assert!(rt; is_read_option(alloc, "fq_codel", &LIMIT, option, "0800020000280000")?);
    assert!(rt; are_attributes(alloc, &FQ_CODEL[20..36], "[Kind(\"fq_codel\")]")?);
    Ok(())
}

fn without_index(alloc: Global) -> TcMessage {
    let mut message = TcMessage::with_index(alloc, 7);
    message.header.index = 0;
    message
}

// A message made by hand: an attribute of a known type that is kept raw.
fn with_kept(alloc: Global) -> Result<TcMessage, AllocError> {
    let attribute = TcAttribute::Other(kept(alloc, 0x8001, &[0xab])?);
    message(pushed(Ok(Vec::new(alloc)), Ok(attribute)))
}

static KEPT_KIND: &str = "[Other(DefaultNla { word: 32769, value: [171] })]";

#[rattlefmt::skip]
static KEPT_BYTES: [u8; 28] = [
    0, 0, 0, 0, 0, 0, 0, 0, 0, 0, 0, 0, 0, 0, 0, 0, 0, 0, 0, 0,
    5, 0, 1, 0x80, 0xab, 0, 0, 0,
];

// True if a message has an empty header and one attribute.
fn has_one_attribute(made: Result<TcMessage, AllocError>) -> bool {
    match made {
        Ok(message) => {
            let (header, attributes) = message.into_parts();
            header == TcHeader::default() && attributes.len() == 1
        }
        Err(_) => false,
    }
}

#[test]
fn messages_are_made(rt: HostRuntime) {
    let alloc = rt.alloc();
    assert!(rt; TcMessage::with_index(alloc, 7).header.index == 7);
    let empty = Some(without_index(alloc));
    assert!(rt; is_made(alloc, empty, (NO_HEADER, "[]"), Some((&[0; 20], true))));
    let kept = with_kept(alloc).ok();
    assert!(rt;
        is_made(
            alloc,
            kept,
            (NO_HEADER, KEPT_KIND),
            Some((&KEPT_BYTES, false))
        )
    );
    assert!(rt; has_one_attribute(with_kept(alloc)));
}

//! The first of the worked messages, cut at every length, and with another length of its option.

use crate::calls::{are_attributes, fault_of};
use crate::messages::{FQ_CODEL, FRONT};
use crate::worked::is_message;
use std::alloc::Global;
use tc_wire::DecodeError;
use tests_data::Form;

// The fault of so many of its first bytes.
fn fault_of_front(count: usize) -> Option<DecodeError> {
    match count {
        0..=19 => Some(DecodeError::BufferTooSmall {
            len: count,
            needed: 20,
        }),
        21..=23 => Some(DecodeError::FrameHeaderShort { left: count - 20 }),
        24..=32 => Some(DecodeError::FrameTooLong {
            length: 13,
            left: count - 20,
        }),
        37..=39 => Some(DecodeError::FrameHeaderShort { left: count - 36 }),
        40..=47 => Some(DecodeError::FrameTooLong {
            length: 12,
            left: count - 36,
        }),
        _ => None,
    }
}

// True if a front of it is read and written as a header alone, or with the kind, whose padding may be cut.
fn is_read(alloc: Global, front: &[u8]) -> bool {
    let (attributes, written) = match front.len() {
        20 => ("[]", &FQ_CODEL[..20]),
        _ => ("[Kind(\"fq_codel\")]", &FQ_CODEL[..36]),
    };
    is_message(alloc, Form::Tc, front, (FRONT, attributes), (written, true))
}

// True if so many of its first bytes are refused, or read as they have to be.
fn is_front(alloc: Global, count: usize) -> bool {
    let (front, _) = FQ_CODEL.split_at(count.min(48));
    match &fault_of(alloc, Form::Tc, front) {
        Some(fault) => fault_of_front(count).as_ref() == Some(fault),
        None => fault_of_front(count).is_none() && is_read(alloc, front),
    }
}

#[test]
fn cut_at_every_length(rt: HostRuntime) {
    for count in 0..48usize {
        assert!(rt; is_front(rt.alloc(), count), "{count}");
    }
}

// True if the message is refused for this fault, with another length of its option.
fn is_refused(alloc: Global, length: u8, fault: DecodeError) -> bool {
    let mut bytes = FQ_CODEL;
    bytes[40] = length;
    let fault = Some(fault);
    are_attributes(alloc, &bytes[20..], "").err() == fault
        && fault_of(alloc, Form::Tc, &bytes) == fault
}

#[test]
fn with_another_length_of_its_option(rt: HostRuntime) {
    let alloc = rt.alloc();
    let (expected, left) = (4, 8);
    assert!(rt; is_refused(alloc, 9, DecodeError::FrameTooLong { length: 9, left }));
    assert!(rt; is_refused(alloc, 7, DecodeError::WrongLength { expected, got: 3 }));
    assert!(rt; is_refused(alloc, 4, DecodeError::WrongLength { expected, got: 0 }));
    assert!(rt; is_refused(alloc, 3, DecodeError::FrameTooShort { length: 3 }));
}

//! The parsers of parts, called by themselves: none of them runs out of memory.

use nla_frames::{
    DecodeError, DefaultNla, NlaBuffer, Parseable, ParseableBytes, ParseableParametrized, Res,
    parse_frames_with, parse_list, parse_list_with, parse_string,
};
use std::alloc::Global;
use tc_actions::{
    TcAction, TcActionAttribute, TcActionMirrorOption, TcActionNatOption, TcActionOption,
    TcActionTunnelKeyOption, TcFqCodelXstats, TcStats2, TcXstats,
};
use tc_flower::{TcFilterFlowerMplsLseOption, TcFilterFlowerMplsOption, TcFilterFlowerOption};
use tc_wire::{
    TcActionMessageAttribute, TcActionMessageFlagsWithSelector, TcAttribute, TcFilterBpfOption,
    TcFilterMatchAllOption, TcFilterU32Option, TcOption, TcQdiscFqCodelOption,
    TcQdiscIngressOption, TcU32Selector, VecTcAttribute, VecTcOption,
};
use tests_data::{ACTION_KINDS, Form, Input, KINDS, LAST_TYPE, LENGTHS, swept};

// Whether memory sufficed.
fn had<T: Drop>(answer: Res<T>) -> bool {
    !matches!(answer, Err(DecodeError::OutOfMemory))
}

// Whether memory sufficed to read a frame and the list of it alone.
fn had_as<T: Parseable<Global> + Drop>(alloc: Global, frame: &NlaBuffer<'_>, bytes: &[u8]) -> bool {
    had(T::parse(alloc, frame)) && had(parse_list::<Global, T>(alloc, bytes))
}

// Whether memory sufficed to read a frame and the list of it alone under a kind.
fn had_under<T: ParseableParametrized<Global> + Drop>(
    alloc: Global,
    frame: &NlaBuffer<'_>,
    bytes: &[u8],
    kind: &str,
) -> bool {
    had(T::parse_with_param(alloc, frame, kind))
        && had(parse_list_with::<Global, T>(alloc, bytes, kind))
        && had(parse_frames_with::<Global, T>(alloc, &[*frame], kind))
}

// Whether memory sufficed for all that looks at no kind.
fn had_for_all(alloc: Global, frame: &NlaBuffer<'_>, bytes: &[u8]) -> bool {
    had_as::<DefaultNla>(alloc, frame, bytes)
        && had_as::<TcAction>(alloc, frame, bytes)
        && had_as::<TcActionMirrorOption>(alloc, frame, bytes)
        && had_as::<TcActionNatOption>(alloc, frame, bytes)
        && had_as::<TcActionTunnelKeyOption>(alloc, frame, bytes)
        && had_as::<TcActionMessageAttribute>(alloc, frame, bytes)
        && had_as::<TcActionMessageFlagsWithSelector>(alloc, frame, bytes)
        && had_as::<TcQdiscFqCodelOption>(alloc, frame, bytes)
        && had_as::<TcQdiscIngressOption>(alloc, frame, bytes)
        && had_as::<TcFilterU32Option>(alloc, frame, bytes)
        && had_as::<TcFilterMatchAllOption>(alloc, frame, bytes)
        && had_as::<TcFilterBpfOption>(alloc, frame, bytes)
        && had_as::<TcFilterFlowerOption>(alloc, frame, bytes)
        && had_as::<TcFilterFlowerMplsOption>(alloc, frame, bytes)
        && had_as::<TcFilterFlowerMplsLseOption>(alloc, frame, bytes)
        && had(parse_string(alloc, frame.value()))
        && had(TcU32Selector::parse(alloc, frame.value()))
        && had::<TcFqCodelXstats>(TcFqCodelXstats::parse(alloc, frame.value()))
}

// Whether memory sufficed for all that is read under a kind.
fn had_for_all_under(alloc: Global, frame: &NlaBuffer<'_>, bytes: &[u8], kind: &str) -> bool {
    had_under::<TcAttribute>(alloc, frame, bytes, kind)
        && had_under::<TcOption>(alloc, frame, bytes, kind)
        && had_under::<TcStats2>(alloc, frame, bytes, kind)
        && had_under::<TcActionAttribute>(alloc, frame, bytes, kind)
        && had_under::<TcActionOption>(alloc, frame, bytes, kind)
        && had::<VecTcOption>(VecTcOption::parse_with_param(alloc, frame, kind))
        && had::<TcXstats>(TcXstats::parse_with_param(alloc, frame, kind))
}

/// True if memory sufficed for the attributes of a message after its header, if the header is whole.
pub(crate) fn had_for_attributes(alloc: Global, input: &Input) -> bool {
    match (input.form, input.bytes.get(20..)) {
        (Form::Tc, Some(frames)) => had::<VecTcAttribute>(VecTcAttribute::parse(alloc, frames)),
        _ => true,
    }
}

// Whether memory sufficed for all that is read under each kind.
fn had_under_kinds(alloc: Global, frame: &NlaBuffer<'_>, bytes: &[u8]) -> bool {
    for kind in &KINDS {
        if !had_for_all_under(alloc, frame, bytes, kind) {
            return false;
        }
    }
    for kind in &ACTION_KINDS {
        if !had_for_all_under(alloc, frame, bytes, kind) {
            return false;
        }
    }
    had_for_all_under(alloc, frame, bytes, "")
}

// Whether memory sufficed for all parts of these bytes.
fn had_for_parts(alloc: Global, bytes: &[u8]) -> bool {
    match &NlaBuffer::new_checked(bytes) {
        Ok(frame) => had_for_all(alloc, frame, bytes) && had_under_kinds(alloc, frame, bytes),
        Err(_) => false,
    }
}

// Whether memory sufficed for an attribute of this type and length.
fn had_for_swept(alloc: Global, word: u16, length: usize) -> bool {
    match &swept(alloc, word, length) {
        Ok(bytes) => had_for_parts(alloc, bytes),
        Err(_) => false,
    }
}

#[test]
fn parts(rt: HostRuntime) {
    let mut count = 0usize;
    for word in 0..=LAST_TYPE {
        for length in &LENGTHS {
            assert!(rt; had_for_swept(rt.alloc(), word, *length), "{word} {length}");
            count = count.wrapping_add(1);
        }
    }
    assert!(rt; count == 1_110, "{count}");
}

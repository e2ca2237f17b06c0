//! Messages rewritten and settled, messages that can't be, and warnings, which lose one NUL a rewrite.

use crate::calls::{is_canonical, rewrite, settle};
use crate::tables::bytes_of;
use nla_frames::DecodeError;
use std::alloc::{AllocError, Global};
use std::test::Fail;
use tc_wire::RewriteError;
use tests_data::{Form, too_long};

/// True if bytes are rewritten as others.
pub(crate) fn becomes(alloc: Global, form: Form, bytes: &[u8], written: &[u8]) -> bool {
    matches!(&rewrite(alloc, form, bytes), Ok(rewritten) if rewritten.as_slice() == written)
}

/// True if bytes became these, which are canonical, after so many rewrites.
pub(crate) fn is_outcome(
    outcome: &Result<(Vec<u8>, usize), RewriteError>,
    form: Form,
    wanted: &[u8],
    count: usize,
) -> bool {
    match outcome {
        Ok((bytes, rewrites)) => {
            bytes.as_slice() == wanted && *rewrites == count && is_canonical(form, wanted)
        }
        Err(_) => false,
    }
}

/// True if bytes are settled as others, which are canonical, after so many rewrites.
pub(crate) fn is_settled_as(
    alloc: Global,
    form: Form,
    bytes: &[u8],
    wanted: &[u8],
    count: usize,
) -> bool {
    is_outcome(&settle(alloc, form, bytes), form, wanted, count)
}

/// True if bytes are rewritten as others. They are settled as these too, with one rewrite where they aren't the same; but action messages that aren't
/// settled take further rewrites.
pub(crate) fn is_rewritten(
    alloc: Global,
    form: Form,
    bytes: &[u8],
    written: (&[u8], bool),
) -> bool {
    let (written, is_settled) = written;
    becomes(alloc, form, bytes, written)
        && match (form, is_settled) {
            (Form::Action, false) => true,
            _ => is_settled_as(alloc, form, bytes, written, usize::from(bytes != written)),
        }
}

/// Why bytes are neither rewritten nor settled, where both calls fail for the same cause.
pub(crate) fn cause_of(alloc: Global, form: Form, bytes: &[u8]) -> Option<RewriteError> {
    let cause = rewrite(alloc, form, bytes).err();
    if settle(alloc, form, bytes).err() == cause {
        cause
    } else {
        None
    }
}

/// True if the cause is a fault of the bytes, and this one.
pub(crate) fn is_fault(cause: &Option<RewriteError>, fault: &DecodeError) -> bool {
    match cause {
        Some(RewriteError::Decode(found)) => *found == *fault,
        _ => false,
    }
}

// True if bytes are no header.
fn is_too_small(alloc: Global, form: Form, bytes: &[u8], needed: usize) -> bool {
    let fault = DecodeError::BufferTooSmall {
        len: bytes.len(),
        needed,
    };
    is_fault(&cause_of(alloc, form, bytes), &fault)
}

// True if a message can't be written, since a value would be too long.
fn does_not_fit(alloc: Global, form: Form) -> Result<bool, AllocError> {
    let long = too_long(alloc, form)?;
    Ok(cause_of(alloc, form, &long.bytes) == Some(RewriteError::DoesNotFit))
}

#[test]
fn refused(rt: HostRuntime) -> Result<(), Fail> {
    let alloc = rt.alloc();
    assert!(rt; is_too_small(alloc, Form::Tc, &[0; 19], 20));
    assert!(rt; is_too_small(alloc, Form::Action, &[0; 3], 4));
    assert!(rt; does_not_fit(alloc, Form::Tc)?);
    assert!(rt; does_not_fit(alloc, Form::Action)?);
    Ok(())
}

// True if a cause is printed as this text.
fn is_printed(alloc: Global, cause: RewriteError, text: &str) -> Result<bool, AllocError> {
    Ok(format!(in alloc; "{cause}")?.as_str() == text)
}

#[test]
fn causes_are_printed(rt: HostRuntime) -> Result<(), Fail> {
    let alloc = rt.alloc();
    let fault = RewriteError::Decode(DecodeError::XstatsShort { len: 1 });
    assert!(rt; is_printed(alloc, fault, "statistics of 1 bytes, 4 needed")?);
    assert!(rt; is_printed(alloc, RewriteError::DoesNotFit, "value does not fit")?);
    assert!(rt; is_printed(alloc, RewriteError::OutOfMemory, "out of memory")?);
    Ok(())
}

/// Action messages with warnings in hex, what they are settled as, and after how many rewrites.
#[rattlefmt::skip]
static WARNINGS: [(&str, &str, usize); 6] = [
    ("05000500 61000000", "05000500 61000000", 0),
    ("05000500 00000000", "04000500", 1),
    ("07000500 61000000", "05000500 61000000", 2),
    ("08000500 61000000", "05000500 61000000", 3),
    ("08000500 61000000 07000500 62000000", "05000500 61000000 05000500 62000000", 3),
    ("08000380 06000000 07000500 61000000", "08000300 06000000 05000500 61000000", 2),
];

/// A message rewritten until it is canonical, and the number of rewrites, at most `most`.
pub(crate) fn rewritten(
    alloc: Global,
    form: Form,
    message: &[u8],
    most: usize,
) -> Result<(Vec<u8>, usize), RewriteError> {
    let mut bytes = message.to_vec(alloc)?;
    for count in 0..most {
        if is_canonical(form, &bytes) {
            return Ok((bytes, count));
        }
        bytes = rewrite(alloc, form, &bytes)?;
    }
    Ok((bytes, most))
}

// True if the message of a row is settled as its frames, after so many rewrites and no fewer.
fn is_warning(alloc: Global, row: &(&str, &str, usize)) -> Result<bool, AllocError> {
    let (frames, wanted, count) = *row;
    let bytes = bytes_of(alloc, Form::Action.header(), frames)?;
    let wanted = bytes_of(alloc, Form::Action.header(), wanted)?;
    let again = rewritten(alloc, Form::Action, &bytes, 9);
    Ok(
        is_settled_as(alloc, Form::Action, &bytes, &wanted, count)
            && is_outcome(&again, Form::Action, &wanted, count),
    )
}

#[test]
fn warnings(rt: HostRuntime) -> Result<(), Fail> {
    for row in &WARNINGS {
        assert!(rt; is_warning(rt.alloc(), row)?, "{}", row.0);
    }
    Ok(())
}

// The header stays.
#[test]
fn a_warning_of_a_family(rt: HostRuntime) {
    let bytes = [2, 0, 0, 0, 6, 0, 5, 0, 97, 0, 0, 0];
    let settled = [2, 0, 0, 0, 5, 0, 5, 0, 97, 0, 0, 0];
    assert!(rt; is_settled_as(rt.alloc(), Form::Action, &bytes, &settled, 1));
}

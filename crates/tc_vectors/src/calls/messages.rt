//! Comparisons of a message, read from bytes or built, with what it has to be. It is `shown` by `Debug` as a front and then its attributes; and
//! `written` as bytes, and settled or not, or `None` where only its text is looked at.

use std::alloc::{AllocError, Global};
use std::fmt::Debug;
use tc_wire::{DecodeError, Emitable, ParseableBytes, TcActionMessage, TcMessage, WholeMessage};
use tests_data::Form;

/// A message of either form.
pub(crate) trait Message: WholeMessage<Global> + Clone + PartialEq + Debug + Drop {}

impl Message for TcMessage {}

impl Message for TcActionMessage {}

/// The bytes of a message, if it fits. It is emitted to a longer buffer, whose other bytes stay.
pub(crate) fn emitted<M: Message>(
    alloc: Global,
    message: &M,
) -> Result<Option<Vec<u8>>, AllocError> {
    if !message.fits() {
        return Ok(None);
    }
    let len = message.buffer_len();
    let mut bytes = vec![in alloc; 0x55; len.saturating_add(4)]?;
    message.emit(&mut bytes);
    if bytes.get(len..) != Some(&[0x55; 4]) {
        return Ok(None);
    }
    bytes.truncate(len);
    Ok(Some(bytes))
}

/// True if bytes are parsed as this message.
pub(crate) fn reads_back<M: Message>(alloc: Global, message: &M, bytes: &[u8]) -> bool {
    matches!(&M::parse(alloc, bytes), Ok(again) if *again == *message)
}

/// True if the clone of a message is equal to it.
pub(crate) fn is_cloned<M: Message>(message: &M) -> Result<bool, AllocError> {
    Ok(message.clone()? == *message)
}

// True if a message is emitted as these bytes, and settled as it has to be, which its bytes show too; and its clone is equal to it.
fn is_written<M: Message>(
    alloc: Global,
    message: &M,
    written: (&[u8], bool),
) -> Result<bool, AllocError> {
    let (bytes, wanted) = written;
    let is_emitted = match emitted(alloc, message)? {
        Some(emitted) => emitted.as_slice() == bytes,
        None => false,
    };
    Ok(
        is_emitted
            && message.is_settled() == wanted
            && reads_back(alloc, message, bytes) == wanted
            && is_cloned(message)?,
    )
}

// True if a message is what it has to be.
fn is_right<M: Message>(
    alloc: Global,
    message: &M,
    shown: (&str, &str),
    written: Option<(&[u8], bool)>,
) -> Result<bool, AllocError> {
    let (front, attributes) = shown;
    let text = format!(in alloc; "{front}{attributes} }}")?;
    let is_written = match written {
        Some(written) => is_written(alloc, message, written)?,
        None => true,
    };
    Ok(is_written && format!(in alloc; "{message:?}")?.as_str() == text.as_str())
}

/// True if there is a message that is what it has to be.
pub(crate) fn is_made<M: Message>(
    alloc: Global,
    message: Option<M>,
    shown: (&str, &str),
    written: Option<(&[u8], bool)>,
) -> bool {
    match &message {
        Some(message) => matches!(is_right(alloc, message, shown, written), Ok(true)),
        None => false,
    }
}

/// True if bytes are parsed as a message of this form that is what it has to be.
pub(crate) fn is_read_as(
    alloc: Global,
    form: Form,
    bytes: &[u8],
    shown: (&str, &str),
    written: Option<(&[u8], bool)>,
) -> bool {
    match form {
        Form::Tc => is_made(alloc, TcMessage::parse(alloc, bytes).ok(), shown, written),
        Form::Action => is_made(
            alloc,
            TcActionMessage::parse(alloc, bytes).ok(),
            shown,
            written,
        ),
    }
}

/// Why bytes aren't parsed as a message of this form, if they aren't.
pub(crate) fn fault_of(alloc: Global, form: Form, bytes: &[u8]) -> Option<DecodeError> {
    match form {
        Form::Tc => TcMessage::parse(alloc, bytes).err(),
        Form::Action => TcActionMessage::parse(alloc, bytes).err(),
    }
}

/// The length of a traffic control message when emitted, if it fits.
pub(crate) fn length_of(alloc: Global, message: Option<TcMessage>) -> Option<usize> {
    match emitted(alloc, message.as_ref()?) {
        Ok(bytes) => Some(bytes?.len()),
        Err(_) => None,
    }
}

/// True if bytes are parsed as this traffic control message, which is settled and doesn't fit.
pub(crate) fn is_unwritable(alloc: Global, bytes: &[u8], message: Option<TcMessage>) -> bool {
    match &message {
        Some(message) => {
            message.is_settled() && !message.fits() && reads_back(alloc, message, bytes)
        }
        None => false,
    }
}

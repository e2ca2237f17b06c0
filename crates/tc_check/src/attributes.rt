//! The attributes of messages.

ghost use Rattle.std.specs.Prelude.{◌≡◌};
ghost use Rattle.nla_frames.specs.OnlyKind.{text_set};
ghost use Rattle.tc_check.specs.Messages.{is_list, value_in};

use nla_frames::NlasIterator;

// True if all bytes are whole attributes.
pub(crate) fn is_list(bytes: &[u8]) -> bool
    ensures { result ≡ is_list bytes.now }
{
    for frame in NlasIterator::new(bytes) {
        if frame.is_err() {
            return false;
        }
    }
    true
}

// The value of the last attribute of a type.
pub(crate) fn value_in(bytes: &[u8], number: u16) -> Option<&[u8]>
    ensures { text_set result ≡ value_in number bytes.now }
{
    let mut found = None;
    for frame in NlasIterator::new(bytes) {
        if let Ok(frame) = frame {
            if frame.kind() == number {
                found = Some(frame.value());
            }
        }
    }
    found
}

//! A message as a value for a serde format.

ghost use Rattle.std.specs.Prelude.{◌≡◌, IfOk, IfSome, IsSome};
ghost use Rattle.tc_message_json.specs.Sent.{SentIfFits};

use crate::message::HasForm;
use forms_json::send_shown;
use forms_kinds::TcTables;
use serde::{Described, Serialize, Serializer};
use std::alloc::{AllocError, Global};
use tc_wire::Emitable;

/// A message as a value for a serde format, and the allocator of its bytes. If the message doesn't fit, or memory runs out, serializing
/// fails with the format's error.
#[derive(Drop)]
pub struct Shown<'a, M>(pub &'a M, pub Global);

impl<'a, M: HasForm> Described for Shown<'a, M> {
    ghost writes = { λ shown. SentIfFits M.codec M.form (M.see shown.0.now) };
}

impl<'a, M: HasForm> Serialize for Shown<'a, M> {
    fn serialize<S: Serializer>(&self, out: &mut S) -> Result<(), S::Error> {
        match emitted(self.1, self.0) {
            Ok(Some(bytes)) => send_shown(TcTables, M::form(), &bytes, self.1, out),
            Ok(None) => Err(out.custom("value does not fit")),
            Err(_) => Err(out.custom("out of memory")),
        }
    }
}

// The bytes of a message, if it fits.
fn emitted<M: Emitable>(alloc: Global, message: &M) -> Result<Option<Vec<u8>>, AllocError>
    ensures bytes { IfOk result (λ found. IfSome found (λ bytes.
        bytes.items ≡ M.codec.write (M.see message.now))) }
    ensures fits { IfOk result (λ found. IsSome found → M.codec.Fits (M.see message.now)) }
{
    match message.checked_len() {
        Some(len) => {
            let mut bytes = vec![in alloc; 0u8; len]?;
            message.emit(&mut bytes);
            Ok(Some(bytes))
        }
        None => Ok(None),
    }
}

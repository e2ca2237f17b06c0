//! The bytes of `tc_gen`, the part that every action's record begins with.

ghost use Rattle.std.specs.Prelude.{◌≡◌};
ghost use Rattle.nla_frames.specs.Fault.{seen};
ghost use Rattle.tc_canon.specs.Layouts.{size_of, action_generic};
ghost use Rattle.tc_meaning.specs.Layout.{fields_bytes};
ghost use Rattle.tc_records.specs.Actions.{generic_scalars};
ghost use Rattle.tc_raw.specs.Buffers.{first_bytes, generic_bytes};

use crate::raw::Raw;
use nla_frames::Res;
use tc_records::{TC_ACTION_GENERIC_LEN, TcActionGeneric};

/// The bytes of the part that every action's record begins with, `tc_gen` of `linux/pkt_cls.h`. The only buffer that is
/// `Copy`.
#[derive(PartialEq, Eq, Clone, Copy, Debug)]
pub struct TcActionGenericBuffer {
    bytes: [u8; TC_ACTION_GENERIC_LEN],
}

impl TcActionGenericBuffer {
    /// Copies the bytes at the front and ignores what follows. Fails with `BufferTooSmall` if there are fewer.
    pub fn read_from_prefix(bytes: &[u8]) -> Res<TcActionGenericBuffer>
        ensures { seen generic_bytes result ≡ first_bytes (size_of action_generic) bytes.now }
    {
        let raw = Raw::<TcActionGeneric, TC_ACTION_GENERIC_LEN>::read_from_prefix(bytes)?;
        Ok(TcActionGenericBuffer {
            bytes: raw.as_bytes(),
        })
    }

    /// The bytes as read, or the bytes of the record that this was built from.
    pub fn as_bytes(&self) -> [u8; TC_ACTION_GENERIC_LEN]
        ensures { result ≡ generic_bytes self.now }
    {
        self.bytes
    }
}

impl From<&TcActionGeneric> for TcActionGenericBuffer {
    ghost from_gives = { λ generic buffer. generic_bytes buffer
        ≡ fields_bytes action_generic (generic_scalars generic.now) };

    fn from(generic: &TcActionGeneric) -> TcActionGenericBuffer {
        TcActionGenericBuffer {
            bytes: Raw::from(generic).as_bytes(),
        }
    }
}

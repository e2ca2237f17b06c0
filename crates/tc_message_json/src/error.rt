//! Why JSON can't be turned into a message.

ghost use Rattle.std.specs.Prelude.{◌≡◌};
ghost use Rattle.forms_text.specs.Strict.{IsMemory as IsNoMemory};
ghost use Rattle.tc_message_json.specs.Made.{IsMemory};
ghost use Rattle.tc_message_json.specs.declared.error.NoMessage.TheVariants.{OutOfMemory};

use forms_json::MakeError;
use forms_text::{Difference, StrictError};
use std::alloc::AllocError;
use std::error::Error;
use std::fmt;
use tc_wire::DecodeError;

/// Why JSON can't be turned into a message.
#[derive(Drop)]
pub enum NoMessage {
    /// Memory ran out.
    OutOfMemory,

    /// No bytes have this JSON.
    Strict(StrictError),

    /// The bytes of the JSON can't be read as a message.
    Refused {
        /// The place of the fault, as a JSON pointer.
        path: String,
        fault: DecodeError,
    },

    /// The message that is read doesn't fit.
    DoesNotFit,

    /// Emitting would change the message. This is the first difference.
    Changed(Difference),
}

impl fmt::Display for NoMessage {
    fn fmt<W: fmt::Write>(&self, f: &mut fmt::Formatter<W>) -> fmt::Result {
        match self {
            NoMessage::OutOfMemory => f.write_str("out of memory"),
            NoMessage::Strict(e) => write!(f, "{e}"),
            NoMessage::Refused { path, fault } => write!(f, "{path}: {fault}"),
            NoMessage::DoesNotFit => f.write_str("value does not fit"),
            NoMessage::Changed(difference) => write!(f, "{difference}"),
        }
    }
}

impl fmt::Debug for NoMessage {
    fn fmt<W: fmt::Write>(&self, f: &mut fmt::Formatter<W>) -> fmt::Result {
        write!(f, "{self}")
    }
}

impl Error for NoMessage {}

impl NoMessage {
    // The error for JSON that no bytes have, unless memory ran out.
    pub(crate) fn of_strict(e: StrictError) -> NoMessage
        ensures { IsNoMemory e → IsMemory result }
    {
        match e {
            StrictError::Make(MakeError::OutOfMemory) => NoMessage::OutOfMemory,
            e => NoMessage::Strict(e),
        }
    }
}

impl From<AllocError> for NoMessage {
    ghost from_gives = { λ _ e. e ≡ OutOfMemory };

    fn from(_e: AllocError) -> NoMessage {
        NoMessage::OutOfMemory
    }
}

//! Each field of a header is in the range of its width, so the laws of `records` apply to every header. Each is the
//! contract of a function that does nothing, called with the header where a proof needs it.

ghost use Rattle.tc_canon.specs.Layouts.{tc_header, action_message_header};
ghost use Rattle.tc_meaning.specs.Layout.{TypedFields};
ghost use Rattle.tc_records.specs.Header.{header_scalars};
ghost use Rattle.tc_records.specs.Actions.{action_message_header_scalars};

use crate::{FixedRecord, TcActionMessageHeader, TcHeader};

/// The header of a traffic control message.
pub fn header_in_range(header: &TcHeader)
    ensures { TypedFields tc_header (header_scalars header.now) }
{
    header.ref_in_range();
}

/// The header of an action message.
pub fn action_message_header_in_range(message: &TcActionMessageHeader)
    ensures { TypedFields action_message_header (action_message_header_scalars message.now) }
{
    message.ref_in_range();
}

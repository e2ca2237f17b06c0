//! Action messages.

ghost use Rattle.std.specs.Prelude.{◌<◌, ◌^◌, ◌≡◌, ◌≤◌, ◌↔◌, [], length, drop, false, IfOk, IsTrue};
ghost use Rattle.std.specs.Ordering.{on};
ghost use Rattle.nla_frames.specs.Fault.{Returns, IfRefused, UnlessMemory, seen};
ghost use Rattle.nla_frames.specs.Reading.{keep};
ghost use Rattle.nla_frames.specs.Emission.{HasRoom, Writes};
ghost use Rattle.nla_frames.specs.declared.family.AddressFamily.TheVariants.{Unspec};
ghost use Rattle.tc_canon.specs.Layouts.{action_message_header};
ghost use Rattle.tc_canon.specs.Tables.Messages.{action_message_attributes};
ghost use Rattle.tc_canon.specs.Canonical.{CanonAct};
ghost use Rattle.tc_meaning.specs.Message.{Message, message_codec};
ghost use Rattle.tc_meaning.specs.Whole.{ReadsAct, FaultAct, read_act, act_bytes, TypedAct, FitsAct, SettledAct};
ghost use Rattle.tc_meaning.specs.Equal.{same_message, message_equiv, message_per};
ghost use Rattle.tc_laws.specs.Loose.{is_loose_act, nuls_act};
ghost use Rattle.tc_laws.specs.Norm.{norm_act};
ghost use Rattle.tc_action_messages.specs.ActionMessage.{action_message, TakesUnknownAct};

use crate::attribute::TcActionMessageAttribute;
use nla_frames::{
    BytesMeaning, Emitable, ParseableBytes, Res, list_checked_len, list_settled_under, parse_list,
    put_list,
};
use std::alloc::{Allocator, Global};
use tc_laws::{places, rewriting};
use tc_meaning::laws;
use tc_records::laws::in_range::action_message_header_in_range;
use tc_records::{TCA_HEADER_LEN, TcActionMessageHeader};

/// A message about actions: header and attributes.
#[derive(Drop)]
#[derive_where(Debug)]
#[derive_where(Clone; A)]
pub struct TcActionMessage<A: Allocator = Global> {
    /// The header, 4 bytes.
    pub header: TcActionMessageHeader,
    /// The attributes, in order.
    pub attributes: Vec<TcActionMessageAttribute<A>, A>,
}

impl<A: Allocator> TcActionMessage<A> {
    /// A message of the default header and no attributes.
    pub fn default_in(alloc: A) -> TcActionMessage<A>
        ensures family { result.header.family ≡ Unspec }
        ensures attributes { result.attributes.items ≡ [] }
    {
        TcActionMessage {
            header: TcActionMessageHeader::default(),
            attributes: Vec::new(alloc),
        }
    }
}

impl<A: Allocator> BytesMeaning for TcActionMessage<A> {
    ghost Seen = { Message };

    ghost see = { action_message };

    ghost codec = { message_codec keep keep action_message_header action_message_attributes };
}

impl<A: Allocator + Copy> ParseableBytes<A> for TcActionMessage<A> {
    fn parse(alloc: A, bytes: &[u8]) -> Res<TcActionMessage<A>>
        // The value is the grammar's reading.
        ensures found { IfOk result (λ m. ReadsAct bytes.now (action_message m)) }
        // A refusal is the first fault.
        ensures refused { IfRefused result (FaultAct bytes.now) }
        // The result is what the reading function computes, unless memory ran out.
        ensures exact { Returns (seen action_message result) (read_act bytes.now) }
        // A value that fits is written as the same bytes if and only if these are canonical.
        ensures same { IfOk result (λ m.
            FitsAct (action_message m)
            → (act_bytes (action_message m) ≡ bytes.now) ↔ CanonAct bytes.now) }
        // Canonical bytes fail only with OutOfMemory, and read as a value that fits and is settled.
        ensures canonical { CanonAct bytes.now
            → UnlessMemory result (λ m.
            FitsAct (action_message m) × SettledAct (action_message m)) }
        // The value is unsettled if and only if it is loose: if encoding would change it.
        ensures loose { IfOk result (λ m.
            SettledAct (action_message m) ↔ is_loose_act (action_message m) ≡ false) }
        // An attribute of an unknown type may be at any place, and is kept raw there.
        ensures unknown { IfOk result (λ m. TakesUnknownAct bytes.now (action_message m)) }
    {
        // Laws, which do nothing: what the grammar says of these bytes, what is loose, and where a frame may be put in.
        laws::action_message(bytes);
        rewriting::action_rewriting(bytes);
        places::unknown_types();
        read(alloc, bytes)
    }
}

#[tactic(auto, unfolding(tc_meaning::specs::Message::read_with))]
fn read<A: Allocator + Copy>(alloc: A, bytes: &[u8]) -> Res<TcActionMessage<A>>
    ensures { Returns (seen action_message result) (read_act bytes.now) }
{
    let header = TcActionMessageHeader::parse(bytes)?;
    let attributes = parse_list(alloc, after_header(bytes))?;
    Ok(TcActionMessage { header, attributes })
}

// Reads the attributes after a header.
fn after_header(bytes: &[u8]) -> &[u8]
    requires { 4 ≤ length bytes.now }
    ensures { result.now ≡ drop 4 bytes.now }
{
    &bytes[TCA_HEADER_LEN..]
}

impl<A: Allocator> Emitable for TcActionMessage<A> {
    fn checked_len(&self) -> Option<usize> {
        // A law, which does nothing: the header is typed, so it has its length in bytes.
        action_message_header_in_range(&self.header);
        match list_checked_len(&self.attributes) {
            Some(len) => len.checked_add(TCA_HEADER_LEN),
            None => None,
        }
    }

    fn emit(&self, buffer: &mut [u8])
        requires fits { FitsAct (action_message self.now) }
        requires room { HasRoom (act_bytes (action_message self.now)) buffer.old }
        ensures written { Writes (act_bytes (action_message self.now)) buffer.old buffer.new }
        ensures typed { TypedAct (action_message self.now) }
        // The bytes read back as the message if and only if it is settled.
        ensures back { ReadsAct (act_bytes (action_message self.now)) (action_message self.now)
            ↔ SettledAct (action_message self.now) }
    {
        // Laws, which do nothing: what is written reads back if settled, and the header is typed.
        laws::action_message(&[]);
        action_message_header_in_range(&self.header);
        put_list(&self.attributes, &mut buffer[TCA_HEADER_LEN..]);
        self.header.emit(buffer);
    }
}

impl<A: Allocator> TcActionMessage<A> {
    /// True if encoding the message and parsing the bytes gives it back: header and attributes are settled.
    pub fn is_settled(&self) -> bool
        ensures settled { IsTrue result ↔ SettledAct (action_message self.now) }
        ensures typed { IsTrue result → TypedAct (action_message self.now) }
        // Its bytes are canonical.
        ensures canonical { IsTrue result → FitsAct (action_message self.now)
            → CanonAct (act_bytes (action_message self.now)) }
    {
        // Laws, which do nothing: the bytes of a settled message are canonical, and the header is typed.
        laws::action_message(&[]);
        action_message_header_in_range(&self.header);
        self.header.is_settled() && list_settled_under(&self.attributes, "")
    }

    /// Removes all NULs at the end of each warning, and returns the largest number removed from one.
    pub fn trim_warnings(&mut self) -> usize
        // Nothing else of it changes.
        ensures trimmed { action_message self.new ≡ norm_act (action_message self.old) }
        ensures most { result ≡ nuls_act (action_message self.old) }
        // No text is longer.
        ensures bound { result < 2 ^ 63 }
    {
        let mut most = 0;
        for attribute in self.attributes.iter_mut() {
            let count = attribute.trim_warning();
            if most < count {
                most = count;
            }
        }
        most
    }
}

impl<A: Allocator> PartialEq for TcActionMessage<A> {
    ghost eq = { on action_message same_message };

    ghost laws = { message_per action_message };

    fn eq(&self, other: &TcActionMessage<A>) -> bool {
        self.header == other.header && self.attributes == other.attributes
    }
}

impl<A: Allocator> Eq for TcActionMessage<A> {
    ghost laws = { message_equiv action_message };
}

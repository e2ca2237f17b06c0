//! Traffic control messages.

ghost use Rattle.std.specs.Prelude.{◌≡◌, ◌≤◌, ◌↔◌, [], length, drop, false, IfOk, IsTrue};
ghost use Rattle.std.specs.Ordering.{on};
ghost use Rattle.nla_frames.specs.Fault.{Returns, IfRefused, UnlessMemory, seen};
ghost use Rattle.nla_frames.specs.Emission.{Writes, HasRoom};
ghost use Rattle.tc_canon.specs.Layouts.{tc_header};
ghost use Rattle.tc_canon.specs.Tables.Messages.{attributes};
ghost use Rattle.tc_canon.specs.Canonical.{CanonTc};
ghost use Rattle.tc_meaning.specs.Message.{Message, message_codec, kind_of_frame, kind_of_attribute};
ghost use Rattle.tc_meaning.specs.Whole.{ReadsTc, FaultTc, read_tc, tc_bytes, TypedTc, FitsTc, SettledTc};
ghost use Rattle.tc_meaning.specs.Equal.{same_message, message_equiv, message_per};
ghost use Rattle.tc_laws.specs.Loose.{is_loose_tc};
ghost use Rattle.tc_records.specs.Header.{empty_header};
ghost use Rattle.tc_messages.specs.Message.{tc_message, TakesUnknownTc};

use crate::attribute::{TcAttribute, VecTcAttribute};
use nla_frames::{
    BytesMeaning, Emitable, ParseableBytes, Res, list_checked_len, list_settled_carrying, put_list,
};
use std::alloc::{Allocator, Global};
use tc_laws::{places, rewriting};
use tc_meaning::laws;
use tc_records::laws::in_range::header_in_range;
use tc_records::{TC_HEADER_LEN, TcHeader};

/// A message about a qdisc, a class, a filter or a chain: header and attributes.
#[derive(Drop)]
#[derive_where(Debug)]
#[derive_where(Clone; A)]
pub struct TcMessage<A: Allocator = Global> {
    /// The header, 20 bytes.
    pub header: TcHeader,
    /// The attributes, in order: a `Kind` governs those after it.
    pub attributes: Vec<TcAttribute<A>, A>,
}

impl<A: Allocator> TcMessage<A> {
    /// The header and the attributes.
    pub fn into_parts(self) -> (TcHeader, Vec<TcAttribute<A>, A>)
        ensures { result ≡ (self.header, self.attributes) }
    {
        let TcMessage { header, attributes } = self;
        (header, attributes)
    }

    /// A message of a header and attributes.
    pub fn from_parts(header: TcHeader, attributes: Vec<TcAttribute<A>, A>) -> TcMessage<A>
        ensures { result ≡ record { header = header; attributes = attributes } }
    {
        TcMessage { header, attributes }
    }
}

impl<A: Allocator> TcMessage<A> {
    /// A message of the default header and no attributes.
    pub fn default_in(alloc: A) -> TcMessage<A>
        ensures header { result.header ≡ empty_header }
        ensures attributes { result.attributes.items ≡ [] }
    {
        TcMessage {
            header: TcHeader::default(),
            attributes: Vec::new(alloc),
        }
    }

    /// A message of the default header but for the index of an interface, and no attributes.
    pub fn with_index(alloc: A, index: i32) -> TcMessage<A>
        ensures header { result.header ≡ record empty_header { index = index } }
        ensures attributes { result.attributes.items ≡ [] }
    {
        let mut message = TcMessage::default_in(alloc);
        message.header.index = index;
        message
    }
}

impl<A: Allocator> BytesMeaning for TcMessage<A> {
    ghost Seen = { Message };

    ghost see = { tc_message };

    ghost codec = { message_codec kind_of_frame kind_of_attribute tc_header attributes };
}

impl<A: Allocator + Copy> ParseableBytes<A> for TcMessage<A> {
    fn parse(alloc: A, bytes: &[u8]) -> Res<TcMessage<A>>
        // The value is the grammar's reading.
        ensures found { IfOk result (λ m. ReadsTc bytes.now (tc_message m)) }
        // A refusal is the first fault.
        ensures refused { IfRefused result (FaultTc bytes.now) }
        // The result is what the reading function computes, unless memory ran out.
        ensures exact { Returns (seen tc_message result) (read_tc bytes.now) }
        // A value that fits is written as the same bytes if and only if these are canonical.
        ensures same { IfOk result (λ m.
            FitsTc (tc_message m) → (tc_bytes (tc_message m) ≡ bytes.now) ↔ CanonTc bytes.now) }
        // Canonical bytes fail only with OutOfMemory, and read as a value that fits and is settled.
        ensures canonical { CanonTc bytes.now
            → UnlessMemory result (λ m. FitsTc (tc_message m) × SettledTc (tc_message m)) }
        // The value is unsettled if and only if it is loose: if encoding would change it.
        ensures loose { IfOk result (λ m.
            SettledTc (tc_message m) ↔ (is_loose_tc (tc_message m) ≡ false)) }
        // An attribute of an unknown type may be at any place, and is kept raw there.
        ensures unknown { IfOk result (λ m. TakesUnknownTc bytes.now (tc_message m)) }
    {
        // Laws, which do nothing: what the grammar says of these bytes, what is loose, and where a frame may be put in.
        laws::tc_message(bytes);
        rewriting::tc_rewriting(bytes);
        places::unknown_types();
        read(alloc, bytes)
    }
}

#[tactic(auto, unfolding(tc_meaning::specs::Message::read_with))]
fn read<A: Allocator + Copy>(alloc: A, bytes: &[u8]) -> Res<TcMessage<A>>
    ensures { Returns (seen tc_message result) (read_tc bytes.now) }
{
    let header = TcHeader::parse(bytes)?;
    let attributes = VecTcAttribute::parse(alloc, after_header(bytes))?.0;
    Ok(TcMessage { header, attributes })
}

// Reads the attributes after a header.
fn after_header(bytes: &[u8]) -> &[u8]
    requires { 20 ≤ length bytes.now }
    ensures { result.now ≡ drop 20 bytes.now }
{
    &bytes[TC_HEADER_LEN..]
}

impl<A: Allocator> Emitable for TcMessage<A> {
    fn checked_len(&self) -> Option<usize> {
        // A law, which does nothing: the header is typed, so it has its length in bytes.
        header_in_range(&self.header);
        match list_checked_len(&self.attributes) {
            Some(len) => len.checked_add(TC_HEADER_LEN),
            None => None,
        }
    }

    fn emit(&self, buffer: &mut [u8])
        requires fits { FitsTc (tc_message self.now) }
        requires room { HasRoom (tc_bytes (tc_message self.now)) buffer.old }
        ensures written { Writes (tc_bytes (tc_message self.now)) buffer.old buffer.new }
        ensures typed { TypedTc (tc_message self.now) }
        // The bytes read back as the message if and only if it is settled.
        ensures back { ReadsTc (tc_bytes (tc_message self.now)) (tc_message self.now)
            ↔ SettledTc (tc_message self.now) }
    {
        // Laws, which do nothing: what is written reads back if settled, and the header is typed.
        laws::tc_message(&[]);
        header_in_range(&self.header);
        put_list(&self.attributes, &mut buffer[TC_HEADER_LEN..]);
        self.header.emit(buffer);
    }
}

impl<A: Allocator> TcMessage<A> {
    /// True if encoding the message and parsing the bytes gives it back: the header is settled, and each attribute under
    /// the last kind before it.
    pub fn is_settled(&self) -> bool
        ensures settled { IsTrue result ↔ SettledTc (tc_message self.now) }
        ensures typed { IsTrue result → TypedTc (tc_message self.now) }
        // Its bytes are canonical.
        ensures canonical { IsTrue result → FitsTc (tc_message self.now)
            → CanonTc (tc_bytes (tc_message self.now)) }
    {
        // A law, which does nothing: the bytes of a settled message are canonical.
        laws::tc_message(&[]);
        self.has_settled_parts()
    }

    fn has_settled_parts(&self) -> bool
        ensures settled { IsTrue result ↔ SettledTc (tc_message self.now) }
        ensures typed { IsTrue result → TypedTc (tc_message self.now) }
    {
        // A law, which does nothing: the header is typed.
        header_in_range(&self.header);
        self.header.is_settled() && list_settled_carrying(&self.attributes)
    }
}

impl<A: Allocator> PartialEq for TcMessage<A> {
    ghost eq = { on tc_message same_message };

    ghost laws = { message_per tc_message };

    fn eq(&self, other: &TcMessage<A>) -> bool {
        self.header == other.header && self.attributes == other.attributes
    }
}

impl<A: Allocator> Eq for TcMessage<A> {
    ghost laws = { message_equiv tc_message };
}

//! One trait for both types of messages.

ghost use Rattle.std.specs.Prelude.{◌≡◌, ◌↔◌, length, IfOk, IfErr, IsTrue};
ghost use Rattle.nla_frames.specs.Emission.{HasRoom, Measures, Writes};
ghost use Rattle.nla_frames.specs.Fault.{IfRefused};
ghost use Rattle.tc_action_messages.specs.ActionMessage.{action_message};
ghost use Rattle.tc_laws.specs.Norm.{norm_tc, norm_act};
ghost use Rattle.tc_meaning.specs.Message.{Message};
ghost use Rattle.tc_meaning.specs.Whole.{Words, Correspond, tc_words, action_words};
ghost use Rattle.tc_messages.specs.Message.{tc_message};
ghost use Rattle.tc_wire.specs.Rewriting.{Refused, Rewrites, Settles};

use crate::rewriting::{RewriteError, rewrite_action, rewrite_tc, settle_action, settle_tc};
use nla_frames::{Emitable, ParseableBytes, Res};
use std::alloc::Allocator;
use tc_action_messages::TcActionMessage;
use tc_canon::{is_canonical_action, is_canonical_tc};
use tc_meaning::laws;
use tc_messages::TcMessage;

/// `TcMessage` or `TcActionMessage`, for code that serves both. `read`, `measure` and `write` are `parse`, `checked_len`
/// and `emit`.
pub trait WholeMessage<A: Allocator>: ParseableBytes<A> + Emitable {
    // What the grammar says of its bytes.
    ghost words: { Words Message };

    ghost message: { Self → Message };

    // What rewriting makes of a message in the end.
    ghost norm: { Message → Message };

    /// A law: reading is the grammar, what fits reads back if and only if it is settled, and settled messages that
    /// fit and canonical bytes correspond one to one. It does nothing.
    fn correspond(bytes: &[u8])
        ensures { Correspond words bytes.now };

    /// Parses bytes, or returns their first fault.
    fn read(alloc: A, bytes: &[u8]) -> Res<Self>
        ensures found { IfOk result (λ m. words.Reads bytes.now (message m)) }
        ensures refused { IfRefused result (words.Fault bytes.now) };

    /// The encoded length in bytes, or `None` if the message can't be encoded.
    fn measure(&self) -> Option<usize>
        ensures { Measures result (words.Fits (message self.now)) (words.bytes (message self.now)) };

    /// Encodes the message at the front of the buffer. The bytes after it are unchanged.
    fn write(&self, buffer: &mut [u8])
        requires fits { words.Fits (message self.now) }
        requires room { HasRoom (words.bytes (message self.now)) buffer.old }
        ensures { Writes (words.bytes (message self.now)) buffer.old buffer.new };

    /// True if encoding it and parsing the bytes gives it back.
    fn is_settled(&self) -> bool
        ensures settled { IsTrue result ↔ words.Settled (message self.now) }
        ensures typed { IsTrue result → words.Typed (message self.now) };

    /// True if the bytes are canonical: parsing and encoding gives them back.
    fn is_canonical(bytes: &[u8]) -> bool
        ensures { IsTrue result ↔ words.Canonical bytes.now };

    /// Parses a message and encodes it.
    fn rewrite(alloc: A, bytes: &[u8]) -> Result<Vec<u8, A>, RewriteError>
        ensures written { IfOk result (λ written. Rewrites words bytes.now written.items) }
        ensures refused { IfErr result (Refused words bytes.now) };

    /// The canonical bytes that rewriting leads to, and the number of rewrites.
    fn settle(alloc: A, bytes: &[u8]) -> Result<(Vec<u8, A>, usize), RewriteError>
        ensures settled { IfOk result (λ settled.
            Settles words norm bytes.now settled.0.items settled.1) }
        ensures refused { IfErr result (Refused words bytes.now) };

    /// True if it can be encoded.
    final fn is_writable(&self) -> bool
        ensures { IsTrue result ↔ words.Fits (message self.now) }
    {
        self.measure().is_some()
    }

    /// The encoded length in bytes.
    final fn written_len(&self) -> usize
        requires { words.Fits (message self.now) }
        ensures { result ≡ length (words.bytes (message self.now)) }
    {
        self.measure().unwrap_or(0)
    }
}

impl<A: Allocator + Copy> WholeMessage<A> for TcMessage<A> {
    ghost words = { tc_words };

    ghost message = { tc_message };

    ghost norm = { norm_tc };

    fn correspond(bytes: &[u8]) {
        laws::tc_message(bytes);
    }

    fn read(alloc: A, bytes: &[u8]) -> Res<TcMessage<A>> {
        TcMessage::parse(alloc, bytes)
    }

    fn measure(&self) -> Option<usize> {
        self.checked_len()
    }

    fn write(&self, buffer: &mut [u8]) {
        self.emit(buffer);
    }

    fn is_settled(&self) -> bool {
        TcMessage::is_settled(self)
    }

    fn is_canonical(bytes: &[u8]) -> bool {
        is_canonical_tc(bytes)
    }

    fn rewrite(alloc: A, bytes: &[u8]) -> Result<Vec<u8, A>, RewriteError> {
        rewrite_tc(alloc, bytes)
    }

    fn settle(alloc: A, bytes: &[u8]) -> Result<(Vec<u8, A>, usize), RewriteError> {
        settle_tc(alloc, bytes)
    }
}

impl<A: Allocator + Copy> WholeMessage<A> for TcActionMessage<A> {
    ghost words = { action_words };

    ghost message = { action_message };

    ghost norm = { norm_act };

    fn correspond(bytes: &[u8]) {
        laws::action_message(bytes);
    }

    fn read(alloc: A, bytes: &[u8]) -> Res<TcActionMessage<A>> {
        TcActionMessage::parse(alloc, bytes)
    }

    fn measure(&self) -> Option<usize> {
        self.checked_len()
    }

    fn write(&self, buffer: &mut [u8]) {
        self.emit(buffer);
    }

    fn is_settled(&self) -> bool {
        TcActionMessage::is_settled(self)
    }

    fn is_canonical(bytes: &[u8]) -> bool {
        is_canonical_action(bytes)
    }

    fn rewrite(alloc: A, bytes: &[u8]) -> Result<Vec<u8, A>, RewriteError> {
        rewrite_action(alloc, bytes)
    }

    fn settle(alloc: A, bytes: &[u8]) -> Result<(Vec<u8, A>, usize), RewriteError> {
        settle_action(alloc, bytes)
    }
}

//! Rewriting (parse, then encode) and settling (rewrite until canonical).

ghost use Rattle.std.specs.Prelude.{◌≡◌, ◌+◌, ◌<◌, ◌^◌, [], length, Ok, IfOk, IfErr};
ghost use Rattle.tc_canon.specs.Canonical.{CanonTc, CanonAct};
ghost use Rattle.tc_meaning.specs.Message.{Message};
ghost use Rattle.tc_meaning.specs.Whole.{ReadsAct};
ghost use Rattle.tc_laws.specs.Loose.{nuls_act};
ghost use Rattle.tc_wire.specs.Rewriting.{RewritesTc, RewritesAct, refusal, RefusedTc, RefusedAct, WrittenOf, RefusedOf, SettlesTc, SettlesAct, CountIs, TrimmedOf};
ghost use Rattle.tc_wire.specs.declared.rewriting.RewriteError.TheVariants.{OutOfMemory};

use nla_frames::{DecodeError, Emitable, ParseableBytes};
use std::alloc::{AllocError, Allocator};
use tc_action_messages::TcActionMessage;
use tc_canon::{is_canonical_action, is_canonical_tc};
use tc_laws::rewriting::{action_rewriting, action_same_norm, tc_rewriting};
use tc_meaning::laws::{action_message, tc_message};
use tc_messages::TcMessage;
use thiserror::Error;

/// Why rewriting failed. The causes are tested in this order, but memory may run out at any allocation.
#[derive(Drop, PartialEq, Eq, Error, Debug)]
pub enum RewriteError {
    /// The bytes don't parse: the first fault, never `OutOfMemory`.
    #[error("{0}")]
    Decode(DecodeError),

    /// The value can't be encoded: a payload would exceed 65,531 bytes.
    #[error("value does not fit")]
    DoesNotFit,

    /// Allocation failed.
    #[error("out of memory")]
    OutOfMemory,
}

impl From<DecodeError> for RewriteError {
    ghost from_gives = { λ d e. e ≡ refusal d };

    fn from(e: DecodeError) -> RewriteError {
        match e {
            DecodeError::OutOfMemory => RewriteError::OutOfMemory,
            e => RewriteError::Decode(e),
        }
    }
}

impl From<AllocError> for RewriteError {
    ghost from_gives = { λ _ e. e ≡ OutOfMemory };

    fn from(_e: AllocError) -> RewriteError {
        RewriteError::OutOfMemory
    }
}

// Encodes a value that fits.
fn emitted<A: Allocator, M: Emitable>(
    alloc: A,
    value: &M,
    len: usize,
) -> Result<Vec<u8, A>, AllocError>
    requires fits { M.codec.Fits (M.see value.now) }
    requires length { len ≡ length (M.codec.write (M.see value.now)) }
    ensures { IfOk result (λ bytes. bytes.items ≡ M.codec.write (M.see value.now)) }
{
    let mut bytes = vec![in alloc; 0u8; len]?;
    value.emit(&mut bytes);
    Ok(bytes)
}

// Parses bytes, and measures the value.
fn read<A: Allocator + Copy, M: ParseableBytes<A> + Emitable + Drop>(
    alloc: A,
    bytes: &[u8],
) -> Result<(M, usize), RewriteError>
    ensures read { IfOk result (λ r. M.codec.read [] bytes.now ≡ Ok (M.see r.0)) }
    ensures fits { IfOk result (λ r. M.codec.Fits (M.see r.0)) }
    ensures length { IfOk result (λ r. r.1 ≡ length (M.codec.write (M.see r.0))) }
    ensures refused { IfErr result (RefusedOf M.codec (M.codec.read [] bytes.now)) }
{
    let value = M::parse(alloc, bytes)?;
    match value.checked_len() {
        Some(len) => Ok((value, len)),
        None => Err(RewriteError::DoesNotFit),
    }
}

// Parses and encodes.
fn rewrite<A: Allocator + Copy, M: ParseableBytes<A> + Emitable + Drop>(
    alloc: A,
    bytes: &[u8],
) -> Result<Vec<u8, A>, RewriteError>
    ensures written { IfOk result (λ written.
        WrittenOf M.codec (M.codec.read [] bytes.now) written.items) }
    ensures refused { IfErr result (RefusedOf M.codec (M.codec.read [] bytes.now)) }
{
    let (value, len): (M, usize) = read(alloc, bytes)?;
    Ok(emitted(alloc, &value, len)?)
}

/// Parses a traffic control message and encodes it.
pub fn rewrite_tc<A: Allocator + Copy>(alloc: A, bytes: &[u8]) -> Result<Vec<u8, A>, RewriteError>
    ensures written { IfOk result (λ written. RewritesTc bytes.now written.items) }
    ensures refused { IfErr result (RefusedTc bytes.now) }
{
    // A law, which does nothing: what is read is what the grammar reads.
    tc_message(bytes);
    rewrite::<A, TcMessage<A>>(alloc, bytes)
}

/// Parses an action message and encodes it.
pub fn rewrite_action<A: Allocator + Copy>(
    alloc: A,
    bytes: &[u8],
) -> Result<Vec<u8, A>, RewriteError>
    ensures written { IfOk result (λ written. RewritesAct bytes.now written.items) }
    ensures refused { IfErr result (RefusedAct bytes.now) }
{
    // A law, which does nothing: what is read is what the grammar reads.
    action_message(bytes);
    rewrite::<A, TcActionMessage<A>>(alloc, bytes)
}

/// The canonical bytes that rewriting leads to, and the number of rewrites: 0 if the bytes are canonical, else 1.
pub fn settle_tc<A: Allocator + Copy>(
    alloc: A,
    bytes: &[u8],
) -> Result<(Vec<u8, A>, usize), RewriteError>
    ensures settled { IfOk result (λ settled. SettlesTc bytes.now settled.0.items settled.1) }
    ensures count { IfOk result (λ settled. CountIs (CanonTc bytes.now) 1 settled.1) }
    ensures refused { IfErr result (RefusedTc bytes.now) }
{
    // Laws, which do nothing: canonical bytes read as their own norm, and all others are canonical after one rewrite.
    tc_message(bytes);
    tc_rewriting(bytes);
    if is_canonical_tc(bytes) {
        return Ok((Vec::from_slice(alloc, bytes)?, 0));
    }
    Ok((rewrite_tc(alloc, bytes)?, 1))
}

/// The canonical bytes that rewriting leads to, and the number of rewrites: 0 if the bytes are canonical, else n + 1,
/// where n is the longest run of trailing NULs in a warning as read. They are computed, not performed one by one.
pub fn settle_action<A: Allocator + Copy>(
    alloc: A,
    bytes: &[u8],
) -> Result<(Vec<u8, A>, usize), RewriteError>
    ensures settled { IfOk result (λ settled. SettlesAct bytes.now settled.0.items settled.1) }
    ensures count { IfOk result (λ settled.
        (m : Message) → ReadsAct bytes.now m
        → CountIs (CanonAct bytes.now) (nuls_act m + 1) settled.1) }
    ensures refused { IfErr result (RefusedAct bytes.now) }
{
    // Laws, which do nothing: after how many rewrites the bytes are canonical.
    action_message(bytes);
    action_rewriting(bytes);
    if is_canonical_action(bytes) {
        let copy = Vec::from_slice(alloc, bytes)?;
        return Ok((copy, 0));
    }
    let (settled, nuls) = trimmed(alloc, bytes)?;
    // Laws, which do nothing: the trimmed message's bytes are those to which rewriting leads, as both have one norm.
    action_rewriting(&settled);
    action_same_norm(bytes, &settled);
    Ok((settled, nuls + 1))
}

// Parses an action message and encodes it without NULs at the end of its warnings; returns the longest run of them.
fn trimmed<A: Allocator + Copy>(alloc: A, bytes: &[u8]) -> Result<(Vec<u8, A>, usize), RewriteError>
    ensures trimmed { IfOk result (λ trimmed. TrimmedOf bytes.now trimmed.0.items trimmed.1) }
    ensures bound { IfOk result (λ trimmed. trimmed.1 < 2 ^ 63) }
    ensures refused { IfErr result (RefusedAct bytes.now) }
{
    // Laws, which do nothing: what is read is what the grammar reads, and its norm fits.
    action_message(bytes);
    action_rewriting(bytes);
    let (mut message, _): (TcActionMessage<A>, usize) = read(alloc, bytes)?;
    let nuls = message.trim_warnings();
    let len = message.buffer_len();
    Ok((emitted(alloc, &message, len)?, nuls))
}

//! Verdicts on bytes, for C.

ghost use Rattle.std.specs.Prelude.{◌≡◌, ◌≤◌, length};
ghost use Rattle.tc_status.specs.Status.{numbers_of};
ghost use Rattle.tc_ffi.specs.Checks.{IsJudged, IsCounted, Numbers, Says, fault_offset};

use std::alloc::Global;
use tc_faults::{What, locate};
use tc_message_json::HasForm;
use tc_status::numbers_of;
use tc_wire::{DecodeError, WholeMessage};

/// The verdict on a message: `struct vtc_verdict`.
#[repr(C)]
#[derive(Clone, Copy)]
pub struct VtcVerdict {
    /// The encoded length in bytes. 0 if it can't be encoded.
    pub length: usize,
    /// 1 if it can be encoded, else 0.
    pub fits: u8,
    /// 1 if it survives encoding and parsing, else 0.
    pub settled: u8,
    /// 1 if encoding it gives the bytes back, else 0.
    pub canonical: u8,
}

/// The first fault of bytes: `struct vtc_fault`.
#[repr(C)]
#[derive(Clone, Copy)]
pub struct VtcFault {
    /// Its numbers, or 0 if it doesn't have them.
    pub first: usize,
    pub second: usize,
    /// Its offset in the bytes.
    pub offset: usize,
}

/// The verdict on a message and the bytes that it was read from.
pub fn judged<M: WholeMessage<Global>>(message: &M, bytes: &[u8]) -> VtcVerdict
    ensures { IsJudged M.words bytes.now (M.message message.now) result }
{
    let (fits, length) = fits_in(message);
    VtcVerdict {
        length,
        fits,
        settled: number(message.is_settled()),
        canonical: number(M::is_canonical(bytes)),
    }
}

// 1 and the encoded length of a message, or 0 and 0 if it can't be encoded.
fn fits_in<M: WholeMessage<Global>>(message: &M) -> (u8, usize)
    ensures fits { Says result.0 (M.words.Fits (M.message message.now)) }
    ensures counted { IsCounted (M.words.Fits (M.message message.now)) (M.words.bytes (M.message message.now)) result.1 }
{
    match message.measure() {
        Some(length) => (1, length),
        None => (0, 0),
    }
}

/// The first fault of bytes, for C.
pub fn fault_of<M: HasForm>(fault: &DecodeError, bytes: &[u8]) -> VtcFault
    ensures numbers { (result.first, result.second) ≡ numbers_of fault.now }
    ensures place { result.offset ≡ fault_offset M.what bytes.now }
    ensures inside { result.offset ≤ length bytes.now }
{
    let (first, second) = numbers_of(fault);
    VtcFault {
        first,
        second,
        offset: place_of(bytes, M::what()),
    }
}

// The offset of the first fault.
fn place_of(bytes: &[u8], what: What) -> usize
    ensures place { result ≡ fault_offset what bytes.now }
    ensures inside { result ≤ length bytes.now }
{
    match locate(bytes, what) {
        Some(fault) => fault.offset,
        None => 0,
    }
}

/// 1 if true, 0 if false.
pub fn number(holds: bool) -> u8
    ensures { Numbers result holds }
{
    if holds { 1 } else { 0 }
}

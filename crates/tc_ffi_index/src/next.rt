//! `vtc_next`: the attributes of a list, one per call.

ghost use Rattle.std.specs.Prelude.{◌≡◌, ◌≢◌, ◌<◌, ◌≤◌, length};
ghost use Rattle.tc_ffi_index.specs.Next.{Nexts};

use nla_frames::NlaBuffer;
use tc_status::{END, OK, status_of};

/// An attribute of a list: `struct vtc_attr`.
#[repr(C)]
#[derive(Clone, Copy)]
pub struct VtcAttr {
    /// The offset of its value in the bytes.
    pub offset: usize,
    /// The length of its value in bytes, without padding.
    pub len: usize,
    /// `nla_type`: the type and the two flags.
    pub word: u16,
}

/// Reads the attribute at offset `at` of the bytes, and moves the offset after it and its padding.
#[unsafe(no_mangle)]
pub extern "C" fn vtc_next(bytes: &[u8], at: &mut usize, attr: &mut VtcAttr) -> u32
    ensures steps { at.old < length bytes.now → Nexts bytes.now at.old at.new attr.new result }
    ensures ends { length bytes.now ≤ at.old → result ≡ 14 }
    ensures place { result ≢ 0 → at.new ≡ at.old }
    ensures kept { result ≢ 0 → attr.new ≡ attr.old }
{
    if *at >= bytes.len() {
        return END;
    }
    let (_, rest) = bytes.split_at(*at);
    match NlaBuffer::new_checked(rest) {
        Ok(frame) => {
            let length = frame.length() as usize;
            *attr = VtcAttr {
                offset: *at + 4,
                len: length - 4,
                word: frame.word(),
            };
            *at += (length + (4 - length % 4) % 4).min(rest.len());
            OK
        }
        Err(e) => status_of(&e),
    }
}

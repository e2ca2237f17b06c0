//! Retries of reads and writes that were interrupted.

ghost use Rattle.std.specs.Prelude.{◌≡◌, ◌+◌, ◌⊎◌, ◌≢◌, true, false};
ghost use Rattle.std.specs.IoError.{error_kind};
ghost use Rattle.tcrewrite_lib.specs.Retries.{retries_left};

use std::io::{Error, ErrorKind};

// How often a call that was interrupted is tried again.
pub(crate) const MOST_RETRIES: u16 = 1024;

/// The retries that are left for calls that are interrupted.
#[derive(Drop)]
pub struct Retries {
    left: u16,
}

impl Retries {
    /// 1,024 retries.
    pub fn new() -> Retries
        ensures { retries_left result ≡ 1024 }
    {
        Retries { left: MOST_RETRIES }
    }

    /// True if a call that failed is to be tried again: it was interrupted, and a retry is left.
    pub fn tries_again(&mut self, fault: &Error) -> bool
        ensures again { result ≡ true
            → (error_kind fault.now ≡ ErrorKind.Interrupted) × (retries_left self.new + 1 ≡ retries_left self.old) }
        ensures ends { result ≡ false
            → ((error_kind fault.now ≢ ErrorKind.Interrupted) ⊎ (retries_left self.old ≡ 0))
            × (retries_left self.new ≡ retries_left self.old) }
    {
        if fault.kind() != ErrorKind::Interrupted || self.left == 0 {
            return false;
        }
        self.left -= 1;
        true
    }
}

//! `vtc_is_canonical` and `vtc_action_is_canonical`.

ghost use Rattle.tc_canon.specs.Canonical.{CanonTc, CanonAct};
ghost use Rattle.tc_ffi_index.specs.Verdict.{Says};

/// 1 if the bytes are a canonical traffic control message, 0 if not.
#[unsafe(no_mangle)]
pub extern "C" fn vtc_is_canonical(bytes: &[u8]) -> u8
    ensures { Says result (CanonTc bytes.now) }
{
    if tc_canon::is_canonical_tc(bytes) {
        1
    } else {
        0
    }
}

/// 1 if the bytes are a canonical action message, 0 if not.
#[unsafe(no_mangle)]
pub extern "C" fn vtc_action_is_canonical(bytes: &[u8]) -> u8
    ensures { Says result (CanonAct bytes.now) }
{
    if tc_canon::is_canonical_action(bytes) {
        1
    } else {
        0
    }
}

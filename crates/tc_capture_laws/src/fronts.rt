//! The piece at the front of some bytes, while more bytes arrive.

ghost use Rattle.std.specs.Prelude.{◌≡◌, ◌⊎◌, ◌<◌, ℕ, List, ◌++◌, length, Ok, Err};
ghost use Rattle.tc_capture.specs.declared.error.CaptureError.TheVariants.{Short};
ghost use Rattle.tc_capture.specs.Front.{Front};
ghost use Rattle.tc_capture.specs.Capture.{State, next_piece};
ghost use Rattle.tc_capture_laws.specs.Fronts.{IsFront, NeedsMore};

/// A piece has at least one byte, all of it is there, and its packet is in it, at its offset.
pub fn piece_is_there(bytes: &[u8])
    ensures { (s : State) (next : Front × State) → next_piece s bytes.now ≡ Ok next
        → IsFront bytes.now next.0 }
{}

/// The piece or fault at the front doesn't change when more bytes follow, unless it needs more bytes.
pub fn more_bytes_change_nothing(bytes: &[u8])
    ensures { (s : State) (more : List ℕ) → NeedsMore (next_piece s bytes.now)
        ⊎ (next_piece s (bytes.now ++ more) ≡ next_piece s bytes.now) }
{}

/// A fault that needs more bytes says how many are there, and how many are needed.
pub fn short_counts_bytes(bytes: &[u8])
    ensures { (s : State) (needed left : ℕ) → next_piece s bytes.now ≡ Err (Short needed left)
        → (left ≡ length bytes.now) × (left < needed) }
{}

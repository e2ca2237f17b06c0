//! A file is the concatenation of its pieces, and a piece the concatenation of its parts: no byte is lost or repeated.

ghost use Rattle.std.specs.Prelude.{◌≡◌, ◌<◌, List, [], ◌∷◌, ◌++◌, length, All};
ghost use Rattle.tc_capture.specs.declared.error.CaptureError.{CaptureError};
ghost use Rattle.tc_capture.specs.Capture.{State};
ghost use Rattle.tc_capture.specs.Messages.{messages_in};
ghost use Rattle.tc_capture_laws.specs.Pieces as pieces;
ghost use Rattle.tc_capture_laws.specs.Pieces.{Piece, HasLength, pieces_in};
ghost use Rattle.tc_capture_laws.specs.Parts.{joined, parts_in, message_parts, messages_of};

/// The pieces of a file, concatenated, are the file, whatever its bytes are, in whatever state reading begins, and
/// however many bytes a reader keeps.
pub fn pieces_join(most: usize, file: &[u8])
    ensures { (s : State) → pieces.joined (pieces_in most s file.now) ≡ file.now }
{}

/// No piece is empty.
pub fn pieces_have_bytes(most: usize, file: &[u8])
    ensures { (s : State) → All (λ (p : Piece). 0 < length p.bytes) (pieces_in most s file.now) }
{}

/// A piece that is read is no longer than what a reader keeps, and a piece that is skipped is longer.
pub fn long_pieces_are_skipped(most: usize, file: &[u8])
    ensures { (s : State) → All (λ (p : Piece). HasLength most p.what (length p.bytes)) (pieces_in most s file.now) }
{}

/// If a file can't be read further, the rest of it is the last piece.
pub fn rest_is_last(most: usize, file: &[u8])
    ensures { (s : State) (front after : List Piece) (e : CaptureError) (p : Piece)
        → pieces_in most s file.now ≡ front ++ p ∷ after → p.what ≡ pieces.rest e → after ≡ [] }
{}

/// The parts of a file, down to its messages, concatenated, are the file.
pub fn parts_join(most: usize, file: &[u8])
    ensures { (s : State) → joined (parts_in (pieces_in most s file.now)) ≡ file.now }
{}

/// The parts of the messages of a packet are those messages.
pub fn parts_are_messages(bytes: &[u8])
    ensures { messages_of (message_parts bytes.now) ≡ messages_in bytes.now }
{}

//! Laws of the definitions, each the contract of an empty function.

ghost use Rattle.std.specs.Prelude.{◌≡◌, ℕ, List, Option};
ghost use Rattle.nla_frames.specs.Family.{family_of, number_of};
ghost use Rattle.nla_frames.specs.declared.error.DecodeError.{DecodeError};
ghost use Rattle.nla_frames.specs.Frame.{Frame, IsWireFrame};
ghost use Rattle.nla_frames.specs.Grammar.{CutsUp};
ghost use Rattle.nla_frames.specs.Cutting.{cut};
ghost use Rattle.nla_frames.specs.Place.{Sets};
ghost use Rattle.nla_frames.specs.Reading.{read_list};
ghost use Rattle.nla_frames.specs.ListGrammar.{HasOneOutcome};
ghost use Rattle.nla_frames.specs.Codec.{Laws, IsWireBytes, list_codec, SetTheSame};
ghost use Rattle.nla_frames.specs.CanonList.{IsCanonList};
ghost use Rattle.nla_frames.specs.DefaultNla.{kept_codec, any_frame};

pub mod in_range;

use crate::meaning::{CanonMeaning, FrameMeaning};

/// `cut` is the grammar of frames: the bytes are the frames that `cut` returns, followed by the broken frame of its
/// fault, if any. If the bytes are some frames, or some frames and a broken one, `cut` returns these. So all bytes can
/// be cut, in exactly one way.
pub fn cutting(bytes: &[u8])
    ensures cuts { CutsUp bytes.now (cut bytes.now).frames (cut bytes.now).fault }
    ensures only { (fs : List Frame) (fault : Option DecodeError) → CutsUp bytes.now fs fault
        → cut bytes.now ≡ record { frames = fs; fault = fault } }
{}

/// `read_list` is the grammar of lists, whatever their elements are and whichever frames set a kind. It returns values
/// if and only if the bytes are frames and each reads as its value under the kind in force at its place: the text that
/// was set last before it. It returns a fault if and only if a broken frame, or one that has no reading, follows
/// frames that can be read, and has this fault. So all bytes have one reading and no fault, or no reading and one
/// fault.
pub fn list_grammar<T: FrameMeaning>(bytes: &[u8], kind: &str)
    ensures { (sets : Sets Frame)
        → HasOneOutcome T.codec.read sets kind.now bytes.now
        (read_list T.codec.read sets kind.now bytes.now) }
{}

/// Reading and writing are inverses for lists if they are for the elements, whichever frames set a kind: a list that
/// is written reads back as itself if and only if each element is settled under the kind in force at its place, and a
/// list that was read is written as the same bytes if and only if these are canonical frames, padded in full.
pub fn lists<T: CanonMeaning>()
    ensures { (by_frame : Sets Frame) (by_value : Sets T.Seen)
        → SetTheSame T.codec.read by_frame by_value → Laws IsWireFrame T.codec T.Canon
        → Laws IsWireBytes (list_codec by_frame by_value T.codec) (IsCanonList T.Canon by_frame) }
{}

/// Reading and writing are inverses for attributes that are kept raw. Any frame is canonical for them.
pub fn kept()
    ensures { Laws IsWireFrame kept_codec any_frame }
{}

/// A number is the number of its family, so reading and writing a family loses nothing.
pub fn family_numbers()
    ensures { (n : ℕ) → number_of (family_of n) ≡ n }
{}

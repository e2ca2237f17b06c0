//! `TCA_KIND` and `TCA_ACT_KIND`: the kind that a frame sets, and whether options of a kind are settled.

ghost use Rattle.std.specs.Prelude.{◌≡◌, ◌↔◌, [], true, IsTrue};
ghost use Rattle.std.specs.Str.{bytes_eq};
ghost use Rattle.nla_frames.specs.Fault.{seen};
ghost use Rattle.nla_frames.specs.Buffer.{frame_of};
ghost use Rattle.nla_frames.specs.OnlyKind.{text_set};
ghost use Rattle.tc_meaning.specs.OwnGrammar.{first_look};

use nla_frames::{DecodeError, NlaBuffer, Res, Settle, strip_nul};

// The type of the kind attribute: `TCA_KIND` in a message, `TCA_ACT_KIND` in an action.
const TCA_KIND: u16 = 1;

/// True if encoding an option of the kind `own` and parsing the bytes under `kind` returns it unchanged: if both kinds
/// are equal and it is settled under that kind.
pub fn is_settled_of_kind<T: Settle>(attribute: &T, own: &str, kind: &str) -> bool
    ensures settled { IsTrue result
        ↔ (bytes_eq kind.now own.now ≡ true) × T.codec.Settled kind.now (T.see attribute.now) }
    ensures typed { IsTrue result → T.codec.Typed (T.see attribute.now) }
{
    kind == own && attribute.is_settled_under(kind)
}

/// The kind that a frame sets: the text of a frame of type 1, with any flags. `None` for any other type. Fails with
/// `NotUtf8` if the payload isn't UTF-8.
pub fn kind_set_by_frame<'a>(frame: &NlaBuffer<'a>) -> Res<Option<&'a str>>
    ensures { seen text_set result ≡ first_look [] (frame_of frame.now) }
{
    if frame.kind() != TCA_KIND {
        return Ok(None);
    }
    match std::str::from_utf8(strip_nul(frame.value())) {
        Ok(kind) => Ok(Some(kind)),
        Err(_) => Err(DecodeError::NotUtf8),
    }
}

//! The bytes of JSON text.

ghost use Rattle.std.specs.Prelude.{◌≡◌, ℕ, List, Some, IfOk, OnOk, IfErr, IsUtf8, MatchResult, option_and_then};
ghost use Rattle.nla_frames.specs.Value.{IsBytes};
ghost use Rattle.serde_json.specs.Read.{read};
ghost use Rattle.forms_json.specs.Made.{made_of};
ghost use Rattle.forms_json.specs.Shown.{shown_of};
ghost use Rattle.forms_text.specs.Make.{IsMemory, IsTextCause};
ghost use Rattle.forms_text.specs.Read.{HasNamesOnce};
ghost use Rattle.forms_text.specs.Text.{IsJsonText};

use crate::error::TextError;
use crate::read::read_json;
use forms_json::{Form, Tables, made};
use std::alloc::Global;

/// The bytes of JSON text in a form, with a table. The text that `serde_json` writes for the JSON of bytes leads back to them, unless
/// memory runs out.
pub fn bytes_of_text<T: Tables>(
    alloc: Global,
    table: T,
    form: Form,
    text: &[u8],
) -> Result<Vec<u8>, TextError>
    ensures made { IfOk result (λ bytes. option_and_then (made_of (T.parts_of table) form) (read text.now) ≡ Some bytes.items) }
    ensures once { OnOk result (HasNamesOnce text.now) }
    ensures refused { IfErr result (IsTextCause (T.parts_of table) form text.now) }
    ensures shown { (bytes : List ℕ) → IsBytes bytes → IsUtf8 text.now
        → IsJsonText (shown_of (T.parts_of table) form bytes) text.now
        → MatchResult result (λ made. made.items ≡ bytes) IsMemory }
{
    match read_json(alloc, text) {
        Ok(json) => match made(alloc, table, form, &json) {
            Ok(bytes) => Ok(bytes),
            Err(e) => Err(TextError::Make(e)),
        },
        Err(e) => Err(TextError::Read(e)),
    }
}

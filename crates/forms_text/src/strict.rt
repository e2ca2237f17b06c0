//! The bytes of JSON, strictly.

ghost use Rattle.std.specs.Prelude.{◌≡◌, ◌≢◌, ◌⊎◌, ℕ, List, Some, IfErr, IfOk, MatchResult, OnOk};
ghost use Rattle.nla_frames.specs.Value.{IsBytes};
ghost use Rattle.serde_json.specs.View.{view};
ghost use Rattle.forms_json.specs.Made.{made_of};
ghost use Rattle.forms_text.specs.Strict.{IsMemory, json_of};

use crate::difference::first_difference;
use crate::error::StrictError;
use crate::laws::shown_text_is_made;
use crate::same::is_same;
use forms_json::{Form, Shown, Tables, made};
use serde_json::{Value, to_value};
use std::alloc::{AllocError, Global};

/// The bytes whose JSON this is, in a form, with a table.
pub fn made_strictly<T: Tables>(
    alloc: Global,
    table: T,
    form: Form,
    json: &Value,
) -> Result<Vec<u8>, StrictError>
    ensures made { IfOk result (λ bytes. made_of (T.parts_of table) form (view json.now) ≡ Some bytes.items) }
    ensures shown { IfOk result (λ bytes. json_of (T.parts_of table) form bytes.items ≡ view json.now) }
    // If there are such bytes, they are made unless memory runs out.
    ensures found { (bytes : List ℕ) → IsBytes bytes → json_of (T.parts_of table) form bytes ≡ view json.now
        → MatchResult result (λ made. made.items ≡ bytes) IsMemory }
{
    let bytes = match made(alloc, table, form, json) {
        Ok(bytes) => bytes,
        Err(e) => return Err(StrictError::Make(e)),
    };
    match check_shown(alloc, table, form, json, &bytes) {
        Ok(()) => Ok(bytes),
        Err(e) => Err(e),
    }
}

/// Fails unless the JSON of bytes is this JSON.
pub fn check_shown<T: Tables>(
    alloc: Global,
    table: T,
    form: Form,
    json: &Value,
    bytes: &[u8],
) -> Result<(), StrictError>
    ensures shown { OnOk result (json_of (T.parts_of table) form bytes.now ≡ view json.now) }
    ensures other { IfErr result (λ e. IsMemory e ⊎ (json_of (T.parts_of table) form bytes.now ≢ view json.now)) }
{
    let shown = match shown_json(alloc, table, form, bytes) {
        Ok(shown) => shown,
        Err(e) => return Err(StrictError::from(e)),
    };
    if is_same(&shown, json) {
        Ok(())
    } else {
        Err(differs(alloc, json, &shown))
    }
}

/// The JSON of bytes in a form, as a reader has it: the members of each object in the order of their names.
pub fn shown_json<T: Tables>(
    alloc: Global,
    table: T,
    form: Form,
    bytes: &[u8],
) -> Result<Value, AllocError>
    ensures { IfOk result (λ json. view json ≡ json_of (T.parts_of table) form bytes.now) }
{
    // A law, which does nothing: the text of the JSON of bytes is read as this JSON.
    shown_text_is_made(table, form, bytes);
    let shown = Shown {
        table,
        form,
        bytes,
        alloc,
    };
    match to_value(alloc, &shown) {
        Ok(json) => Ok(json),
        Err(_) => Err(AllocError),
    }
}

// The error for JSON whose bytes have other JSON.
fn differs(alloc: Global, json: &Value, shown: &Value) -> StrictError {
    match first_difference(alloc, json, shown) {
        Ok(difference) => StrictError::Differs(difference),
        Err(e) => StrictError::from(e),
    }
}

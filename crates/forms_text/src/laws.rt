//! Laws of the text of JSON. The functions do nothing: their contracts are the laws.

ghost use Rattle.std.specs.Prelude.{◌≡◌, ℕ, List, Some};
ghost use Rattle.serde_json.specs.Data.{Data};
ghost use Rattle.serde_json.specs.Read.{read};
ghost use Rattle.forms_json.specs.Shown.{shown_of};
ghost use Rattle.forms_json.specs.Made.{made_of};
ghost use Rattle.forms_json.specs.Ordered.{ordered};
ghost use Rattle.forms_text.specs.Read.{HasNamesOnce};
ghost use Rattle.forms_text.specs.Text.{IsJsonText};

use forms_json::{Form, Tables};

/// For every table, form and list of bytes: the text that `serde_json` writes for their JSON, compact or indented, is read. It is read
/// as this JSON, the members of each object in the order of their names. No object in it has a name twice, and the JSON that is read leads
/// back to the bytes.
pub fn shown_text_is_made<T: Tables>(table: T, form: Form, bytes: &[u8])
    ensures read { (text : List ℕ) → IsJsonText (shown_of (T.parts_of table) form bytes.now) text
        → read text ≡ Some (ordered (shown_of (T.parts_of table) form bytes.now)) }
    ensures once { (text : List ℕ) → IsJsonText (shown_of (T.parts_of table) form bytes.now) text
        → HasNamesOnce text }
    ensures made { (text : List ℕ) (json : Data) → IsJsonText (shown_of (T.parts_of table) form bytes.now) text
        → read text ≡ Some json → made_of (T.parts_of table) form json ≡ Some bytes.now }
{}

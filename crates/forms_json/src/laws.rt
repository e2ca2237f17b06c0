//! Laws of JSON and bytes. The functions do nothing: their contracts are the laws.

ghost use Rattle.std.specs.Prelude.{◌≡◌, Some};
ghost use Rattle.forms_json.specs.Made.{made_of};
ghost use Rattle.forms_json.specs.Ordered.{ordered};
ghost use Rattle.forms_json.specs.Shown.{shown_of};

use forms_values::{Form, Tables};

/// The JSON of bytes leads back to these bytes, for every table, form and list of bytes, also if a reader of JSON has put the members
/// in the order of their names.
pub fn shown_is_made<T: Tables>(table: T, form: Form, bytes: &[u8])
    ensures again { made_of (T.parts_of table) form (shown_of (T.parts_of table) form bytes.now) ≡ Some bytes.now }
    ensures read { made_of (T.parts_of table) form (ordered (shown_of (T.parts_of table) form bytes.now)) ≡ Some bytes.now }
{}

/// Different bytes have different JSON.
pub fn shown_is_injective<T: Tables>(table: T, form: Form, one: &[u8], other: &[u8])
    ensures { shown_of (T.parts_of table) form one.now ≡ shown_of (T.parts_of table) form other.now → one.now ≡ other.now }
{}

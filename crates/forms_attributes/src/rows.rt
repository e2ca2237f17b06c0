//! The rows of a list of attributes, by kind, by type and by name.

ghost use Rattle.serde_json.specs.View.{view};
ghost use Rattle.std.specs.Prelude.{IfSome, IsTrue, None, Some, bytes_eq, option_map, unwrap_or, ◌≡◌};
ghost use Rattle.forms_values.specs.Places.{kind_place, part_at, rows_of, rows_under};
ghost use Rattle.forms_values.specs.Raw.{one};
ghost use Rattle.forms_attributes.specs.RowLists.{rows_in};
ghost use Rattle.forms_attributes.specs.Rows.{counts, of_name, of_type, shown_row, type_of};
ghost use Rattle.forms_values.specs.Names.{is_reserved};
ghost use Rattle.forms_values.specs.Search.{first, held};
ghost use Rattle.forms_values.specs.Tables.{kinds_view, row_view, rows_view};

use forms_values::names::{is_reserved, is_same};
use forms_values::{KindRows, Part, Row, Tables};
use serde_json::Value;

// The rows at a place.
fn rows_at<T: Tables>(table: T, place: usize) -> &'static [Row<'static>]
    ensures { rows_view result.now ≡ rows_of (part_at (T.parts_of table) place) }
{
    if let Part::Rows(_, rows) = table.part(place) {
        return rows;
    }
    &[]
}

/// The rows of a list under a kind: first the rows of the kind, then the rows of every kind.
#[derive(Clone, Copy)]
pub struct RowList<'a> {
    /// The rows of the kind, or of a list without kinds.
    pub own: &'a [Row<'a>],
    /// The rows of every kind.
    pub common: &'a [Row<'a>],
}

/// The rows of a list under a kind.
pub fn rows_under<T: Tables>(table: T, place: usize, kind: &str) -> RowList<'static>
    ensures { rows_in result ≡ rows_under (T.parts_of table) place kind.now }
{
    match table.part(place) {
        Part::Rows(_, own) => RowList { own, common: &[] },
        Part::Kinds(common, others, kinds) => RowList {
            own: rows_at(table, kind_place(kind, others, kinds)),
            common: rows_at(table, common),
        },
        _ => RowList {
            own: &[],
            common: &[],
        },
    }
}

/// The rows under the kind that an attribute sets, or the rows so far if it sets no kind.
#[inline(always)]
pub fn rows_from<T: Tables>(
    table: T,
    place: usize,
    set: Option<&str>,
    kind: &str,
    rows: &RowList<'static>,
) -> RowList<'static>
    requires { rows_in rows.now ≡ rows_under (T.parts_of table) place kind.now }
    ensures { rows_in result ≡ rows_under (T.parts_of table) place (unwrap_or (option_map (λ t. t.now) set.entry) kind.now) }
{
    match set {
        Some(set) => rows_under(table, place, set),
        None => *rows,
    }
}

/// The kind that an attribute sets, or the kind so far.
#[inline(always)]
pub fn kind_from<'a>(set: Option<&'a str>, kind: &'a str) -> &'a str
    ensures { result.now ≡ unwrap_or (option_map (λ t. t.now) set.entry) kind.now }
{
    match set {
        Some(set) => set,
        None => kind,
    }
}

// The place of the rows of a kind, or `others` for a kind without rows.
fn kind_place(kind: &str, others: usize, kinds: &[KindRows<'_>]) -> usize
    ensures { result ≡ kind_place kind.now others (kinds_view kinds.now) }
{
    for it in kinds.iter() {
        if is_same(it.kind, kind) {
            return it.rows;
        }
    }
    others
}

/// The attribute type in an `nla_type`, without the two flags.
#[inline(always)]
pub(crate) fn type_of(word: u16) -> u16
    ensures { result ≡ type_of word }
{
    word % 16384
}

/// True unless the row has a reserved name.
pub(crate) fn counts(row: &Row<'_>) -> bool
    ensures { result ≡ counts (row_view row.now) }
{
    !is_reserved(row.name)
}

// True for a row of a type. Types are compared first, since that is cheapest.
#[inline(always)]
#[tactic(auto, using(forms_values::proofs::Search::and_false, forms_values::proofs::Search::and_true))]
fn is_of_type(word: u16, row: &Row<'_>) -> bool
    ensures { result ≡ of_type word (row_view row.now) }
{
    type_of(row.word) == type_of(word) && counts(row)
}

// True for a row of a name.
#[inline(always)]
#[tactic(auto, using(forms_values::proofs::Search::and_false, forms_values::proofs::Search::and_true))]
fn is_of_name(name: &str, row: &Row<'_>) -> bool
    ensures { result ≡ of_name name.now (row_view row.now) }
{
    is_same(row.name, name) && counts(row)
}

// The first row of a type.
#[inline(always)]
fn row_of_type<'a>(rows: &[Row<'a>], word: u16) -> Option<Row<'a>>
    ensures { option_map row_view result ≡ first (of_type word) (rows_view rows.now) }
{
    for row in rows.iter() {
        if is_of_type(word, row) {
            return Some(*row);
        }
    }
    None
}

// The first row of a type among those of a list.
#[inline(always)]
fn row_of_type_in<'a>(rows: &RowList<'a>, word: u16) -> Option<Row<'a>>
    ensures { option_map row_view result ≡ first (of_type word) (rows_in rows.now) }
{
    match row_of_type(rows.own, word) {
        Some(row) => Some(row),
        None => row_of_type(rows.common, word),
    }
}

// The first row of a name.
#[inline(always)]
fn row_of_name<'a>(rows: &[Row<'a>], name: &str) -> Option<Row<'a>>
    ensures { option_map row_view result ≡ first (of_name name.now) (rows_view rows.now) }
{
    for row in rows.iter() {
        if is_of_name(name, row) {
            return Some(*row);
        }
    }
    None
}

// The first row of a name among those of a list.
#[inline(always)]
fn row_of_name_in<'a>(rows: &RowList<'a>, name: &str) -> Option<Row<'a>>
    ensures { option_map row_view result ≡ first (of_name name.now) (rows_in rows.now) }
{
    match row_of_name(rows.own, name) {
        Some(row) => Some(row),
        None => row_of_name(rows.common, name),
    }
}

/// The first row of a type, if it is the first of its name too.
#[inline(always)]
pub fn shown_row<'a>(rows: &RowList<'a>, word: u16) -> Option<Row<'a>>
    ensures { option_map row_view result ≡ shown_row (rows_in rows.now) word }
{
    match numbered_row(rows.own, word) {
        Some(row) => Some(row),
        None => searched_row(rows, word),
    }
}

// The row of a type in a list whose types are 1, 2 and so on, if no row before it has its type or its name.
#[inline(always)]
fn numbered_row<'a>(rows: &[Row<'a>], word: u16) -> Option<Row<'a>>
    ensures of_type { IfSome result (λ r. first (of_type word) (rows_view rows.now) ≡ Some (row_view r)) }
    ensures of_name { IfSome result (λ r. first (of_name r.name.now) (rows_view rows.now) ≡ Some (row_view r)) }
{
    let number = usize::from(type_of(word));
    if number == 0 || number > rows.len() {
        return None;
    }
    let (before, from) = rows.split_at(number - 1);
    let row = match from.split_first() {
        Some((row, _)) => row,
        None => return None,
    };
    if !is_of_type(word, row) {
        return None;
    }
    if !are_others(before, word, row.name) {
        return None;
    }
    Some(*row)
}

// True if none of the rows has the type or the name.
#[inline(always)]
fn are_others(rows: &[Row<'_>], word: u16, name: &str) -> bool
    ensures of_type { IsTrue result → first (of_type word) (rows_view rows.now) ≡ None }
    ensures of_name { IsTrue result → first (of_name name.now) (rows_view rows.now) ≡ None }
{
    for row in rows.iter() {
        if type_of(row.word) == type_of(word) || is_same(row.name, name) {
            return false;
        }
    }
    true
}

// The first row of a type, if it is the first of its name too, at any place.
#[inline(always)]
fn searched_row<'a>(rows: &RowList<'a>, word: u16) -> Option<Row<'a>>
    ensures { option_map row_view result ≡ shown_row (rows_in rows.now) word }
{
    let row = match row_of_type_in(rows, word) {
        Some(row) => row,
        None => return None,
    };
    let named = match row_of_name_in(rows, row.name) {
        Some(named) => named,
        None => return None,
    };
    if type_of(named.word) != type_of(word) {
        return None;
    }
    Some(named)
}

// The only member of an object.
#[inline(always)]
fn only_member<'v>(value: &'v Value) -> Option<(&'v str, &'v Value)>
    ensures { IfSome result (λ m. view value.now ≡ one m.0.now (view m.1.now)) }
{
    let members = match value.as_object() {
        Some(members) => members,
        None => return None,
    };
    if members.len() != 1 {
        return None;
    }
    match members.first_key_value() {
        Some((name, held)) => Some((name.as_str(), held)),
        None => None,
    }
}

/// The first row of a list with the name of a member, and the member's value.
pub fn row_held_in<'a, 'v>(rows: &RowList<'a>, value: &'v Value) -> Option<(Row<'a>, &'v Value)>
    ensures { option_map (λ m. (row_view m.0, view m.1.now)) result ≡ held (λ r. r.name) counts (rows_in rows.now) (view value.now) }
{
    match only_member(value) {
        Some((name, held)) => match row_of_name_in(rows, name) {
            Some(row) => Some((row, held)),
            None => None,
        },
        None => row_held_of_two(rows, value),
    }
}

// The first such row for an object with any number of members.
fn row_held_of_two<'a, 'v>(rows: &RowList<'a>, value: &'v Value) -> Option<(Row<'a>, &'v Value)>
    ensures { option_map (λ m. (row_view m.0, view m.1.now)) result ≡ held (λ r. r.name) counts (rows_in rows.now) (view value.now) }
{
    match row_held(rows.own, value) {
        Some(found) => Some(found),
        None => row_held(rows.common, value),
    }
}

// The first row whose name is that of a member, and the member's value.
fn row_held<'a, 'v>(rows: &[Row<'a>], value: &'v Value) -> Option<(Row<'a>, &'v Value)>
    ensures { option_map (λ m. (row_view m.0, view m.1.now)) result ≡ held (λ r. r.name) counts (rows_view rows.now) (view value.now) }
{
    for row in rows.iter() {
        if let Some(held) = value.get(row.name) {
            if counts(row) {
                return Some((*row, held));
            }
        }
    }
    None
}

//! The names of attributes, from the tables of every kind.

use forms_json::{Form, KindRows, Part, Row, Tables};
use forms_kinds::{ACTION_MESSAGE, TC_MESSAGE, TcTables};
use nla_frames::NLA_TYPE_MASK;
use tc_index::Table;

// The list of the attributes of a message.
pub(crate) fn list_of_message(table: Table) -> Form {
    let message = match table {
        Table::ActionMessage => ACTION_MESSAGE,
        _ => TC_MESSAGE,
    };
    if let Form::Record(place) = message {
        if let Part::Fields(fields) = TcTables.part(place) {
            for field in fields.iter() {
                if field.name == "attributes" {
                    return field.form;
                }
            }
        }
    }
    Form::Hex
}

// The form of each attribute of an indexed list.
pub(crate) fn held_in(place: usize) -> Form {
    match TcTables.part(place) {
        Part::One(form) => form,
        _ => Form::List(place),
    }
}

// The row of a type in a list under this kind, and the name of the member around the row, if any.
pub(crate) fn row_in(list: Form, kind: &[u8], number: u16) -> Option<(&'static str, Row<'static>)> {
    match list {
        Form::List(place) | Form::InForce(place) | Form::Own(place) => {
            match TcTables.part(place) {
                Part::Rows(layer, rows) => Some((layer, row_of(rows, number)?)),
                Part::Kinds(common, others, kinds) => {
                    let own = rows_at(TcTables, rows_of_kind(kind, others, kinds));
                    match row_of(own, number) {
                        Some(row) => Some(("", row)),
                        None => Some(("", row_of(rows_at(TcTables, common), number)?)),
                    }
                }
                _ => None,
            }
        }
        _ => None,
    }
}

fn rows_of_kind(kind: &[u8], others: usize, kinds: &[KindRows<'_>]) -> usize {
    for rows in kinds.iter() {
        if rows.kind.as_bytes() == kind {
            return rows.rows;
        }
    }
    others
}

fn rows_at<T: Tables>(table: T, place: usize) -> &'static [Row<'static>] {
    if let Part::Rows(_, rows) = table.part(place) {
        return rows;
    }
    &[]
}

fn row_of(rows: &'static [Row<'static>], number: u16) -> Option<Row<'static>> {
    for row in rows.iter() {
        if row.word & NLA_TYPE_MASK == number {
            return Some(*row);
        }
    }
    None
}

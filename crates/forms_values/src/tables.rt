//! The trait of tables.

ghost use Rattle.std.specs.Prelude.{◌≡◌};
ghost use Rattle.forms_values.specs.Places.{fields_of};
ghost use Rattle.forms_values.specs.Records.{names_distinct};
ghost use Rattle.forms_values.specs.Tables.{Table, part_view};

use crate::form::Part;
use crate::records;

/// A table: a part at each place.
pub trait Tables: Copy {
    ghost parts_of: { Self → Table };

    /// The part at a place.
    fn part(self, place: usize) -> Part<'static>
        ensures { part_view result ≡ parts_of self place };

    /// True if the fields of the record at a place have distinct names. A table whose names are proved to be distinct doesn't compare them.
    fn names_distinct(self, place: usize) -> bool
        ensures { result ≡ names_distinct (fields_of (parts_of self place)) }
    {
        match self.part(place) {
            Part::Fields(fields) => records::names_distinct(fields),
            _ => true,
        }
    }
}

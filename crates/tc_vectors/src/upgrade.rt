//! Messages that version 1 read, which had no raw options, and what they are upgraded to.

use crate::calls::is_made;
use crate::made::{kind, message, option, options, other, pushed};
use crate::worked::NO_HEADER;
use failing_alloc::Failing;
use std::alloc::{AllocError, Allocator, Global};
use tc_options::{TcOption, TcQdiscFqCodelOption};
use tc_records::TcHeader;
use tc_wire::{TcAttribute, TcMessage};

/// A kind, empty for none, the other options after it, each a word and its value, and what the attributes are upgraded to.
pub(crate) type Row = (&'static str, &'static [(u16, &'static [u8])], &'static str);

/// Options without a kind.
#[rattlefmt::skip]
const WITHOUT_KIND: Row =
    ("", &[(2, &[8, 0, 2, 0, 0, 0x28, 0, 0])], "[OptionsRaw(DefaultNla { word: 2, value: [8, 0, 2, 0, 0, 40, 0, 0] })]");

/// The bytes that it read.
#[rattlefmt::skip]
static WITHOUT_KIND_BYTES: [u8; 32] = [
    0, 0, 0, 0, 0, 0, 0, 0, 0, 0, 0, 0, 0, 0, 0, 0, 0, 0, 0, 0,
    12, 0, 2, 0, 8, 0, 2, 0, 0, 0x28, 0, 0,
];

/// Options of a kind that isn't known.
#[rattlefmt::skip]
pub(crate) const SFQ: Row =
    ("sfq", &[(0x8002, &[1, 2, 3, 4])], "[Kind(\"sfq\"), OptionsRaw(DefaultNla { word: 32770, value: [1, 2, 3, 4] })]");

/// Messages that change: one option only, of type 2 with any flags, under a kind that isn't known.
#[rattlefmt::skip]
static ROWS: [Row; 8] = [
    WITHOUT_KIND,
    SFQ,
    ("u32", &[(2, &[1])], "[Kind(\"u32\"), Options([Other(DefaultNla { word: 2, value: [1] })])]"),
    ("", &[], "[Options([])]"),
    ("", &[(3, &[1])], "[Options([Other(DefaultNla { word: 3, value: [1] })])]"),
    ("", &[(2, &[1]), (2, &[2])], "[Options([Other(DefaultNla { word: 2, value: [1] }), Other(DefaultNla { word: 2, value: [2] })])]"),
    ("sfq", &[(3, &[1])], "[Kind(\"sfq\"), Options([Other(DefaultNla { word: 3, value: [1] })])]"),
    ("fq_codel\0", &[(2, &[1])], "[Kind(\"fq_codel\\0\"), OptionsRaw(DefaultNla { word: 2, value: [1] })]"),
];

/// Options that no table has.
fn unknown<A: Allocator + Copy>(
    alloc: A,
    rows: &[(u16, &[u8])],
) -> Result<TcAttribute<A>, AllocError> {
    let mut list = Vec::with_capacity(alloc, rows.len());
    for (word, value) in rows {
        list = pushed(list, other(alloc, *word, value));
    }
    options(list)
}

/// The kind of a message, if it has one.
fn first<A: Allocator + Copy>(alloc: A, name: &str) -> Result<Vec<TcAttribute<A>, A>, AllocError> {
    if name.is_empty() {
        return Ok(Vec::new(alloc));
    }
    pushed(Ok(Vec::new(alloc)), kind(alloc, name))
}

/// The message of a row.
pub(crate) fn made<A: Allocator + Copy>(alloc: A, row: &Row) -> Result<TcMessage<A>, AllocError> {
    message(pushed(first(alloc, row.0), unknown(alloc, row.1)))
}

/// A message after `upgrade`.
fn upgraded<A: Allocator>(
    made: Result<TcMessage<A>, AllocError>,
) -> Result<TcMessage<A>, AllocError> {
    Ok(made?.upgrade())
}

// True if a message was made that has an empty header and these attributes.
fn has_attributes(alloc: Global, made: Result<TcMessage, AllocError>, attributes: &str) -> bool {
    is_made(alloc, made.ok(), (NO_HEADER, attributes), None)
}

fn is_empty<A: Allocator>(made: Result<TcMessage<A>, AllocError>) -> bool {
    match &made {
        Ok(message) => message.header == TcHeader::default(),
        Err(_) => false,
    }
}

/// True if a message becomes another with an empty header, once and twice, and asks for no memory.
fn is_upgraded_without_memory(failing: &Failing<Global>, row: &Row) -> bool {
    failing.refuse(0);
    let message = made(failing, row);
    failing.refuse(1);
    is_empty(upgraded(upgraded(message))) && !failing.has_refused()
}

/// True if the message of a row becomes what it has to, once and twice, and that where the next request for memory is refused, and none is made.
fn is_right(alloc: Global, failing: &Failing<Global>, row: &Row) -> bool {
    has_attributes(alloc, upgraded(made(alloc, row)), row.2)
        && has_attributes(alloc, upgraded(upgraded(made(alloc, row))), row.2)
        && is_upgraded_without_memory(failing, row)
}

#[test]
fn worked(rt: HostRuntime) {
    let failing = Failing::new(rt.alloc(), 0);
    for row in &ROWS {
        assert!(rt; is_right(rt.alloc(), &failing, row), "{}", row.2);
    }
}

/// A message of two kinds, options of `fq_codel`, and options that no table has.
fn of_two_kinds(alloc: Global, first: &str, second: &str) -> Result<TcMessage, AllocError> {
    let limit = TcOption::FqCodel(TcQdiscFqCodelOption::Limit(5));
    let list = pushed(Ok(Vec::new(alloc)), kind(alloc, first));
    let list = pushed(list, kind(alloc, second));
    let list = pushed(list, option(alloc, Ok(limit)));
    message(pushed(list, unknown(alloc, &[(2, &[7])])))
}

// True if the attributes of such a message become these.
fn becomes(alloc: Global, first: &str, second: &str, attributes: &str) -> bool {
    has_attributes(
        alloc,
        upgraded(of_two_kinds(alloc, first, second)),
        attributes,
    )
}

static FQ_CODEL_LAST: &str =
    "[Kind(\"sfq\"), Kind(\"fq_codel\"), Options([FqCodel(Limit(5))]), Options([Other(DefaultNla { word: 2, value: [7] })])]";

static SFQ_LAST: &str =
    "[Kind(\"fq_codel\"), Kind(\"sfq\"), Options([FqCodel(Limit(5))]), OptionsRaw(DefaultNla { word: 2, value: [7] })]";

// Options of their own kind stay; the kind that counts is the last before them.
#[test]
fn the_last_kind_counts(rt: HostRuntime) {
    assert!(rt; becomes(rt.alloc(), "sfq", "fq_codel", FQ_CODEL_LAST));
    assert!(rt; becomes(rt.alloc(), "fq_codel", "sfq", SFQ_LAST));
}

// What version 1 made of options without a kind is written as the bytes that it read.
#[test]
fn written_as_they_came(rt: HostRuntime) {
    let message = upgraded(made(rt.alloc(), &WITHOUT_KIND));
    let written = Some((WITHOUT_KIND_BYTES.as_slice(), true));
    assert!(rt;
        is_made(
            rt.alloc(),
            message.ok(),
            (NO_HEADER, WITHOUT_KIND.2),
            written
        )
    );
}

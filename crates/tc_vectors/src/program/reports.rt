//! Reports on messages and on texts in hex, with memory enough and where it is refused.

use crate::program::streams::{LIMIT_OF_FQ_CODEL, REPORT};
use failing_alloc::Failing;
use std::alloc::{AllocError, Global};
use std::process::Abort;
use std::test::Fail;
use tcrewrite_lib::mode::Mode;
use tcrewrite_lib::run::run;
use tests_data::{Expected, Form, Row, captured, large_messages, made, too_long};

// Whether this report is written on a text, with this status, and so many of its bytes are left unread; or that memory ran out, where the
// request for memory of this number is refused (0: none). And whether it was.
fn reports_at(
    alloc: Global,
    at: u64,
    (mode, text): (Mode, &[u8]),
    want: &str,
    status: u8,
    left: usize,
) -> (bool, bool) {
    let failing = Failing::new(alloc, at);
    let (mut from, mut to) = (text, Vec::new(alloc));
    let ended = run(&failing, mode, &mut from, &mut to);
    let is_refused = failing.has_refused();
    let is_right = if is_refused {
        ended == Ok(1) && to.as_slice() == b"refused OutOfMemory\n".as_slice()
    } else {
        ended == Ok(status) && to.as_slice() == want.as_bytes() && from.len() == left
    };
    (is_right, is_refused)
}

// The same with memory enough.
fn reports(alloc: Global, mode: Mode, text: &[u8], want: &str, status: u8, left: usize) -> bool {
    reports_at(alloc, 0, (mode, text), want, status, left).0
}

/// How a message of this form is read.
pub(crate) fn mode_of(form: Form) -> Mode {
    match form {
        Form::Tc => Mode::Tc,
        Form::Action => Mode::Action,
    }
}

fn word_of(holds: bool) -> &'static str {
    if holds { "yes" } else { "no" }
}

// The lines of the report on a message that is read so.
fn report_on(alloc: Global, expected: &Expected) -> Result<String, AllocError> {
    match expected {
        Expected::Refused(name) => format!(in alloc; "refused {name}\n"),
        Expected::Accepted {
            fits,
            settled,
            canonical,
            emitted,
        } => {
            let (fits, settled, canonical) = (
                word_of(*fits),
                word_of(*settled),
                word_of(*canonical),
            );
            let front = format!(in alloc;
                "fits {fits}\nsettled {settled}\ncanonical {canonical}\n"
            )?;
            if fits == "no" {
                return Ok(front);
            }
            let digits = hex::encode(alloc, emitted)?;
            format!(in alloc; "{front}bytes {digits}\n")
        }
    }
}

// Whether the report on the message of a row is what the row has, where the request for memory of this number is refused (0: none), and
// whether it was.
fn is_reported_at(alloc: Global, at: u64, row: &Row) -> Result<(bool, bool), AllocError> {
    let text = hex::encode(alloc, &row.input.bytes)?;
    let report = report_on(alloc, &row.expected)?;
    let status = u8::from(matches!(row.expected, Expected::Refused(_)));
    let text = (mode_of(row.input.form), text.as_bytes());
    Ok(reports_at(alloc, at, text, &report, status, 0))
}

// Reports on the messages of rows, and returns how many they are.
fn are_reported(rt: &impl Abort, alloc: Global, rows: &[Row]) -> Result<usize, AllocError> {
    for row in rows {
        assert!(rt; is_reported_at(alloc, 0, row)?.0, "{:?}", row.input);
    }
    Ok(rows.len())
}

// Those that were made by hand are below, with memory refused and with memory enough.
#[test]
fn reports_on_captured_messages(rt: HostRuntime) -> Result<(), Fail> {
    let rows = captured(rt.alloc())?;
    assert_eq!(rt; are_reported(&rt, rt.alloc(), &rows)?, 20);
    Ok(())
}

// Whether the bytes that are emitted have more than 64 KiB in hex.
fn is_large(expected: &Expected) -> bool {
    match expected {
        Expected::Refused(_) => false,
        Expected::Accepted { emitted, .. } => emitted.len() > 32768,
    }
}

// Reports of more than 64 KiB are those on the list of 4,096 attributes and on the text of 60,000 letters.
#[test]
fn reports_on_large_messages(rt: HostRuntime) -> Result<(), Fail> {
    let alloc = rt.alloc();
    let rows = large_messages(alloc)?;
    assert_eq!(rt; are_reported(&rt, alloc, &rows)?, 4);
    let mut large_reports = 0usize;
    for row in &rows {
        if is_large(&row.expected) {
            large_reports = large_reports.wrapping_add(1);
        }
    }
    assert_eq!(rt; large_reports, 2);
    Ok(())
}

// A message that doesn't fit, of which the report says so.
fn row_too_long(alloc: Global, form: Form) -> Result<Row, AllocError> {
    let input = too_long(alloc, form)?;
    let expected = Expected::Accepted {
        fits: false,
        settled: true,
        canonical: false,
        emitted: Vec::new(alloc),
    };
    Ok(Row { input, expected })
}

#[test]
fn reports_what_does_not_fit(rt: HostRuntime) -> Result<(), Fail> {
    for form in [Form::Tc, Form::Action] {
        let row = row_too_long(rt.alloc(), form)?;
        assert!(rt; is_reported_at(rt.alloc(), 0, &row)?.0);
    }
    Ok(())
}

// Headers alone: one in upper case and with spaces of each kind, and one of zeros with a space in the middle of each byte; and the reports on
// them.
static SPACED: [(&str, &str); 2] = [
    (
        "\t00 00 00 00\r\n00 00 00 0A\x0c00 00 00 00 00 00 00 0b 00 00 00 00\n",
        "fits yes\nsettled yes\ncanonical yes\nbytes 000000000000000a000000000000000b00000000\n",
    ),
    (
        "0 00 00 00 00 00 00 00 00 00 00 00 00 00 00 00 00 00 00 00 0",
        "fits yes\nsettled yes\ncanonical yes\nbytes 0000000000000000000000000000000000000000\n",
    ),
];

#[test]
fn reads_hex_with_spaces(rt: HostRuntime) {
    for (text, report) in &SPACED {
        assert!(rt;
            reports(rt.alloc(), Mode::Tc, text.as_bytes(), report, 0, 0),
            "{text}"
        );
    }
}

// Texts that are refused in both modes.
static REFUSED: [&str; 3] = ["0", "0g", "00\x0b"];

#[test]
fn refuses_texts(rt: HostRuntime) {
    for text in &REFUSED {
        for mode in [Mode::Tc, Mode::Action] {
            assert!(rt;
                reports(rt.alloc(), mode, text.as_bytes(), "bad hex\n", 2, 0),
                "{text}"
            );
        }
    }
}

static SHORT: (&str, u8) = ("refused BufferTooSmall\n", 1);

static HEADER_SHORT: (&str, u8) = ("refused FrameHeaderShort\n", 1);

static TOO_LONG: (&str, u8) = ("refused FrameTooLong\n", 1);

static HEADER: (&str, u8) = (
    "fits yes\nsettled yes\ncanonical yes\nbytes 000000000200000000000100ffffffff00000000\n",
    0,
);

static KIND_UNPADDED: (&str, u8) = (
    "fits yes\nsettled yes\ncanonical no\nbytes 000000000200000000000100ffffffff00000000\
0d00010066715f636f64656c00000000\n",
    0,
);

static KIND: (&str, u8) = (
    "fits yes\nsettled yes\ncanonical yes\nbytes 000000000200000000000100ffffffff00000000\
0d00010066715f636f64656c00000000\n",
    0,
);

// The report on so many first bytes of the stored message, and its status.
fn report_on_front(count: usize) -> (&'static str, u8) {
    match count {
        0..=19 => SHORT,
        20 => HEADER,
        21..=23 | 37..=39 => HEADER_SHORT,
        33..=35 => KIND_UNPADDED,
        36 => KIND,
        48 => (REPORT, 0),
        _ => TOO_LONG,
    }
}

#[test]
fn reports_on_the_front_of_a_message(rt: HostRuntime) {
    for count in 0..=48usize {
        let front = LIMIT_OF_FQ_CODEL
            .as_bytes()
            .get(..count.saturating_mul(2))
            .unwrap_or(&[]);
        let (report, status) = report_on_front(count);
        assert!(rt;
            reports(rt.alloc(), Mode::Tc, front, report, status, 0),
            "{count} bytes"
        );
    }
}

// The number of the first request for memory that is refused and the report is another, or none was where some are needed.
fn misreported_request(alloc: Global, row: &Row) -> Result<Option<u64>, AllocError> {
    for at in 1..1000u64 {
        let (is_right, is_refused) = is_reported_at(alloc, at, row)?;
        if !is_right || !is_refused && at <= 2 {
            return Ok(Some(at));
        }
        if !is_refused {
            return Ok(None);
        }
    }
    Ok(Some(1000))
}

// Whatever request for memory is refused, the report says so and nothing else; where none is, it is that of the row.
#[test]
fn reports_refused_memory_of_each_message(rt: HostRuntime) -> Result<(), Fail> {
    let rows = made(rt.alloc())?;
    for row in &rows {
        let request = misreported_request(rt.alloc(), row)?;
        assert!(rt; request.is_none(), "request {request:?}: {:?}", row.input);
    }
    Ok(())
}

// Letters, how many they are, how many bytes are left unread, the report, and its status.
#[rattlefmt::skip]
static LETTERS: [(u8, usize, usize, &str, u8); 4] = [
    (b' ', 1_048_576, 0, "refused BufferTooSmall\n", 1),
    (b' ', 1_048_577, 0, "too long\n", 2),
    (b' ', 1_048_579, 2, "too long\n", 2),
    (b'x', 1_048_577, 0, "too long\n", 2),
];

#[test]
fn reads_no_more_than_one_byte_too_much(rt: HostRuntime) -> Result<(), Fail> {
    for (letter, count, left, report, status) in &LETTERS {
        let text = vec![in rt.alloc(); *letter; *count]?;
        let is_right = reports(rt.alloc(), Mode::Tc, &text, report, *status, *left);
        assert!(rt; is_right, "{count} of {letter}");
    }
    Ok(())
}

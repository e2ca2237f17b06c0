//! The exit status of the program in both modes: the report's status, or 3 if a stream fails.

use crate::program::streams::{LIMIT_OF_FQ_CODEL, REPORT_ON_LIMIT, serves};
use tcrewrite_lib::mode::Mode;
use tcrewrite_lib::program::Arguments;

// A mode, a text, the report on it, and its status: each status in each mode.
type Row = (Mode, &'static str, &'static str, u8);

#[rattlefmt::skip]
static ROWS: [Row; 7] = [
    (Mode::Tc, "0000000000000000000000000000000000000000", "fits yes\nsettled yes\ncanonical yes\nbytes 0000000000000000000000000000000000000000\n", 0),
    (Mode::Tc, "00000000", "refused BufferTooSmall\n", 1),
    (Mode::Tc, "0", "bad hex\n", 2),
    (Mode::Action, "00000000", "fits yes\nsettled yes\ncanonical yes\nbytes 00000000\n", 0),
    (Mode::Action, "000000000800010004000100", "refused MissingKind\n", 1),
    (Mode::Action, "00000000200001001c000100080001006e617400080001006e6174000500030000000000", "refused DuplicateKind\n", 1),
    (Mode::Action, "0g", "bad hex\n", 2),
];

// How many calls of the input, the output and the error output succeed.
type Counts = (usize, usize, usize);

const ALL: Counts = (200, 200, 200);

const NO_READ: Counts = (0, 200, 200);

const NO_WRITE: Counts = (200, 0, 200);

const NO_COMPLAINT: Counts = (200, 200, 0);

#[test]
fn ends_with_the_status_of_the_report(rt: HostRuntime) {
    for (mode, text, report, status) in &ROWS {
        let request = Arguments::Report(*mode);
        let is_served = serves(rt.alloc(), request, text, ALL, *status, (report, ""));
        assert!(rt; is_served, "{mode:?} {text}");
    }
}

#[test]
fn ends_with_3_where_a_stream_failed(rt: HostRuntime) {
    for (mode, text, _, _) in &ROWS {
        for (counts, fault) in [(NO_READ, "read failed\n"), (NO_WRITE, "write failed\n")] {
            let is_served = serves(
                rt.alloc(),
                Arguments::Report(*mode),
                text,
                counts,
                3,
                ("", fault),
            );
            assert!(rt; is_served, "{mode:?} {text}");
        }
    }
}

const TC: Arguments = Arguments::Report(Mode::Tc);

const MEMORY: (&str, &str) = ("refused OutOfMemory\n", "");

const USAGE: (&str, &str) = ("", "usage: tcrewrite [tc|action]\n");

// Requests over the stored message, the status, and what is written to both outputs.
static ENDS: [(Arguments, Counts, u8, (&str, &str)); 11] = [
    (TC, ALL, 0, (REPORT_ON_LIMIT, "")),
    (TC, (3, 200, 200), 3, ("", "read failed\n")),
    (TC, NO_WRITE, 3, ("", "write failed\n")),
    // nothing is read where there is no report
    (Arguments::NoMemory, ALL, 1, MEMORY),
    (Arguments::NoMemory, NO_READ, 1, MEMORY),
    (Arguments::NoMemory, (0, 0, 200), 3, ("", "write failed\n")),
    (Arguments::Usage, ALL, 2, USAGE),
    (Arguments::Usage, (0, 0, 200), 2, USAGE),
    // the status is the same where nothing can be said on the error output
    (Arguments::Usage, NO_COMPLAINT, 2, ("", "")),
    (TC, NO_COMPLAINT, 0, (REPORT_ON_LIMIT, "")),
    (TC, (0, 200, 0), 3, ("", "")),
];

#[test]
fn ends_with_a_status(rt: HostRuntime) {
    for (request, counts, status, written) in &ENDS {
        let is_served = serves(
            rt.alloc(),
            *request,
            LIMIT_OF_FQ_CODEL,
            *counts,
            *status,
            *written,
        );
        assert!(rt; is_served, "{request:?} {counts:?}");
    }
}

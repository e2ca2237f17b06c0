//! Runs over streams that fail, that are interrupted, and that take nothing.

use std::alloc::Global;
use std::io::{Error, ErrorKind, Read, Result, Write};
use tcrewrite_lib::mode::Mode;
use tcrewrite_lib::program::{Arguments, serve};
use tcrewrite_lib::run::{RunError, run};

/// A message with the kind fq_codel and a limit of 10240 packets.
pub(crate) const LIMIT: &str = "000000000200000000000100ffffffff\
000000000d00010066715f636f64656c000000000c0002000800020000280000";

/// The report on it.
pub(crate) const REPORT_ON_LIMIT: &str =
    "fits yes\nsettled yes\ncanonical yes\nbytes 000000000200000000000100ffffffff\
000000000d00010066715f636f64656c000000000c0002000800020000280000\n";

/// The same as statics, which stand once in what is proved.
pub(crate) static LIMIT_OF_FQ_CODEL: &str = LIMIT;

pub(crate) static REPORT: &str = REPORT_ON_LIMIT;

// How a stream goes: so many calls succeed, and give or take so many bytes each; then all fail. So often it is interrupted before the first
// of them, and so often before each other.
#[derive(Clone, Copy)]
struct Turns {
    count: usize,
    bytes: usize,
    first: usize,
    other: usize,
}

// Calls of one byte, without an interruption.
fn calls(count: usize) -> Turns {
    Turns {
        count,
        bytes: 1,
        first: 0,
        other: 0,
    }
}

#[derive(Drop)]
struct Slow<T> {
    inner: T,
    calls: Turns,
    interruptions: usize,
}

fn slowly<T>(inner: T, calls: Turns) -> Slow<T> {
    Slow {
        inner,
        calls,
        interruptions: calls.first,
    }
}

impl<T> Slow<T> {
    fn turn(&mut self) -> Result<()> {
        if self.interruptions > 0 {
            self.interruptions -= 1;
            return Err(Error::from(ErrorKind::Interrupted));
        }
        if self.calls.count == 0 {
            return Err(Error::from(ErrorKind::BrokenPipe));
        }
        self.calls.count -= 1;
        self.interruptions = self.calls.other;
        Ok(())
    }
}

impl<T: Read> Read for Slow<T> {
    fn read(&mut self, buf: &mut [u8]) -> Result<usize> {
        self.turn()?;
        let most = buf.len().min(self.calls.bytes);
        self.inner.read(&mut buf[..most])
    }
}

impl<T: Write> Write for Slow<T> {
    fn write(&mut self, buf: &[u8]) -> Result<usize> {
        self.turn()?;
        let most = buf.len().min(self.calls.bytes);
        self.inner.write(&buf[..most])
    }

    fn flush(&mut self) -> Result<()> {
        Ok(())
    }
}

// Whether a run over such streams fails so, or ends well, and writes so many bytes of the report.
fn ends(
    alloc: Global,
    reads: Turns,
    writes: Turns,
    fault: Option<&RunError>,
    written: usize,
) -> bool {
    let mut from = slowly(LIMIT_OF_FQ_CODEL.as_bytes(), reads);
    let mut to = slowly(Vec::new(alloc), writes);
    let is_so = match run(alloc, Mode::Tc, &mut from, &mut to) {
        Ok(status) => status == 0 && fault.is_none(),
        Err(e) => fault == Some(&e),
    };
    is_so && REPORT.as_bytes().get(..written) == Some(to.inner.as_slice())
}

#[test]
fn stops_where_a_read_fails(rt: HostRuntime) {
    let (alloc, fault) = (rt.alloc(), RunError::Read);
    let reads = LIMIT_OF_FQ_CODEL.len() + 1;
    for count in 0..reads {
        assert!(rt;
            ends(alloc, calls(count), calls(200), Some(&fault), 0),
            "after {count} reads"
        );
    }
    assert!(rt; ends(alloc, calls(reads), calls(200), None, REPORT.len()));
}

#[test]
fn stops_where_a_write_fails(rt: HostRuntime) {
    let (alloc, fault) = (rt.alloc(), RunError::Write);
    for count in 0..REPORT.len() {
        let ended = ends(alloc, calls(200), calls(count), Some(&fault), count);
        assert!(rt; ended, "after {count} writes");
    }
    assert!(rt; ends(alloc, calls(200), calls(REPORT.len()), None, REPORT.len()));
    // a writer that takes nothing
    let full = Turns {
        bytes: 0,
        ..calls(200)
    };
    assert!(rt; ends(alloc, calls(200), full, Some(&fault), 0));
}

// How often the reads and the writes of a run are interrupted, before the first and before each other, and how it fails, if it does. There are
// 97 reads, the last of which finds the end, and a report of 138 bytes.
static INTERRUPTED: [((usize, usize), (usize, usize), Option<RunError>); 13] = [
    ((1024, 0), (0, 0), None),
    ((0, 0), (1023, 0), None),
    ((1024, 0), (1023, 0), None),
    ((1025, 0), (0, 0), Some(RunError::Read)),
    ((usize::MAX, 0), (0, 0), Some(RunError::Read)),
    ((0, 0), (1024, 0), Some(RunError::Write)),
    ((0, 0), (usize::MAX, 0), Some(RunError::Write)),
    ((5, 5), (3, 3), None),
    ((10, 10), (0, 0), None),
    ((0, 0), (7, 7), None),
    // 94 times 11 are more than 1,024
    ((11, 11), (0, 0), Some(RunError::Read)),
    // each write has its own 1,024
    ((10, 10), (1023, 1023), None),
    ((0, 0), (1024, 1024), Some(RunError::Write)),
];

// Calls enough that are interrupted so often.
fn interrupted((first, other): (usize, usize)) -> Turns {
    Turns {
        first,
        other,
        ..calls(200)
    }
}

// A run writes its report, or nothing where it fails.
#[test]
fn tries_again(rt: HostRuntime) {
    for (reads, writes, fault) in &INTERRUPTED {
        let written = if fault.is_none() { REPORT.len() } else { 0 };
        let (from, to) = (interrupted(*reads), interrupted(*writes));
        let ended = ends(rt.alloc(), from, to, fault.as_ref(), written);
        assert!(rt; ended, "{reads:?} {writes:?}");
    }
}

/// True if the program ends with this status when so many calls of its input, output and error output succeed, and writes these texts to
/// the outputs.
pub(crate) fn serves(
    alloc: Global,
    request: Arguments,
    text: &str,
    counts: (usize, usize, usize),
    status: u8,
    written: (&str, &str),
) -> bool {
    let mut from = slowly(text.as_bytes(), calls(counts.0));
    let mut to = slowly(Vec::new(alloc), calls(counts.1));
    let mut errors = slowly(Vec::new(alloc), calls(counts.2));
    serve(alloc, request, &mut from, &mut to, &mut errors) == status
        && to.inner.as_slice() == written.0.as_bytes()
        && errors.inner.as_slice() == written.1.as_bytes()
}

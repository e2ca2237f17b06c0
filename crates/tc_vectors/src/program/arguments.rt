//! The arguments of the program.

use failing_alloc::Failing;
use std::alloc::Global;
use std::env::{self, FillError};
use std::rt::Env;
use tcrewrite_lib::mode::Mode;
use tcrewrite_lib::program::{Arguments, read_arguments};

// The arguments of a program.
#[derive(Clone, Copy)]
struct Words(&'static [&'static str]);

impl Env for Words {
    fn arg(&self, i: usize, buf: &mut [u8]) -> Result<usize, FillError> {
        let Some(word) = self.0.get(i) else {
            return Err(FillError::NotPresent);
        };
        if word.len() > buf.len() {
            return Err(FillError::TooLong);
        }
        buf[..word.len()].copy_from_slice(word.as_bytes());
        Ok(word.len())
    }

    fn var(&self, _name: &str, _buf: &mut [u8]) -> Result<usize, FillError> {
        Err(FillError::NotPresent)
    }

    fn var_at(&self, _i: usize, _buf: &mut [u8]) -> Result<usize, FillError> {
        Err(FillError::NotPresent)
    }
}

// What is asked for by these arguments where the request for memory of this number is refused (0: none), and whether one was.
fn request_at(alloc: Global, words: &'static [&'static str], at: u64) -> (Arguments, bool) {
    let failing = Failing::new(alloc, at);
    let request = read_arguments(&failing, env::args(&(Words(words), &failing)));
    (request, failing.has_refused())
}

const TC: Arguments = Arguments::Report(Mode::Tc);

const ACTION: Arguments = Arguments::Report(Mode::Action);

// Arguments, of which the program's name comes first, and what is asked for.
static ASKED: [(&[&str], Arguments); 10] = [
    (&[], TC),
    (&["tcrewrite"], TC),
    (&["tcrewrite", "tc"], TC),
    (&["tcrewrite", "action"], ACTION),
    (&["tcrewrite", "actions"], Arguments::Usage),
    (&["tcrewrite", "TC"], Arguments::Usage),
    (&["tcrewrite", ""], Arguments::Usage),
    (&["tcrewrite", "--help"], Arguments::Usage),
    (&["tcrewrite", "tc", "action"], Arguments::Usage),
    (&["tc", "tc", "tc", "tc"], Arguments::Usage),
];

#[test]
fn takes_one_word_at_most(rt: HostRuntime) {
    for (words, wanted) in &ASKED {
        let (request, _) = request_at(rt.alloc(), words, 0);
        assert!(rt; request == *wanted, "{words:?}");
    }
}

// Where a request for memory is refused, the call returns so, or a smaller request serves; the words are never taken for others.
#[test]
fn arguments_take_memory(rt: HostRuntime) {
    let mut refusals = 0;
    for at in 1..1000u64 {
        let (request, is_refused) = request_at(rt.alloc(), &["tcrewrite", "tc"], at);
        if request != Arguments::NoMemory {
            assert!(rt; request == TC, "request {at}");
            if !is_refused {
                break;
            }
        }
        refusals = at;
    }
    assert!(rt; 2 < refusals && refusals < 999, "{refusals} requests");
}

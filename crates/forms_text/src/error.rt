//! Why a text can't be read, or turned into bytes.

ghost use Rattle.std.specs.Prelude.{◌↔◌, ◌≡◌, IsTrue};
ghost use Rattle.forms_values.specs.declared.error.MakeError.TheVariants.{OutOfMemory};
ghost use Rattle.forms_text.specs.Make.{IsMemory};
ghost use Rattle.forms_text.specs.declared.error.StrictError.TheVariants.{Make};

use crate::difference::Difference;
use forms_json::MakeError;
use std::alloc::AllocError;
use std::error::Error;
use std::fmt;

/// Why a text can't be read as JSON.
#[derive(Drop)]
pub enum ReadError {
    /// Memory ran out.
    OutOfMemory,

    /// It isn't JSON, or isn't UTF-8, or has a number too large for a float. The place is where reading stopped.
    NotJson {
        /// The line, counted from 1.
        line: usize,
        /// The byte of the line, counted from 1. 0 at the end of an empty line.
        column: usize,
    },

    /// Lists and objects nest more than 127 levels deep. The place is where reading stopped.
    TooDeep {
        /// The line, counted from 1.
        line: usize,
        /// The byte of the line, counted from 1.
        column: usize,
    },

    /// An object has two members of one name.
    Repeated {
        /// The place of the second, as a JSON pointer.
        path: String,
    },
}

impl fmt::Display for ReadError {
    fn fmt<W: fmt::Write>(&self, f: &mut fmt::Formatter<W>) -> fmt::Result {
        match self {
            ReadError::OutOfMemory => f.write_str("out of memory"),
            ReadError::NotJson { line, column } => {
                write!(f, "not JSON at line {line} column {column}")
            }
            ReadError::TooDeep { line, column } => {
                write!(
                    f,
                    "more than 127 levels deep at line {line} column {column}"
                )
            }
            ReadError::Repeated { path } => write!(f, "{path}: found twice, wanted once"),
        }
    }
}

impl fmt::Debug for ReadError {
    fn fmt<W: fmt::Write>(&self, f: &mut fmt::Formatter<W>) -> fmt::Result {
        write!(f, "{self}")
    }
}

impl Error for ReadError {}

/// Why a text can't be turned into bytes.
#[derive(Drop)]
pub enum TextError {
    /// It can't be read as JSON.
    Read(ReadError),
    /// The JSON that it has can't be turned into bytes.
    Make(MakeError),
}

impl TextError {
    /// True if memory ran out.
    pub fn is_memory(&self) -> bool
        ensures { IsTrue result ↔ IsMemory self.now }
    {
        matches!(
            self,
            TextError::Read(ReadError::OutOfMemory) | TextError::Make(MakeError::OutOfMemory)
        )
    }
}

impl fmt::Display for TextError {
    fn fmt<W: fmt::Write>(&self, f: &mut fmt::Formatter<W>) -> fmt::Result {
        match self {
            TextError::Read(e) => write!(f, "{e}"),
            TextError::Make(e) => write!(f, "{e}"),
        }
    }
}

impl fmt::Debug for TextError {
    fn fmt<W: fmt::Write>(&self, f: &mut fmt::Formatter<W>) -> fmt::Result {
        write!(f, "{self}")
    }
}

impl Error for TextError {}

/// Why JSON can't be turned into bytes strictly.
#[derive(Drop)]
pub enum StrictError {
    /// The JSON can't be turned into bytes, or memory ran out.
    Make(MakeError),
    /// The JSON of its bytes differs.
    Differs(Difference),
}

impl fmt::Display for StrictError {
    fn fmt<W: fmt::Write>(&self, f: &mut fmt::Formatter<W>) -> fmt::Result {
        match self {
            StrictError::Make(e) => write!(f, "{e}"),
            StrictError::Differs(difference) => write!(f, "{difference}"),
        }
    }
}

impl fmt::Debug for StrictError {
    fn fmt<W: fmt::Write>(&self, f: &mut fmt::Formatter<W>) -> fmt::Result {
        write!(f, "{self}")
    }
}

impl Error for StrictError {}

impl From<AllocError> for StrictError {
    ghost from_gives = { λ _ e. e ≡ Make OutOfMemory };

    fn from(_: AllocError) -> StrictError {
        StrictError::Make(MakeError::OutOfMemory)
    }
}

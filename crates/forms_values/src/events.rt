//! Events sent to a serde format. Its error is stored in [`Aside`], so that a result takes one byte on the way back through many calls.

ghost use Rattle.serde.specs.Event.{Logs, boolean, field_key, map_begins, map_ends, seq_begins, seq_ends, signed, text, unsigned};
ghost use Rattle.serde.specs.declared.name.Case.TheVariants.{AsIs};
ghost use Rattle.std.specs.Prelude.{None, OnOk};

use serde::Serializer;
use std::alloc::Global;

/// The format failed. Its error is in [`Aside`].
#[derive(Clone, Copy)]
pub enum Stopped {
    /// The format failed.
    Failed,
}

/// The allocator and the error of calls that send events.
#[derive(Drop)]
pub struct Aside<E> {
    /// Allocates the hex texts of bytes.
    pub alloc: Global,
    /// The format's error, once it failed.
    pub error: Option<E>,
}

/// The result of sending.
pub type Done = Result<(), Stopped>;

// The result of a call to the format; an error is stored.
macro_rules! done {
    ($sent:expr, $aside:expr) => {
        match $sent {
            Ok(()) => Ok(()),
            Err(e) => {
                $aside.error = Some(e);
                Err(Stopped::Failed)
            }
        }
    };
}

/// Begins an object.
pub fn begin_map<S: Serializer>(out: &mut S, aside: &mut Aside<S::Error>) -> Done
    ensures { OnOk result (Logs (S.written out.old) (S.written out.new) (map_begins None)) }
{
    done!(out.begin_map(None), aside)
}

/// Ends an object.
pub fn end_map<S: Serializer>(out: &mut S, aside: &mut Aside<S::Error>) -> Done
    ensures { OnOk result (Logs (S.written out.old) (S.written out.new) (map_ends)) }
{
    done!(out.end_map(), aside)
}

/// Begins a list.
pub fn begin_seq<S: Serializer>(out: &mut S, aside: &mut Aside<S::Error>) -> Done
    ensures { OnOk result (Logs (S.written out.old) (S.written out.new) (seq_begins None)) }
{
    done!(out.begin_seq(None), aside)
}

/// Ends a list.
pub fn end_seq<S: Serializer>(out: &mut S, aside: &mut Aside<S::Error>) -> Done
    ensures { OnOk result (Logs (S.written out.old) (S.written out.new) (seq_ends)) }
{
    done!(out.end_seq(), aside)
}

/// Sends the name of a member.
pub fn key<S: Serializer>(name: &str, out: &mut S, aside: &mut Aside<S::Error>) -> Done
    ensures { OnOk result (Logs (S.written out.old) (S.written out.new) (field_key name.now AsIs)) }
{
    done!(out.key(name), aside)
}

/// A text.
pub fn string<S: Serializer>(value: &str, out: &mut S, aside: &mut Aside<S::Error>) -> Done
    ensures { OnOk result (Logs (S.written out.old) (S.written out.new) (text value.now)) }
{
    done!(out.str(value), aside)
}

/// `true` or `false`.
pub fn truth<S: Serializer>(value: bool, out: &mut S, aside: &mut Aside<S::Error>) -> Done
    ensures { OnOk result (Logs (S.written out.old) (S.written out.new) (boolean value)) }
{
    done!(out.bool(value), aside)
}

/// A number.
pub fn unsigned<S: Serializer>(value: u64, out: &mut S, aside: &mut Aside<S::Error>) -> Done
    ensures { OnOk result (Logs (S.written out.old) (S.written out.new) (unsigned value)) }
{
    done!(out.u64(value), aside)
}

pub(crate) fn signed<S: Serializer>(value: i64, out: &mut S, aside: &mut Aside<S::Error>) -> Done
    ensures { OnOk result (Logs (S.written out.old) (S.written out.new) (signed value)) }
{
    done!(out.i64(value), aside)
}

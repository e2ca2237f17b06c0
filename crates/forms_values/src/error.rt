//! Why JSON can't be turned into bytes.

use crate::form::{Choice, Name};
use std::error::Error;
use std::fmt;

/// A description of the JSON that is wanted at a place.
#[derive(Clone, Copy)]
pub enum Wanted {
    /// Bytes in `{"raw":".."}`, since forms don't nest deeper.
    Raw,
    /// An object.
    Object,
    /// An object with a member that names one of these choices.
    Variant(&'static [Choice<'static>]),
    /// The member of this name.
    Name(&'static str),
    /// The name of an attribute of the table.
    Attribute,
    /// A member that the object lacks.
    Member,
    /// A list.
    List,
    /// A number in this range.
    Number { least: i64, most: u64 },
    /// The name of a number among these, or `{"Other":n}`.
    NamedNumber(&'static [Name<'static>]),
    /// `true` or `false`.
    Bool,
    /// `true`.
    True,
    /// A text.
    Text,
    /// A handle, as `tc` writes it.
    Handle,
    /// A MAC address.
    Mac,
    /// An IPv4 address.
    Ipv4,
    /// An IPv6 address.
    Ipv6,
    /// Bytes in hex, in lower case.
    Hex,
    /// This number of bytes in hex, in lower case.
    HexOf(usize),
    /// An `nla_type` with its flags.
    Word,
    /// A value of at most 65531 bytes.
    Fitting,
}

impl fmt::Display for Wanted {
    fn fmt<W: fmt::Write>(&self, f: &mut fmt::Formatter<W>) -> fmt::Result {
        match self {
            Wanted::Name(name) => write!(f, "the name \"{name}\""),
            Wanted::Variant(choices) => write_choices(choices, f),
            Wanted::NamedNumber(names) => write_names(names, f),
            Wanted::Number { least, most } => write!(f, "a number from {least} to {most}"),
            Wanted::HexOf(len) => write!(f, "{len} bytes in lower-case hex"),
            _ => f.write_str(self.text()),
        }
    }
}

impl Wanted {
    // The text without a number or a name.
    fn text(&self) -> &'static str {
        match self {
            Wanted::Raw => "bytes in {\"raw\":\"..\"}",
            Wanted::Object => "an object",
            Wanted::Variant(_) | Wanted::Name(_) => "a name",
            Wanted::Attribute => "the name of an attribute of the table",
            Wanted::Member => "a member of this name",
            Wanted::List => "a list",
            Wanted::Number { .. } => "a number",
            Wanted::NamedNumber(_) => "the name of a number",
            Wanted::Bool => "true or false",
            Wanted::True => "true",
            Wanted::Text => "a text",
            Wanted::Handle => "a handle such as 1:10, 8001:, :10, root or 0:0",
            Wanted::Mac => "a MAC address",
            Wanted::Ipv4 => "an IPv4 address",
            Wanted::Ipv6 => "an IPv6 address",
            Wanted::Hex | Wanted::HexOf(_) => "bytes in lower-case hex",
            Wanted::Word => "a number from 0 to 65535",
            Wanted::Fitting => "a value that is written as at most 65531 bytes",
        }
    }
}

fn write_names<W: fmt::Write>(names: &[Name<'_>], f: &mut fmt::Formatter<W>) -> fmt::Result {
    f.write_str("the name of a number, or {\"Other\":n}")?;
    for (place, name) in names.iter().enumerate() {
        f.write_str(if place == 0 { ": " } else { ", " })?;
        f.write_str(name.name)?;
    }
    Ok(())
}

fn write_choices<W: fmt::Write>(choices: &[Choice<'_>], f: &mut fmt::Formatter<W>) -> fmt::Result {
    f.write_str("the name of a choice, or {\"Other\":\"..\"}")?;
    for (place, choice) in choices.iter().enumerate() {
        f.write_str(if place == 0 { ": " } else { ", " })?;
        f.write_str(choice.name)?;
    }
    Ok(())
}

/// Why JSON can't be turned into bytes.
#[derive(Drop)]
pub enum MakeError {
    /// Memory ran out.
    OutOfMemory,

    /// A part of the JSON is wrong.
    Wrong {
        /// The place, as a JSON pointer. Empty for the whole.
        path: String,
        /// The JSON at this place, or a few words for a list, an object or a long text.
        found: String,
        /// The JSON that is wanted there.
        wanted: Wanted,
    },
}

impl fmt::Display for MakeError {
    fn fmt<W: fmt::Write>(&self, f: &mut fmt::Formatter<W>) -> fmt::Result {
        match self {
            MakeError::OutOfMemory => f.write_str("out of memory"),
            MakeError::Wrong {
                path,
                found,
                wanted,
            } => {
                if !path.is_empty() {
                    write!(f, "{path}: ")?;
                }
                write!(f, "found {found}, wanted {wanted}")
            }
        }
    }
}

impl fmt::Debug for MakeError {
    fn fmt<W: fmt::Write>(&self, f: &mut fmt::Formatter<W>) -> fmt::Result {
        write!(f, "{self}")
    }
}

impl Error for MakeError {}

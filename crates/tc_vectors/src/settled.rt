//! Values made by hand: which of them read back as themselves, and as what the others do.

use crate::calls::{fault_of, is_made, is_read_as, is_settled_attribute, is_settled_option};
use crate::made::{kept, kind, message, option, options, other, pushed, raw};
use crate::tables::{bytes_of, is_shown, settles};
use crate::worked::{NO_ACTION_HEADER, NO_HEADER, front_of};
use nla_frames::AddressFamily;
use std::alloc::{AllocError, Global};
use std::test::Fail;
use tc_action_messages::{TcActionMessage, TcActionMessageAttribute};
use tc_actions::{TcAction, TcActionAttribute, TcFqCodelXstats, TcXstats};
use tc_options::TcFilterU32Option;
use tc_records::TcActionMessageHeader;
use tc_wire::{TcAttribute, TcMessage, TcOption, TcQdiscFqCodelOption};
use tests_data::Form;

// A frame of fq_codel's limit, 5 packets.
const LIMIT: [u8; 8] = [8, 0, 2, 0, 5, 0, 0, 0];

fn limit() -> TcOption {
    TcOption::FqCodel(TcQdiscFqCodelOption::Limit(5))
}

/// An attribute made by hand.
enum Made {
    Kind(&'static str),
    /// A limit, as an option of `fq_codel`.
    Limit,
    /// A hash, as an option of `u32`.
    Hash,
    NoOptions,
    Raw(u16, &'static [u8]),
    /// A kind that is kept raw.
    Kept,
    /// Statistics of `fq_codel` without their number.
    Short,
    /// DumpInvisible(false), which is written as if it were true.
    Absent,
}

fn short(alloc: Global) -> Result<TcXstats, AllocError> {
    Ok(TcXstats::FqCodel(TcFqCodelXstats::Other([1, 2, 3].to_vec(alloc)?)))
}

fn attribute(alloc: Global, made: &Made) -> Result<TcAttribute, AllocError> {
    match made {
        Made::Kind(text) => kind(alloc, text),
        Made::Limit => option(alloc, Ok(limit())),
        Made::Hash => option(alloc, Ok(TcOption::U32(TcFilterU32Option::Hash(5)))),
        Made::NoOptions => options(Ok(Vec::new(alloc))),
        Made::Raw(word, value) => raw(alloc, *word, value),
        Made::Kept => Ok(TcAttribute::Other(kept(alloc, 0x8001, b"u32\0")?)),
        Made::Short => Ok(TcAttribute::Xstats(short(alloc)?)),
        Made::Absent => Ok(TcAttribute::DumpInvisible(false)),
    }
}

/// The attributes of a message made by hand, the same as `Debug` shows them, the frames in hex that they are written as after an empty header, and
/// the attributes that these are read as, or their fault, empty where they are read as the same ones.
type Row = (&'static [Made], &'static str, &'static str, &'static str);

#[rattlefmt::skip]
static MESSAGES: [Row; 11] = [
    // an unknown kind, and options of fq_codel
    (&[Made::Kind("sfq"), Made::Limit], "[Kind(\"sfq\"), Options([FqCodel(Limit(5))])]", "08000100 73667100 0c000200 08000200 05000000", "[Kind(\"sfq\"), OptionsRaw(DefaultNla { word: 2, value: [8, 0, 2, 0, 5, 0, 0, 0] })]"),
    // no kind, and options
    (&[Made::NoOptions], "[Options([])]", "04000200", "[OptionsRaw(DefaultNla { word: 2, value: [] })]"),
    // fq_codel without options
    (&[Made::Kind("fq_codel"), Made::NoOptions], "[Kind(\"fq_codel\"), Options([])]", "0d000100 66715f636f64656c00000000 04000200", ""),
    // a kind that is kept raw
    (&[Made::Kept], "[Other(DefaultNla { word: 32769, value: [117, 51, 50, 0] })]", "08000180 75333200", "[Kind(\"u32\")]"),
    // a kind that ends in a NUL
    (&[Made::Kind("a\0")], "[Kind(\"a\\0\")]", "07000100 61000000", ""),
    // raw options of another type
    (&[Made::Raw(3, &[])], "[OptionsRaw(DefaultNla { word: 3, value: [] })]", "04000300", "BufferTooSmall { len: 0, needed: 40 }"),
    // DumpInvisible(false)
    (&[Made::Absent], "[DumpInvisible(false)]", "04000a00", "[DumpInvisible(true)]"),
    // u32, and options of fq_codel
    (&[Made::Kind("u32"), Made::Limit], "[Kind(\"u32\"), Options([FqCodel(Limit(5))])]", "08000100 75333200 0c000200 08000200 05000000", "[Kind(\"u32\"), Options([U32(Hash(5))])]"),
    // u32, and its own options, kept raw
    (&[Made::Kind("u32"), Made::Raw(2, &LIMIT)], "[Kind(\"u32\"), OptionsRaw(DefaultNla { word: 2, value: [8, 0, 2, 0, 5, 0, 0, 0] })]", "08000100 75333200 0c000200 08000200 05000000", "[Kind(\"u32\"), Options([U32(Hash(5))])]"),
    // u32, and its own options
    (&[Made::Kind("u32"), Made::Hash], "[Kind(\"u32\"), Options([U32(Hash(5))])]", "08000100 75333200 0c000200 08000200 05000000", ""),
    // fq_codel, and statistics without their number
    (&[Made::Kind("fq_codel"), Made::Short], "[Kind(\"fq_codel\"), Xstats(FqCodel(Other([1, 2, 3])))]", "0d000100 66715f636f64656c00000000 07000400 01020300", "XstatsShort { len: 3 }"),
];

fn message_of(alloc: Global, attributes: &[Made]) -> Result<TcMessage, AllocError> {
    let mut list = Ok(Vec::new(alloc));
    for made in attributes {
        list = pushed(list, attribute(alloc, made));
    }
    message(list)
}

// True if bytes are read as attributes of this text, or refused with a fault of it.
fn is_told(alloc: Global, form: Form, bytes: &[u8], text: &str) -> bool {
    match &fault_of(alloc, form, bytes) {
        Some(fault) => is_shown(alloc, fault, text),
        None => is_read_as(alloc, form, bytes, (front_of(form), text), None),
    }
}

fn is_message(alloc: Global, row: &Row) -> Result<bool, AllocError> {
    let (attributes, shown, frames, again) = *row;
    let bytes = bytes_of(alloc, Form::Tc.header(), frames)?;
    let (made, written) = (
        message_of(alloc, attributes).ok(),
        (bytes.as_slice(), again.is_empty()),
    );
    Ok(
        is_made(alloc, made, (NO_HEADER, shown), Some(written))
            && (again.is_empty() || is_told(alloc, Form::Tc, &bytes, again)),
    )
}

#[test]
fn of_messages(rt: HostRuntime) -> Result<(), Fail> {
    for row in &MESSAGES {
        assert!(rt; is_message(rt.alloc(), row)?, "{}", row.1);
    }
    Ok(())
}

/// An attribute of an action message, made by hand.
enum MadeAction {
    /// One action `nat` with this word.
    Nat(u16),
    Warning(&'static str),
    /// A count that is kept raw.
    KeptCount,
}

fn nat_kind(alloc: Global) -> Result<TcActionAttribute, AllocError> {
    Ok(TcActionAttribute::Kind("nat".to_string(alloc)?))
}

fn nat_action(alloc: Global, tab: u16) -> Result<TcAction, AllocError> {
    let attributes = pushed(Ok(Vec::new(alloc)), nat_kind(alloc))?;
    Ok(TcAction { tab, attributes })
}

fn nat(alloc: Global, tab: u16) -> Result<TcActionMessageAttribute, AllocError> {
    let actions = pushed(Ok(Vec::new(alloc)), nat_action(alloc, tab))?;
    Ok(TcActionMessageAttribute::Actions(actions))
}

fn warning(alloc: Global, text: &str) -> Result<TcActionMessageAttribute, AllocError> {
    Ok(TcActionMessageAttribute::RootExtWarnMsg(text.to_string(alloc)?))
}

fn kept_count(alloc: Global) -> Result<TcActionMessageAttribute, AllocError> {
    Ok(TcActionMessageAttribute::Other(kept(alloc, 3, &[6, 0, 0, 0])?))
}

fn action_attribute(
    alloc: Global,
    made: &MadeAction,
) -> Result<TcActionMessageAttribute, AllocError> {
    match made {
        MadeAction::Nat(tab) => nat(alloc, *tab),
        MadeAction::Warning(text) => warning(alloc, text),
        MadeAction::KeptCount => kept_count(alloc),
    }
}

/// An attribute made by hand, the attributes of its message as `Debug` shows them, the frame in hex that it is written as, and the attributes that this
/// is read as, empty where they are read as the same.
type ActionRow = (MadeAction, &'static str, &'static str, &'static str);

#[rattlefmt::skip]
static ACTION_MESSAGES: [ActionRow; 5] = [
    (MadeAction::Nat(0x8001), "[Actions([TcAction { tab: 32769, attributes: [Kind(\"nat\")] }])]", "10000100 0c000180 08000100 6e617400", "[Actions([TcAction { tab: 1, attributes: [Kind(\"nat\")] }])]"),
    (MadeAction::Nat(3), "[Actions([TcAction { tab: 3, attributes: [Kind(\"nat\")] }])]", "10000100 0c000300 08000100 6e617400", ""),
    (MadeAction::Warning("a\0"), "[RootExtWarnMsg(\"a\\0\")]", "06000500 61000000", "[RootExtWarnMsg(\"a\")]"),
    (MadeAction::Warning("hi"), "[RootExtWarnMsg(\"hi\")]", "06000500 68690000", ""),
    (MadeAction::KeptCount, "[Other(DefaultNla { word: 3, value: [6, 0, 0, 0] })]", "08000300 06000000", "[RootCount(6)]"),
];

fn action_message_of(alloc: Global, made: &MadeAction) -> Result<TcActionMessage, AllocError> {
    let attributes = pushed(Ok(Vec::new(alloc)), action_attribute(alloc, made))?;
    let header = TcActionMessageHeader::default();
    Ok(TcActionMessage { header, attributes })
}

fn is_action_message(alloc: Global, row: &ActionRow) -> Result<bool, AllocError> {
    let (made, shown, frames, again) = row;
    let bytes = bytes_of(alloc, Form::Action.header(), frames)?;
    let (made, written) = (
        action_message_of(alloc, made).ok(),
        (bytes.as_slice(), again.is_empty()),
    );
    Ok(
        is_made(alloc, made, (NO_ACTION_HEADER, shown), Some(written))
            && (again.is_empty() || is_told(alloc, Form::Action, &bytes, again)),
    )
}

#[test]
fn of_action_messages(rt: HostRuntime) -> Result<(), Fail> {
    for row in &ACTION_MESSAGES {
        assert!(rt; is_action_message(rt.alloc(), row)?, "{}", row.1);
    }
    Ok(())
}

/// The text of `Debug` before the attributes of a message of a family, by its name.
static INET: &str =
    "TcMessage { header: TcHeader { family: Inet, index: 0, handle: TcHandle { major: 0, minor: 0 }, \
parent: TcHandle { major: 0, minor: 0 }, info: 0 }, attributes: ";

/// And by its number.
static OTHER: &str =
    "TcMessage { header: TcHeader { family: Other(2), index: 0, handle: TcHandle { major: 0, minor: 0 }, \
parent: TcHandle { major: 0, minor: 0 }, info: 0 }, attributes: ";

static INET_BYTES: [u8; 20] = [2, 0, 0, 0, 0, 0, 0, 0, 0, 0, 0, 0, 0, 0, 0, 0, 0, 0, 0, 0];

// True if a message of this family and no attributes, made by hand, is shown and settled as it has to be; written as these bytes.
fn is_of_family(alloc: Global, family: AddressFamily, front: &str, is_settled: bool) -> bool {
    let mut message = TcMessage::default_in(alloc);
    message.header.family = family;
    let written = Some((INET_BYTES.as_slice(), is_settled));
    is_made(alloc, Some(message), (front, "[]"), written)
}

// The second family is a number that has a name, under which it is read.
#[test]
fn of_a_header(rt: HostRuntime) {
    let alloc = rt.alloc();
    assert!(rt; is_of_family(alloc, AddressFamily::Inet, INET, true));
    assert!(rt; is_of_family(alloc, AddressFamily::Other(2), OTHER, false));
    let written = Some((INET_BYTES.as_slice(), true));
    assert!(rt; is_read_as(alloc, Form::Tc, &INET_BYTES, (INET, "[]"), written));
}

// True if options of `fq_codel` are settled under a kind that is known, and what no table has under any other.
fn are_settled_under(alloc: Global, kind: &str, is_known: bool) -> bool {
    is_settled_attribute(kind, option(alloc, Ok(limit()))) == is_known
        && is_settled_option(kind, Ok(limit())) == is_known
        && is_settled_option(kind, other(alloc, 2, &[5, 0, 0, 0])) != is_known
        && is_settled_attribute(kind, raw(alloc, 2, &LIMIT)) != is_known
}

// True if an option of `fq_codel` is settled that is kept raw, of this type.
fn is_settled_of_type(alloc: Global, word: u16) -> Result<bool, AllocError> {
    Ok(settles(TcQdiscFqCodelOption::Other(kept(alloc, word, &[5])?)))
}

// Options are settled under their own kind.
#[test]
fn of_options_under_a_kind(rt: HostRuntime) -> Result<(), Fail> {
    let alloc = rt.alloc();
    for (kind, is_known) in [
        ("fq_codel", true),
        ("fq_codel\0", false),
        ("sfq", false),
        ("", false),
    ] {
        assert!(rt; are_settled_under(alloc, kind, is_known), "{kind}");
    }
    for (word, is_settled) in [(2, false), (0x8002, false), (99, true), (0xc063, true)] {
        assert!(rt; is_settled_of_type(alloc, word)? == is_settled, "{word}");
    }
    Ok(())
}

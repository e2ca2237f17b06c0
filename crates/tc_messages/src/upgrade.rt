//! The upgrade of messages that version 1 read, where options of an unknown kind are a list of one option.

ghost use Rattle.std.specs.Prelude.{◌≡◌, List, ℕ, [], map, false, MatchOption};
ghost use Rattle.nla_frames.specs.DefaultNla.{kept_frame};
ghost use Rattle.nla_frames.specs.Value.{IsBytes};
ghost use Rattle.tc_meaning.specs.Tree.{other};
ghost use Rattle.tc_meaning.specs.Message.{kind_of_attribute};
ghost use Rattle.tc_meaning.specs.Whole.{ReadsTc, FitsTc};
ghost use Rattle.tc_laws.specs.FirstVersion.{ReadsTc1, upgrade, upgrade_each};
ghost use Rattle.tc_options.specs.Options.{tc_option};
ghost use Rattle.tc_messages.specs.Attribute.{tc_attribute};
ghost use Rattle.tc_messages.specs.Message.{tc_message};
ghost use Rattle.tc_messages.specs.Upgrade.{UpgradesAs, KnownAfter, IsRead, is_raw, is_lone, options_of};

use crate::attribute::TcAttribute;
use crate::message::TcMessage;
use crate::types::TCA_OPTIONS;
use nla_frames::{DefaultNla, NLA_TYPE_MASK, Nla, SetsKind};
use std::alloc::Allocator;
use std::mem;
use tc_laws::versions::upgrading;
use tc_options::{TcOption, is_known_kind};

impl<A: Allocator> TcMessage<A> {
    /// Turns a message that version 1 read into the one that is read now: each `Options` under an unknown kind that is a
    /// single `TcOption::Other` of type 2 becomes `OptionsRaw` with its word and payload. Takes no memory.
    ///
    /// **Only for messages that version 1 read. In a message that was built by hand, options of an unknown kind that are one
    /// option of type 2 lose one level of nesting, since they look the same.**
    pub fn upgrade(self) -> TcMessage<A>
        ensures value { tc_message result ≡ upgrade (tc_message self) }
        // What version 1 reads as the message, is now read as the upgrade.
        ensures upgraded { (bytes : List ℕ) → IsBytes bytes → ReadsTc1 bytes (tc_message self)
            → ReadsTc bytes (tc_message result) }
        // The upgrade is its own upgrade.
        ensures twice { upgrade (tc_message result) ≡ tc_message result }
        ensures fits { FitsTc (tc_message self) → FitsTc (tc_message result) }
    {
        // A law, which does nothing: what the upgrade of any message is read as, and that it is its own upgrade.
        upgrading();
        let TcMessage { header, attributes } = self;
        let attributes = upgraded_list(attributes);
        TcMessage { header, attributes }
    }
}

fn upgraded_list<A: Allocator>(mut list: Vec<TcAttribute<A>, A>) -> Vec<TcAttribute<A>, A>
    ensures { map tc_attribute result.items ≡ upgrade_each [] (map tc_attribute list.items) }
{
    upgrade_all(&mut list);
    list
}

// Upgrades each attribute. Of the last kind before it, only whether it is known matters.
fn upgrade_all<A: Allocator>(list: &mut [TcAttribute<A>])
    ensures { map tc_attribute list.new ≡ upgrade_each [] (map tc_attribute list.old) }
{
    let mut is_known = is_known_kind("");
    for i in 0..list.len() {
        is_known = upgrade_one(&mut list[i], is_known);
    }
}

// Upgrades an attribute under a kind that is known or not; returns whether the kind after it is known.
fn upgrade_one<A: Allocator>(attribute: &mut TcAttribute<A>, is_known: bool) -> bool
    ensures upgraded { UpgradesAs is_known (tc_attribute attribute.old)
        (tc_attribute attribute.new) }
    ensures known { KnownAfter is_known (kind_of_attribute (tc_attribute attribute.old)) result }
{
    let after = is_known_after(attribute, is_known);
    // A placeholder that owns no memory.
    let old = mem::replace(attribute, TcAttribute::HwOffload(0));
    *attribute = upgraded(old, is_known);
    after
}

// True if the kind after an attribute is known.
fn is_known_after<A: Allocator>(attribute: &TcAttribute<A>, is_known: bool) -> bool
    ensures { KnownAfter is_known (kind_of_attribute (tc_attribute attribute.now)) result }
{
    match attribute.kind_set() {
        Some(kind) => is_known_kind(kind),
        None => is_known,
    }
}

fn upgraded<A: Allocator>(attribute: TcAttribute<A>, is_known: bool) -> TcAttribute<A>
    ensures { UpgradesAs is_known (tc_attribute attribute) (tc_attribute result) }
{
    match attribute {
        TcAttribute::Options(options) => {
            if is_known {
                TcAttribute::Options(options)
            } else {
                unknown_options(options)
            }
        }
        attribute => attribute,
    }
}

// Upgrades options under an unknown kind.
fn unknown_options<A: Allocator>(mut options: Vec<TcOption<A>, A>) -> TcAttribute<A>
    ensures { UpgradesAs false (options_of (map tc_option options.items)) (tc_attribute result) }
{
    if !is_lone_option(&options) {
        return TcAttribute::Options(options);
    }
    match options.pop() {
        Some(option) => match unread(option) {
            Some(nla) => TcAttribute::OptionsRaw(nla),
            None => TcAttribute::Options(options),
        },
        None => TcAttribute::Options(options),
    }
}

// The raw option, unless it is typed.
fn unread<A: Allocator>(option: TcOption<A>) -> Option<DefaultNla<A>>
    ensures { MatchOption result (IsRead (tc_option option)) (λ nla.
        tc_option option ≡ other (kept_frame nla).word (kept_frame nla).value) }
{
    match option {
        TcOption::Other(nla) => Some(nla),
        _ => None,
    }
}

// True for a single option that is raw and has the type of options.
fn is_lone_option<A: Allocator>(options: &[TcOption<A>]) -> bool
    ensures { result ≡ is_lone (map tc_option options.now) }
{
    match options {
        [option] => is_raw_option(option),
        _ => false,
    }
}

fn is_raw_option<A: Allocator>(option: &TcOption<A>) -> bool
    ensures { result ≡ is_raw (tc_option option.now) }
{
    match option {
        TcOption::Other(nla) => nla.kind() & NLA_TYPE_MASK == TCA_OPTIONS,
        _ => false,
    }
}

//! What messages are about.

ghost use Rattle.std.specs.Prelude.{◌≡◌};
ghost use Rattle.tc_check.specs.Messages.{sort_of, header_size};

// What a message is about.
#[derive(Clone, Copy, PartialEq, Eq, Debug)]
pub enum Sort {
    Qdisc,
    Class,
    Filter,
    Action,
    Chain,
}

// What messages of a type are about: types go in fours.
pub(crate) fn sort_of(message_type: u16) -> Option<Sort>
    ensures { result ≡ sort_of message_type }
{
    let four = message_type / 4;
    if four == 9 {
        Some(Sort::Qdisc)
    } else if four == 10 {
        Some(Sort::Class)
    } else if four == 11 {
        Some(Sort::Filter)
    } else if four == 12 {
        Some(Sort::Action)
    } else if four == 25 {
        Some(Sort::Chain)
    } else {
        None
    }
}

// The number of bytes before the attributes.
pub(crate) fn header_size(sort: Sort) -> usize
    ensures { result ≡ header_size sort }
{
    match sort {
        Sort::Action => 20,
        _ => 36,
    }
}

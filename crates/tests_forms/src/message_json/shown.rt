//! Messages in hand as JSON.

use std::alloc::Global;
use std::test::Fail;
use tc_message_json::Shown;
use tc_wire::{DefaultNla, TcActionMessage, TcAttribute, TcMessage};

// The example of docs/JSON.md without its attributes.
static HEADER: &str =
    r#"{"header":{"family":"Unspec","index":2,"handle":"0:0","parent":"0:0","info":0},"attributes":[]}"#;

static ACTION_HEADER: &str = r#"{"header":{"family":"Unspec"},"attributes":[]}"#;

fn shown(alloc: Global, message: &TcMessage) -> Result<String, serde_json::Error> {
    serde_json::to_string(alloc, &Shown(message, alloc))
}

fn header(alloc: Global) -> Result<String, serde_json::Error> {
    let message = TcMessage::with_index(alloc, 2);
    shown(alloc, &message)
}

fn action_header(alloc: Global) -> Result<String, serde_json::Error> {
    let message = TcActionMessage::default_in(alloc);
    serde_json::to_string(alloc, &Shown(&message, alloc))
}

#[test]
fn messages_are_shown(rt: HostRuntime) -> Result<(), Fail> {
    assert_eq!(rt; header(rt.alloc())?.as_str(), HEADER);
    assert_eq!(rt; action_header(rt.alloc())?.as_str(), ACTION_HEADER);
    Ok(())
}

fn with_value(alloc: Global, len: usize) -> Result<TcMessage, Fail> {
    let attribute = TcAttribute::Other(DefaultNla::new(99, vec![in alloc; 0; len]?));
    let mut message = TcMessage::default_in(alloc);
    message.attributes.push(attribute)?;
    Ok(message)
}

// True if a message whose attribute has so many bytes is shown.
fn is_shown(alloc: Global, len: usize) -> Result<bool, Fail> {
    let message = with_value(alloc, len)?;
    Ok(shown(alloc, &message).is_ok())
}

#[test]
fn what_does_not_fit_is_an_error(rt: HostRuntime) -> Result<(), Fail> {
    assert!(rt; is_shown(rt.alloc(), 65531)?);
    assert!(rt; !is_shown(rt.alloc(), 65532)?);
    Ok(())
}

//! Canonical messages, and the bytes of JSON.

use forms_text::read_json;
use serde_json::Value;
use std::alloc::{AllocError, Global};
use std::test::Fail;
use tc_message_json::{NoMessage, make, make_as_given};
use tc_wire::{TcActionMessage, TcMessage};

// What is made of JSON.
#[derive(Clone, Copy, Debug)]
enum Way {
    // The bytes that it stands for, by the form of a traffic control message.
    AsGiven,
    // A canonical traffic control message.
    Tc,
    // A canonical action message.
    Action,
}

// A header, the kind fq_codel, and its options: the limit 10240, with NLA_F_NESTED, and padding after the kind that isn't zeros.
const LIMIT: &str =
    r#"{"header":{"family":"Unspec","index":2,"handle":"1:","parent":"root","info":0},"attributes":[
    {"Kind":"fq_codel","pad":"010203"},{"Options":[{"FqCodel":{"Limit":10240,"word":32770}}]}]}"#;

// JSON, what is made of it, and the bytes in hex or why there are none.
static ROWS: [(Way, &str, &str); 8] = [
    (
        Way::AsGiven,
        LIMIT,
        "000000000200000000000100ffffffff000000000d00010066715f636f64656c000102030c0002000800028000280000",
    ),
    // flags and padding go
    (
        Way::Tc,
        LIMIT,
        "000000000200000000000100ffffffff000000000d00010066715f636f64656c000000000c0002000800020000280000",
    ),
    (
        Way::Action,
        r#"{"header":{"family":"Unspec"},"attributes":[]}"#,
        "00000000",
    ),
    // bytes of no message are given
    (Way::AsGiven, r#"{"raw":"00ff"}"#, "00ff"),
    (
        Way::Tc,
        r#"{"raw":"00ff"}"#,
        "/header: buffer of 2 bytes, 20 needed",
    ),
    // a misspelt member
    (
        Way::Action,
        r#"{"header":{"family":"Unspec","familly":1},"attributes":[]}"#,
        "/header/familly: found 1, wanted nothing",
    ),
    // a warning that ends in a NUL, which is written without it
    (
        Way::Action,
        r#"{"header":{"family":"Unspec"},"attributes":[{"RootExtWarnMsg":"a\u0000"}]}"#,
        r#"/attributes/0/RootExtWarnMsg: found "a\u0000", wanted "a""#,
    ),
    // one that ends in two: of each message that is read of it, until it is settled, one goes
    (
        Way::Action,
        r#"{"header":{"family":"Unspec"},"attributes":[{"RootExtWarnMsg":"a\u0000\u0000"}]}"#,
        r#"/attributes/0/RootExtWarnMsg: found "a\u0000\u0000", wanted "a""#,
    ),
];

fn made(alloc: Global, way: Way, json: &Value) -> Result<Vec<u8>, NoMessage> {
    match way {
        Way::AsGiven => make_as_given::<TcMessage>(alloc, json),
        Way::Tc => make::<TcMessage>(alloc, json),
        Way::Action => make::<TcActionMessage>(alloc, json),
    }
}

// The bytes in hex, or why there are none.
fn text_of(alloc: Global, made: Result<Vec<u8>, NoMessage>) -> Result<String, AllocError> {
    match made {
        Ok(bytes) => hex::encode(alloc, &bytes),
        Err(e) => format!(in alloc; "{e}"),
    }
}

// The same of what is made of a text.
fn outcome(alloc: Global, way: Way, text: &str) -> Result<String, AllocError> {
    match read_json(alloc, text.as_bytes()) {
        Ok(json) => text_of(alloc, made(alloc, way, &json)),
        Err(e) => format!(in alloc; "{e}"),
    }
}

#[test]
fn messages_are_canonical_or_as_given(rt: HostRuntime) -> Result<(), Fail> {
    for (way, text, wanted) in &ROWS {
        let outcome = outcome(rt.alloc(), *way, text)?;
        assert!(rt; outcome.as_str() == *wanted, "{way:?} of {text}: {outcome}");
    }
    Ok(())
}

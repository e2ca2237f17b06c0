//! Texts that can't be turned into bytes: the error has the place, the JSON that was found and the JSON that is wanted.

use forms_kinds::{TC_MESSAGE, TcTables};
use forms_text::{TextError, bytes_of_text};
use std::alloc::Global;
use std::test::Fail;

// Whole texts, and their errors.
#[rattlefmt::skip]
static TEXTS: [(&[u8], &str); 10] = [
    (br#"[]"#, r#"found a list of 0, wanted an object"#),
    (br#"{"header":{"family":"Unspec","index":2,"handle":"1:","parent":"root","info":0}}"#,
        r#"/attributes: found nothing, wanted a member of this name"#),
    (br#"{"header":{"family":"Inet7","index":2,"handle":"1:","parent":"root","info":0},"attributes":[]}"#,
        r#"/header/family: found "Inet7", wanted the name of a number, or {"Other":n}: Unspec, Unix, Inet, Bridge, Inet6, Netlink, Packet, Mpls"#),
    (br#"{"header":{"family":"Inet","index":2147483648,"handle":"1:","parent":"root","info":0},"attributes":[]}"#,
        r#"/header/index: found 2147483648, wanted a number from -2147483648 to 2147483647"#),
    (br#"{"header":{"family":{"Other":256},"index":2,"handle":"1:","parent":"root","info":0},"attributes":[]}"#,
        r#"/header/family/Other: found 256, wanted a number from 0 to 255"#),
    (br#"{"header":{"family":"Inet","index":2,"handle":"1:","parent":"rot","info":0},"attributes":[]}"#,
        r#"/header/parent: found "rot", wanted a handle such as 1:10, 8001:, :10, root or 0:0"#),
    // texts that aren't read
    (br#"{"a":{"b~/":[{"c":1,"c":2}]}}"#, "/a/b~0~1/0/c: found twice, wanted once"),
    (br#"{"header":"#, "not JSON at line 1 column 10"),
    (b"{\"header\":\n  tru}", "not JSON at line 2 column 3"),
    (b"\"a\xff\"", "not JSON at line 1 column 3"),
];

fn error_of(alloc: Global, text: &[u8]) -> Result<String, Fail> {
    match bytes_of_text(alloc, TcTables, TC_MESSAGE, text) {
        Ok(_) => Ok(String::from_str(alloc, "made")?),
        Err(TextError::Read(e)) => Ok(format!(in alloc; "{e}")?),
        Err(TextError::Make(e)) => Ok(format!(in alloc; "{e}")?),
    }
}

#[test]
fn texts(rt: HostRuntime) -> Result<(), Fail> {
    let alloc = rt.alloc();
    for (text, error) in &TEXTS {
        assert_eq!(rt; error_of(alloc, text)?.as_str(), *error);
    }
    Ok(())
}

#[test]
fn a_thousand_levels(rt: HostRuntime) -> Result<(), Fail> {
    let alloc = rt.alloc();
    let text = vec![in alloc; b'['; 1000]?;
    assert_eq!(rt;
        error_of(alloc, &text)?.as_str(),
        "more than 127 levels deep at line 1 column 129"
    );
    Ok(())
}

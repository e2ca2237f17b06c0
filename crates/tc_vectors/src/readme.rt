//! Samples of README and docs/CRATES.md.

use std::alloc::{AllocError, Global};
use std::string::String;
use std::test::Fail;
use tc_wire::{
    Emitable, ParseableBytes, TcAttribute, TcHandle, TcMessage, TcOption, TcQdiscFqCodel,
    TcQdiscFqCodelOption, settle_tc,
};

/// The message of the program's stored run.
#[rattlefmt::skip]
static BYTES: [u8; 48] = [
    0, 0, 0, 0, 2, 0, 0, 0, 0, 0, 1, 0, 0xff, 0xff, 0xff, 0xff, 0, 0, 0, 0,
    13, 0, 1, 0, 0x66, 0x71, 0x5f, 0x63, 0x6f, 0x64, 0x65, 0x6c, 0, 0, 0, 0,
    12, 0, 2, 0, 8, 0, 2, 0, 0, 0x28, 0, 0,
];

/// True if a message is written as the bytes of the stored run.
fn is_written(alloc: Global, message: &TcMessage) -> Result<bool, AllocError> {
    if !message.fits() {
        return Ok(false);
    }
    let mut bytes = vec![in alloc; 0; message.buffer_len()]?;
    message.emit(&mut bytes);
    Ok(bytes.as_slice() == &BYTES[..])
}

/// A message is read, and written as the bytes that it was read from.
#[test]
fn the_readme_reads_a_message(rt: HostRuntime) -> Result<(), Fail> {
    let alloc = rt.alloc();
    let message = TcMessage::parse(alloc, &BYTES)?;
    assert!(rt; message.header.index == 2);
    assert!(rt; matches!(is_written(alloc, &message), Ok(true)));
    Ok(())
}

#[test]
fn the_readme_settles_a_message(rt: HostRuntime) -> Result<(), Fail> {
    let (canonical, rewrites) = settle_tc(rt.alloc(), &BYTES)?;
    assert!(rt; canonical.as_slice() == &BYTES[..] && rewrites == 0);
    Ok(())
}

/// `tc qdisc add dev .. root handle 1: fq_codel limit 10240`, for the interface with index 2: the sample of `docs/CRATES.md`.
#[test]
fn the_sample_builds_a_qdisc(rt: HostRuntime) -> Result<(), Fail> {
    let alloc = rt.alloc();
    let mut options = Vec::new(alloc);
    options.push(TcOption::FqCodel(TcQdiscFqCodelOption::Limit(10240)))?;
    let mut message = TcMessage::with_index(alloc, 2);
    message.header.handle = TcHandle::from(0x10000);
    message.header.parent = TcHandle::ROOT;
    message.attributes.push(TcAttribute::Kind(String::from_str(alloc, TcQdiscFqCodel::KIND)?))?;
    message.attributes.push(TcAttribute::Options(options))?;
    assert!(rt; message.fits() && message.is_settled());
    let mut bytes = vec![in alloc; 0; message.buffer_len()]?;
    message.emit(&mut bytes);
    let again = TcMessage::parse(alloc, &bytes)?;
    assert!(rt; bytes.as_slice() == &BYTES[..] && again == message);
    Ok(())
}

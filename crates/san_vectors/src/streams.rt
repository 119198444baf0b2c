//! Streams in memory that take no memory while they are used.

use san_base::{SureSink, SureSource, Taking, put_all, take_all};
use std::test::Fail;

/// All bytes are taken, and a sink with room for 8 holds 3 and then 5 of them, and no more.
#[test]
fn streams_without_faults(rt: HostRuntime) -> Result<(), Fail> {
    let alloc = rt.alloc();
    let mut source = SureSource::new(Vec::from_slice(alloc, b"one two")?);
    match take_all(alloc, &mut source, 100) {
        Ok(bytes) => assert_eq!(rt; bytes.as_slice(), b"one two".as_slice()),
        Err(fault) => assert_eq!(rt; fault, Taking::NoMemory),
    }
    let mut sink = SureSink::new(alloc, 8)?;
    assert!(rt; put_all(&mut sink, b"one"));
    assert_eq!(rt; sink.room(), 5);
    assert!(rt; put_all(&mut sink, b" two!"));
    assert_eq!(rt; sink.room(), 0);
    assert!(rt; !put_all(&mut sink, b"?"));
    assert_eq!(rt; sink.bytes(), b"one two!".as_slice());
    sink.clear();
    assert_eq!(rt; sink.bytes(), b"".as_slice());
    Ok(())
}

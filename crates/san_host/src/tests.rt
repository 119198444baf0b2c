//! A reader and a writer that come to their end and fail, and which bytes the writer got.

use crate::{StdSink, StdSource};
use san_base::{Put, Read, Sink, Source};
use std::io;
use std::test::Fail;

/// Takes at most two bytes a call, and none once its room is full.
#[derive(Drop)]
struct Narrow<'a> {
    room: &'a mut Vec<u8>,
    most: usize,
}

impl io::Write for Narrow<'_> {
    fn write(&mut self, buf: &[u8]) -> io::Result<usize> {
        let left = self.most.saturating_sub(self.room.len());
        let count = buf.len().min(2).min(left);
        self.room.extend_from_slice(&buf[..count])?;
        Ok(count)
    }

    fn flush(&mut self) -> io::Result<()> {
        Ok(())
    }
}

/// Gives one byte, then its end, then fails.
#[derive(Drop)]
struct Short(usize);

impl io::Read for Short {
    fn read(&mut self, buf: &mut [u8]) -> io::Result<usize> {
        self.0 = self.0.saturating_add(1);
        match self.0 {
            1 => {
                let count = buf.len().min(1);
                buf[..count].fill(b'x');
                Ok(count)
            }
            2 => Ok(0),
            _ => Err(io::Error::from(io::ErrorKind::TimedOut)),
        }
    }
}

#[test]
fn streams(rt: HostRuntime) -> Result<(), Fail> {
    let mut room = Vec::new(rt.alloc());
    let writer = Narrow {
        room: &mut room,
        most: 3,
    };
    let mut sink = StdSink::new(writer);
    assert_eq!(rt; sink.put(b"abc"), Put::Took(2));
    assert_eq!(rt; sink.put(b"c"), Put::Took(1));
    assert_eq!(rt; sink.put(b"d"), Put::Failed);
    drop(sink);
    assert_eq!(rt; room.as_slice(), b"abc".as_slice());
    let mut source = StdSource::new(Short(0));
    let mut buf = [0; 4];
    assert_eq!(rt; source.read(&mut buf), Read::Took(1));
    assert_eq!(rt; buf[0], b'x');
    assert_eq!(rt; source.read(&mut buf), Read::End);
    assert_eq!(rt; source.read(&mut buf), Read::Failed);
    Ok(())
}

// A stream whose calls a signal interrupts.
use crate::tests::OrFail;
use std::io;
use std::io::{ErrorKind, Read, Write};
use std::test::Fail;
use tcp::Retried;
use testing::asserts::assert_same;

/// Gives and takes one byte at a time, and is interrupted before each.
#[derive(Drop)]
struct Shaken<'a> {
    input: &'a [u8],
    taken: &'a mut Vec<u8>,
    is_interrupted: bool,
}

impl Shaken<'_> {
    /// Every other call is interrupted.
    fn shake(&mut self) -> io::Result<()> {
        self.is_interrupted = !self.is_interrupted;
        if self.is_interrupted {
            return Err(io::Error::from(ErrorKind::Interrupted));
        }
        Ok(())
    }
}

impl Read for Shaken<'_> {
    fn read(&mut self, buf: &mut [u8]) -> io::Result<usize> {
        self.shake()?;
        let count = buf.len().min(self.input.len()).min(1);
        let (front, rest) = self.input.split_at(count);
        buf[..count].copy_from_slice(front);
        self.input = rest;
        Ok(count)
    }
}

impl Write for Shaken<'_> {
    fn write(&mut self, buf: &[u8]) -> io::Result<usize> {
        self.shake()?;
        let count = buf.len().min(1);
        if self.taken.extend_from_slice(&buf[..count]).is_err() {
            return Err(io::Error::from(ErrorKind::OutOfMemory));
        }
        Ok(count)
    }

    fn flush(&mut self) -> io::Result<()> {
        self.shake()
    }
}

// Each byte is read once, up to the end.
fn assert_read(stream: &mut Retried<Shaken<'_>>) -> Result<(), Fail> {
    let mut buf = [0u8; 8];
    for byte in b"stream" {
        assert_same(stream.read(&mut buf)?, 1, "read")?;
        assert_same(buf[0], *byte, "byte")?;
    }
    assert_same(stream.read(&mut buf)?, 0, "read")
}

// Each byte is written once.
fn assert_taken(stream: &mut Retried<Shaken<'_>>) -> Result<(), Fail> {
    assert_same(stream.write(b"up")?, 1, "write")?;
    assert_same(stream.write(b"p")?, 1, "write")?;
    stream.flush()?;
    Ok(())
}

#[test]
fn an_interrupted_call_is_tried_again(rt: HostRuntime) {
    let mut taken = Vec::new(rt.alloc());
    let mut stream = Retried::new(Shaken {
        input: b"stream",
        taken: &mut taken,
        is_interrupted: false,
    });
    assert_read(&mut stream).or_fail(&rt);
    assert_taken(&mut stream).or_fail(&rt);
    drop(stream);
    assert_same(taken.as_slice(), b"up".as_slice(), "taken").or_fail(&rt);
}

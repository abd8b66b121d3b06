// After which failures a read or a write goes on, which no clause says.
use crate::{read_rest, read_some, write_all};
use std::io;
use std::io::{ErrorKind, Read, Write};

// It fails once, and then gives or takes a byte a call.
#[derive(Drop)]
struct FailsOnce {
    error: Option<io::Error>,
    bytes: &'static [u8],
}

impl FailsOnce {
    fn new(error: io::Error) -> FailsOnce {
        FailsOnce {
            error: Some(error),
            bytes: b"abc",
        }
    }

    fn fail(&mut self) -> io::Result<()> {
        match self.error.take() {
            Some(error) => Err(error),
            None => Ok(()),
        }
    }
}

impl Read for FailsOnce {
    fn read(&mut self, buffer: &mut [u8]) -> io::Result<usize> {
        self.fail()?;
        if self.bytes.is_empty() || buffer.is_empty() {
            return Ok(0);
        }
        buffer[0] = self.bytes[0];
        self.bytes = &self.bytes[1..];
        Ok(1)
    }
}

impl Write for FailsOnce {
    fn write(&mut self, bytes: &[u8]) -> io::Result<usize> {
        self.fail()?;
        Ok(bytes.len().min(1))
    }

    fn flush(&mut self) -> io::Result<()> {
        Ok(())
    }
}

fn some(rt: &HostRuntime, error: io::Error) -> Option<usize> {
    let mut buffer = [0u8; 8];
    read_some(rt, &mut FailsOnce::new(error), &mut buffer).ok()
}

fn rest(rt: &HostRuntime, error: io::Error) -> Option<usize> {
    let mut buffer = [0u8; 8];
    read_rest(rt, &mut FailsOnce::new(error), &mut buffer).ok()
}

fn all(rt: &HostRuntime, error: io::Error) -> Option<usize> {
    write_all(rt, &mut FailsOnce::new(error), b"abc").ok()
}

// Of the system's numbers, which Linux has up to 133, behind 4 (interrupted) and 11 (it would have waited) alone.
#[test]
fn the_system_s_failures(rt: HostRuntime) {
    for number in 1..134 {
        let goes_on = number == 4 || number == 11;
        let error = io::Error::from_raw_os_error(number);
        assert_eq!(rt; some(&rt, error), goes_on.then_some(1), "{number}");
        assert_eq!(rt; rest(&rt, error), goes_on.then_some(3), "{number}");
        assert_eq!(rt; all(&rt, error), goes_on.then_some(3), "{number}");
    }
}

// Without a number a read goes on by the kind, and a write doesn't.
#[test]
fn failures_without_a_number(rt: HostRuntime) {
    for (kind, goes_on) in [
        (ErrorKind::WouldBlock, true),
        (ErrorKind::Interrupted, true),
        (ErrorKind::TimedOut, false),
    ] {
        let error = io::Error::from(kind);
        assert_eq!(rt; some(&rt, error), goes_on.then_some(1));
        assert_eq!(rt; rest(&rt, error), goes_on.then_some(3));
        assert_eq!(rt; all(&rt, error), None);
    }
}

//! A writer that is interrupted, takes a few bytes at a time, and fails.

use crate::fixture::{same, same_bytes};
use std::alloc::Global;
use std::io::{self, ErrorKind, Write};
use std::process::Abort;
use std::test::Fail;
use turn_lines::status::Status;
use turn_lines::write::{WriteError, write_last, write_text};

/// A writer that takes five bytes at a time, each time after an interruption, and fails after some bytes, or when it is
/// flushed.
#[derive(Drop)]
struct Narrow {
    held: Vec<u8>,
    left: usize,
    interrupts: bool,
    flushes: bool,
}

impl Narrow {
    fn new(alloc: Global, left: usize, flushes: bool) -> Narrow {
        Narrow {
            held: Vec::new(alloc),
            left,
            interrupts: false,
            flushes,
        }
    }
}

impl Write for Narrow {
    fn write(&mut self, buf: &[u8]) -> io::Result<usize> {
        self.interrupts = !self.interrupts;
        if self.interrupts {
            return Err(io::Error::from(ErrorKind::Interrupted));
        }
        if self.left == 0 {
            return Err(io::Error::from(ErrorKind::Other));
        }
        let count = 5usize.min(self.left).min(buf.len());
        self.left -= count;
        self.held.extend_from_slice(&buf[..count])?;
        Ok(count)
    }

    fn flush(&mut self) -> io::Result<()> {
        if self.flushes {
            Ok(())
        } else {
            Err(io::Error::from(ErrorKind::Other))
        }
    }
}

#[test]
fn a_text_is_written_in_parts(rt: HostRuntime) -> Result<(), Fail> {
    let mut writer = Narrow::new(rt.alloc(), 100, true);
    same(&rt, write_text(&mut writer, "wait 50000000\n"), Ok(()));
    same_bytes(&rt, writer.held.as_slice(), b"wait 50000000\n");
    Ok(())
}

#[test]
fn a_writer_that_is_full_has_the_beginning(rt: HostRuntime) -> Result<(), Fail> {
    let mut writer = Narrow::new(rt.alloc(), 7, true);
    same(
        &rt,
        write_text(&mut writer, "wait 50000000\n"),
        Err(WriteError),
    );
    same_bytes(&rt, writer.held.as_slice(), b"wait 50");
    Ok(())
}

#[test]
fn a_flush_that_fails_alone_is_a_failed_write(rt: HostRuntime) -> Result<(), Fail> {
    let mut writer = Narrow::new(rt.alloc(), 100, false);
    let status = write_last(&mut writer, Status::Malformed, "line 1: bad head\n");
    same(&rt, status, Status::WriteFailed);
    same(&rt, status.code(), 4);
    same_bytes(&rt, writer.held.as_slice(), b"line 1: bad head\n");
    Ok(())
}

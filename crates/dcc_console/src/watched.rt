//! A reader and a writer that keep the reason for which they failed.

use std::alloc::Global;
use std::io::{self, ErrorKind, Read, Write};

/// A reader that keeps the text that was read, and the reason for which a read failed.
#[derive(Drop)]
pub struct WatchedInput<R> {
    pub input: R,
    pub failed: Option<io::Error>,
    pub text: Vec<u8>,
    /// Whether memory was refused for some of that text.
    pub is_cut: bool,
}

impl<R: Read> WatchedInput<R> {
    /// A reader of which nothing was read.
    pub fn new(alloc: Global, input: R) -> WatchedInput<R> {
        WatchedInput {
            input,
            failed: None,
            text: Vec::new(alloc),
            is_cut: false,
        }
    }
}

impl<R: Read> Read for WatchedInput<R> {
    ghost remaining = { λ watched. R.remaining watched.input };

    fn read(&mut self, buf: &mut [u8]) -> io::Result<usize> {
        match self.input.read(buf) {
            Ok(count) => {
                if self.text.extend_from_slice(&buf[..count]).is_err() {
                    self.is_cut = true;
                }
                Ok(count)
            }
            Err(error) => {
                if error.kind() != ErrorKind::Interrupted {
                    self.failed = Some(error);
                }
                Err(error)
            }
        }
    }
}

/// A writer that keeps the reason for which a write failed, and whether an account is unknown.
#[derive(Drop)]
pub struct WatchedOutput<W> {
    pub output: W,
    pub failed: Option<io::Error>,
    /// Whether the last octets that were written are the end of the line of an unknown account.
    pub is_unknown: bool,
}

impl<W: Write> WatchedOutput<W> {
    /// A writer to which nothing was written.
    pub fn new(output: W) -> WatchedOutput<W> {
        WatchedOutput {
            output,
            failed: None,
            is_unknown: false,
        }
    }
}

impl<W: Write> Write for WatchedOutput<W> {
    ghost contents = { λ watched. W.contents watched.output };

    fn write(&mut self, buf: &[u8]) -> io::Result<usize> {
        match self.output.write(buf) {
            Ok(count) => {
                self.is_unknown = buf.ends_with(b" unknown\n");
                Ok(count)
            }
            Err(error) => {
                if error.kind() != ErrorKind::Interrupted {
                    self.failed = Some(error);
                }
                Err(error)
            }
        }
    }

    fn flush(&mut self) -> io::Result<()> {
        match self.output.flush() {
            Ok(()) => Ok(()),
            Err(error) => {
                self.failed = Some(error);
                Err(error)
            }
        }
    }
}

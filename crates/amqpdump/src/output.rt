//! Standard output.

use std::alloc::Global;
use std::cell::{Cell, RefCell};
use std::io::{self, ErrorKind};

// The most bytes that are kept.
const MOST: usize = 8192;

/// Standard output, of which the last bytes are kept until there are many, or input is read.
#[derive(Drop)]
pub struct Output<'a, R> {
    to: &'a R,
    bytes: RefCell<Vec<u8>>,
    failed: Cell<bool>,
    closed: Cell<bool>,
}

impl<'a, R: Print> Output<'a, R> {
    /// Creates one that keeps nothing.
    pub fn new(alloc: Global, to: &'a R) -> Output<'a, R> {
        Output {
            to,
            bytes: RefCell::new(Vec::new(alloc)),
            failed: Cell::new(false),
            closed: Cell::new(false),
        }
    }

    /// Returns whether a write has failed.
    pub fn has_failed(&self) -> bool {
        self.failed.get()
    }

    /// Returns whether it was closed by what reads it.
    pub fn is_closed(&self) -> bool {
        self.closed.get()
    }

    /// Writes what is kept.
    pub fn flush(&self) -> io::Result<()> {
        let Ok(mut kept) = self.bytes.try_borrow_mut() else {
            return Ok(());
        };
        let result = Print::write_all(self.to, kept.as_slice());
        kept.clear();
        if let Err(error) = &result {
            self.failed.set(true);
            self.closed.set(error.kind() == ErrorKind::BrokenPipe);
        }
        result
    }

    // Keeps bytes. Returns whether there are many.
    fn keep(&self, bytes: &[u8]) -> io::Result<bool> {
        let Ok(mut kept) = self.bytes.try_borrow_mut() else {
            return Ok(false);
        };
        match kept.extend_from_slice(bytes) {
            Ok(()) => Ok(kept.len() >= MOST),
            Err(_) => Err(io::Error::from(ErrorKind::OutOfMemory)),
        }
    }
}

/// A writer to standard output.
#[derive(Drop)]
pub struct OutputWriter<'o, 'a, R>(pub &'o Output<'a, R>);

impl<R: Print> io::Write for OutputWriter<'_, '_, R> {
    fn write(&mut self, buf: &[u8]) -> io::Result<usize> {
        if self.0.keep(buf)? {
            self.0.flush()?;
        }
        Ok(buf.len())
    }

    fn flush(&mut self) -> io::Result<()> {
        self.0.flush()
    }
}

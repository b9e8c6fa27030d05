//! The input, and how far a run has come.

use crate::output::Output;
use std::io;
use std::time::{Clock, Duration, Instant};

/// A reader that has standard output written before it reads, and tells on standard error, once a
/// second, how much was read.
#[derive(Drop)]
pub struct Progress<'o, 'a, I, R> {
    inner: I,
    to: &'a R,
    output: &'o Output<'a, R>,
    // When it was told last, or the reader was created; `None` if nothing is told.
    last: Option<Instant>,
    // The number of bytes that were read.
    read: u64,
    // Whether something was told.
    is_told: bool,
}

impl<'o, 'a, I: io::Read, R: Print + Eprint + Clock> Progress<'o, 'a, I, R> {
    /// Creates a reader over `inner`. It tells nothing unless `is_on`.
    pub fn new(
        to: &'a R,
        output: &'o Output<'a, R>,
        inner: I,
        is_on: bool,
    ) -> Progress<'o, 'a, I, R> {
        let last = if is_on { Instant::now(to).ok() } else { None };
        Progress {
            inner,
            to,
            output,
            last,
            read: 0,
            is_told: false,
        }
    }

    // Tells how much was read, if a second has passed.
    fn tell(&mut self) {
        let Some(last) = self.last else {
            return;
        };
        let Ok(now) = Instant::now(self.to) else {
            return;
        };
        if now.duration_since(last) >= Duration::from_secs(1) {
            let read = self.read / 1_048_576;
            let _ = eprint!(self.to; "{read} MiB read\r");
            self.last = Some(now);
            self.is_told = true;
        }
    }

    // Removes what was told.
    fn clear(&mut self) {
        if self.is_told {
            let _ = eprint!(self.to; "                         \r");
            self.is_told = false;
        }
    }
}

impl<I: io::Read, R: Print + Eprint + Clock> io::Read for Progress<'_, '_, I, R> {
    fn read(&mut self, buf: &mut [u8]) -> io::Result<usize> {
        self.output.flush()?;
        let count = self.inner.read(buf)?;
        self.read = self.read.saturating_add(count as u64);
        if count == 0 {
            self.clear();
        } else {
            self.tell();
        }
        Ok(count)
    }
}

//! Readers over slices and over `std` readers.

ghost use Rattle.std.specs.Prelude.{◌≡◌, ◌≤◌, ◌<◌, ◌+◌, ◌⊎◌, None, Some, IfOk, OnOk, IfErr, OnErr};
ghost use Rattle.std.specs.Prelude.{IsErrOf, IsOkUnless, Ok, length, take};
ghost use Rattle.std.specs.Option.{option_to_list};
ghost use Rattle.std.specs.Io.KnownBytes.{Keeps, Consumes, IsAtEnd, prepend_known};
ghost use Rattle.amqp_frame.specs.Reader.{last_count, Takes, RunsOut, CountsOne, answers_io};

use crate::read::Read;
use amqp_data::Error;
use std::io;

/// A reader over the bytes of a slice. No call returns [`Error::Io`].
#[derive(Drop)]
pub struct SliceReader<'a> {
    rest: &'a [u8],
}

impl<'a> SliceReader<'a> {
    /// Creates a reader over `bytes`, starting at the first byte.
    ///
    /// # Memory
    ///
    /// Allocates nothing.
    pub fn new(bytes: &'a [u8]) -> SliceReader<'a>
        ensures left { ⟦<SliceReader<'a> as Read>⟧.left result ≡ Some bytes.now }
        ensures failures { ⟦<SliceReader<'a> as Read>⟧.failures result ≡ 0 }
    {
        SliceReader { rest: bytes }
    }
}

impl Read for SliceReader<'_> {
    ghost left = { λ r. Some r.rest.now };

    ghost failures = { λ _. 0 };

    fn peek(&mut self) -> Result<Option<u8>, Error> {
        Ok(self.rest.first().copied())
    }

    fn next(&mut self) -> Result<Option<u8>, Error> {
        let rest = self.rest;
        if rest.is_empty() {
            return Ok(None);
        }
        self.rest = &rest[1..];
        Ok(Some(rest[0]))
    }

    fn read_exact(&mut self, buf: &mut [u8]) -> Result<(), Error> {
        let rest = self.rest;
        let len = buf.len();
        if rest.len() < len {
            self.rest = &rest[rest.len()..];
            return Err(Error::UnexpectedEof);
        }
        buf.copy_from_slice(&rest[..len]);
        self.rest = &rest[len..];
        Ok(())
    }

    fn read_some(&mut self, buf: &mut [u8]) -> Result<usize, Error> {
        let rest = self.rest;
        let count = rest.len().min(buf.len());
        buf[..count].copy_from_slice(&rest[..count]);
        self.rest = &rest[count..];
        Ok(count)
    }
}

/// A reader over the bytes of a `std` reader.
///
/// Each failed read, including an interrupted one, counts as one failure and is not retried. A call
/// that does not return [`Error::Io`] counts none.
#[derive(Drop)]
pub struct IoReader<R> {
    inner: R,
    // The byte that was peeked and not consumed.
    seen: Option<u8>,
    failures: u64,
}

impl<R: io::Read> IoReader<R> {
    /// Creates a reader over `inner`, with a failure count of zero.
    ///
    /// # Memory
    ///
    /// Allocates nothing.
    pub fn new(inner: R) -> IoReader<R>
        ensures left { ⟦<IoReader<R> as Read>⟧.left result ≡ R.remaining inner }
        ensures failures { ⟦<IoReader<R> as Read>⟧.failures result ≡ 0 }
    {
        IoReader {
            inner,
            seen: None,
            failures: 0,
        }
    }
}

impl<R: io::Read> Read for IoReader<R> {
    ghost left = { λ r. prepend_known (option_to_list r.seen) (R.remaining r.inner) };

    ghost failures = { λ r. r.failures };

    ghost counts = { CountsOne };

    fn peek(&mut self) -> Result<Option<u8>, Error> {
        if self.failures == u64::MAX {
            return Err(Error::Io);
        }
        if self.seen.is_none() {
            self.seen = read_byte(&mut self.inner, &mut self.failures)?;
        }
        Ok(self.seen)
    }

    fn next(&mut self) -> Result<Option<u8>, Error> {
        if self.failures == u64::MAX {
            return Err(Error::Io);
        }
        let Some(byte) = self.seen else {
            return read_byte(&mut self.inner, &mut self.failures);
        };
        self.seen = None;
        Ok(Some(byte))
    }

    fn read_exact(&mut self, buf: &mut [u8]) -> Result<(), Error> {
        if self.failures == u64::MAX {
            return Err(Error::Io);
        }
        if buf.is_empty() {
            return Ok(());
        }
        let Some(byte) = self.seen else {
            return fill(&mut self.inner, buf, &mut self.failures);
        };
        self.seen = None;
        buf[0] = byte;
        fill(&mut self.inner, &mut buf[1..], &mut self.failures)
    }

    fn read_some(&mut self, buf: &mut [u8]) -> Result<usize, Error> {
        if self.failures == u64::MAX {
            return Err(Error::Io);
        }
        let Some(byte) = self.seen else {
            return read_some(&mut self.inner, buf, &mut self.failures);
        };
        self.seen = None;
        buf[0] = byte;
        Ok(1)
    }
}

// Reads once, and counts a failure.
fn read_some<R: io::Read>(inner: &mut R, buf: &mut [u8], failures: &mut u64) -> Result<usize, Error>
    requires { failures.old < last_count }
    ensures ok { IfOk result (λ n.
        Consumes (R.remaining inner.old) (R.remaining inner.new) (take n buf.new)) }
    ensures bound { IfOk result (λ n. n ≤ length buf.new) }
    ensures end { result ≡ Ok 0 → 0 < length buf.old → IsAtEnd (R.remaining inner.new) }
    ensures io { IsOkUnless result Error.Io }
    ensures kept { OnErr result (Keeps (R.remaining inner.old) (R.remaining inner.new)) }
    ensures same { OnOk result (failures.new ≡ failures.old) }
    ensures count { OnErr result (failures.new ≡ failures.old + 1) }
{
    match inner.read(buf) {
        Ok(count) => Ok(count),
        Err(_) => {
            *failures += 1;
            Err(Error::Io)
        }
    }
}

// Reads the next byte. Returns `None` at the end.
fn read_byte<R: io::Read>(inner: &mut R, failures: &mut u64) -> Result<Option<u8>, Error>
    requires { failures.old < last_count }
    ensures ok { IfOk result (λ byte.
        Consumes (R.remaining inner.old) (R.remaining inner.new) (option_to_list byte)) }
    ensures end { IfOk result (λ byte. byte ≡ None → IsAtEnd (R.remaining inner.new)) }
    ensures io { IsOkUnless result Error.Io }
    ensures kept { OnErr result (Keeps (R.remaining inner.old) (R.remaining inner.new)) }
    ensures same { OnOk result (failures.new ≡ failures.old) }
    ensures count { OnErr result (failures.new ≡ failures.old + 1) }
{
    let mut byte = [0];
    if read_some(inner, &mut byte, failures)? == 0 {
        Ok(None)
    } else {
        Ok(Some(byte[0]))
    }
}

// Reads until the buffer is full.
fn fill<R: io::Read>(inner: &mut R, buf: &mut [u8], failures: &mut u64) -> Result<(), Error>
    requires { failures.old < last_count }
    ensures ok { OnOk result (Consumes (R.remaining inner.old) (R.remaining inner.new) buf.new) }
    ensures end { IsErrOf result Error.UnexpectedEof →
        RunsOut (R.remaining inner.old) (R.remaining inner.new) (length buf.old) }
    ensures io { IsErrOf result Error.Io →
        Takes (R.remaining inner.old) (R.remaining inner.new) × (failures.old < failures.new) }
    ensures others { IfErr result (λ e. (e ≡ Error.UnexpectedEof) ⊎ (e ≡ Error.Io)) }
    ensures counts { CountsOne (answers_io result) failures.old failures.new }
    ensures count { failures.old ≤ failures.new }
{
    let mut at = 0;
    while at < buf.len() {
        let count = read_some(inner, &mut buf[at..], failures)?;
        if count == 0 {
            return Err(Error::UnexpectedEof);
        }
        at += count;
    }
    Ok(())
}

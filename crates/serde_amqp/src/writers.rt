//! Writers into memory and into a `std::io::Write`.

ghost use Rattle.std.specs.Prelude.{◌≡◌, ◌<◌, ◌+◌, [], Some, OnOk, OnErr, IsOkUnless};
ghost use Rattle.std.specs.Io.KnownBytes.{Appends};
ghost use Rattle.amqp_frame.specs.Reader.{last_count, CountsOne, answers_io};
ghost use Rattle.serde_amqp.specs.Writer.{TakesPrefix};

use crate::write::Write;
use amqp_data::Error;
use std::alloc::Global;
use std::io;

/// Writer that stores the bytes in memory; no call returns [`Error::Io`].
#[derive(Drop)]
pub struct VecWriter {
    bytes: Vec<u8>,
}

impl VecWriter {
    /// Creates a writer to which no bytes have been written.
    ///
    /// # Memory
    ///
    /// Allocates nothing yet; the bytes written later are allocated from `alloc`.
    pub fn new(alloc: Global) -> VecWriter
        ensures written { ⟦<VecWriter as Write>⟧.written result ≡ Some [] }
        ensures failures { ⟦<VecWriter as Write>⟧.failures result ≡ 0 }
    {
        VecWriter {
            bytes: Vec::new(alloc),
        }
    }

    /// Returns the bytes written so far.
    ///
    /// # Memory
    ///
    /// Allocates nothing.
    pub fn as_slice(&self) -> &[u8]
        ensures bytes { ⟦<VecWriter as Write>⟧.written self.now ≡ Some result.now }
    {
        self.bytes.as_slice()
    }

    /// Consumes the writer and returns the bytes written.
    ///
    /// # Memory
    ///
    /// Allocates nothing.
    pub fn into_inner(self) -> Vec<u8>
        ensures bytes { ⟦<VecWriter as Write>⟧.written self ≡ Some result.items }
    {
        let VecWriter { bytes } = self;
        bytes
    }
}

impl Write for VecWriter {
    ghost written = { λ w. Some w.bytes.items };

    ghost failures = { λ _. 0 };

    fn put(&mut self, bytes: &[u8]) -> Result<(), Error> {
        self.bytes.extend_from_slice(bytes)?;
        Ok(())
    }

    fn flush(&mut self) -> Result<(), Error> {
        Ok(())
    }
}

/// Writer that passes the bytes to a `std::io::Write`.
///
/// A call that fails adds one to the failure count, up to `u64::MAX`; a call that succeeds leaves
/// it unchanged. A write that accepts no bytes counts as a failure. No failed write is retried.
#[derive(Drop)]
pub struct IoWriter<W> {
    inner: W,
    failures: u64,
}

impl<W: io::Write> IoWriter<W> {
    /// Creates a writer to `inner`, with a failure count of 0.
    ///
    /// # Memory
    ///
    /// Allocates nothing.
    pub fn new(inner: W) -> IoWriter<W>
        ensures written { ⟦<IoWriter<W> as Write>⟧.written result ≡ W.contents inner }
        ensures failures { ⟦<IoWriter<W> as Write>⟧.failures result ≡ 0 }
    {
        IoWriter { inner, failures: 0 }
    }
}

impl<W: io::Write> Write for IoWriter<W> {
    ghost written = { λ w. W.contents w.inner };

    ghost failures = { λ w. w.failures };

    ghost counts = { CountsOne };

    fn put(&mut self, bytes: &[u8]) -> Result<(), Error> {
        if self.failures == u64::MAX {
            return Err(Error::Io);
        }
        put_all(&mut self.inner, bytes, &mut self.failures)
    }

    fn flush(&mut self) -> Result<(), Error> {
        if self.failures == u64::MAX {
            return Err(Error::Io);
        }
        match self.inner.flush() {
            Ok(()) => Ok(()),
            Err(_) => {
                self.failures += 1;
                Err(Error::Io)
            }
        }
    }
}

// Writes until `inner` has accepted all bytes.
fn put_all<W: io::Write>(inner: &mut W, bytes: &[u8], failures: &mut u64) -> Result<(), Error>
    requires { failures.old < last_count }
    ensures ok { OnOk result (Appends (W.contents inner.old) (W.contents inner.new) bytes.now) }
    ensures prefix { OnErr result
        (TakesPrefix (W.contents inner.old) (W.contents inner.new) bytes.now) }
    ensures io { IsOkUnless result Error.Io }
    ensures counts { CountsOne (answers_io result) failures.old failures.new }
    ensures count { OnErr result (failures.new ≡ failures.old + 1) }
{
    let mut at = 0;
    while at < bytes.len() {
        match inner.write(&bytes[at..]) {
            Ok(count) if count > 0 => at += count,
            _ => {
                *failures += 1;
                return Err(Error::Io);
            }
        }
    }
    Ok(())
}

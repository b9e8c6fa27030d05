//! A reader that keeps the bytes of the item that is being read.

ghost use Rattle.std.specs.Prelude.{◌≡◌, ◌≤◌, ℕ, List, [], Option, length, drop};
ghost use Rattle.std.specs.List.{between};
ghost use Rattle.std.specs.Io.KnownBytes.{Keeps, prepend_known};
ghost use Rattle.amqp_dump.specs.Kept.{ReadsMore, Stays};

use crate::fault::{Fault, input_fault};
use amqp_frame::Read;
use std::alloc::Global;

// The most bytes that are read at once.
const BLOCK: usize = 4096;

/// A source of bytes that keeps those of the item that is being read.
///
/// # Implementer notes
///
/// `left` is the bytes that were not taken, if the source knows them, and `held` the bytes that
/// were taken since the last call of `begin`. Only `begin` drops bytes: every other call moves
/// bytes from `left` to the end of `held`.
pub trait Taking {
    /// The bytes that were not taken, if the source knows them.
    ghost left: { Self → Option (List ℕ) };

    /// The bytes of the item.
    ghost held: { Self → List ℕ };

    /// Begins a new item.
    fn begin(&mut self)
        ensures held { held self.new ≡ [] }
        ensures kept { Keeps (left self.old) (left self.new) };

    /// Returns the bytes of the item.
    fn item_bytes(&self) -> &[u8]
        ensures bytes { result.now ≡ held self.now };

    /// Returns the offset of the next byte. It stops at `u64::MAX`.
    fn at(&self) -> u64;

    /// Returns the next byte without taking it, or `None` at the end of the input.
    ///
    /// # Errors
    ///
    /// Returns [`Fault::Input`] if a read fails.
    fn peek(&mut self) -> Result<Option<u8>, Fault>
        ensures kept { Stays (held self.old) (left self.old) (held self.new) (left self.new) };

    /// Takes at least one byte and at most `most`, and returns how many, or 0 at the end of the
    /// input.
    ///
    /// # Errors
    ///
    /// Returns [`Fault::Input`] if a read fails, and [`Fault::OutOfMemory`] if an allocation fails.
    fn take_some(&mut self, most: usize) -> Result<usize, Fault>
        ensures kept { Stays (held self.old) (left self.old) (held self.new) (left self.new) };
}

/// A reader, the bytes that were taken from it since the last call of `begin`, and the offset of
/// the next byte.
///
/// # Memory
///
/// The bytes of the item, and up to 4096 bytes that were read and not taken.
#[derive(Drop)]
pub struct Source<R> {
    reader: R,
    // Bytes that were read: the item's are from `from` to `to`, and those after were not taken.
    bytes: Vec<u8>,
    from: usize,
    to: usize,
    at: u64,
    ghost in_order: { from ≤ to },
    ghost in_bytes: { to ≤ length bytes.items },
}

impl<R: Read> Source<R> {
    /// Creates a source over `reader`, from which nothing was taken.
    pub fn new(alloc: Global, reader: R) -> Source<R>
        ensures left { ⟦<Source<R> as Taking>⟧.left result ≡ R.left reader }
    {
        Source {
            reader,
            bytes: Vec::new(alloc),
            from: 0,
            to: 0,
            at: 0,
        }
    }

    // Reads more bytes if none is left, unless the input ends.
    fn read_ahead(&mut self) -> Result<(), Fault>
        ensures kept { Stays
            (between self.old.from self.old.to self.old.bytes.items)
            (prepend_known (drop self.old.to self.old.bytes.items) (R.left self.old.reader))
            (between self.new.from self.new.to self.new.bytes.items)
            (prepend_known (drop self.new.to self.new.bytes.items) (R.left self.new.reader)) }
    {
        if self.to < self.bytes.len() {
            Ok(())
        } else {
            self.read_block()
        }
    }

    // Reads more bytes, unless the input ends, and forgets those before the item.
    fn read_block(&mut self) -> Result<(), Fault>
        ensures kept { Stays
            (between self.old.from self.old.to self.old.bytes.items)
            (prepend_known (drop self.old.to self.old.bytes.items) (R.left self.old.reader))
            (between self.new.from self.new.to self.new.bytes.items)
            (prepend_known (drop self.new.to self.new.bytes.items) (R.left self.new.reader)) }
    {
        forget(&mut self.bytes, self.from);
        self.to -= self.from;
        self.from = 0;
        read_more(&mut self.reader, &mut self.bytes)
    }
}

impl<R: Read> Taking for Source<R> {
    ghost left = { λ s. prepend_known (drop s.to s.bytes.items) (R.left s.reader) };

    ghost held = { λ s. between s.from s.to s.bytes.items };

    fn begin(&mut self) {
        self.from = self.to;
    }

    fn item_bytes(&self) -> &[u8] {
        &self.bytes[self.from..self.to]
    }

    fn at(&self) -> u64 {
        self.at
    }

    fn peek(&mut self) -> Result<Option<u8>, Fault> {
        self.read_ahead()?;
        Ok(self.bytes.get(self.to).copied())
    }

    fn take_some(&mut self, most: usize) -> Result<usize, Fault> {
        self.read_ahead()?;
        let got = most.min(self.bytes.len() - self.to);
        self.to += got;
        self.at = self.at.saturating_add(got as u64);
        Ok(got)
    }
}

// Removes the first `count` bytes.
fn forget(bytes: &mut Vec<u8>, count: usize)
    requires { count ≤ length bytes.old.items }
    ensures { bytes.new.items ≡ drop count bytes.old.items }
{
    if count == 0 {
        return;
    }
    let left = bytes.len() - count;
    bytes.copy_within(count.., 0);
    bytes.truncate(left);
}

// Reads at least one byte, unless the input ends, and appends what was read. Memory is reserved
// first, so that no byte is lost.
fn read_more<R: Read>(reader: &mut R, bytes: &mut Vec<u8>) -> Result<(), Fault>
    ensures read { ReadsMore bytes.old.items (R.left reader.old) bytes.new.items
        (R.left reader.new) }
{
    bytes.reserve(BLOCK)?;
    let mut block = [0; BLOCK];
    let got = match reader.read_some(&mut block) {
        Ok(got) => got,
        Err(error) => return Err(input_fault(error)),
    };
    match bytes.extend_from_slice(&block[..got]) {
        Ok(()) => Ok(()),
        Err(_) => unreachable!(),
    }
}

/// Takes the next byte.
///
/// # Errors
///
/// Returns [`Fault::EndOfInput`] at the end of the input, and the faults of `take_some`.
pub fn take_byte<S: Taking>(source: &mut S) -> Result<u8, Fault>
    ensures kept { Stays (S.held source.old) (S.left source.old) (S.held source.new)
        (S.left source.new) }
{
    if source.take_some(1)? == 0 {
        return Err(Fault::EndOfInput(1));
    }
    match source.item_bytes().last() {
        Some(byte) => Ok(*byte),
        None => Err(Fault::EndOfInput(1)),
    }
}

/// Takes exactly `count` bytes. If fewer are left, all of them are taken.
///
/// # Errors
///
/// Returns [`Fault::EndOfInput`] at the end of the input, and the faults of `take_some`.
pub fn take_bytes<S: Taking>(source: &mut S, count: usize) -> Result<(), Fault>
    ensures kept { Stays (S.held source.old) (S.left source.old) (S.held source.new)
        (S.left source.new) }
{
    let mut left = count;
    while left > 0 {
        let got = source.take_some(left)?;
        if got == 0 {
            return Err(Fault::EndOfInput(left as u64));
        }
        left = left.saturating_sub(got);
    }
    Ok(())
}

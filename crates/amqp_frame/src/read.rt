//! The trait of readers.

ghost use Rattle.std.specs.Prelude.{◌≡◌, ◌≤◌, ◌<◌, ◌⊎◌, ℕ, Bool, List, Option, None, Ok, IfOk};
ghost use Rattle.std.specs.Prelude.{OnOk, IfErr, OnErr, IfSome, IsErrOf, length, take, slice_get};
ghost use Rattle.std.specs.Option.{option_to_list};
ghost use Rattle.std.specs.Io.KnownBytes.{Keeps, Consumes, IsAtEnd};
ghost use Rattle.amqp_frame.specs.Reader.{last_count, Failed, Takes, RunsOut, answers_io};

use amqp_data::Error;

/// A source of bytes that counts its failures.
///
/// # Implementer notes
///
/// `left` is the bytes that remain, if the reader knows them. `failures` is a `u64` that no call
/// decreases. Required methods are `peek`, `next` and `read_exact`. A call returns [`Error::Io`]
/// only if it increases `failures` or `failures` is at its maximum. At the maximum, every call
/// returns [`Error::Io`]. A reader whose `failures` is always 0 therefore never returns
/// [`Error::Io`].
pub trait Read {
    /// The bytes that remain, if the reader knows them.
    ghost left: { Self → Option (List ℕ) };

    /// The number of failures.
    ghost failures: { Self → ℕ };

    /// The effect of a call on `failures`, if the implementation states more than the clauses of
    /// the trait: a relation between whether the call returns [`Error::Io`], the count before and
    /// the count after.
    ghost counts: { Bool → ℕ → ℕ → Type 0 } = { λ _ _ _. Unit {0} };

    /// Returns the next byte without consuming it, or `None` at the end.
    ///
    /// # Errors
    ///
    /// Returns [`Error::Io`] if a read fails. No byte is lost.
    ///
    /// # Memory
    ///
    /// Allocates nothing.
    ///
    /// # Example
    ///
    /// With `5001` remaining, returns 50, and 50 again.
    fn peek(&mut self) -> Result<Option<u8>, Error>
        ensures ok { IfOk result (λ byte. IfSome (left self.old) (λ s. byte ≡ slice_get s 0)) }
        ensures io { IfErr result (λ e.
            (e ≡ Error.Io) × Failed (failures self.old) (failures self.new)) }
        ensures last { failures self.old ≡ last_count → IsErrOf result Error.Io }
        ensures kept { Keeps (left self.old) (left self.new) }
        ensures counts { counts (answers_io result) (failures self.old) (failures self.new) }
        ensures count { failures self.old ≤ failures self.new };

    /// Consumes and returns the next byte, or returns `None` at the end.
    ///
    /// # Errors
    ///
    /// Returns [`Error::Io`] if a read fails. No byte is lost.
    ///
    /// # Memory
    ///
    /// Allocates nothing.
    ///
    /// # Example
    ///
    /// With `5001` remaining, returns 50, then 01, then `None`.
    fn next(&mut self) -> Result<Option<u8>, Error>
        ensures ok { IfOk result (λ byte.
            Consumes (left self.old) (left self.new) (option_to_list byte)) }
        ensures end { IfOk result (λ byte. byte ≡ None → IsAtEnd (left self.new)) }
        ensures io { IfErr result (λ e.
            (e ≡ Error.Io) × Failed (failures self.old) (failures self.new)) }
        ensures last { failures self.old ≡ last_count → IsErrOf result Error.Io }
        ensures kept { OnErr result (Keeps (left self.old) (left self.new)) }
        ensures counts { counts (answers_io result) (failures self.old) (failures self.new) }
        ensures count { failures self.old ≤ failures self.new };

    /// Reads the exact number of bytes required to fill `buf`.
    ///
    /// # Errors
    ///
    /// Returns [`Error::UnexpectedEof`] if fewer bytes remain. All of them are then consumed.
    /// Returns [`Error::Io`] if a read fails. The bytes read before the failure are then consumed.
    ///
    /// # Memory
    ///
    /// Allocates nothing.
    ///
    /// # Example
    ///
    /// With `5001` remaining, a buffer of two bytes receives 50 and 01. A buffer of three bytes
    /// gives [`Error::UnexpectedEof`], and no bytes remain.
    fn read_exact(&mut self, buf: &mut [u8]) -> Result<(), Error>
        ensures ok { OnOk result (Consumes (left self.old) (left self.new) buf.new) }
        ensures end { IsErrOf result Error.UnexpectedEof →
            RunsOut (left self.old) (left self.new) (length buf.old) }
        ensures io { IsErrOf result Error.Io →
            Takes (left self.old) (left self.new)
            × Failed (failures self.old) (failures self.new) }
        ensures others { IfErr result (λ e. (e ≡ Error.UnexpectedEof) ⊎ (e ≡ Error.Io)) }
        ensures last { failures self.old ≡ last_count → IsErrOf result Error.Io }
        ensures counts { counts (answers_io result) (failures self.old) (failures self.new) }
        ensures count { failures self.old ≤ failures self.new };

    /// Reads at least one byte into the start of `buf` and returns how many, or 0 at the end.
    ///
    /// Unless the implementation provides its own, reads one byte with `next`.
    ///
    /// # Errors
    ///
    /// Returns [`Error::Io`] if a read fails. No byte is lost.
    ///
    /// # Memory
    ///
    /// Allocates nothing.
    ///
    /// # Example
    ///
    /// With `5001` remaining, a buffer of three bytes receives 50, or 50 and 01.
    fn read_some(&mut self, buf: &mut [u8]) -> Result<usize, Error>
        requires { 0 < length buf.old }
        ensures ok { IfOk result (λ count.
            Consumes (left self.old) (left self.new) (take count buf.new)) }
        ensures bound { IfOk result (λ count. count ≤ length buf.new) }
        ensures end { result ≡ Ok 0 → IsAtEnd (left self.new) }
        ensures io { IfErr result (λ e.
            (e ≡ Error.Io) × Failed (failures self.old) (failures self.new)) }
        ensures last { failures self.old ≡ last_count → IsErrOf result Error.Io }
        ensures kept { OnErr result (Keeps (left self.old) (left self.new)) }
        ensures counts { counts (answers_io result) (failures self.old) (failures self.new) }
        ensures count { failures self.old ≤ failures self.new }
    {
        let Some(byte) = self.next()? else {
            return Ok(0);
        };
        buf[0] = byte;
        Ok(1)
    }
}

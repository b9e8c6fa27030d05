//! Destinations of bytes.

ghost use Rattle.std.specs.Prelude.{◌≡◌, ◌≤◌, ◌⊎◌, ℕ, Bool, List, Option, OnOk, OnErr, IfErr};
ghost use Rattle.std.specs.Prelude.{IsErrOf, IsOkUnless};
ghost use Rattle.std.specs.Io.KnownBytes.{Keeps, Appends};
ghost use Rattle.amqp_frame.specs.Reader.{last_count, Failed, answers_io};
ghost use Rattle.serde_amqp.specs.Writer.{TakesPrefix};

use amqp_data::Error;

/// Destination of bytes, which counts its failures.
///
/// # Implementer notes
///
/// `put` and `flush` are required. `written` is the bytes written so far, if the writer knows them;
/// `failures` is a `u64` that no call decreases. A call returns [`Error::Io`] only if it increases
/// `failures` or `failures` is at its maximum. At the maximum, every call returns [`Error::Io`]. A
/// writer whose `failures` is always 0 therefore never returns [`Error::Io`].
pub trait Write {
    /// The bytes written so far, if the writer knows them.
    ghost written: { Self → Option (List ℕ) };

    /// Number of failures so far.
    ghost failures: { Self → ℕ };

    /// The effect of a call on `failures`, if the implementation states more than the clauses of
    /// the trait: a relation between whether the call returns [`Error::Io`], the count before and
    /// the count after.
    ghost counts: { Bool → ℕ → ℕ → Type 0 } = { λ _ _ _. Unit {0} };

    /// That no written byte is still buffered. The default states nothing.
    ghost flushed: { Self → Type 0 } = { λ _. Unit {0} };

    /// Writes all of `bytes`.
    ///
    /// # Errors
    ///
    /// Returns [`Error::OutOfMemory`] if the writer stores the bytes and an allocation fails, and
    /// [`Error::Io`] if a write fails; a prefix of the bytes was written.
    ///
    /// # Memory
    ///
    /// Only what the writer itself allocates.
    fn put(&mut self, bytes: &[u8]) -> Result<(), Error>
        ensures ok { OnOk result (Appends (written self.old) (written self.new) bytes.now) }
        ensures prefix { OnErr result
            (TakesPrefix (written self.old) (written self.new) bytes.now) }
        ensures io { IsErrOf result Error.Io → Failed (failures self.old) (failures self.new) }
        ensures others { IfErr result (λ e. (e ≡ Error.OutOfMemory) ⊎ (e ≡ Error.Io)) }
        ensures last { failures self.old ≡ last_count → IsErrOf result Error.Io }
        ensures counts { counts (answers_io result) (failures self.old) (failures self.new) }
        ensures count { failures self.old ≤ failures self.new };

    /// Flushes the bytes written so far.
    ///
    /// # Errors
    ///
    /// Returns [`Error::Io`] if the flush fails.
    ///
    /// # Memory
    ///
    /// Allocates nothing.
    fn flush(&mut self) -> Result<(), Error>
        ensures ok { OnOk result (flushed self.new) }
        ensures io { IfErr result (λ e.
            (e ≡ Error.Io) × Failed (failures self.old) (failures self.new)) }
        ensures last { failures self.old ≡ last_count → IsErrOf result Error.Io }
        ensures kept { Keeps (written self.old) (written self.new) }
        ensures counts { counts (answers_io result) (failures self.old) (failures self.new) }
        ensures count { failures self.old ≤ failures self.new };
}

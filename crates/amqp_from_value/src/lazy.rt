//! Reading a type from a lazy value.

ghost use Rattle.std.specs.Prelude.{◌≡◌, IfErr, MatchResult};
ghost use Rattle.amqp_data.specs.declared.error.Error.TheVariants.{OutOfMemory};
ghost use Rattle.amqp_ser.specs.Tree.{Tree};
ghost use Rattle.amqp_decode.specs.Faults.{DecodeFails};
ghost use Rattle.amqp_decode.specs.Encodes.{Encodes};
ghost use Rattle.amqp_de.specs.Answers.{Answers};
ghost use Rattle.amqp_de.specs.FromBytes.{IsOfReading};
ghost use Rattle.amqp_de.specs.FromBytes.{ReadsEncoded};

use amqp_data::Error;
use amqp_de::{Deserialize, from_slice};
use amqp_frame::LazyValue;
use std::alloc::Global;

/// Reading a type from a lazy value, as a method.
pub trait ReadLazy {
    /// Reads a `T` from the encoded value, which is unchanged.
    ///
    /// # Errors
    /// Returns the errors of `from_slice` for the bytes of the lazy value.
    ///
    /// # Memory
    /// Allocates from `alloc` as `from_slice` does.
    ///
    /// # Example
    /// The lazy value `5205` is read as the `u32` 5.
    fn read<T: Deserialize>(&self, alloc: Global) -> Result<T, Error>;
}

impl ReadLazy for LazyValue {
    fn read<T: Deserialize>(&self, alloc: Global) -> Result<T, Error>
        ensures read { Answers (λ e. e ≡ OutOfMemory) (ReadsEncoded T.reads self.now) result }
        ensures law { (x : T) → T.restorable x → Encodes 256 self.now (T.image x) →
            MatchResult result (λ y. T.same y x) (λ e. e ≡ OutOfMemory) }
        ensures fault { ((t : Tree) → ¬ Encodes 256 self.now t) →
            IfErr result (DecodeFails 256 self.now) }
        ensures kind { IfErr result (λ e. (t : Tree) → Encodes 256 self.now t → IsOfReading e) }
    {
        from_slice(alloc, self.as_slice())
    }
}

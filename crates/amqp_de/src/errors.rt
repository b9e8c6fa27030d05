//! Errors of reading as errors without a place, and the way back.

ghost use Rattle.std.specs.Prelude.{◌≡◌};
ghost use Rattle.amqp_data.specs.declared.error.Error.TheVariants as error;
ghost use Rattle.amqp_de.specs.Results.{IsMemory, kind_of};
ghost use Rattle.amqp_de.specs.FromBytes.{IsOfReading, error_of, kind_for};
ghost use Rattle.amqp_de.specs.declared.fault.FaultKind.TheVariants.{OutOfMemory};

use crate::fault::{Fault, FaultKind};
use amqp_data::Error;

impl Fault {
    /// Returns the error without its place.
    pub fn into_error(self) -> Error
        ensures error { result ≡ error_of (kind_of self) }
        ensures memory { IsMemory self → result ≡ error.OutOfMemory }
        ensures kind { IsOfReading result }
    {
        self.kind().error()
    }
}

impl FaultKind {
    /// Returns the error of this kind.
    pub(crate) fn error(&self) -> Error
        ensures error { result ≡ error_of self.now }
        ensures memory { self.now ≡ OutOfMemory → result ≡ error.OutOfMemory }
        ensures kind { IsOfReading result }
    {
        match self {
            FaultKind::OutOfMemory => Error::OutOfMemory,
            FaultKind::Invalid => Error::InvalidValue,
            FaultKind::TooLong => Error::TooLong,
            FaultKind::GaveUp => Error::InvalidValue,
            FaultKind::Message(words) => Error::Message(words),
        }
    }
}

impl From<Fault> for Error {
    ghost from_gives = { λ fault error. error ≡ error_of (kind_of fault) };

    fn from(fault: Fault) -> Error {
        fault.into_error()
    }
}

/// The error has no place. One that reading does not return becomes an invalid value.
impl From<Error> for Fault {
    ghost from_gives = { λ error fault. kind_of fault ≡ kind_for error };

    fn from(error: Error) -> Fault {
        match error {
            Error::OutOfMemory => Fault::new(FaultKind::OutOfMemory),
            Error::TooLong => Fault::new(FaultKind::TooLong),
            Error::Message(words) => Fault::new(FaultKind::Message(words)),
            Error::InvalidValue | Error::InvalidFormatCode | Error::UnexpectedEof | Error::Io =>
                Fault::new(FaultKind::Invalid),
        }
    }
}

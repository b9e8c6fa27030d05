//! The positions at which a value is measured at once.

ghost use Rattle.std.specs.Prelude.{◌≡◌, true};

use crate::context::Context;
use crate::position::Position;
use crate::serializer::SizeSerializer;

impl SizeSerializer {
    ghost use Rattle.amqp_size.specs.SizeSerializer.{TakesWhole};

    /// Returns whether a value is measured at once here: it has its ordinary form, and it is no
    /// part of a value that was not measured at once.
    #[inline(always)]
    pub(crate) fn takes_whole(&self) -> bool
        ensures { result ≡ true → TakesWhole self.now.context }
    {
        match self.context {
            Context::Unmarked(Position::Root) => true,
            Context::Unmarked(Position::InCompound) => self.tries_parts,
            _ => false,
        }
    }

    /// Notes whether a value was measured at once: if not, its parts are measured one by one.
    #[inline(always)]
    pub(crate) fn tried_whole(&mut self, measured: bool)
        ensures { self.new.context ≡ self.old.context }
    {
        self.tries_parts = measured;
    }
}

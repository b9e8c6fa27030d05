//! Strings.

ghost use Rattle.std.specs.Prelude.{Some, string_bytes};
ghost use Rattle.amqp_ser.specs.Tree.{scalar, string};

use crate::serialize::Serialize;
use crate::serializer::Serializer;

impl Serialize for &str {
    ghost tree = { λ s. Some (scalar (string s.now)) };

    #[inline(always)]
    fn serialize<S: Serializer>(&self, serializer: &mut S) -> Result<S::Ok, S::Error> {
        serializer.serialize_str(*self)
    }
}

impl Serialize for String {
    ghost tree = { λ s. Some (scalar (string (string_bytes s))) };

    #[inline(always)]
    fn serialize<S: Serializer>(&self, serializer: &mut S) -> Result<S::Ok, S::Error> {
        serializer.serialize_str(self.as_str())
    }
}

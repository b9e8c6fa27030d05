//! An encoded value, which is written unchanged.

ghost use Rattle.std.specs.Prelude.{Some};
ghost use Rattle.amqp_ser.specs.Tree.{lazy};

use crate::marker::Marker;
use crate::serialize::Serialize;
use crate::serializer::Serializer;
use amqp_frame::LazyValue;

impl Serialize for LazyValue {
    ghost tree = { λ v. Some (lazy v) };

    #[tactic(auto, using(amqp_frame::proofs::Whole::encoded_value_passes))]
    #[inline(always)]
    fn serialize<S: Serializer>(&self, serializer: &mut S) -> Result<S::Ok, S::Error> {
        serializer.set_marker(Marker::Lazy);
        serializer.serialize_bytes(self.as_slice())
    }
}

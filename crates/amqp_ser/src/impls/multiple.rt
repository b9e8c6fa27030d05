//! Fields that allow several values.

ghost use Rattle.amqp_ser.specs.Multiple.{of_multiple};

use crate::serialize::Serialize;
use crate::serializer::Serializer;
use amqp_data::Multiple;

impl<T: Serialize> Serialize for Multiple<T> {
    ghost tree = { of_multiple T.tree };

    fn serialize<S: Serializer>(&self, serializer: &mut S) -> Result<S::Ok, S::Error> {
        match self {
            Multiple::One(value) => value.serialize(serializer),
            Multiple::Many(values) => {
                if values.as_inner().as_slice().is_empty() {
                    return ().serialize(serializer);
                }
                values.serialize(serializer)
            }
        }
    }
}

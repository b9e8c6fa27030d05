//! tools/derive wrote this file from gust.rt: it is not edited by hand.

ghost use Rattle.std.specs.Prelude.{◌≡◌, None};
ghost use Rattle.serde_amqp.specs.Derive.{◌▸◌, by_parts, tree_by_parts};

use super::Gust;
use serde_amqp::derive::{
    AfterCode, Fault, Global, ListOf, Of, One, Readable, Record, RoundTripReadable, Serialize,
    SerializeCompounds, Serializer, Shape, ShapeTree, Source, built, fields, named, parts_return,
    read_shaped,
};

type GustShape = AfterCode<ListOf<One<Of<u32>, One<Option<u16>, One<Option<u16>, ()>>>>, 0x17>;

impl Record for Gust {
    type Values = <GustShape as Shape>::Value;

    ghost parts = { λ x. x.speed ▸ x.from ▸ x.at ▸ tt };

    fn from_parts(values: <GustShape as Shape>::Value) -> Gust {
        built! { values => Gust { speed, from, at } }
    }
}

impl Readable for Gust {
    ghost laws = { by_parts ⟦<GustShape as Shape>⟧.laws ⟦<Gust as Record>⟧.parts };

    #[inline(always)]
    fn read_value<S: Source>(alloc: Global, source: S) -> Result<(Gust, S::Rest), Fault> {
        let fields = named! { "speed", "from"?, "at"? };
        read_shaped(alloc, source, AfterCode::<_, 0x17>(ListOf(fields)))
    }
}

impl Serialize for Gust {
    ghost tree = { tree_by_parts ⟦<GustShape as ShapeTree>⟧.tree ⟦<Gust as Record>⟧.parts };

    fn serialize<S: Serializer>(&self, serializer: &mut S) -> Result<S::Ok, S::Error> {
        serializer.serialize_described(
            &0x17u64,
            &ListOf(fields! { "speed": &self.speed, "from"?: &self.from, "at"?: &self.at }),
        )
    }
}

impl RoundTripReadable for Gust {
    fn readable_law() {
        parts_return::<Gust, GustShape>();
    }
}

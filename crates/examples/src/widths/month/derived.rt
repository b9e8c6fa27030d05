//! tools/derive wrote this file from month.rt: it is not edited by hand.

ghost use Rattle.std.specs.Prelude.{◌≡◌, None};
ghost use Rattle.serde_amqp.specs.Derive.{value_or, ◌▸◌, by_parts, tree_by_parts};

use super::Month;
use serde_amqp::derive::{
    AfterCode, Fault, Four, Global, ListOf, Of, Readable, Record, RoundTripReadable, Serialize,
    SerializeCompounds, Serializer, Shape, ShapeTree, Source, built, fields, named, parts_return,
    read_shaped,
};

type MonthShape = AfterCode<ListOf<Four<Of<String>, Of<u32>, Of<u32>, Of<u32>, Row>>, 0x33>;

type Row = Four<Of<u32>, Of<u32>, Of<u32>, Of<u32>, Row2>;

type Row2 = Four<Of<u32>, Of<u32>, Of<u32>, Of<u32>, Row3>;

type Row3 = Four<Of<u32>, Of<u32>, Of<u32>, Of<u32>, Row4>;

type Row4 = Four<Of<u32>, Of<u32>, Of<u32>, Of<u32>, Row5>;

type Row5 = Four<Of<u32>, Of<u32>, Of<u32>, Of<u32>, Row6>;

type Row6 = Four<Of<u32>, Of<u32>, Of<u32>, Of<u32>, Row7>;

type Row7 = Four<Of<u32>, Option<u32>, Option<u32>, Option<u32>, ()>;

impl Record for Month {
    type Values = <MonthShape as Shape>::Value;

    ghost parts = { λ x. x.station ▸ x.d1 ▸ x.d2 ▸ x.d3 ▸ x.d4 ▸ x.d5 ▸ x.d6 ▸ x.d7 ▸ x.d8 ▸ x.d9 ▸
        x.d10 ▸ x.d11 ▸ x.d12 ▸ x.d13 ▸ x.d14 ▸ x.d15 ▸ x.d16 ▸ x.d17 ▸ x.d18 ▸ x.d19 ▸ x.d20 ▸
        x.d21 ▸ x.d22 ▸ x.d23 ▸ x.d24 ▸ x.d25 ▸ x.d26 ▸ x.d27 ▸ x.d28 ▸ x.d29 ▸ x.d30 ▸ x.d31 ▸
        tt };

    fn from_parts(values: <MonthShape as Shape>::Value) -> Month {
        built! { values => Month {
            station, d1, d2, d3, d4, d5, d6, d7, d8, d9, d10, d11, d12, d13, d14, d15, d16, d17,
            d18, d19, d20, d21, d22, d23, d24, d25, d26, d27, d28, d29, d30, d31
        } }
    }
}

impl Readable for Month {
    ghost laws = { by_parts ⟦<MonthShape as Shape>⟧.laws ⟦<Month as Record>⟧.parts };

    #[inline(always)]
    fn read_value<S: Source>(alloc: Global, source: S) -> Result<(Month, S::Rest), Fault> {
        let fields = named! {
            "station", "d1", "d2", "d3", "d4", "d5", "d6", "d7", "d8", "d9", "d10", "d11", "d12",
            "d13", "d14", "d15", "d16", "d17", "d18", "d19", "d20", "d21", "d22", "d23", "d24",
            "d25", "d26", "d27", "d28", "d29"?, "d30"?, "d31"?
        };
        read_shaped(alloc, source, AfterCode::<_, 0x33>(ListOf(fields)))
    }
}

impl Serialize for Month {
    ghost tree = { tree_by_parts ⟦<MonthShape as ShapeTree>⟧.tree ⟦<Month as Record>⟧.parts };

    fn serialize<S: Serializer>(&self, serializer: &mut S) -> Result<S::Ok, S::Error> {
        serializer.serialize_described(
            &0x33u64,
            &ListOf(fields! {
                "station": &self.station, "d1": &self.d1, "d2": &self.d2, "d3": &self.d3,
                "d4": &self.d4, "d5": &self.d5, "d6": &self.d6, "d7": &self.d7, "d8": &self.d8,
                "d9": &self.d9, "d10": &self.d10, "d11": &self.d11, "d12": &self.d12,
                "d13": &self.d13, "d14": &self.d14, "d15": &self.d15, "d16": &self.d16,
                "d17": &self.d17, "d18": &self.d18, "d19": &self.d19, "d20": &self.d20,
                "d21": &self.d21, "d22": &self.d22, "d23": &self.d23, "d24": &self.d24,
                "d25": &self.d25, "d26": &self.d26, "d27": &self.d27, "d28": &self.d28,
                "d29"?: &self.d29, "d30"?: &self.d30, "d31"?: &self.d31
            }),
        )
    }
}

impl RoundTripReadable for Month {
    fn readable_law() {
        parts_return::<Month, MonthShape>();
    }
}

impl Month {
    /// Returns `d29`, or `0` if it is absent.
    pub fn d29_or_default(&self) -> u32
        ensures { result ≡ value_or 0 self.now.d29 }
    {
        self.d29.unwrap_or(0)
    }
}

//! tools/derive wrote this file from hours.rt: it is not edited by hand.

ghost use Rattle.std.specs.Prelude.{◌≡◌, None, false, codes};
ghost use Rattle.serde_amqp.specs.Derive.{value_or, ◌▸◌, by_parts, tree_by_parts, after_code};

use super::{Hour, Pressure};
use serde_amqp::derive::{
    AfterCode, Composite, Fault, Four, Global, ListOf, Of, One, Readable, Record,
    RoundTripComposite, RoundTripReadable, Serialize, SerializeCompounds, Serializer, Shape,
    ShapeTree, Source, built, composite_returns, fields, named, parts_return, read_shaped,
};

type PressureShape = AfterCode<ListOf<One<Of<u32>, ()>>, 0x30>;

impl Record for Pressure {
    type Values = <PressureShape as Shape>::Value;

    ghost parts = { λ x. x.pascals ▸ tt };

    fn from_parts(values: <PressureShape as Shape>::Value) -> Pressure {
        built! { values => Pressure { pascals } }
    }
}

impl Readable for Pressure {
    ghost laws = { by_parts ⟦<PressureShape as Shape>⟧.laws ⟦<Pressure as Record>⟧.parts };

    #[inline(always)]
    fn read_value<S: Source>(alloc: Global, source: S) -> Result<(Pressure, S::Rest), Fault> {
        let fields = named! { "pascals" };
        read_shaped(alloc, source, AfterCode::<_, 0x30>(ListOf(fields)))
    }
}

impl Serialize for Pressure {
    ghost tree = { tree_by_parts ⟦<PressureShape as ShapeTree>⟧.tree ⟦<Pressure as Record>⟧.parts };

    fn serialize<S: Serializer>(&self, serializer: &mut S) -> Result<S::Ok, S::Error> {
        serializer.serialize_described(&0x30u64, &ListOf(fields! { "pascals": &self.pascals }))
    }
}

impl RoundTripReadable for Pressure {
    fn readable_law() {
        parts_return::<Pressure, PressureShape>();
    }
}

type HourShape = ListOf<Four<Of<u32>, Of<u16>, Of<i32>, Option<u32>, Row>>;

type Row = Four<Option<u8>, Option<bool>, Option<String>, Option<u16>, One<Option<u32>, ()>>;

impl Record for Hour {
    type Values = <HourShape as Shape>::Value;

    ghost parts = { λ x. x.station ▸ x.hour ▸ x.temperature ▸ x.pressure ▸ x.humidity ▸ x.is_raining
        ▸ x.remark ▸ x.wind_from ▸ x.wind_speed ▸ tt };

    fn from_parts(values: <HourShape as Shape>::Value) -> Hour {
        built! { values => Hour {
            station, hour, temperature, pressure, humidity, is_raining, remark, wind_from,
            wind_speed
        } }
    }
}

impl Composite for Hour {
    ghost descriptor_code = { 0x31 };

    ghost descriptor_name = { codes "examples:hour" };

    ghost body = { by_parts ⟦<HourShape as Shape>⟧.laws ⟦<Hour as Record>⟧.parts };

    fn descriptor() -> (u64, &'static str) {
        (0x31, "examples:hour")
    }

    #[inline(always)]
    fn read_body<S: Source>(alloc: Global, source: S) -> Result<(Hour, S::Rest), Fault> {
        let fields = named! {
            "station", "hour", "temperature", "pressure"?, "humidity"?, "is-raining"?, "remark"?,
            "wind-from"?, "wind-speed"?
        };
        read_shaped(alloc, source, ListOf(fields))
    }
}

impl Serialize for Hour {
    ghost tree = { after_code 0x31 ⟦<HourShape as ShapeTree>⟧.tree ⟦<Hour as Record>⟧.parts };

    fn serialize<S: Serializer>(&self, serializer: &mut S) -> Result<S::Ok, S::Error> {
        serializer.serialize_described(
            &0x31u64,
            &ListOf(fields! {
                "station": &self.station, "hour": &self.hour, "temperature": &self.temperature,
                "pressure"?: &self.pressure, "humidity"?: &self.humidity,
                "is-raining"?: &self.is_raining, "remark"?: &self.remark,
                "wind-from"?: &self.wind_from, "wind-speed"?: &self.wind_speed
            }),
        )
    }
}

impl RoundTripComposite for Hour {
    fn composite_law() {
        composite_returns::<Hour, HourShape>();
    }
}

impl Hour {
    /// Returns `humidity`, or `50` if it is absent.
    pub fn humidity_or_default(&self) -> u8
        ensures { result ≡ value_or 50 self.now.humidity }
    {
        self.humidity.unwrap_or(50)
    }

    /// Returns `is_raining`, or `false` if it is absent.
    pub fn is_raining_or_default(&self) -> bool
        ensures { result ≡ value_or false self.now.is_raining }
    {
        self.is_raining.unwrap_or(false)
    }
}

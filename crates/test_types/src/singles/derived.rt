//! tools/derive wrote this file from singles.rt: it is not edited by hand.

ghost use Rattle.std.specs.Prelude.{◌≡◌, Some, [], ◌∷◌, List, Option, ℕ, codes, string_bytes};
ghost use Rattle.serde_amqp.specs.Derive.{uuid_bytes, optional, Tree, Scalar, scalar, ushort, uint};
ghost use Rattle.serde_amqp.specs.Derive.{ulong, uuid, string, ◌▸◌, by_parts, by_names, by_image};
ghost use Rattle.serde_amqp.specs.Derive.{by_string, by_scalar, tree_by_parts, tree_by_names};
ghost use Rattle.serde_amqp.specs.Derive.{variant_of, tree_of_parts, NewtypeVariant, first, second};
ghost use Rattle.serde_amqp.specs.Derive.{third, fourth};

use super::{Address, Figure, Number, Order, Port, Price, Request, Settings, Side, Symbol, Weight};
use serde_amqp::derive::{
    AfterCode, AfterName, ByIndex, DataVariant, Either, Fault, FullListOf, Global, MapKey, Name,
    Nameless, Never, Of, One, OneOfTypes, PhantomData, Readable, Record, RoundTrip,
    RoundTripReadable, Serialize, SerializeCompounds, SerializeScalars, Serializer, Shape,
    ShapeTree, Source, UnitVariant, Value, ValueKind, VariantOf, after_name_returns, built, fields,
    laws, named, parts_return, place, read_shaped, read_string, variants,
};

type NumberShape = Of<u32>;

impl Record for Number {
    type Values = u32;

    ghost parts = { λ x. x.0 };

    fn from_parts(values: u32) -> Number {
        Number(values)
    }
}

impl Readable for Number {
    ghost laws = { by_parts ⟦<NumberShape as Shape>⟧.laws ⟦<Number as Record>⟧.parts };

    #[inline(always)]
    fn read_value<S: Source>(alloc: Global, source: S) -> Result<(Number, S::Rest), Fault> {
        read_shaped(alloc, source, Of(PhantomData))
    }
}

impl Serialize for Number {
    ghost tree = { tree_by_parts ⟦<NumberShape as ShapeTree>⟧.tree ⟦<Number as Record>⟧.parts };

    fn serialize<S: Serializer>(&self, serializer: &mut S) -> Result<S::Ok, S::Error> {
        self.0.serialize(serializer)
    }
}

impl RoundTripReadable for Number {
    fn readable_law() {
        parts_return::<Number, NumberShape>();
    }
}

impl MapKey for Number {
    fn image_is_injective() {
        <u32 as MapKey>::image_is_injective();
    }
}

type WeightShape = AfterName<Of<u32>>;

impl Record for Weight {
    type Values = u32;

    ghost parts = { λ x. x.grams };

    fn from_parts(values: u32) -> Weight {
        Weight { grams: values }
    }
}

impl Readable for Weight {
    ghost laws = { by_names (codes "test:weight" ∷ []) ⟦<WeightShape as Shape>⟧.laws
        ⟦<Weight as Record>⟧.parts };

    #[inline(always)]
    fn read_value<S: Source>(alloc: Global, source: S) -> Result<(Weight, S::Rest), Fault> {
        read_shaped(alloc, source, AfterName("test:weight", Of(PhantomData)))
    }
}

impl Serialize for Weight {
    ghost tree = { tree_by_names (codes "test:weight" ∷ []) ⟦<WeightShape as ShapeTree>⟧.tree
        ⟦<Weight as Record>⟧.parts };

    fn serialize<S: Serializer>(&self, serializer: &mut S) -> Result<S::Ok, S::Error> {
        serializer.serialize_described(&Name("test:weight"), &self.grams)
    }
}

impl RoundTripReadable for Weight {
    fn readable_law() {
        after_name_returns::<Weight, WeightShape>("test:weight");
    }
}

type PriceShape = AfterCode<Of<u64>, 0x12>;

impl Record for Price {
    type Values = u64;

    ghost parts = { λ x. x.0 };

    fn from_parts(values: u64) -> Price {
        Price(values)
    }
}

impl Readable for Price {
    ghost laws = { by_parts ⟦<PriceShape as Shape>⟧.laws ⟦<Price as Record>⟧.parts };

    #[inline(always)]
    fn read_value<S: Source>(alloc: Global, source: S) -> Result<(Price, S::Rest), Fault> {
        read_shaped(alloc, source, AfterCode::<_, 0x12>(Of(PhantomData)))
    }
}

impl Serialize for Price {
    ghost tree = { tree_by_parts ⟦<PriceShape as ShapeTree>⟧.tree ⟦<Price as Record>⟧.parts };

    fn serialize<S: Serializer>(&self, serializer: &mut S) -> Result<S::Ok, S::Error> {
        serializer.serialize_described(&0x12u64, &self.0)
    }
}

impl RoundTripReadable for Price {
    fn readable_law() {
        parts_return::<Price, PriceShape>();
    }
}

impl Readable for Address {
    ghost use Rattle.test_types.specs.declared.singles.Address.TheVariants as variant;

    ghost laws = { by_scalar (λ x. elim x as (λ _. Scalar) [
      | variant.Number v ↦ ulong v
      | variant.Text v ↦ string (string_bytes v)
      | variant.Id v ↦ uuid (uuid_bytes v)
    ]) };

    fn read_value<S: Source>(alloc: Global, source: S) -> Result<(Address, S::Rest), Fault> {
        let (value, rest) = match source.untyped(alloc) {
            Ok(read) => read,
            Err(fault) => return Err(fault),
        };
        match value {
            Value::Ulong(value) => Ok((Address::Number(value), rest)),
            Value::String(value) => Ok((Address::Text(value), rest)),
            Value::Uuid(value) => Ok((Address::Id(value), rest)),
            other => Err(Fault::unexpected(other)),
        }
    }
}

impl Serialize for Address {
    ghost tree = { λ x. Some (⟦<Address as Readable>⟧.laws.image x) };

    fn serialize<S: Serializer>(&self, serializer: &mut S) -> Result<S::Ok, S::Error> {
        match self {
            Address::Number(value) => value.serialize(serializer),
            Address::Text(value) => value.serialize(serializer),
            Address::Id(value) => value.serialize(serializer),
        }
    }
}

impl RoundTripReadable for Address {
    fn readable_law() {}
}

impl Side {
    /// Returns the text of the value.
    pub fn as_str(&self) -> &'static str
        ensures { scalar (string result.now) ≡ ⟦<Side as Readable>⟧.laws.image self.now }
    {
        match self {
            Side::East => "east",
            Side::West => "west",
        }
    }
}

impl Readable for Side {
    ghost use Rattle.test_types.specs.declared.singles.Side.TheVariants as variant;

    ghost laws = { by_string (λ x. elim x as (λ _. List ℕ) [
      | variant.East ↦ codes "east"
      | variant.West ↦ codes "west"
    ]) };

    fn read_value<S: Source>(alloc: Global, source: S) -> Result<(Side, S::Rest), Fault> {
        let (text, rest) = match read_string(alloc, source) {
            Ok(read) => read,
            Err(fault) => return Err(fault),
        };
        let text = text.as_str();
        if text == "east" {
            return Ok((Side::East, rest));
        }
        if text == "west" {
            return Ok((Side::West, rest));
        }
        Err(Fault::other(None, ValueKind::String))
    }
}

impl Serialize for Side {
    ghost tree = { λ x. Some (⟦<Side as Readable>⟧.laws.image x) };

    fn serialize<S: Serializer>(&self, serializer: &mut S) -> Result<S::Ok, S::Error> {
        self.as_str().serialize(serializer)
    }
}

impl RoundTripReadable for Side {
    fn readable_law() {}
}

impl Readable for Port {
    ghost use Rattle.test_types.specs.declared.singles.Port.TheVariants as variant;

    ghost laws = { by_image (λ x. scalar (ushort (elim x as (λ _. ℕ) [
      | variant.Plain ↦ 80
      | variant.Secure ↦ 443
    ]))) };

    fn read_value<S: Source>(alloc: Global, source: S) -> Result<(Port, S::Rest), Fault> {
        match source.scalar::<u16>(alloc) {
            Ok((80, rest)) => Ok((Port::Plain, rest)),
            Ok((443, rest)) => Ok((Port::Secure, rest)),
            Ok(_) => Err(Fault::other(None, ValueKind::Ushort)),
            Err(fault) => Err(fault),
        }
    }
}

impl Serialize for Port {
    ghost tree = { λ x. Some (⟦<Port as Readable>⟧.laws.image x) };

    fn serialize<S: Serializer>(&self, serializer: &mut S) -> Result<S::Ok, S::Error> {
        match self {
            Port::Plain => 80u16.serialize(serializer),
            Port::Secure => 443u16.serialize(serializer),
        }
    }
}

impl RoundTripReadable for Port {
    fn readable_law() {}
}

type RequestShape = OneOfTypes<Either<Order, Either<Settings, Never>>>;

impl Record for Request {
    ghost use Rattle.test_types.specs.declared.singles.Request.TheVariants as variant;

    type Values = <RequestShape as Shape>::Value;

    ghost parts = { λ x. elim x as (λ _. _) [
      | variant.Order v ↦ first v
      | variant.Settings v ↦ second v
    ] };

    fn from_parts(values: <RequestShape as Shape>::Value) -> Request {
        match values {
            place!(0, value) => Request::Order(value),
            place!(1, value) => Request::Settings(value),
            place!(rest 2, never) => match never {},
        }
    }
}

impl Readable for Request {
    ghost laws = { by_parts ⟦<RequestShape as Shape>⟧.laws ⟦<Request as Record>⟧.parts };

    #[inline(always)]
    fn read_value<S: Source>(alloc: Global, source: S) -> Result<(Request, S::Rest), Fault> {
        read_shaped(alloc, source, OneOfTypes(PhantomData))
    }
}

impl Serialize for Request {
    ghost tree = { tree_by_parts ⟦<RequestShape as ShapeTree>⟧.tree ⟦<Request as Record>⟧.parts };

    fn serialize<S: Serializer>(&self, serializer: &mut S) -> Result<S::Ok, S::Error> {
        match self {
            Request::Order(value) => value.serialize(serializer),
            Request::Settings(value) => value.serialize(serializer),
        }
    }
}

impl RoundTripReadable for Request {
    fn readable_law() {
        parts_return::<Request, RequestShape>();
    }
}

/// The fields of [`Figure::Box`].
type FigureBoxFields = FullListOf<One<Of<u16>, One<Of<u16>, ()>>>;

/// Reads the fields of [`Figure::Box`].
#[derive(Drop)]
pub struct FigureBox;

impl Shape for FigureBox {
    type Value = <FigureBoxFields as Shape>::Value;

    ghost names = { λ _. [] };

    ghost fits = { λ _. Unit {0} };

    ghost laws = { ⟦<FigureBoxFields as Shape>⟧.laws };

    fn read_parts<S: Source>(
        self,
        alloc: Global,
        source: S,
    ) -> Result<(<FigureBoxFields as Shape>::Value, S::Rest), Fault> {
        let fields = named! { "0", "1" };
        Shape::read_parts(FullListOf(fields), alloc, source)
    }
}

impl Nameless for FigureBox {
    fn read_nameless<S: Source>(
        self,
        alloc: Global,
        source: S,
    ) -> Result<(<FigureBoxFields as Shape>::Value, S::Rest), Fault> {
        Shape::read_parts(self, alloc, source)
    }
}

/// The fields of [`Figure::Label`].
type FigureLabelFields = FullListOf<One<Of<String>, One<Option<Symbol>, ()>>>;

/// Reads the fields of [`Figure::Label`].
#[derive(Drop)]
pub struct FigureLabel;

impl Shape for FigureLabel {
    type Value = <FigureLabelFields as Shape>::Value;

    ghost names = { λ _. [] };

    ghost fits = { λ _. Unit {0} };

    ghost laws = { ⟦<FigureLabelFields as Shape>⟧.laws };

    fn read_parts<S: Source>(
        self,
        alloc: Global,
        source: S,
    ) -> Result<(<FigureLabelFields as Shape>::Value, S::Rest), Fault> {
        let fields = named! { "text", "colour"? };
        Shape::read_parts(FullListOf(fields), alloc, source)
    }
}

impl Nameless for FigureLabel {
    fn read_nameless<S: Source>(
        self,
        alloc: Global,
        source: S,
    ) -> Result<(<FigureLabelFields as Shape>::Value, S::Rest), Fault> {
        Shape::read_parts(self, alloc, source)
    }
}

type FigureShape = ByIndex<UnitVariant<DataVariant<Of<u32>, FigureVariants>>>;

type FigureVariants = DataVariant<FigureBox, DataVariant<FigureLabel, ()>>;

impl Record for Figure {
    ghost use Rattle.test_types.specs.declared.singles.Figure.TheVariants as variant;

    type Values = <FigureShape as Shape>::Value;

    ghost parts = { λ x. elim x as (λ _. _) [
      | variant.Point ↦ first tt
      | variant.Circle v0 ↦ second v0
      | variant.Box v0 v1 ↦ third (v0 ▸ v1 ▸ tt)
      | variant.Label v0 v1 ↦ fourth (v0 ▸ v1 ▸ tt)
    ] };

    fn from_parts(values: <FigureShape as Shape>::Value) -> Figure {
        match values {
            place!(0, ()) => Figure::Point,
            place!(1, value) => Figure::Circle(value),
            place!(2, values) => built! { values => Figure::Box(part0, part1) },
            place!(3, values) => built! { values => Figure::Label { text, colour } },
            place!(rest 4, never) => match never {},
        }
    }
}

impl Readable for Figure {
    ghost laws = { by_parts ⟦<FigureShape as Shape>⟧.laws ⟦<Figure as Record>⟧.parts };

    #[inline(always)]
    fn read_value<S: Source>(alloc: Global, source: S) -> Result<(Figure, S::Rest), Fault> {
        let variants = variants! { unit, newtype, shape FigureBox, shape FigureLabel };
        read_shaped(alloc, source, ByIndex(variants))
    }
}

impl Serialize for Figure {
    ghost use Rattle.test_types.specs.declared.singles.Figure.TheVariants as variant;

    ghost tree = { λ x. elim x as (λ _. Option Tree) [
      | variant.Point ↦ Some (scalar (uint 0))
      | variant.Circle v0 ↦ tree_of_parts (NewtypeVariant 1) (⟦<u32 as Serialize>⟧.tree v0 ∷ [])
      | variant.Box v0 v1 ↦ variant_of 2 (⟦<u16 as Serialize>⟧.tree v0 ∷
          ⟦<u16 as Serialize>⟧.tree v1 ∷ [])
      | variant.Label v0 v1 ↦ variant_of 3 (⟦<String as Serialize>⟧.tree v0 ∷ optional
          ⟦<Symbol as Serialize>⟧.tree v1 ∷ [])
    ] };

    fn serialize<S: Serializer>(&self, serializer: &mut S) -> Result<S::Ok, S::Error> {
        match self {
            Figure::Point => serializer.serialize_unit_variant("Figure", 0, "Point"),
            Figure::Circle(part0) => serializer.serialize_newtype_variant(
                "Figure", 1, "Circle", part0,
            ),
            Figure::Box(part0, part1) => VariantOf(2, fields! { "0": part0, "1": part1 }).serialize(
                serializer,
            ),
            Figure::Label { text, colour } => VariantOf(
                3,
                fields! { "text": text, "colour": colour },
            ).serialize(serializer),
        }
    }
}

impl RoundTripReadable for Figure {
    fn readable_law() {
        laws::variants_return();
        <Option<Symbol> as RoundTrip>::law();
    }
}

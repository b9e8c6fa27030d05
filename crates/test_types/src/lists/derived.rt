//! tools/derive wrote this file from lists.rt: it is not edited by hand.

ghost use Rattle.std.specs.Prelude.{◌≡◌, None, [], ◌∷◌, true, codes};
ghost use Rattle.serde_amqp.specs.Derive.{◌▸◌, by_parts, by_names, tree_by_parts, tree_by_names};

use super::{Column, Gap, Pair, Place, Symbol};
use serde_amqp::derive::{
    AfterCode, AfterName, AnyOf, Defaulted, Fault, FullListOf, Global, ListOf, Name, Named, Of,
    One, Readable, Record, RoundTripReadable, Serialize, SerializeCompounds, Serializer, Shape,
    ShapeTree, Source, after_name_returns, built, fields, named, named_parts_return, parts_return,
    read_shaped,
};

type PlaceShape = ListOf<One<Of<i32>, One<Of<i32>, One<Option<i32>, ()>>>>;

impl Record for Place {
    type Values = <PlaceShape as Shape>::Value;

    ghost parts = { λ x. x.x ▸ x.y ▸ x.level ▸ tt };

    fn from_parts(values: <PlaceShape as Shape>::Value) -> Place {
        built! { values => Place { x, y, level } }
    }
}

impl Readable for Place {
    ghost laws = { by_parts ⟦<PlaceShape as Shape>⟧.laws ⟦<Place as Record>⟧.parts };

    #[inline(always)]
    fn read_value<S: Source>(alloc: Global, source: S) -> Result<(Place, S::Rest), Fault> {
        let fields = named! { "x", "y", "level"? };
        read_shaped(alloc, source, ListOf(fields))
    }
}

impl Serialize for Place {
    ghost tree = { tree_by_parts ⟦<PlaceShape as ShapeTree>⟧.tree ⟦<Place as Record>⟧.parts };

    fn serialize<S: Serializer>(&self, serializer: &mut S) -> Result<S::Ok, S::Error> {
        ListOf(fields! { "x": &self.x, "y": &self.y, "level"?: &self.level }).serialize(serializer)
    }
}

impl RoundTripReadable for Place {
    fn readable_law() {
        parts_return::<Place, PlaceShape>();
    }
}

impl Place {
    /// Returns a value with these fields. The others are `None`.
    pub fn new(x: i32, y: i32) -> Place
        ensures { ⟦<Place as Record>⟧.parts result ≡ x ▸ y ▸ None ▸ tt }
    {
        Place { x, y, level: None }
    }
}

type PairShape = AfterName<FullListOf<One<Of<u32>, One<Option<String>, ()>>>>;

impl Record for Pair {
    type Values = <PairShape as Shape>::Value;

    ghost parts = { λ x. x.0 ▸ x.1 ▸ tt };

    fn from_parts(values: <PairShape as Shape>::Value) -> Pair {
        built! { values => Pair(part0, part1) }
    }
}

impl Readable for Pair {
    ghost laws = { by_names (codes "test:pair" ∷ []) ⟦<PairShape as Shape>⟧.laws
        ⟦<Pair as Record>⟧.parts };

    #[inline(always)]
    fn read_value<S: Source>(alloc: Global, source: S) -> Result<(Pair, S::Rest), Fault> {
        let fields = named! { "0", "1"? };
        read_shaped(alloc, source, AfterName("test:pair", FullListOf(fields)))
    }
}

impl Serialize for Pair {
    ghost tree = { tree_by_names (codes "test:pair" ∷ []) ⟦<PairShape as ShapeTree>⟧.tree
        ⟦<Pair as Record>⟧.parts };

    fn serialize<S: Serializer>(&self, serializer: &mut S) -> Result<S::Ok, S::Error> {
        serializer.serialize_described(
            &Name("test:pair"),
            &ListOf(fields! { "0": &self.0, "1": &self.1 }),
        )
    }
}

impl RoundTripReadable for Pair {
    fn readable_law() {
        after_name_returns::<Pair, PairShape>("test:pair");
    }
}

type GapShape = AfterCode<ListOf<()>, 0x10>;

impl Record for Gap {
    type Values = <GapShape as Shape>::Value;

    ghost parts = { λ _. tt };

    fn from_parts(values: <GapShape as Shape>::Value) -> Gap {
        built! { values => Gap {} }
    }
}

impl Readable for Gap {
    ghost laws = { by_parts ⟦<GapShape as Shape>⟧.laws ⟦<Gap as Record>⟧.parts };

    #[inline(always)]
    fn read_value<S: Source>(alloc: Global, source: S) -> Result<(Gap, S::Rest), Fault> {
        read_shaped(alloc, source, AfterCode::<_, 0x10>(ListOf(())))
    }
}

impl Serialize for Gap {
    ghost tree = { tree_by_parts ⟦<GapShape as ShapeTree>⟧.tree ⟦<Gap as Record>⟧.parts };

    fn serialize<S: Serializer>(&self, serializer: &mut S) -> Result<S::Ok, S::Error> {
        serializer.serialize_described(&0x10u64, &ListOf(fields! {}))
    }
}

impl RoundTripReadable for Gap {
    fn readable_law() {
        parts_return::<Gap, GapShape>();
    }
}

type ColumnShape = AnyOf<FullListOf<One<Of<u32>, One<Defaulted<bool, 1>, Row>>>>;

type Row = One<Option<Symbol>, ()>;

impl Record for Column {
    type Values = <ColumnShape as Shape>::Value;

    ghost parts = { λ x. x.number ▸ x.is_wide ▸ x.colour ▸ tt };

    fn from_parts(values: <ColumnShape as Shape>::Value) -> Column {
        built! { values => Column { number, is_wide, colour } }
    }
}

impl Named for Column {
    ghost names = { codes "number" ∷ codes "is_wide" ∷ codes "colour" ∷ [] };

    fn names_are_distinct() {}
}

impl Readable for Column {
    ghost laws = { by_names ⟦<Column as Named>⟧.names ⟦<ColumnShape as Shape>⟧.laws
        ⟦<Column as Record>⟧.parts };

    #[inline(always)]
    fn read_value<S: Source>(alloc: Global, source: S) -> Result<(Column, S::Rest), Fault> {
        Column::names_are_distinct();
        let fields = named! { "number", "is_wide" = 1, "colour"? };
        read_shaped(alloc, source, AnyOf(FullListOf(fields)))
    }
}

impl Serialize for Column {
    ghost tree = { tree_by_names ⟦<Column as Named>⟧.names ⟦<ColumnShape as ShapeTree>⟧.tree
        ⟦<Column as Record>⟧.parts };

    fn serialize<S: Serializer>(&self, serializer: &mut S) -> Result<S::Ok, S::Error> {
        ListOf(
            fields! { "number": &self.number, "is_wide": &self.is_wide, "colour": &self.colour },
        ).serialize(serializer)
    }
}

impl RoundTripReadable for Column {
    fn readable_law() {
        Column::names_are_distinct();
        named_parts_return::<Column, ColumnShape>();
    }
}

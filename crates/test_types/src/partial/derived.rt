//! tools/derive wrote this file from partial.rt: it is not edited by hand.

ghost use Rattle.std.specs.Prelude.{◌≡◌, Some, None, [], ◌∷◌, Option, ℕ, codes};
ghost use Rattle.serde_amqp.specs.Derive.{optional, Tree, code, name, scalar, ubyte, uint};
ghost use Rattle.serde_amqp.specs.Derive.{as_described, short_list_of, list_of, short_map_of};
ghost use Rattle.serde_amqp.specs.Derive.{required_value, optional_value, ◌▸◌, by_parts, by_names};
ghost use Rattle.serde_amqp.specs.Derive.{variant_of, first, second};

use super::{Envelope, Heading, LazyValue, Line, Note, Reply, Said, Seen, Sent, Turn};
use serde_amqp::derive::{
    AfterCode, AfterName, AnyOf, ByIndex, DataVariant, Fault, FullListOf, Global, ListOf, MapOf,
    Name, Named, Nameless, Of, One, PhantomData, Readable, Record, Serialize, SerializeCompounds,
    SerializeScalars, Serializer, Shape, Source, UnitVariant, VariantOf, built, fields, named,
    place, read_shaped, variants,
};

type SeenShape = Of<u32>;

impl Record for Seen {
    type Values = u32;

    ghost parts = { λ x. x.0 };

    fn from_parts(values: u32) -> Seen {
        Seen(values)
    }
}

impl Readable for Seen {
    ghost laws = { by_parts ⟦<SeenShape as Shape>⟧.laws ⟦<Seen as Record>⟧.parts };

    #[inline(always)]
    fn read_value<S: Source>(alloc: Global, source: S) -> Result<(Seen, S::Rest), Fault> {
        read_shaped(alloc, source, Of(PhantomData))
    }
}

impl Serialize for Sent {
    ghost tree = { λ x. ⟦<u32 as Serialize>⟧.tree x.0 };

    fn serialize<S: Serializer>(&self, serializer: &mut S) -> Result<S::Ok, S::Error> {
        self.0.serialize(serializer)
    }
}

impl Serialize for Line {
    ghost tree = { λ x. list_of (
        ⟦<u32 as Serialize>⟧.tree x.number
        ∷ optional ⟦<String as Serialize>⟧.tree x.text
        ∷ []) };

    fn serialize<S: Serializer>(&self, serializer: &mut S) -> Result<S::Ok, S::Error> {
        ListOf(fields! { "number": &self.number, "text": &self.text }).serialize(serializer)
    }
}

impl Serialize for Note {
    ghost tree = { λ x. as_described (Some (name (codes "test:note"))) (short_map_of (
        (codes "number", required_value (⟦<u32 as Serialize>⟧.tree x.number))
        ∷ (codes "text", optional_value ⟦<String as Serialize>⟧.tree x.text)
        ∷ [])) };

    fn serialize<S: Serializer>(&self, serializer: &mut S) -> Result<S::Ok, S::Error> {
        serializer.serialize_described(
            &Name("test:note"),
            &MapOf(fields! { "number": &self.number, "text"?: &self.text }),
        )
    }
}

type ReplyShape = AfterName<AnyOf<MapOf<One<Of<u32>, ()>>>>;

impl Record for Reply {
    type Values = <ReplyShape as Shape>::Value;

    ghost parts = { λ x. x.number ▸ tt };

    fn from_parts(values: <ReplyShape as Shape>::Value) -> Reply {
        built! { values => Reply { number } }
    }
}

impl Named for Reply {
    ghost names = { codes "number" ∷ [] };

    fn names_are_distinct() {}
}

impl Readable for Reply {
    ghost laws = { by_names (codes "test:reply" ∷ ⟦<Reply as Named>⟧.names)
        ⟦<ReplyShape as Shape>⟧.laws ⟦<Reply as Record>⟧.parts };

    #[inline(always)]
    fn read_value<S: Source>(alloc: Global, source: S) -> Result<(Reply, S::Rest), Fault> {
        Reply::names_are_distinct();
        let fields = named! { "number" };
        read_shaped(alloc, source, AfterName("test:reply", AnyOf(MapOf(fields))))
    }
}

type EnvelopeShape = AfterCode<ListOf<One<Option<String>, One<Of<LazyValue>, ()>>>, 0x13>;

impl Record for Envelope {
    type Values = <EnvelopeShape as Shape>::Value;

    ghost parts = { λ x. x.subject ▸ x.content ▸ tt };

    fn from_parts(values: <EnvelopeShape as Shape>::Value) -> Envelope {
        built! { values => Envelope { subject, content } }
    }
}

impl Readable for Envelope {
    ghost laws = { by_parts ⟦<EnvelopeShape as Shape>⟧.laws ⟦<Envelope as Record>⟧.parts };

    #[inline(always)]
    fn read_value<S: Source>(alloc: Global, source: S) -> Result<(Envelope, S::Rest), Fault> {
        let fields = named! { "subject"?, "content" };
        read_shaped(alloc, source, AfterCode::<_, 0x13>(ListOf(fields)))
    }
}

impl Serialize for Envelope {
    ghost tree = { λ x. as_described (Some (code 0x13)) (short_list_of (
        optional_value ⟦<String as Serialize>⟧.tree x.subject
        ∷ required_value (⟦<LazyValue as Serialize>⟧.tree x.content)
        ∷ [])) };

    fn serialize<S: Serializer>(&self, serializer: &mut S) -> Result<S::Ok, S::Error> {
        serializer.serialize_described(
            &0x13u64,
            &ListOf(fields! { "subject"?: &self.subject, "content": &self.content }),
        )
    }
}

impl Serialize for Said {
    ghost use Rattle.test_types.specs.declared.partial.Said.TheVariants as variant;

    ghost tree = { λ x. Some (scalar (ubyte (elim x as (λ _. ℕ) [
      | variant.Never ↦ 0
      | variant.Daily ↦ 7
    ]))) };

    fn serialize<S: Serializer>(&self, serializer: &mut S) -> Result<S::Ok, S::Error> {
        match self {
            Said::Never => 0u8.serialize(serializer),
            Said::Daily => 7u8.serialize(serializer),
        }
    }
}

/// The fields of [`Heading::Both`].
type HeadingBothFields = FullListOf<One<Of<u32>, One<Of<u32>, ()>>>;

/// Reads the fields of [`Heading::Both`].
#[derive(Drop)]
pub struct HeadingBoth;

impl Shape for HeadingBoth {
    type Value = <HeadingBothFields as Shape>::Value;

    ghost names = { λ _. [] };

    ghost fits = { λ _. Unit {0} };

    ghost laws = { ⟦<HeadingBothFields as Shape>⟧.laws };

    fn read_parts<S: Source>(
        self,
        alloc: Global,
        source: S,
    ) -> Result<(<HeadingBothFields as Shape>::Value, S::Rest), Fault> {
        let fields = named! { "from", "to" };
        Shape::read_parts(FullListOf(fields), alloc, source)
    }
}

impl Nameless for HeadingBoth {
    fn read_nameless<S: Source>(
        self,
        alloc: Global,
        source: S,
    ) -> Result<(<HeadingBothFields as Shape>::Value, S::Rest), Fault> {
        Shape::read_parts(self, alloc, source)
    }
}

type HeadingShape = ByIndex<UnitVariant<DataVariant<HeadingBoth, ()>>>;

impl Record for Heading {
    ghost use Rattle.test_types.specs.declared.partial.Heading.TheVariants as variant;

    type Values = <HeadingShape as Shape>::Value;

    ghost parts = { λ x. elim x as (λ _. _) [
      | variant.Ahead ↦ first tt
      | variant.Both v0 v1 ↦ second (v0 ▸ v1 ▸ tt)
    ] };

    fn from_parts(values: <HeadingShape as Shape>::Value) -> Heading {
        match values {
            place!(0, ()) => Heading::Ahead,
            place!(1, values) => built! { values => Heading::Both { from, to } },
            place!(rest 2, never) => match never {},
        }
    }
}

impl Readable for Heading {
    ghost laws = { by_parts ⟦<HeadingShape as Shape>⟧.laws ⟦<Heading as Record>⟧.parts };

    #[inline(always)]
    fn read_value<S: Source>(alloc: Global, source: S) -> Result<(Heading, S::Rest), Fault> {
        let variants = variants! { unit, shape HeadingBoth };
        read_shaped(alloc, source, ByIndex(variants))
    }
}

impl Serialize for Turn {
    ghost use Rattle.test_types.specs.declared.partial.Turn.TheVariants as variant;

    ghost tree = { λ x. elim x as (λ _. Option Tree) [
      | variant.Halt ↦ Some (scalar (uint 0))
      | variant.Both v0 v1 ↦ variant_of 1 (⟦<u32 as Serialize>⟧.tree v0 ∷
          ⟦<u32 as Serialize>⟧.tree v1 ∷ [])
    ] };

    fn serialize<S: Serializer>(&self, serializer: &mut S) -> Result<S::Ok, S::Error> {
        match self {
            Turn::Halt => serializer.serialize_unit_variant("Turn", 0, "Halt"),
            Turn::Both { from, to } => VariantOf(1, fields! { "from": from, "to": to }).serialize(
                serializer,
            ),
        }
    }
}

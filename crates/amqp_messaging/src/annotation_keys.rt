//! Reading the keys of annotations, by hand: their type shows the keys of a map distinct.

use crate::identifiers::AnnotationKey;
use serde_amqp::de::keys_differ;
use serde_amqp::derive::{Deserialize, Fault, Global, RoundTrip, Source};
use serde_amqp::descriptor::Descriptor;

impl Deserialize for AnnotationKey {
    ghost use Rattle.std.specs.Prelude.{◌≡◌};
    ghost use Rattle.serde_amqp.specs.Derive.{symbol_text, Scalar, scalar, ulong, symbol};
    ghost use Rattle.amqp_messaging.specs.declared.identifiers.AnnotationKey.TheVariants as variant;

    ghost reads = { λ t x. t ≡ scalar (elim x as (λ _. Scalar)
        [ variant.Symbol v ↦ symbol (symbol_text v) | variant.Ulong v ↦ ulong v ]) };

    ghost image = { λ x. scalar (elim x as (λ _. Scalar)
        [ variant.Symbol v ↦ symbol (symbol_text v) | variant.Ulong v ↦ ulong v ]) };

    ghost same = { λ x y. scalar (elim x as (λ _. Scalar)
        [ variant.Symbol v ↦ symbol (symbol_text v) | variant.Ulong v ↦ ulong v ])
        ≡ scalar (elim y as (λ _. Scalar)
        [ variant.Symbol v ↦ symbol (symbol_text v) | variant.Ulong v ↦ ulong v ]) };

    // A descriptor is a symbol or a ulong too.
    fn read<S: Source>(alloc: Global, source: S) -> Result<(AnnotationKey, S::Rest), Fault> {
        match source.scalar::<Descriptor>(alloc) {
            Ok((found, rest)) => match found {
                Descriptor::Name(name) => Ok((AnnotationKey::Symbol(name), rest)),
                Descriptor::Code(code) => Ok((AnnotationKey::Ulong(code), rest)),
            },
            Err(fault) => Err(fault),
        }
    }

    fn have_distinct_trees<V>(alloc: Global, entries: &[(AnnotationKey, V)]) -> bool {
        keys_differ(alloc, entries)
    }
}

impl RoundTrip for AnnotationKey {
    fn law() {}
}

//! The kinds of fields: how one is read if it is present, and if it is absent.

ghost use Rattle.std.specs.Prelude.{◌≡◌, Bool, false, true, IfOk, IfErr, None, is_some};
ghost use Rattle.amqp_ser.specs.Tree.{Tree};
ghost use Rattle.amqp_de.specs.Reads.{ReadsOption, image_option, RestorableOption, SameOption};
ghost use Rattle.amqp_de.specs.Results.{Takes, Brings};
ghost use Rattle.amqp_de.specs.Steps.{IsRequired};

use crate::deserialize::Deserialize;
use crate::fault::Fault;
use crate::seed::Of;
use crate::source::Source;
use std::alloc::Global;

/// How a field is read if it is present, and if it is absent: `Of<V>` is a required field,
/// `Option<V>` an optional one, and [`Defaulted`](crate::Defaulted) one with a default.
///
/// # Implementer notes
/// Required methods: `read` and `read_absent`, which return a value or the error for a missing
/// field, and `law`, which does nothing. Its contract is the law of values that are not present.
pub trait FieldKind {
    /// The type of the value.
    type Value: Drop;

    /// Which trees are read as which values.
    ghost reads: { Tree → Self.Value → Type 0 };

    /// Which value an absent field is read as.
    ghost absent: { Self.Value → Type 0 };

    /// Whether a value is present in an image of the fields.
    ghost present: { Self.Value → Bool };

    /// The tree of the untyped value that represents a value.
    ghost image: { Self.Value → Tree };

    /// Whether a value round-trips through its image.
    ghost restorable: { Self.Value → Type 0 };

    /// Whether two values have the same contents.
    ghost same: { Self.Value → Self.Value → Type 0 };

    /// States that a value that is not present has the contents of that of an absent field.
    fn law()
        ensures { (x y : Self.Value) → present y ≡ false → absent x → same x y };

    /// Reads a value, and returns what is left.
    fn read<S: Source>(alloc: Global, source: S) -> Result<(Self::Value, S::Rest), Fault>
        ensures read { Takes reads (S.value source) (S.is_whole source) (S.left source) result }
        ensures law { Brings image restorable same (S.value source) (S.is_whole source) result };

    /// Returns the value of an absent field, or the error for a missing one.
    fn read_absent<S: Source>(
        name: &'static str,
        count_read: Option<usize>,
    ) -> Result<Self::Value, Fault>
        ensures ok { IfOk result (λ x. absent x) }
        ensures err { IfErr result (λ _. IsRequired absent present) };
}

/// A required field.
impl<V: Deserialize> FieldKind for Of<V> {
    type Value = V;

    ghost reads = { V.reads };

    ghost absent = { λ _. ⊥ };

    ghost present = { λ _. true };

    ghost image = { V.image };

    ghost restorable = { V.restorable };

    ghost same = { V.same };

    fn law() {}

    #[inline(always)]
    fn read<S: Source>(alloc: Global, source: S) -> Result<(V, S::Rest), Fault> {
        V::read(alloc, source)
    }

    #[inline(always)]
    fn read_absent<S: Source>(name: &'static str, count_read: Option<usize>) -> Result<V, Fault> {
        Err(S::missing(name, count_read))
    }
}

/// An optional field, which may be absent or null.
impl<V: Deserialize> FieldKind for Option<V> {
    type Value = Option<V>;

    ghost reads = { ReadsOption V.reads };

    ghost absent = { λ x. x ≡ None };

    ghost present = { is_some };

    ghost image = { image_option V.image };

    ghost restorable = { RestorableOption V.image V.restorable };

    ghost same = { SameOption V.same };

    fn law() {}

    #[inline(always)]
    fn read<S: Source>(alloc: Global, source: S) -> Result<(Option<V>, S::Rest), Fault> {
        <Option<V> as Deserialize>::read(alloc, source)
    }

    #[inline(always)]
    fn read_absent<S: Source>(
        _name: &'static str,
        _count_read: Option<usize>,
    ) -> Result<Option<V>, Fault> {
        Ok(None)
    }
}

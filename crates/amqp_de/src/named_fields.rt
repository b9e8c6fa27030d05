//! The fields of a struct, whose reading is determined by their types and their names.

ghost use Rattle.std.specs.Prelude.{◌↔◌, ℕ, List};
ghost use Rattle.amqp_ser.specs.Tree.{Tree};
ghost use Rattle.amqp_de.specs.Fields.{FieldSource, by_position, by_name, NoMoreFields};
ghost use Rattle.amqp_de.specs.Laws.{first_name, other_names};
ghost use Rattle.amqp_de.specs.Parts.{ReadsFields};

use crate::field_kind::FieldKind;
use crate::fields::{FieldSeeds, One};
use crate::four::Four;

/// Fields whose reading is determined by their types and their names.
pub trait NamedFields: FieldSeeds {
    /// Which elements or entries are read as which values, if the fields have these names.
    ghost reads_by_names: { List (List ℕ) → Self.Values → FieldSource → Type 0 };

    /// States that elements are read whatever the names are, and entries by them.
    fn names_suffice()
        ensures position { (f : Self) (ns : List (List ℕ)) (x : Self.Values) (ts : List Tree) →
            Self.reads f x (by_position ts) ↔ reads_by_names ns x (by_position ts) }
        ensures name { (f : Self) (x : Self.Values) (ps : List (Tree × Tree)) →
            Self.reads f x (by_name ps) ↔ reads_by_names (Self.names f) x (by_name ps) };
}

#[tactic(auto, unfolding(crate::specs::Fields::NoMoreFields))]
impl NamedFields for () {
    ghost reads_by_names = { λ _ _. NoMoreFields };

    fn names_suffice() {}
}

impl<F: FieldKind, R: NamedFields> NamedFields for One<F, R> {
    ghost reads_by_names = { λ ns.
        ReadsFields F.absent (first_name ns) F.reads (R.reads_by_names (other_names ns)) };

    fn names_suffice() {
        R::names_suffice();
    }
}

impl<A: FieldKind, B: FieldKind, C: FieldKind, D: FieldKind, R: NamedFields> NamedFields
    for Four<A, B, C, D, R> {
    ghost reads_by_names = { λ ns. ReadsFields A.absent (first_name ns) A.reads
        (ReadsFields B.absent (first_name (other_names ns)) B.reads
        (ReadsFields C.absent (first_name (other_names (other_names ns))) C.reads
        (ReadsFields D.absent (first_name (other_names (other_names (other_names ns)))) D.reads
        (R.reads_by_names (other_names (other_names (other_names (other_names ns)))))))) };

    fn names_suffice() {
        R::names_suffice();
    }
}

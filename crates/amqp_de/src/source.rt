//! Sources of one value, which reading consumes.

ghost use Rattle.std.specs.Prelude.{◌≡◌, ◌⊎◌, ◌<◌, ◌≤◌, ℕ, List, [], ◌∷◌, Bool, true, not, ◌&&◌};
ghost use Rattle.std.specs.Prelude.{IsTrue, IfOk, IfErr, IfSome, IfNone, Some, None};
ghost use Rattle.std.specs.Bool.{OnTrue};
ghost use Rattle.std.specs.List.{AllZip};
ghost use Rattle.std.specs.Map.{keys_of};
ghost use Rattle.amqp_ser.specs.Carried.{descriptor_content};
ghost use Rattle.amqp_ser.specs.Tree.{Tree, Trees, Pairs, Scalar, Descriptor as AnyDescriptor};
ghost use Rattle.amqp_ser.specs.Tree.{scalar, null, list, array, map, described, trees_of};
ghost use Rattle.amqp_value.specs.TreeOf.{tree_of, pairs_of};
ghost use Rattle.amqp_de.specs.Maps.{AreApart};
ghost use Rattle.amqp_de.specs.SourceKinds.{HasSourceKind};
ghost use Rattle.amqp_de.specs.Results.{IsMemory, kind_of, Takes};
ghost use Rattle.amqp_de.specs.Fields.{value_at, without};
ghost use Rattle.amqp_de.specs.Present.{distinct_names, has_name};

use crate::fault::Fault;
use crate::scalar::Scalar;
use crate::source_kind::SourceKind;
use amqp_data::Descriptor;
use amqp_value::Value;
use std::alloc::Global;

/// A source of one value: an untyped value, or encoded bytes that were not checked before.
///
/// # Implementer notes
/// The methods without a body are required. `ok`, `some` and `none` say what is read if there is a
/// value; `whole` and `err` are for a source that is known to hold one, as [`Held`](crate::Held)
/// does. For [`Encoded`](crate::Encoded), whose bytes may be malformed, `is_whole` is empty.
pub trait Source: Sized + Drop {
    /// What is left after the value.
    type Rest: Drop;

    /// What is left of a list or an array.
    type Elements: Drop;

    /// What is left of a map.
    type Entries: Drop;

    /// The value of a key that was taken; `()` for bytes, since those after the key are the value.
    type Pending: Drop;

    /// The tree of the value.
    ghost value: { Self → Tree };

    /// The source holds a value, and this is left after it.
    ghost left: { Self → Self.Rest → Type 0 };

    /// It is known that there is a value.
    ghost is_whole: { Self → Type 0 };

    /// The elements are these trees.
    ghost holds: { Self.Elements → List Tree → Type 0 };

    /// The same, if the first is what is left of the element that was taken.
    ghost waits: { Self.Elements → Self.Rest → List Tree → Type 0 };

    /// The elements, if it is known that there are values.
    ghost items: { Self.Elements → List Tree };

    /// It is known that the elements are values.
    ghost are_whole: { Self.Elements → Type 0 };

    /// A number that falls with each element that is taken.
    ghost number: { Self.Elements → ℕ };

    /// The entries are these.
    ghost holds_pairs: { Self.Entries → List (Tree × Tree) → Type 0 };

    /// The same, after the value of an entry, of which this is left.
    ghost waits_pair: { Self.Entries → Self.Rest → List (Tree × Tree) → Type 0 };

    /// The same, after a key, of which this is left: the value and the entries after it.
    ghost waits_value: { Self.Entries → Self.Pending → Self.Rest → Tree → List (Tree × Tree) →
        Type 0 };

    /// The entries, if it is known that there are values.
    ghost pairs: { Self.Entries → List (Tree × Tree) };

    /// The value after a key, if it is known that there is one.
    ghost promised: { Self.Pending → Tree };

    /// It is known that the entries are values.
    ghost pairs_whole: { Self.Entries → Type 0 };

    /// A number that falls with each entry that is taken.
    ghost pair_number: { Self.Entries → ℕ };

    /// The keys have to be distinct: `AreApart` is enough.
    ghost apart: { List Tree → Type 0 };

    /// A test of names has to hold: `true` is enough.
    ghost needs: { Bool → Type 0 };

    /// The keys are among these names, as far as it has to be known.
    ghost only: { List (List ℕ) → List (Tree × Tree) → Type 0 };

    /// Returns whether the keys of maps are apart, and fields are found in any order.
    fn knows_maps(entries: &Self::Entries) -> bool
        ensures apart { OnTrue result ((ts : List Tree) → apart ts) }
        ensures needs { OnTrue result ((b : Bool) → needs b) }
        ensures whole { pairs_whole entries.now → IsTrue result }
        ensures enough { (ts : List Tree) → AreApart ts → apart ts };

    /// Whether it is null.
    fn is_null(&self) -> bool
        ensures null { IsTrue result → value self.now ≡ scalar null }
        ensures other { (r : Self.Rest) → left self.now r → value self.now ≡ scalar null →
            IsTrue result }
        ensures whole { is_whole self.now → value self.now ≡ scalar null → IsTrue result };

    /// What kind of value it probably is; `Other`, as here, if the source does not know it.
    #[inline(always)]
    fn source_kind(&self) -> SourceKind
        ensures { is_whole self.now → HasSourceKind result (value self.now) }
    {
        SourceKind::Other
    }

    /// Takes null.
    fn null(self) -> Result<Self::Rest, Fault>
        ensures ok { IfOk result (λ r. left self r × (value self ≡ scalar null)) }
        ensures err { IfErr result (λ e. is_whole self → IsMemory e
            ⊎ (¬ (value self ≡ scalar null))) };

    /// Reads a scalar of this kind.
    fn scalar<K: Scalar>(self, alloc: Global) -> Result<(K, Self::Rest), Fault>
        ensures { Takes (λ t x. t ≡ scalar (K.content x)) (value self) (is_whole self)
            (left self) result };

    /// Reads the value as an untyped one.
    fn untyped(self, alloc: Global) -> Result<(Value, Self::Rest), Fault>
        ensures read { Takes (λ t v. tree_of v ≡ t) (value self) (is_whole self)
            (left self) result }
        ensures whole { IfErr result (λ e. is_whole self → IsMemory e) };

    /// Opens a list.
    fn list(self) -> Result<(Self::Elements, Self::Rest), Fault>
        ensures ok { IfOk result (λ es. (ts : List Tree) → holds es.0 ts →
            (value self ≡ list (trees_of ts)) × left self es.1) }
        ensures whole { IfOk result (λ es. is_whole self →
            are_whole es.0 × (value self ≡ list (trees_of (items es.0)))) }
        ensures err { IfErr result (λ e. is_whole self → IsMemory e
            ⊎ ((ts : Trees) → ¬ (value self ≡ list ts))) };

    /// Opens an array.
    fn array(self) -> Result<(Self::Elements, Self::Rest), Fault>
        ensures ok { IfOk result (λ es. (ts : List Tree) → holds es.0 ts →
            (value self ≡ array (trees_of ts)) × left self es.1) }
        ensures whole { IfOk result (λ es. is_whole self →
            are_whole es.0 × (value self ≡ array (trees_of (items es.0)))) }
        ensures err { IfErr result (λ e. is_whole self → IsMemory e
            ⊎ ((ts : Trees) → ¬ (value self ≡ array ts))) };

    /// Opens a map.
    fn map(self) -> Result<(Self::Entries, Self::Rest), Fault>
        ensures named { (ns : List (List ℕ)) (ps : List (Tree × Tree)) → only ns ps →
            distinct_names ns ≡ true → apart (keys_of ps) }
        ensures enough { needs true }
        ensures ok { IfOk result (λ es. (ps : List (Tree × Tree)) → holds_pairs es.0 ps →
            apart (keys_of ps) → (value self ≡ map (pairs_of ps)) × left self es.1) }
        ensures whole { IfOk result (λ es. is_whole self →
            pairs_whole es.0 × (value self ≡ map (pairs_of (pairs es.0)))) }
        ensures err { IfErr result (λ e. is_whole self → IsMemory e
            ⊎ ((ps : Pairs) → ¬ (value self ≡ map ps))) };

    /// Opens a described value.
    fn described(self, alloc: Global) -> Result<(Descriptor, Self), Fault>
        ensures ok { IfOk result (λ p. (r : Self.Rest) → left p.1 r →
            (value self ≡ described (descriptor_content p.0) (value p.1)) × left self r) }
        ensures whole { IfOk result (λ p. is_whole self →
            is_whole p.1 × (value self ≡ described (descriptor_content p.0) (value p.1))) }
        ensures err { IfErr result (λ e. is_whole self → IsMemory e
            ⊎ ((d : AnyDescriptor) (t : Tree) → ¬ (value self ≡ described d t))) };

    /// Takes the next element; returns `None` after the last, and if there is none.
    fn next(elements: &mut Self::Elements) -> Option<Self>
        ensures some { IfSome result (λ s. (r : Self.Rest) (ts : List Tree) →
            left s r → waits elements.new r ts → holds elements.old (value s ∷ ts)) }
        ensures some_whole { IfSome result (λ s. are_whole elements.old →
            is_whole s × are_whole elements.new
            × (items elements.old ≡ value s ∷ items elements.new)) }
        ensures fewer { IfSome result (λ _. number elements.new < number elements.old) }
        ensures none { IfNone result ((ts : List Tree) →
            holds elements.new ts → (ts ≡ []) × holds elements.old []) }
        ensures none_whole { IfNone result (are_whole elements.old → are_whole elements.new
            × (items elements.old ≡ []) × (items elements.new ≡ [])) };

    /// Goes on after an element.
    fn resume(elements: &mut Self::Elements, rest: Self::Rest)
        ensures holds { (ts : List Tree) → holds elements.new ts → waits elements.old rest ts }
        ensures number { number elements.new ≡ number elements.old }
        ensures whole { are_whole elements.old →
            are_whole elements.new × (items elements.new ≡ items elements.old) };

    /// Ends a list or an array. A value ignores further elements, and bytes may have none.
    fn close(elements: Self::Elements) -> Result<(), Fault>
        ensures ok { IfOk result (λ _. (ts : List Tree) × holds elements ts) }
        ensures err { IfErr result (λ e. are_whole elements → IsMemory e) };

    /// Adds the name of the field and its index, one less than this number of elements, if places
    /// are kept.
    #[inline(always)]
    fn placed(fault: Fault, _name: &'static str, _count_read: Option<usize>) -> Fault
        ensures { kind_of result ≡ kind_of fault }
    {
        fault
    }

    /// The error for a missing field, whose index is one less than this number of elements, with its
    /// place if places are kept.
    #[inline(always)]
    fn missing(_name: &'static str, _count_read: Option<usize>) -> Fault
        ensures { ¬ (IsMemory result) }
    {
        Fault::invalid()
    }

    /// The number of elements that were asked for, if it is known.
    #[inline(always)]
    fn count_read(_elements: &Self::Elements) -> Option<usize> {
        None
    }

    /// At most the number of elements that are left, for which room can be reserved.
    fn room(elements: &Self::Elements) -> usize
        ensures { result ≤ number elements.now };

    /// Reads the elements of a list or an array, which are scalars of one kind.
    fn scalars<K: Scalar>(alloc: Global, elements: Self::Elements) -> Result<Vec<K>, Fault>
        ensures ok { IfOk result (λ v. (ts : List Tree) × holds elements ts
            × AllZip (λ t x. t ≡ scalar (K.content x)) ts v.items) }
        ensures err { IfErr result (λ e. are_whole elements → IsMemory e
            ⊎ ((xs : List K) → ¬ AllZip (λ t x. t ≡ scalar (K.content x)) (items elements) xs)) };

    /// Takes the next key, with its value from an untyped value, and with `()` from bytes.
    fn next_key(entries: &mut Self::Entries) -> Option<(Self, Self::Pending)>
        ensures some { IfSome result (λ s. (r : Self.Rest) (t : Tree) (ps : List (Tree × Tree)) →
            left s.0 r → waits_value entries.new s.1 r t ps →
            holds_pairs entries.old ((value s.0, t) ∷ ps)) }
        ensures some_whole { IfSome result (λ s. pairs_whole entries.old →
            is_whole s.0 × pairs_whole entries.new
            × (pairs entries.old ≡ (value s.0, promised s.1) ∷ pairs entries.new)) }
        ensures fewer { IfSome result (λ _. pair_number entries.new < pair_number entries.old) }
        ensures none { IfNone result ((ps : List (Tree × Tree)) →
            holds_pairs entries.new ps → (ps ≡ []) × holds_pairs entries.old []) }
        ensures none_whole { IfNone result (pairs_whole entries.old → pairs_whole entries.new
            × (pairs entries.old ≡ []) × (pairs entries.new ≡ [])) };

    /// Takes the value after a key, of which this is left.
    fn value_after(
        entries: &mut Self::Entries,
        pending: Self::Pending,
        rest: Self::Rest,
    ) -> Result<Self, Fault>
        ensures ok { IfOk result (λ s. (r : Self.Rest) (ps : List (Tree × Tree)) →
            left s r → waits_pair entries.new r ps →
            waits_value entries.old pending rest (value s) ps) }
        ensures number { IfOk result (λ _. pair_number entries.new ≡ pair_number entries.old) }
        ensures whole { IfOk result (λ s. pairs_whole entries.old →
            is_whole s × pairs_whole entries.new
            × (value s ≡ promised pending) × (pairs entries.new ≡ pairs entries.old)) }
        ensures err { IfErr result (λ e. pairs_whole entries.old → IsMemory e) };

    /// Goes on after the value of an entry.
    fn resume_entries(entries: &mut Self::Entries, rest: Self::Rest)
        ensures holds { (ps : List (Tree × Tree)) → holds_pairs entries.new ps →
            waits_pair entries.old rest ps }
        ensures number { pair_number entries.new ≡ pair_number entries.old }
        ensures whole { pairs_whole entries.old →
            pairs_whole entries.new × (pairs entries.new ≡ pairs entries.old) };

    /// Takes the value of the key with this name. A value finds it in any order, and bytes only if
    /// it is the next.
    fn take_named(entries: &mut Self::Entries, name: &str) -> Option<Self>
        ensures some { IfSome result (λ s. (r : Self.Rest) (ps : List (Tree × Tree)) →
            left s r → waits_pair entries.new r ps →
            (qs : List (Tree × Tree)) × holds_pairs entries.old qs
            × (value_at name.now qs ≡ Some (value s)) × (without name.now qs ≡ ps)
            × ((ns : List (List ℕ)) → only ns ps → only (name.now ∷ ns) qs)) }
        ensures some_whole { IfSome result (λ s. pairs_whole entries.old →
            is_whole s × pairs_whole entries.new
            × (value_at name.now (pairs entries.old) ≡ Some (value s))
            × (pairs entries.new ≡ without name.now (pairs entries.old))) }
        ensures none { IfNone result ((ps : List (Tree × Tree)) →
            holds_pairs entries.new ps → holds_pairs entries.old ps
            × ((ns : List (List ℕ)) → only ns ps → only (name.now ∷ ns) ps
            × (needs (not (has_name name.now ns)) → (value_at name.now ps ≡ None)
            × (without name.now ps ≡ ps)))) }
        ensures none_whole { IfNone result (pairs_whole entries.old → pairs_whole entries.new
            × (value_at name.now (pairs entries.old) ≡ None)
            × (pairs entries.new ≡ without name.now (pairs entries.old))) }
        ensures needs { (a b : Bool) → needs (a && b) → needs a × needs b }
        ensures enough { needs true };

    /// Ends a map. A value ignores further entries, and bytes may have none.
    fn close_entries(entries: Self::Entries) -> Result<(), Fault>
        ensures ok { IfOk result (λ _. (ps : List (Tree × Tree)) × holds_pairs entries ps
            × only [] ps) }
        ensures err { IfErr result (λ e. pairs_whole entries → IsMemory e) };

    /// The number of entries that were taken, if it is known.
    #[inline(always)]
    fn entries_read(_entries: &Self::Entries) -> Option<usize> {
        None
    }

    /// At most the number of entries that are left, for which room can be reserved.
    fn entry_room(entries: &Self::Entries) -> usize
        ensures { result ≤ pair_number entries.now };
}

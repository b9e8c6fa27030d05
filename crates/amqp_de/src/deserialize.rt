//! Types that are read from a source.

ghost use Rattle.std.specs.Prelude.{◌≡◌, ◌⊎◌, List, map, IfOk, IfErr};
ghost use Rattle.std.specs.Bool.{OnTrue};
ghost use Rattle.std.specs.List.{AllZip, AllByRecursion};
ghost use Rattle.std.specs.Map.{keys_of};
ghost use Rattle.amqp_ser.specs.Tree.{Tree};
ghost use Rattle.amqp_de.specs.Maps.{AreApart};
ghost use Rattle.amqp_de.specs.Reads.{Always};
ghost use Rattle.amqp_de.specs.Results.{IsMemory, Takes, Brings, TakesAll, BringsAll, ReadsAndRestores};
ghost use Rattle.amqp_de.specs.Laws.{Laws};

use crate::fault::Fault;
use crate::room::first_item;
use crate::source::Source;
use std::alloc::Global;

// Ends a list or an array, and returns the values of its elements.
#[inline(always)]
fn ended<T: Drop, S: Source>(elements: S::Elements, values: Vec<T>) -> Result<Vec<T>, Fault>
    ensures ok { IfOk result (λ v. (v ≡ values) × (ts : List Tree) × S.holds elements ts) }
    ensures err { IfErr result (λ e. S.are_whole elements → IsMemory e) }
{
    match S::close(elements) {
        Ok(()) => Ok(values),
        Err(fault) => Err(fault),
    }
}

/// A type that is read from any source.
///
/// # Implementer notes
/// Required method: `read`. Its value is one that `reads` relates to the tree (`read`), and from
/// the image of a restorable value it is `same` as that value, or an allocation fails (`law`). A
/// newtype calls the `read` of its content, as `Box` does; `have_distinct_trees` is for keys of
/// maps.
pub trait Deserialize: Sized + Drop {
    /// Which trees are read as which values.
    ghost reads: { Tree → Self → Type 0 };

    /// The tree of the untyped value that represents a value.
    ghost image: { Self → Tree };

    /// Whether a value round-trips through its image. By default each does.
    ghost restorable: { Self → Type 0 } = { Always };

    /// Whether two values have the same contents. By default only equal ones have.
    ghost same: { Self → Self → Type 0 } = { λ x y. x ≡ y };

    /// Reads a value, and returns what is left.
    fn read<S: Source>(alloc: Global, source: S) -> Result<(Self, S::Rest), Fault>
        ensures read { Takes reads (S.value source) (S.is_whole source) (S.left source) result }
        ensures law { Brings image restorable same (S.value source) (S.is_whole source) result };

    /// Reads all elements of a list or an array.
    #[inline(never)]
    fn read_all<S: Source>(alloc: Global, elements: S::Elements) -> Result<Vec<Self>, Fault>
        ensures ok { IfOk result (λ v. (ts : List Tree) × S.holds elements ts
            × AllZip (ReadsAndRestores reads image restorable same) ts v.items) }
        ensures err { IfErr result (λ e. S.are_whole elements → IsMemory e
            ⊎ ((xs : List Self) → ¬ AllZip reads (S.items elements) xs)) }
        ensures law { (xs : List Self) → AllByRecursion restorable xs →
            S.items elements ≡ map image xs →
            IfErr result (λ e. S.are_whole elements → IsMemory e) }
    {
        let mut elements = elements;
        let room = S::room(&elements);
        let source = match S::next(&mut elements) {
            Some(source) => source,
            None => return ended::<Self, S>(elements, Vec::new(alloc)),
        };
        let (first, rest) = match Self::read(alloc, source) {
            Ok(read) => read,
            Err(fault) => return Err(S::placed(fault, "", S::count_read(&elements))),
        };
        S::resume(&mut elements, rest);
        let mut values = match first_item(alloc, first, room) {
            Ok(values) => values,
            Err(_) => return Err(Fault::memory()),
        };
        'elements: loop {
            let source = match S::next(&mut elements) {
                Some(source) => source,
                None => return ended::<Self, S>(elements, values),
            };
            let (value, rest) = match Self::read(alloc, source) {
                Ok(read) => read,
                Err(fault) => return Err(S::placed(fault, "", S::count_read(&elements))),
            };
            S::resume(&mut elements, rest);
            if values.push(value).is_err() {
                return Err(Fault::memory());
            }
        }
    }

    /// Whether it is certain that the keys of these entries are read from distinct trees.
    fn have_distinct_trees<V>(alloc: Global, entries: &[(Self, V)]) -> bool
        ensures { OnTrue result ((ts : List Tree) →
            AllZip reads ts (keys_of entries.now) → AreApart ts) }
    {
        false
    }

    /// Reads the value, and drops what is left after it.
    final fn deserialize<S: Source>(alloc: Global, source: S) -> Result<Self, Fault>
        ensures read { TakesAll reads (S.value source) (S.is_whole source) result }
        ensures law { BringsAll image restorable same (S.value source) (S.is_whole source) result }
    {
        match Self::read(alloc, source) {
            Ok((value, rest)) => {
                drop(rest);
                Ok(value)
            }
            Err(fault) => Err(fault),
        }
    }
}

/// A type whose laws of reading are one member. Each such type implements [`Deserialize`].
///
/// # Example
/// An enum implements it, whose variants the descriptor selects, and a struct that is described by
/// a code alone; a struct that is described by a code or a name implements `Composite`.
pub trait Readable: Sized + Drop {
    /// How a value is read.
    ghost laws: { Laws Self };

    /// Reads a value, and returns what is left.
    ///
    /// # Errors
    /// Returns an error other than out of memory only if the tree is read as no value, or if the
    /// source is of bytes that were not checked before.
    fn read_value<S: Source>(alloc: Global, source: S) -> Result<(Self, S::Rest), Fault>
        ensures read { Takes laws.reads
            (S.value source) (S.is_whole source) (S.left source) result }
        ensures law { Brings laws.image laws.restorable laws.same
            (S.value source) (S.is_whole source) result };
}

impl<T: Readable> Deserialize for T {
    ghost reads = { T.laws.reads };

    ghost image = { T.laws.image };

    ghost restorable = { T.laws.restorable };

    ghost same = { T.laws.same };

    #[inline(always)]
    fn read<S: Source>(alloc: Global, source: S) -> Result<(T, S::Rest), Fault> {
        T::read_value(alloc, source)
    }
}

//! Arrays of a fixed length, which are read from the first elements of a list.

ghost use Rattle.std.specs.Prelude.{◌≡◌, ◌⊎◌, List, length, map, take, IfOk, IfErr};
ghost use Rattle.std.specs.List.{AllZip, AllByRecursion};
ghost use Rattle.amqp_ser.specs.Tree.{Tree, list, trees_of};
ghost use Rattle.amqp_de.specs.Reads.{OnList, ReadsFirst};
ghost use Rattle.amqp_de.specs.Results.{IsMemory, ReadsAndRestores};

use crate::deserialize::Deserialize;
use crate::fault::Fault;
use crate::room::MAX_RESERVED_VALUES;
use crate::source::Source;
use std::alloc::Global;

/// Reads `count` elements, in order. A source may ignore further elements.
///
/// # Memory
/// Reserves memory for no more than `MAX_RESERVED_VALUES` elements before they are read.
fn read_first<T: Deserialize, S: Source>(
    alloc: Global,
    elements: S::Elements,
    count: usize,
) -> Result<Vec<T>, Fault>
    ensures ok { IfOk result (λ v. (ts : List Tree) × S.holds elements ts × (length v.items ≡ count)
        × AllZip (ReadsAndRestores T.reads T.image T.restorable T.same) (take count ts) v.items) }
    ensures err { IfErr result (λ e. S.are_whole elements → IsMemory e
        ⊎ ((xs : List T) → ¬ ReadsFirst T.reads count (S.items elements) xs)) }
    ensures law { (xs : List T) → AllByRecursion T.restorable xs → length xs ≡ count →
        S.items elements ≡ map T.image xs → IfErr result (λ e. S.are_whole elements → IsMemory e) }
{
    let mut elements = elements;
    let room = S::room(&elements).min(count).min(MAX_RESERVED_VALUES);
    let mut values = match Vec::with_capacity(alloc, room) {
        Ok(values) => values,
        Err(_) => return Err(Fault::memory()),
    };
    'elements: while values.len() < count {
        let source = match S::next(&mut elements) {
            Some(source) => source,
            None => return Err(S::missing("", S::count_read(&elements))),
        };
        let (value, rest) = match T::read(alloc, source) {
            Ok(read) => read,
            Err(fault) => return Err(S::placed(fault, "", S::count_read(&elements))),
        };
        S::resume(&mut elements, rest);
        if values.push(value).is_err() {
            return Err(Fault::memory());
        }
    }
    match S::close(elements) {
        Ok(()) => Ok(values),
        Err(fault) => Err(fault),
    }
}

impl<T: Deserialize, const N: usize> Deserialize for [T; N] {
    ghost reads = { λ t a. OnList (λ ts. ReadsFirst T.reads N ts a) t };

    ghost image = { λ a. list (trees_of (map T.image a)) };

    ghost restorable = { λ a. (length a ≡ N) × AllByRecursion T.restorable a };

    ghost same = { λ a b. AllZip T.same a b };

    fn read<S: Source>(alloc: Global, source: S) -> Result<([T; N], S::Rest), Fault> {
        let (elements, rest) = match source.list() {
            Ok(opened) => opened,
            Err(fault) => return Err(fault),
        };
        let values = match read_first::<T, S>(alloc, elements, N) {
            Ok(values) => values,
            Err(fault) => return Err(fault),
        };
        match <[T; N]>::try_from(values) {
            Ok(array) => Ok((array, rest)),
            Err(_) => Err(Fault::invalid()),
        }
    }
}

//! Encoded bytes, which were not checked before, as a source.

ghost use Rattle.std.specs.Prelude.{◌≡◌, ◌∷◌, [], ℕ, suc, List, Some, true};
ghost use Rattle.amqp_ser.specs.Tree.{Tree, scalar, null};
ghost use Rattle.amqp_decode.specs.Parsed.{parse};
ghost use Rattle.amqp_de.specs.Maps.{AreApart};

use crate::encoded_parts::{
    Encoded, EncodedElements, EncodedEntries, first_descriptor, list_scalars, split_name,
};
use crate::fault::Fault;
use crate::scalar::Scalar;
use crate::source::Source;
use crate::source_kind::{SourceKind, source_kind_of_code};
use amqp_data::Descriptor;
use amqp_decode::prefix::{read_null, read_value_after_code, split_array, split_list, split_map};
use amqp_value::Value;
use std::alloc::Global;

impl<'a> Source for Encoded<'a> {
    ghost use Rattle.amqp_de.specs.EncodedTrees.{encoded_tree, IsFirst};
    ghost use Rattle.amqp_de.specs.EncodedTrees.{HoldsElements, HoldsEntries, HoldsValue, HasOnly};

    type Rest = &'a [u8];

    type Elements = EncodedElements<'a>;

    type Entries = EncodedEntries<'a>;

    type Pending = ();

    ghost value = { encoded_tree };

    ghost left = { λ s r. IsFirst s r.now };

    ghost is_whole = { λ _. ⊥ };

    ghost holds = { λ es ts. HoldsElements es es.bytes.now ts };

    ghost waits = { λ es m ts. HoldsElements es m.now ts };

    ghost items = { λ _. [] };

    ghost are_whole = { λ _. ⊥ };

    ghost number = { λ es. es.left };

    ghost holds_pairs = { λ es ps. HoldsEntries es es.bytes.now ps };

    ghost waits_pair = { λ es m ps. HoldsEntries es m.now ps };

    ghost waits_value = { λ es _ m t ps. HoldsValue es m.now t ps };

    ghost pairs = { λ _. [] };

    ghost promised = { λ _. scalar null };

    ghost pairs_whole = { λ _. ⊥ };

    ghost pair_number = { λ es. es.left };

    ghost apart = { AreApart };

    ghost needs = { λ b. b ≡ true };

    ghost only = { HasOnly };

    #[inline(always)]
    fn knows_maps(_entries: &EncodedEntries<'a>) -> bool {
        false
    }

    #[inline(always)]
    fn is_null(&self) -> bool {
        if self.code == 0x40 { true } else { false }
    }

    #[inline(always)]
    fn source_kind(&self) -> SourceKind {
        source_kind_of_code(self.code)
    }

    #[inline(always)]
    fn null(self) -> Result<&'a [u8], Fault> {
        match read_null(self.code, self.bytes) {
            Ok(rest) => Ok(rest),
            Err(_) => Err(Fault::gave_up()),
        }
    }

    #[inline(always)]
    fn scalar<K: Scalar>(self, alloc: Global) -> Result<(K, &'a [u8]), Fault> {
        match K::from_bytes(alloc, self.code, self.bytes) {
            Ok(read) => Ok(read),
            Err(_) => Err(Fault::gave_up()),
        }
    }

    fn untyped(self, alloc: Global) -> Result<(Value, &'a [u8]), Fault> {
        let mut rest = self.bytes;
        match read_value_after_code(alloc, self.code, &mut rest, self.depth) {
            Ok(value) => Ok((value, rest)),
            Err(_) => Err(Fault::gave_up()),
        }
    }

    #[inline(always)]
    fn list(self) -> Result<(EncodedElements<'a>, &'a [u8]), Fault> {
        let Some(inside) = self.inside() else {
            return Err(Fault::gave_up());
        };
        match split_list(self.code, self.bytes) {
            Ok((left, bytes, after)) => Ok((
                EncodedElements {
                    left,
                    constructor: 0,
                    depth: inside,
                    bytes,
                },
                after,
            )),
            Err(_) => Err(Fault::gave_up()),
        }
    }

    #[inline(always)]
    fn array(self) -> Result<(EncodedElements<'a>, &'a [u8]), Fault> {
        let Some(inside) = self.inside() else {
            return Err(Fault::gave_up());
        };
        match split_array(self.code, self.bytes) {
            Ok((left, constructor, bytes, after)) => {
                if constructor == 0 {
                    return Err(Fault::gave_up());
                }
                Ok((
                    EncodedElements {
                        left,
                        constructor,
                        depth: inside,
                        bytes,
                    },
                    after,
                ))
            }
            Err(_) => Err(Fault::gave_up()),
        }
    }

    #[inline(always)]
    fn map(self) -> Result<(EncodedEntries<'a>, &'a [u8]), Fault> {
        let Some(inside) = self.inside() else {
            return Err(Fault::gave_up());
        };
        match split_map(self.code, self.bytes) {
            Ok((left, bytes, after)) => Ok((
                EncodedEntries {
                    left,
                    depth: inside,
                    bytes,
                },
                after,
            )),
            Err(_) => Err(Fault::gave_up()),
        }
    }

    #[inline(always)]
    fn described(self, alloc: Global) -> Result<(Descriptor, Encoded<'a>), Fault> {
        if self.code != 0 {
            return Err(Fault::gave_up());
        }
        let Some(inside) = self.inside() else {
            return Err(Fault::gave_up());
        };
        let (descriptor, after) = match first_descriptor(alloc, self.bytes) {
            Ok(found) => found,
            Err(_) => return Err(Fault::gave_up()),
        };
        match after.split_first() {
            Some((code, bytes)) => Ok((
                descriptor,
                Encoded {
                    code: *code,
                    bytes,
                    depth: inside,
                },
            )),
            None => Err(Fault::gave_up()),
        }
    }

    #[inline(always)]
    fn next(elements: &mut EncodedElements<'a>) -> Option<Encoded<'a>> {
        if elements.left == 0 {
            return None;
        }
        let mut code = elements.constructor;
        let mut bytes = elements.bytes;
        if code == 0 {
            match bytes.split_first() {
                Some((first, after)) => {
                    code = *first;
                    bytes = after;
                }
                None => return None,
            }
        }
        elements.left -= 1;
        Some(Encoded {
            code,
            bytes,
            depth: elements.depth,
        })
    }

    #[inline(always)]
    fn resume(elements: &mut EncodedElements<'a>, rest: &'a [u8]) {
        elements.bytes = rest;
    }

    #[inline(always)]
    fn close(elements: EncodedElements<'a>) -> Result<(), Fault> {
        if elements.left == 0 && elements.bytes.is_empty() {
            Ok(())
        } else {
            Err(Fault::gave_up())
        }
    }

    #[inline(always)]
    fn room(elements: &EncodedElements<'a>) -> usize {
        (elements.left as usize).min(elements.bytes.len())
    }

    #[inline(never)]
    fn scalars<K: Scalar>(alloc: Global, elements: EncodedElements<'a>) -> Result<Vec<K>, Fault> {
        if elements.constructor != 0 {
            let (left, bytes) = (elements.left, elements.bytes);
            return match K::from_payloads(alloc, elements.constructor, left, bytes) {
                Ok(items) => Ok(items),
                Err(_) => Err(Fault::gave_up()),
            };
        }
        match list_scalars(alloc, elements.left, elements.bytes) {
            Ok(items) => Ok(items),
            Err(fault) => Err(fault),
        }
    }

    #[inline(always)]
    fn next_key(entries: &mut EncodedEntries<'a>) -> Option<(Encoded<'a>, ())> {
        if entries.left == 0 {
            return None;
        }
        let (code, bytes) = entries.bytes.split_first()?;
        entries.left -= 1;
        let key = Encoded {
            code: *code,
            bytes,
            depth: entries.depth,
        };
        Some((key, ()))
    }

    #[inline(always)]
    fn value_after(
        entries: &mut EncodedEntries<'a>,
        _pending: (),
        rest: &'a [u8],
    ) -> Result<Encoded<'a>, Fault> {
        match rest.split_first() {
            Some((code, bytes)) => Ok(Encoded {
                code: *code,
                bytes,
                depth: entries.depth,
            }),
            None => Err(Fault::gave_up()),
        }
    }

    #[inline(always)]
    fn resume_entries(entries: &mut EncodedEntries<'a>, rest: &'a [u8]) {
        entries.bytes = rest;
    }

    #[inline(always)]
    fn take_named(entries: &mut EncodedEntries<'a>, name: &str) -> Option<Encoded<'a>> {
        let (code, bytes) = split_name(name, entries.left, entries.bytes)?;
        entries.left -= 1;
        Some(Encoded {
            code,
            bytes,
            depth: entries.depth,
        })
    }

    #[inline(always)]
    fn close_entries(entries: EncodedEntries<'a>) -> Result<(), Fault> {
        if entries.left == 0 && entries.bytes.is_empty() {
            Ok(())
        } else {
            Err(Fault::gave_up())
        }
    }

    #[inline(always)]
    fn entry_room(entries: &EncodedEntries<'a>) -> usize {
        (entries.left as usize).min(entries.bytes.len())
    }
}

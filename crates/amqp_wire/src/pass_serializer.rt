//! Serializes values by a pass.

ghost use Rattle.std.specs.Prelude.{◌≡◌, [], Option, Some, None, Result, Ok, Err, IfErr, IsErr};
ghost use Rattle.amqp_ser.specs.Tree.{Tree};

use crate::pass::{GaveUp, Pass, done};
use crate::pass_begin::{has_header, header_of};
use crate::pass_compound::{PassCompound, resolve};
use crate::position::Position;
use crate::put::{number_forms, text_codes};
use crate::sink::{HeaderKind, Sink};
use amqp_data::EncodingCodes;
use amqp_ser::{CompoundKind, Fixed, Marker, Serializer, Whole};
use amqp_size::{ResolvedKind, ScalarMarker};

impl<K: Sink> Serializer for Pass<K> {
    ghost use Rattle.amqp_wire.specs.Gives.{Gives, nothing_of_none, Has, Awaits, AwaitsDescriptor};
    ghost use Rattle.amqp_ser.specs.Ends.{EndsPart, EndsDescriptor};
    ghost use Rattle.amqp_ser.specs.Composites.{descriptor_of};
    ghost use Rattle.amqp_ser.specs.declared.kind.CompoundKind.{CompoundKind};

    type Ok = ();

    type Error = GaveUp;

    type Open = PassCompound;

    ghost permits = { Gives K.adds K.reads K.extends };

    ghost has = { Has K.adds K.reads K.within K.extends K.marks };

    ghost awaits = { Awaits K.adds K.reads K.within K.extends K.marks };

    ghost awaits_descriptor = { AwaitsDescriptor K.adds K.reads K.within K.extends K.marks };

    ghost is_misuse_error = { λ _. Unit {0} };

    ghost refuses_none = { nothing_of_none K.adds K.reads K.extends };

    #[tactic(auto, using(crate::proofs::Given::number_put))]
    #[inline(always)]
    fn serialize_fixed(&mut self, fixed: Fixed) -> Result<(), GaveUp> {
        match number_forms(self.marker, fixed) {
            Some(forms) => done(self.number(forms.in_array, forms.ordinary)),
            None => Err(GaveUp),
        }
    }

    #[inline(always)]
    fn serialize_null(&mut self) -> Result<(), GaveUp> {
        self.serialize_fixed(Fixed::Null)
    }

    #[inline(always)]
    fn serialize_str(&mut self, v: &str) -> Result<(), GaveUp> {
        match text_codes(self.marker) {
            Some(codes) => done(self.text(codes.short, codes.long, v.as_bytes())),
            None => Err(GaveUp),
        }
    }

    #[inline(always)]
    fn serialize_bytes(&mut self, v: &[u8]) -> Result<(), GaveUp> {
        match self.marker {
            Some(Marker::Other) => done(self.text(
                EncodingCodes::Vbin8 as u8,
                EncodingCodes::Vbin32 as u8,
                v,
            )),
            Some(Marker::Decimal32) => done(self.marked(ScalarMarker::Decimal32, v)),
            Some(Marker::Decimal64) => done(self.marked(ScalarMarker::Decimal64, v)),
            Some(Marker::Decimal128) => done(self.marked(ScalarMarker::Decimal128, v)),
            Some(Marker::Uuid) => done(self.marked(ScalarMarker::Uuid, v)),
            Some(Marker::Lazy) => done(self.lazy(v)),
            _ => Err(GaveUp),
        }
    }

    #[inline(always)]
    fn set_marker(&mut self, marker: Marker) {
        match marker {
            Marker::Other => {}
            _ => match self.marker {
                Some(Marker::Other) => self.marker = Some(marker),
                _ => self.marker = None,
            },
        }
    }

    #[inline(always)]
    fn begin_compound(&mut self, kind: CompoundKind) -> PassCompound {
        let resolved = resolve(kind, self.marker);
        if has_header(resolved) {
            return self.begin_headed(resolved);
        }
        match resolved {
            ResolvedKind::Variant(index) => self.begin_variant(index),
            ResolvedKind::NewtypeVariant(index) => self.begin_newtype_variant(index),
            ResolvedKind::Transparent => self.begin_transparent(),
            ResolvedKind::Single => self.begin_single(),
            _ => PassCompound::refused(),
        }
    }

    #[inline(always)]
    fn placeholder(&self) -> PassCompound {
        PassCompound::refused()
    }

    #[inline(always)]
    fn begin_part(&mut self, compound: &mut PassCompound) {
        self.position = compound.position;
        self.marker = compound.marker;
        compound.mark = self.sink.mark();
    }

    #[inline(always)]
    fn end_part(
        &mut self,
        compound: &mut PassCompound,
        part: Result<(), GaveUp>,
    ) -> Result<(), GaveUp>
        ensures step { EndsPart (Gives K.adds K.reads K.extends)
            (Has K.adds K.reads K.within K.extends K.marks)
            (Awaits K.adds K.reads K.within K.extends K.marks)
            self.old compound.old part result self.new compound.new }
        ensures refused { IfErr part (λ _. IsErr result) }
    {
        match part {
            Ok(()) => {
                if compound.take(self.position) {
                    return Ok(());
                }
                self.sink.restore(compound.mark);
                Err(GaveUp)
            }
            Err(e) => {
                self.sink.restore(compound.mark);
                Err(e)
            }
        }
    }

    #[inline(always)]
    fn begin_descriptor(&mut self, compound: &mut PassCompound) {
        compound.mark = self.sink.mark();
        self.position = Position::Descriptor;
        self.marker = None;
        if self.sink.few(&[EncodingCodes::DescribedType as u8]) {
            self.marker = Some(Marker::Other);
        }
    }

    #[inline(always)]
    fn end_descriptor(
        &mut self,
        compound: &mut PassCompound,
        part: Result<(), GaveUp>,
    ) -> Result<(), GaveUp>
        ensures step { EndsDescriptor (Gives K.adds K.reads K.extends)
            (Has K.adds K.reads K.within K.extends K.marks)
            (AwaitsDescriptor K.adds K.reads K.within K.extends K.marks)
            self.old compound.old part result self.new compound.new }
        ensures refused { IfErr part (λ _. IsErr result) }
        ensures other_kinds { (start before : Pass K) (d : Option Tree) →
            AwaitsDescriptor K.adds K.reads K.within K.extends K.marks start before compound.old →
            Gives K.adds K.reads K.extends before d part self.old →
            descriptor_of d ≡ None → IsErr result }
    {
        match part {
            Ok(()) => {
                if compound.is_descriptor() {
                    self.sink.restore(compound.mark);
                    return Err(GaveUp);
                }
                self.sink.rest();
                if compound.is_unmarked() {
                    compound.position = Position::Inside;
                    return Ok(());
                }
                compound.refuse();
                Ok(())
            }
            Err(e) => {
                self.sink.restore(compound.mark);
                Err(e)
            }
        }
    }

    #[inline(always)]
    fn undo_part(&mut self, compound: &mut PassCompound) {
        if let ResolvedKind::Map = compound.kind {
            self.sink.restore(compound.before_last);
            compound.count = compound.count.saturating_sub(1);
        }
    }

    #[inline(always)]
    fn misuse_error(&mut self, _compound: &mut PassCompound) -> GaveUp {
        GaveUp
    }

    #[inline(always)]
    fn end(&mut self, compound: PassCompound) -> Result<(), GaveUp> {
        let element = compound.after.is_element();
        self.position = compound.after;
        if has_header(compound.kind) {
            let header = header_of(compound.kind);
            return done(
                self.sink
                    .close(element, header, compound.opened, compound.count),
            );
        }
        match compound.kind {
            ResolvedKind::Variant(_) => done(self.close_variant(
                element,
                compound.outer,
                compound.opened,
                compound.count,
            )),
            ResolvedKind::NewtypeVariant(_) => done(
                self.sink.close(element, HeaderKind::Map, compound.outer, 2),
            ),
            ResolvedKind::Transparent => Ok(()),
            ResolvedKind::Single => Ok(()),
            _ => Err(GaveUp),
        }
    }

    #[inline(always)]
    fn try_whole<W: Whole>(&mut self, whole: &W) -> Option<()> {
        if !self.takes_whole() {
            return None;
        }
        let mark = self.sink.mark();
        if self.sink.whole(whole) {
            self.tries_parts = true;
            return Some(());
        }
        self.sink.restore(mark);
        self.tries_parts = false;
        None
    }
}

//! tools/derive wrote this file from transfer.rt: it is not edited by hand.

ghost use Rattle.std.specs.Prelude.{◌≡◌, None, false, codes};
ghost use Rattle.serde_amqp.specs.Derive.{value_or, ◌▸◌, by_parts, after_code};

use super::{ByteBuf, DeliveryState, Disposition, ReceiverSettleMode, Role, Transfer};
use serde_amqp::derive::{
    Composite, Fault, Four, Global, ListOf, Of, One, Record, RoundTripComposite, Serialize,
    SerializeCompounds, Serializer, Shape, ShapeTree, Source, built, composite_returns, fields,
    named, read_shaped,
};

type TransferShape = ListOf<Four<Of<u32>, Option<u32>, Option<ByteBuf>, Option<u32>, Row>>;

type Row = Four<Option<bool>, Option<bool>, Kind, Option<DeliveryState>, One<Option<bool>, Row2>>;

type Row2 = One<Option<bool>, One<Option<bool>, ()>>;

type Kind = Option<ReceiverSettleMode>;

impl Record for Transfer {
    type Values = <TransferShape as Shape>::Value;

    ghost parts = { λ x. x.handle ▸ x.delivery_id ▸ x.delivery_tag ▸ x.message_format ▸ x.settled ▸
        x.more ▸ x.rcv_settle_mode ▸ x.state ▸ x.resume ▸ x.aborted ▸ x.batchable ▸ tt };

    fn from_parts(values: <TransferShape as Shape>::Value) -> Transfer {
        built! { values => Transfer {
            handle, delivery_id, delivery_tag, message_format, settled, more, rcv_settle_mode,
            state, resume, aborted, batchable
        } }
    }
}

impl Composite for Transfer {
    ghost descriptor_code = { 0x14 };

    ghost descriptor_name = { codes "amqp:transfer:list" };

    ghost body = { by_parts ⟦<TransferShape as Shape>⟧.laws ⟦<Transfer as Record>⟧.parts };

    fn descriptor() -> (u64, &'static str) {
        (0x14, "amqp:transfer:list")
    }

    #[inline(always)]
    fn read_body<S: Source>(alloc: Global, source: S) -> Result<(Transfer, S::Rest), Fault> {
        let fields = named! {
            "handle", "delivery-id"?, "delivery-tag"?, "message-format"?, "settled"?, "more"?,
            "rcv-settle-mode"?, "state"?, "resume"?, "aborted"?, "batchable"?
        };
        read_shaped(alloc, source, ListOf(fields))
    }
}

impl Serialize for Transfer {
    ghost tree = { after_code 0x14 ⟦<TransferShape as ShapeTree>⟧.tree
        ⟦<Transfer as Record>⟧.parts };

    fn serialize<S: Serializer>(&self, serializer: &mut S) -> Result<S::Ok, S::Error> {
        serializer.serialize_described(
            &0x14u64,
            &ListOf(fields! {
                "handle": &self.handle, "delivery-id"?: &self.delivery_id,
                "delivery-tag"?: &self.delivery_tag, "message-format"?: &self.message_format,
                "settled"?: &self.settled, "more"?: &self.more,
                "rcv-settle-mode"?: &self.rcv_settle_mode, "state"?: &self.state,
                "resume"?: &self.resume, "aborted"?: &self.aborted, "batchable"?: &self.batchable
            }),
        )
    }
}

impl RoundTripComposite for Transfer {
    fn composite_law() {
        composite_returns::<Transfer, TransferShape>();
    }
}

impl Transfer {
    /// Returns a value with these fields. The others are `None`.
    pub fn new(handle: u32) -> Transfer
        ensures { ⟦<Transfer as Record>⟧.parts result ≡ handle ▸ None ▸ None ▸ None ▸ None ▸ None ▸
            None ▸ None ▸ None ▸ None ▸ None ▸ tt }
    {
        Transfer {
            handle,
            delivery_id: None,
            delivery_tag: None,
            message_format: None,
            settled: None,
            more: None,
            rcv_settle_mode: None,
            state: None,
            resume: None,
            aborted: None,
            batchable: None,
        }
    }

    /// Returns `more`, or `false` if it is absent.
    pub fn more_or_default(&self) -> bool
        ensures { result ≡ value_or false self.now.more }
    {
        self.more.unwrap_or(false)
    }

    /// Returns `resume`, or `false` if it is absent.
    pub fn resume_or_default(&self) -> bool
        ensures { result ≡ value_or false self.now.resume }
    {
        self.resume.unwrap_or(false)
    }

    /// Returns `aborted`, or `false` if it is absent.
    pub fn aborted_or_default(&self) -> bool
        ensures { result ≡ value_or false self.now.aborted }
    {
        self.aborted.unwrap_or(false)
    }

    /// Returns `batchable`, or `false` if it is absent.
    pub fn batchable_or_default(&self) -> bool
        ensures { result ≡ value_or false self.now.batchable }
    {
        self.batchable.unwrap_or(false)
    }
}

type DispositionShape = ListOf<Four<Of<Role>, Of<u32>, Option<u32>, Option<bool>, Row3>>;

type Row3 = One<Option<DeliveryState>, One<Option<bool>, ()>>;

impl Record for Disposition {
    type Values = <DispositionShape as Shape>::Value;

    ghost parts = { λ x. x.role ▸ x.first ▸ x.last ▸ x.settled ▸ x.state ▸ x.batchable ▸ tt };

    fn from_parts(values: <DispositionShape as Shape>::Value) -> Disposition {
        built! { values => Disposition { role, first, last, settled, state, batchable } }
    }
}

impl Composite for Disposition {
    ghost descriptor_code = { 0x15 };

    ghost descriptor_name = { codes "amqp:disposition:list" };

    ghost body = { by_parts ⟦<DispositionShape as Shape>⟧.laws ⟦<Disposition as Record>⟧.parts };

    fn descriptor() -> (u64, &'static str) {
        (0x15, "amqp:disposition:list")
    }

    #[inline(always)]
    fn read_body<S: Source>(alloc: Global, source: S) -> Result<(Disposition, S::Rest), Fault> {
        let fields = named! { "role", "first", "last"?, "settled"?, "state"?, "batchable"? };
        read_shaped(alloc, source, ListOf(fields))
    }
}

impl Serialize for Disposition {
    ghost tree = { after_code 0x15 ⟦<DispositionShape as ShapeTree>⟧.tree
        ⟦<Disposition as Record>⟧.parts };

    fn serialize<S: Serializer>(&self, serializer: &mut S) -> Result<S::Ok, S::Error> {
        serializer.serialize_described(
            &0x15u64,
            &ListOf(fields! {
                "role": &self.role, "first": &self.first, "last"?: &self.last,
                "settled"?: &self.settled, "state"?: &self.state, "batchable"?: &self.batchable
            }),
        )
    }
}

impl RoundTripComposite for Disposition {
    fn composite_law() {
        composite_returns::<Disposition, DispositionShape>();
    }
}

impl Disposition {
    /// Returns a value with these fields. The others are `None`.
    pub fn new(role: Role, first: u32) -> Disposition
        ensures { ⟦<Disposition as Record>⟧.parts result ≡ role ▸ first ▸ None ▸ None ▸ None ▸ None
            ▸ tt }
    {
        Disposition {
            role,
            first,
            last: None,
            settled: None,
            state: None,
            batchable: None,
        }
    }

    /// Returns `settled`, or `false` if it is absent.
    pub fn settled_or_default(&self) -> bool
        ensures { result ≡ value_or false self.now.settled }
    {
        self.settled.unwrap_or(false)
    }

    /// Returns `batchable`, or `false` if it is absent.
    pub fn batchable_or_default(&self) -> bool
        ensures { result ≡ value_or false self.now.batchable }
    {
        self.batchable.unwrap_or(false)
    }
}

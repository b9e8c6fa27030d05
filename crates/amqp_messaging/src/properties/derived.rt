//! tools/derive wrote this file from properties.rt: it is not edited by hand.

ghost use Rattle.std.specs.Prelude.{◌≡◌, None, codes};
ghost use Rattle.serde_amqp.specs.Derive.{◌▸◌, by_parts, after_code};

use super::{Address, ByteBuf, MessageId, Properties, Symbol, Timestamp};
use serde_amqp::derive::{
    Composite, Fault, Four, Global, ListOf, One, Record, RoundTripComposite, Serialize,
    SerializeCompounds, Serializer, Shape, ShapeTree, Source, built, composite_returns, fields,
    named, read_shaped,
};

type PropertiesShape = ListOf<Row>;

type Row = Four<Option<MessageId>, Option<ByteBuf>, Option<Address>, Option<String>, Row2>;

type Row2 = Four<Option<Address>, Option<MessageId>, Option<Symbol>, Option<Symbol>, Row3>;

type Row3 = Four<Option<Timestamp>, Option<Timestamp>, Option<String>, Option<u32>, Row4>;

type Row4 = One<Option<String>, ()>;

impl Record for Properties {
    type Values = <PropertiesShape as Shape>::Value;

    ghost parts = { λ x. x.message_id ▸ x.user_id ▸ x.to ▸ x.subject ▸ x.reply_to ▸ x.correlation_id
        ▸ x.content_type ▸ x.content_encoding ▸ x.absolute_expiry_time ▸ x.creation_time ▸
        x.group_id ▸ x.group_sequence ▸ x.reply_to_group_id ▸ tt };

    fn from_parts(values: <PropertiesShape as Shape>::Value) -> Properties {
        built! { values => Properties {
            message_id, user_id, to, subject, reply_to, correlation_id, content_type,
            content_encoding, absolute_expiry_time, creation_time, group_id, group_sequence,
            reply_to_group_id
        } }
    }
}

impl Composite for Properties {
    ghost descriptor_code = { 0x73 };

    ghost descriptor_name = { codes "amqp:properties:list" };

    ghost body = { by_parts ⟦<PropertiesShape as Shape>⟧.laws ⟦<Properties as Record>⟧.parts };

    fn descriptor() -> (u64, &'static str) {
        (0x73, "amqp:properties:list")
    }

    #[inline(always)]
    fn read_body<S: Source>(alloc: Global, source: S) -> Result<(Properties, S::Rest), Fault> {
        let fields = named! {
            "message-id"?, "user-id"?, "to"?, "subject"?, "reply-to"?, "correlation-id"?,
            "content-type"?, "content-encoding"?, "absolute-expiry-time"?, "creation-time"?,
            "group-id"?, "group-sequence"?, "reply-to-group-id"?
        };
        read_shaped(alloc, source, ListOf(fields))
    }
}

impl Serialize for Properties {
    ghost tree = { after_code 0x73 ⟦<PropertiesShape as ShapeTree>⟧.tree
        ⟦<Properties as Record>⟧.parts };

    fn serialize<S: Serializer>(&self, serializer: &mut S) -> Result<S::Ok, S::Error> {
        serializer.serialize_described(
            &0x73u64,
            &ListOf(fields! {
                "message-id"?: &self.message_id, "user-id"?: &self.user_id, "to"?: &self.to,
                "subject"?: &self.subject, "reply-to"?: &self.reply_to,
                "correlation-id"?: &self.correlation_id, "content-type"?: &self.content_type,
                "content-encoding"?: &self.content_encoding,
                "absolute-expiry-time"?: &self.absolute_expiry_time,
                "creation-time"?: &self.creation_time, "group-id"?: &self.group_id,
                "group-sequence"?: &self.group_sequence,
                "reply-to-group-id"?: &self.reply_to_group_id
            }),
        )
    }
}

impl RoundTripComposite for Properties {
    fn composite_law() {
        composite_returns::<Properties, PropertiesShape>();
    }
}

//! Callers of the crates, as a user writes them: their contracts follow from those of the crates.
//!
//! `main` computes the length of a message, writes its bytes, prints it as an untyped value, splits
//! the bytes into the message's sections and decodes each section; counts the message's nodes with
//! the serializer `NodeCounter`; compares a property of another message; writes and reads structs
//! of one to 32 fields; and reads gusts of wind.
//!
//! - `message`, `room`: the sections of a message, and a value that is written only if it fits.
//! - `ranges`: an untyped value that is encoded and decoded again.
//! - `filter`: a filter by a property. It depends on the public contracts of `amqp_value` alone.
//! - `counter`: the serializer, which counts the nodes of a tree.
//! - `weather`: the program of `docs/GETTING_STARTED.md`.
//! - `widths`: structs of one to 32 fields.
#![tactic(auto)]

mod counter;
mod filter;
mod message;
mod ranges;
mod room;
mod weather;
mod widths;

use counter::count_nodes;
use filter::{has_at_least, properties_of};
use message::{Header, Properties, Section};
use ranges::encode_and_decode;
use room::bytes_for_frame;
use serde_amqp::decode::decode_value;
use serde_amqp::extensions::TransparentVec;
use serde_amqp::lazy::LazyValue;
use serde_amqp::primitives::{OrderedMap, Symbol};
use serde_amqp::read::SliceReader;
use serde_amqp::{Error, Value, serialized_size, to_value};
use std::alloc::Global;

fn main(rt: HostRuntime) -> Result<(), Error> {
    send_and_receive(&rt)?;
    widths::print_lengths(&rt, rt.alloc())?;
    weather::main(rt)
}

fn send_and_receive(rt: &(impl Print + AllocGlobal)) -> Result<(), Error> {
    let alloc = rt.alloc();
    let message = new_order(alloc)?;

    // The length is known before anything is written. Computing it allocates nothing.
    let _ = println!(rt; "{} bytes", serialized_size(&message)?);
    let bytes = bytes_for_frame(alloc, &message, 512)?;

    // The untyped value is printed, for example to a log.
    let value = to_value(alloc, &message)?;
    let _ = println!(rt; "{}", encode_and_decode(alloc, &value)?);

    // A receiver splits off one section at a time. It can decode a section or keep its bytes.
    let mut reader = SliceReader::new(&bytes);
    for _ in message.iter() {
        let section = LazyValue::from_reader(alloc, &mut reader)?;
        print_section(rt, alloc, &section)?;
    }

    // A user-defined serializer counts the nodes of the same message.
    let _ = println!(rt; "{} nodes", count_nodes(&message)?);

    // A subscriber takes the messages whose priority is at least 4.
    let _ = println!(rt; "is urgent: {}", is_urgent(alloc, 4)?);
    Ok(())
}

// Returns whether a message of priority 5 has at least the priority `wanted`.
fn is_urgent(alloc: Global, wanted: i64) -> Result<bool, Error> {
    let name = Symbol::try_from_str(alloc, "x-priority")?;
    let mut entries = OrderedMap::new(alloc);
    drop(entries.insert(Symbol::try_from_str(alloc, "x-priority")?, 5i64)?);
    match properties_of(Value::try_from_ordered_map(alloc, entries)?) {
        Ok(properties) => Ok(has_at_least(&properties, &name, &Value::Long(wanted))),
        Err(_) => Err(Error::InvalidValue),
    }
}

// Prints the bytes of a section in hexadecimal and, for the body, its text.
fn print_section(rt: &impl Print, alloc: Global, section: &LazyValue) -> Result<(), Error> {
    for byte in section.as_slice() {
        let _ = print!(rt; "{byte:02x}");
    }
    let _ = println!(rt; "");
    if let Value::Described(described) = decode_value(alloc, section.as_slice())? {
        if let Value::String(body) = &described.value {
            let _ = println!(rt; "the body is {body}");
        }
    }
    Ok(())
}

// Returns the message: its sections in the order of AMQP 1.0 part 3, section 3.2.
fn new_order(alloc: Global) -> Result<TransparentVec<Section>, Error> {
    let mut sections = Vec::new(alloc);
    sections.push(Section::Header(Header {
        durable: Some(true),
        priority: Some(4),
        ttl: None,
    }))?;
    sections.push(addressed_to(alloc, "orders")?)?;
    sections.push(with_retries(alloc, 3)?)?;
    sections.push(Section::Body(String::from_str(alloc, "Hello, World!")?))?;
    Ok(TransparentVec::new(sections))
}

fn addressed_to(alloc: Global, address: &str) -> Result<Section, Error> {
    Ok(Section::Properties(Properties {
        message_id: Some(7),
        user_id: None,
        to: Some(String::from_str(alloc, address)?),
        subject: None,
    }))
}

fn with_retries(alloc: Global, retries: i32) -> Result<Section, Error> {
    let mut entries = OrderedMap::new(alloc);
    drop(entries.insert(String::from_str(alloc, "retries")?, retries)?);
    Ok(Section::ApplicationProperties(entries))
}

//! Fields of protobuf messages, and messages by the numbers of their fields.
use list_types::Refusal;
use row_lines::{NoAnswer, bytes, say, tell, tell_hex};
use std::alloc::Global;
use wire_fields::{Field, Fields, WireFault, Writer};
use wire_messages::{Message, Unreadable};

fn tell_number(told: &mut String, kind: &str, number: u32, value: u64) {
    say(told, kind);
    tell(told, (number, value));
}

fn tell_field(alloc: Global, told: &mut String, field: Field<'_>) {
    match field {
        Field::Varint { number, value } => tell_number(told, "Varint", number, value),
        Field::Fixed64 { number, value } => tell_number(told, "Fixed64", number, value),
        Field::Bytes { number, bytes } => {
            say(told, "Bytes");
            tell(told, number);
            tell_hex(alloc, told, bytes);
        }
        Field::Fixed32 { number, value } => {
            tell_number(told, "Fixed32", number, u64::from(value));
        }
    }
}

fn fault_name(fault: WireFault) -> &'static str {
    match fault {
        WireFault::Truncated => "Truncated",
        WireFault::VarintLong => "VarintLong",
        WireFault::BadType => "BadType",
        WireFault::ZeroField => "ZeroField",
    }
}

/// Of a message: what three calls answer in turn; the end and a fault are answered again.
pub fn fields(alloc: Global, asked: &[&str], told: &mut String) -> Result<(), NoAnswer> {
    let [hex] = asked else {
        return Err(NoAnswer);
    };
    let message = bytes(alloc, hex)?;
    let mut fields = Fields::new(&message);
    for _ in 0..3u32 {
        match fields.next() {
            Ok(Some(field)) => tell_field(alloc, told, field),
            Ok(None) => say(told, "End"),
            Err(fault) => say(told, fault_name(fault)),
        }
    }
    Ok(())
}

/// Of a field's number with a value, and another's with bytes: what is written after the one, and in all.
pub fn written(alloc: Global, asked: &[&str], told: &mut String) -> Result<(), NoAnswer> {
    let [first, value, second, hex] = asked else {
        return Err(NoAnswer);
    };
    let first = first.parse::<u32>()?;
    let second = second.parse::<u32>()?;
    if first == 0 || first > 536_870_911 || second == 0 || second > 536_870_911 {
        return Err(NoAnswer);
    }
    let mut writer = Writer::new(alloc);
    writer.varint(first, value.parse::<u64>()?)?;
    tell_hex(alloc, told, writer.as_slice());
    writer.bytes(second, &bytes(alloc, hex)?)?;
    tell_hex(alloc, told, &writer.finish());
    Ok(())
}

/// Of a message: its fields 1 to 5 as uint32, int32, bool, uint64 and int64.
pub fn numbers(alloc: Global, asked: &[&str], told: &mut String) -> Result<(), NoAnswer> {
    let [hex] = asked else {
        return Err(NoAnswer);
    };
    let input = bytes(alloc, hex)?;
    let Ok(message) = Message::read(&input) else {
        say(told, "Unreadable");
        return Ok(());
    };
    tell(told, message.uint32(1));
    tell(told, message.int32(2));
    tell(told, message.boolean(3));
    tell(told, message.uint64(4));
    tell(told, message.int64(5));
    Ok(())
}

// What is read, or that it is not; without memory there is no answer.
fn read<T: Drop>(found: Result<T, Refusal<Unreadable>>) -> Result<Result<T, Unreadable>, NoAnswer> {
    match found {
        Ok(value) => Ok(Ok(value)),
        Err(Refusal::For(cause)) => Ok(Err(cause)),
        Err(Refusal::NoMemory) => Err(NoAnswer),
    }
}

// How many messages a field has.
fn messages(message: &Message<'_>, number: u32) -> Result<usize, Unreadable> {
    let mut left = message.messages(number);
    let mut count: usize = 0;
    'messages: while left.next()?.is_some() {
        count = count.saturating_add(1);
    }
    Ok(count)
}

/// Of a message: field 1 as bytes, 2 as a text, 3 as a message, how many messages 4 and texts 5 has, the numbers of 6,
/// the choice of 7 and 8, whether 9 is given, and whether no field is above 9.
pub fn parts(alloc: Global, asked: &[&str], told: &mut String) -> Result<(), NoAnswer> {
    let [hex] = asked else {
        return Err(NoAnswer);
    };
    let input = bytes(alloc, hex)?;
    let Ok(message) = Message::read(&input) else {
        say(told, "Unreadable");
        return Ok(());
    };
    tell(told, message.bytes(1));
    tell(told, message.text(2));
    tell(told, message.message(3));
    tell(told, messages(&message, 4));
    tell(told, read(message.texts(alloc, 5).map(|list| list.len()))?);
    tell(told, read(message.uint32s(alloc, 6))?);
    tell(told, message.choice(&[7, 8]));
    tell(told, message.is_given(9));
    tell(told, message.has_only(&[1, 2, 3, 4, 5, 6, 7, 8, 9]));
    Ok(())
}

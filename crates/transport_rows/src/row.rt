//! A line of what happens on a connection.
use crate::text::{push_events, push_hex, push_number};
use h2_conn::Conn;
use hpack_tables::Header;
use list_types::{ByteList, List, Refusal};
use std::alloc::Global;

/// The line is none that has an answer.
#[derive(Clone, Copy)]
pub struct BadRow;

// How the bytes of a line come.
#[derive(Clone, Copy)]
enum Cut {
    // As they stand in the line.
    Nowhere,
    // One by one.
    Everywhere,
    // In one piece more, which ends behind so many bytes of the line.
    Behind(usize),
}

// What a connection gave and sent, and how many bytes came.
#[derive(Drop)]
struct Outcome {
    text: String,
    fed: usize,
}

// A connection, and what it has given so far.
#[derive(Drop)]
struct Run {
    conn: Conn,
    text: String,
    cut: Cut,
    // How many bytes came.
    fed: usize,
    // A breach has ended the connection.
    ended: bool,
}

fn number_of(word: &str) -> Result<u32, Refusal<BadRow>> {
    word.parse::<u32>().ok().ok_or(Refusal::For(BadRow))
}

// Adds hex, or hex and how many times.
fn push_part(alloc: Global, bytes: &mut ByteList, part: &str) -> Result<(), Refusal<BadRow>> {
    let (digits, count) = match part.split_once('*') {
        Some((digits, count)) => (digits, number_of(count)?),
        None => (part, 1),
    };
    let Ok(once) = hex::decode(alloc, digits.as_bytes()) else {
        return Err(Refusal::For(BadRow));
    };
    for _ in 0..count {
        bytes.extend_from_slice(once.as_slice())?;
    }
    Ok(())
}

fn bytes_of(alloc: Global, word: &str) -> Result<ByteList, Refusal<BadRow>> {
    let mut bytes = ByteList::new(alloc);
    for part in word.split('+') {
        push_part(alloc, &mut bytes, part)?;
    }
    Ok(bytes)
}

// A piece: its events, and the code of a breach.
fn feed_piece(alloc: Global, run: &mut Run, piece: &[u8]) -> Result<Option<u32>, Refusal<BadRow>> {
    let (events, code) = run.conn.feed(alloc, piece)?;
    push_events(alloc, &mut run.text, events.as_slice())?;
    match code {
        Some(code) => Ok(Some(code.number())),
        None => Ok(None),
    }
}

fn feed_each(alloc: Global, run: &mut Run, bytes: &[u8]) -> Result<Option<u32>, Refusal<BadRow>> {
    let mut code = None;
    for byte in bytes {
        code = feed_piece(alloc, run, &[*byte])?;
    }
    Ok(code)
}

fn feed_in_two(
    alloc: Global,
    run: &mut Run,
    bytes: &[u8],
    place: usize,
) -> Result<Option<u32>, Refusal<BadRow>> {
    let (front, rest) = bytes.split_at(place.saturating_sub(run.fed).min(bytes.len()));
    let _ = feed_piece(alloc, run, front)?;
    feed_piece(alloc, run, rest)
}

// Bytes come, cut as the run says.
fn feed_cut(alloc: Global, run: &mut Run, bytes: &[u8]) -> Result<Option<u32>, Refusal<BadRow>> {
    match run.cut {
        Cut::Nowhere => feed_piece(alloc, run, bytes),
        Cut::Everywhere => feed_each(alloc, run, bytes),
        Cut::Behind(place) => feed_in_two(alloc, run, bytes, place),
    }
}

// A code is told once, or again where that is asked for.
fn tell_code(
    alloc: Global,
    run: &mut Run,
    code: Option<u32>,
    again: bool,
) -> Result<(), Refusal<BadRow>> {
    let Some(number) = code else {
        return Ok(());
    };
    if again || !run.ended {
        push_number(alloc, &mut run.text, " code=", u64::from(number))?;
    }
    run.ended = true;
    Ok(())
}

fn feed(alloc: Global, run: &mut Run, word: &str, again: bool) -> Result<(), Refusal<BadRow>> {
    let bytes = bytes_of(alloc, word)?;
    let code = feed_cut(alloc, run, bytes.as_slice())?;
    run.fed = run.fed.saturating_add(bytes.len());
    tell_code(alloc, run, code, again)
}

fn header_of(alloc: Global, word: &str) -> Result<Header, Refusal<BadRow>> {
    let Some((name, value)) = word.split_once('=') else {
        return Err(Refusal::For(BadRow));
    };
    let name = bytes_of(alloc, name)?;
    let value = bytes_of(alloc, value)?;
    Ok(Header { name, value })
}

fn headers_of(alloc: Global, word: &str) -> Result<List<Header>, Refusal<BadRow>> {
    let mut headers = List::new(alloc);
    for part in word.split(',') {
        let header = header_of(alloc, part)?;
        headers.push(header)?;
    }
    Ok(headers)
}

fn send_headers_to(
    alloc: Global,
    conn: &mut Conn,
    stream: &str,
    list: &str,
    end_stream: bool,
) -> Result<(), Refusal<BadRow>> {
    let stream = number_of(stream)?;
    let headers = headers_of(alloc, list)?;
    Ok(conn.send_headers(alloc, stream, headers.as_slice(), end_stream)?)
}

fn send_headers(alloc: Global, conn: &mut Conn, word: &str) -> Result<(), Refusal<BadRow>> {
    let Some((stream, rest)) = word.split_once(':') else {
        return Err(Refusal::For(BadRow));
    };
    match rest.split_once(':') {
        Some((end, list)) => send_headers_to(alloc, conn, stream, list, end == "end"),
        None => Err(Refusal::For(BadRow)),
    }
}

fn send_data(alloc: Global, conn: &mut Conn, word: &str) -> Result<(), Refusal<BadRow>> {
    let Some((stream, bytes)) = word.split_once(':') else {
        return Err(Refusal::For(BadRow));
    };
    let stream = number_of(stream)?;
    let bytes = bytes_of(alloc, bytes)?;
    Ok(conn.send_data(alloc, stream, bytes)?)
}

fn tell_sent(alloc: Global, run: &mut Run) -> Result<(), Refusal<BadRow>> {
    let output = run.conn.take_output(alloc);
    Ok(push_hex(alloc, &mut run.text, " sent=", output.as_slice())?)
}

fn tell_count(alloc: Global, run: &mut Run) -> Result<(), Refusal<BadRow>> {
    let output = run.conn.take_output(alloc);
    Ok(push_number(alloc, &mut run.text, " took=", output.len() as u64)?)
}

// A step with something behind its verb.
fn step_with(alloc: Global, run: &mut Run, verb: &str, rest: &str) -> Result<(), Refusal<BadRow>> {
    match verb {
        "feed" => feed(alloc, run, rest, false),
        "again" => feed(alloc, run, rest, true),
        "headers" => send_headers(alloc, &mut run.conn, rest),
        "data" => send_data(alloc, &mut run.conn, rest),
        _ => Err(Refusal::For(BadRow)),
    }
}

// One step of a line.
fn step(alloc: Global, run: &mut Run, word: &str) -> Result<(), Refusal<BadRow>> {
    if let Some((verb, rest)) = word.split_once('=') {
        return step_with(alloc, run, verb, rest);
    }
    match word {
        "sent" => tell_sent(alloc, run),
        "took" => tell_count(alloc, run),
        _ => Err(Refusal::For(BadRow)),
    }
}

fn take_steps(alloc: Global, run: &mut Run, steps: &str) -> Result<(), Refusal<BadRow>> {
    for word in steps.split(' ') {
        step(alloc, run, word)?;
    }
    tell_sent(alloc, run)
}

// What a connection gives and sends, step by step.
fn outcome_of(alloc: Global, steps: &str, cut: Cut) -> Result<Outcome, Refusal<BadRow>> {
    let mut run = Run {
        conn: Conn::new(alloc)?,
        text: String::new(alloc),
        cut,
        fed: 0,
        ended: false,
    };
    take_steps(alloc, &mut run, steps)?;
    Ok(Outcome {
        text: run.text,
        fed: run.fed,
    })
}

// It gives and sends the same where its bytes come so.
fn is_same(alloc: Global, steps: &str, whole: &Outcome, cut: Cut) -> Result<bool, Refusal<BadRow>> {
    let other = outcome_of(alloc, steps, cut)?;
    Ok(other.text.as_str() == whole.text.as_str())
}

// At how many cuts it is the same.
fn count_of_cuts(alloc: Global, steps: &str, whole: &Outcome) -> Result<u64, Refusal<BadRow>> {
    let mut same: u64 = 0;
    for place in 0..whole.fed {
        if is_same(alloc, steps, whole, Cut::Behind(place))? {
            same = same.saturating_add(1);
        }
    }
    Ok(same)
}

// Whether that is the same byte by byte is told where it is not.
fn tell_bytes(
    alloc: Global,
    text: &mut String,
    steps: &str,
    whole: &Outcome,
) -> Result<(), Refusal<BadRow>> {
    if is_same(alloc, steps, whole, Cut::Everywhere)? {
        return Ok(());
    }
    Ok(text.push_str(" another answer byte by byte")?)
}

// At how many cuts it is the same is told.
fn tell_cuts(
    alloc: Global,
    text: &mut String,
    steps: &str,
    whole: &Outcome,
) -> Result<(), Refusal<BadRow>> {
    let same = count_of_cuts(alloc, steps, whole)?;
    Ok(push_number(alloc, text, " cuts=", same)?)
}

// What a connection gives and sends, where its bytes come as they stand, one by one, and with one cut.
fn tell(
    alloc: Global,
    text: &mut String,
    steps: &str,
    at_every_cut: bool,
) -> Result<(), Refusal<BadRow>> {
    let whole = outcome_of(alloc, steps, Cut::Nowhere)?;
    text.push_str(whole.text.as_str())?;
    tell_bytes(alloc, text, steps, &whole)?;
    if at_every_cut {
        tell_cuts(alloc, text, steps, &whole)?;
    }
    Ok(())
}

fn told(
    alloc: Global,
    name: &str,
    steps: &str,
    at_every_cut: bool,
) -> Result<String, Refusal<BadRow>> {
    let mut text = String::from_str(alloc, name)?;
    tell(alloc, &mut text, steps, at_every_cut)?;
    Ok(text)
}

/// What a line's connection gives and sends.
pub fn answer(alloc: Global, line: &str) -> Result<String, Refusal<BadRow>> {
    let Some((name, rest)) = line.split_once(' ') else {
        return Err(Refusal::For(BadRow));
    };
    match rest.strip_prefix("every-cut ") {
        Some(steps) => told(alloc, name, steps, true),
        None => told(alloc, name, rest, false),
    }
}

/// The line of an answer.
pub fn shown(answer: &Result<String, Refusal<BadRow>>) -> &str {
    match answer {
        Ok(text) => text.as_str(),
        Err(Refusal::NoMemory) => "no memory",
        Err(Refusal::For(_)) => "bad row",
    }
}

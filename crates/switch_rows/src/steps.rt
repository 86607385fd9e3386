//! The steps of a row of a desk.
use crate::links::link;
use crate::stage::Stage;
use crate::telling::{tell_next, tell_number, tell_output, tell_reply, tell_run, tell_verdict};
use crate::words::words_of;
use p4_types::calls::{Call, Method};
use p4v1_wire::read_call;
use row_lines::{NoAnswer, bytes};
use std::alloc::Global;
use sw_edge::{Arrival, MAX_PACKET, MAX_PORT, MemoryPorts};

// What a step does.
#[derive(Clone, Copy)]
enum Verb {
    Call,
    Leave,
    Next,
    Packet,
    Run,
    Deliver,
    Tell,
    Link,
}

fn verb_of(word: &str) -> Result<Verb, NoAnswer> {
    match word {
        "call" => Ok(Verb::Call),
        "leave" => Ok(Verb::Leave),
        "next" => Ok(Verb::Next),
        "packet" => Ok(Verb::Packet),
        "run" => Ok(Verb::Run),
        "deliver" => Ok(Verb::Deliver),
        "tell" => Ok(Verb::Tell),
        "link" => Ok(Verb::Link),
        _ => Err(NoAnswer),
    }
}

fn method_of(word: &str) -> Result<Method, NoAnswer> {
    match word {
        "write" => Ok(Method::Write),
        "read" => Ok(Method::Read),
        "set" => Ok(Method::SetForwardingPipelineConfig),
        "get" => Ok(Method::GetForwardingPipelineConfig),
        "stream" => Ok(Method::StreamChannel),
        "capabilities" => Ok(Method::Capabilities),
        _ => Err(NoAnswer),
    }
}

fn bytes_of(alloc: Global, word: &str) -> Result<Vec<u8>, NoAnswer> {
    if word == "." {
        return Ok(Vec::new(alloc));
    }
    bytes(alloc, word)
}

fn call_of(alloc: Global, method: &str, word: &str) -> Result<Call, NoAnswer> {
    let method = method_of(method)?;
    let message = bytes_of(alloc, word)?;
    Ok(read_call(alloc, method, &message)?)
}

// A lane's call.
fn ask<S: Stage>(
    alloc: Global,
    stage: &mut S,
    lane: &str,
    call: &Call,
    told: &mut String,
) -> Result<(), NoAnswer> {
    let Some(reply) = stage.call(alloc, lane.parse::<usize>()?, call) else {
        return Err(NoAnswer);
    };
    let done = tell_reply(alloc, &reply, told);
    drop(reply);
    done
}

// A lane's call by a method, with a message.
fn call<S: Stage>(
    alloc: Global,
    stage: &mut S,
    words: &[&str],
    told: &mut String,
) -> Result<(), NoAnswer> {
    let [lane, method, word] = words else {
        return Err(NoAnswer);
    };
    let call = call_of(alloc, method, word)?;
    let done = ask(alloc, stage, lane, &call, told);
    drop(call);
    done
}

// The end of a lane's stream.
fn leave<S: Stage>(
    alloc: Global,
    stage: &mut S,
    words: &[&str],
    told: &mut String,
) -> Result<(), NoAnswer> {
    let [lane] = words else {
        return Err(NoAnswer);
    };
    ask(alloc, stage, lane, &Call::Leave, told)
}

// Two numbers, and no other word.
fn two_of(words: &[&str]) -> Result<(usize, u64), NoAnswer> {
    let [one, other] = words else {
        return Err(NoAnswer);
    };
    Ok((one.parse::<usize>()?, other.parse::<u64>()?))
}

// Tells how many steps a lane knows.
fn tell_known<S: Stage>(stage: &S, lane: usize, told: &mut String) -> Result<(), NoAnswer> {
    let Some(steps) = stage.known(lane) else {
        return Err(NoAnswer);
    };
    tell_number("knows", steps, told)
}

// What a lane is given at a moment.
fn give<S: Stage>(
    alloc: Global,
    stage: &mut S,
    lane: usize,
    now: u64,
    told: &mut String,
) -> Result<(), NoAnswer> {
    let Some(next) = stage.next(alloc, lane, now) else {
        return Err(NoAnswer);
    };
    let done = tell_next(alloc, &next, told);
    drop(next);
    done
}

// What a lane is given at a moment, and how many steps it knows then.
fn next<S: Stage>(
    alloc: Global,
    stage: &mut S,
    words: &[&str],
    told: &mut String,
) -> Result<(), NoAnswer> {
    let (lane, now) = two_of(words)?;
    give(alloc, stage, lane, now, told)?;
    tell_known(stage, lane, told)
}

// Ports at one of which this packet comes, and no other.
fn ports_of(alloc: Global, port: &str, word: &str) -> Result<MemoryPorts, NoAnswer> {
    let port = port.parse::<u16>()?;
    let bytes = bytes_of(alloc, word)?;
    if port > MAX_PORT || bytes.len() > MAX_PACKET {
        return Err(NoAnswer);
    }
    let mut arrivals = Vec::new(alloc);
    arrivals.push(Arrival::new(port, bytes))?;
    Ok(MemoryPorts::new(alloc, arrivals, 1, Vec::new(alloc), Vec::new(alloc))?)
}

// Tells what was put at ports.
fn tell_sent(alloc: Global, ports: &MemoryPorts, told: &mut String) -> Result<(), NoAnswer> {
    for departure in ports.sent() {
        tell_output(alloc, departure.port(), departure.bytes(), told)?;
    }
    Ok(())
}

// What comes at a worker's ports, to their end.
fn work<S: Stage>(
    alloc: Global,
    stage: &mut S,
    ports: &mut MemoryPorts,
    worker: &str,
    now: &str,
    told: &mut String,
) -> Result<(), NoAnswer> {
    let worker = worker.parse::<usize>()?;
    let now = now.parse::<u64>()?;
    let Some(run) = stage.carry(alloc, worker, ports, now) else {
        return Err(NoAnswer);
    };
    tell_run(run, told)
}

// A packet at a worker's ports.
fn packet<S: Stage>(
    alloc: Global,
    stage: &mut S,
    words: &[&str],
    told: &mut String,
) -> Result<(), NoAnswer> {
    let [worker, port, now, word] = words else {
        return Err(NoAnswer);
    };
    let mut ports = ports_of(alloc, port, word)?;
    work(alloc, stage, &mut ports, worker, now, told)?;
    tell_sent(alloc, &ports, told)
}

// These bytes as a packet that a worker runs.
fn run_bytes<S: Stage>(
    alloc: Global,
    stage: &mut S,
    worker: &str,
    port: u16,
    packet: &[u8],
    told: &mut String,
) -> Result<(), NoAnswer> {
    let worker = worker.parse::<usize>()?;
    let Some(run) = stage.run(worker, port, packet) else {
        return Err(NoAnswer);
    };
    tell_run(run, told)?;
    let Some(verdict) = stage.verdict(worker) else {
        return Err(NoAnswer);
    };
    tell_verdict(alloc, verdict, told)
}

// A packet that a worker runs, of which nothing is handed on.
fn run<S: Stage>(
    alloc: Global,
    stage: &mut S,
    words: &[&str],
    told: &mut String,
) -> Result<(), NoAnswer> {
    let [worker, port, word] = words else {
        return Err(NoAnswer);
    };
    let port = port.parse::<u16>()?;
    let packet = bytes_of(alloc, word)?;
    run_bytes(alloc, stage, worker, port, &packet, told)
}

// Hands on what the last packet that a worker ran gives to controllers.
fn deliver<S: Stage>(stage: &S, words: &[&str], told: &mut String) -> Result<(), NoAnswer> {
    let (worker, now) = two_of(words)?;
    if stage.deliver(worker, now).is_none() {
        return Err(NoAnswer);
    }
    told.push_str(" delivered")?;
    Ok(())
}

// A lane learns what another tells.
fn tell<S: Stage>(stage: &mut S, words: &[&str], told: &mut String) -> Result<(), NoAnswer> {
    let [from, to] = words else {
        return Err(NoAnswer);
    };
    let to = to.parse::<usize>()?;
    if stage.teach(from.parse::<usize>()?, to).is_none() {
        return Err(NoAnswer);
    }
    tell_known(stage, to, told)
}

// One step of these words, which is no repetition.
fn do_words<S: Stage>(
    alloc: Global,
    stage: &mut S,
    words: &[&str],
    told: &mut String,
) -> Result<(), NoAnswer> {
    let [verb, words @ ..] = words else {
        return Err(NoAnswer);
    };
    match verb_of(verb)? {
        Verb::Call => call(alloc, stage, words, told),
        Verb::Leave => leave(alloc, stage, words, told),
        Verb::Next => next(alloc, stage, words, told),
        Verb::Packet => packet(alloc, stage, words, told),
        Verb::Run => run(alloc, stage, words, told),
        Verb::Deliver => deliver(stage, words, told),
        Verb::Tell => tell(stage, words, told),
        Verb::Link => link(alloc, stage, words, told),
    }
}

// One step, which is no repetition.
fn do_step<S: Stage>(
    alloc: Global,
    stage: &mut S,
    step: &str,
    told: &mut String,
) -> Result<(), NoAnswer> {
    let words = words_of(alloc, step)?;
    do_words(alloc, stage, words.as_slice(), told)
}

// Tells an answer that came so often on a line of its own.
fn tell_times(times: u32, answer: &str, told: &mut String) -> Result<(), NoAnswer> {
    if times > 0 {
        write!(told, "\n> {times} {answer}")?;
    }
    Ok(())
}

// Does steps one after another, and gives their answers.
fn answers_of<S: Stage>(alloc: Global, stage: &mut S, steps: &str) -> Result<String, NoAnswer> {
    let mut answers = String::from_str(alloc, "times")?;
    for step in steps.split(';') {
        do_step(alloc, stage, step, &mut answers)?;
    }
    Ok(answers)
}

// Does steps so often, and tells their answers, the same ones in a row once.
fn repeat<S: Stage>(
    alloc: Global,
    stage: &mut S,
    times: u32,
    steps: &str,
    told: &mut String,
) -> Result<(), NoAnswer> {
    let mut last = String::new(alloc);
    let mut came: u32 = 0;
    for _ in 0..times {
        let answers = answers_of(alloc, stage, steps)?;
        if last != answers {
            tell_times(came, last.as_str(), told)?;
            last = answers;
            came = 0;
        }
        came = came.saturating_add(1);
    }
    tell_times(came, last.as_str(), told)
}

// Does a step, and tells its answer on a line of its own.
fn answer_step<S: Stage>(
    alloc: Global,
    stage: &mut S,
    step: &str,
    told: &mut String,
) -> Result<(), NoAnswer> {
    let Some(rest) = step.strip_prefix("repeat ") else {
        told.push_str("\n>")?;
        return do_step(alloc, stage, step, told);
    };
    let Some((times, steps)) = rest.split_once(' ') else {
        return Err(NoAnswer);
    };
    repeat(alloc, stage, times.parse::<u32>()?, steps, told)
}

/// Does the steps of a row one after another, and tells the answer to each.
pub fn answer_steps<S: Stage>(
    alloc: Global,
    stage: &mut S,
    steps: &[&str],
    told: &mut String,
) -> Result<(), NoAnswer> {
    for step in steps {
        answer_step(alloc, stage, step, told)?;
    }
    Ok(())
}

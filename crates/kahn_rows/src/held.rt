//! Runs that are cut into parts at random, whose streams begin the streams of the whole run.

use crate::gate::{Counting, Hold};
use crate::programs::{
    ADD, ALTERNATE, AMPLE, COPIES, DIVISION, FOUR_TURNS, INVERT, TOP, config, network_of,
};
use kahn_check::Network;
use kahn_pool::{Answer, Config, Held, Open, Verdict, run};
use kahn_report::{read_entries, read_input};
use kahn_streams::{Input, Tokens, Value};
use std::alloc::{AllocError, Global};
use std::sync::Wait;
use std::test::Fail;
use std::thread::Threads;

// A held run, and what is left to feed of each channel, reversed.
type Part<'n> = (Held<'n>, Vec<(String, Vec<Value>)>);

// Returns the next pseudo-random number, the same whenever the test is run.
fn shuffled(number: u64) -> u64 {
    number
        .wrapping_mul(6364136223846793005)
        .wrapping_add(1442695040888963407)
}

// Returns a number below `limit`, or 0.
fn below(limit: u64, number: u64) -> u64 {
    (number >> 33).checked_rem(limit).unwrap_or(0)
}

// Whether the values begin the whole.
fn begin(whole: &Tokens, values: &Tokens) -> bool {
    let (all, some) = (whole.values(), values.values());
    for place in 0..some.len() {
        if all.get(place) != some.get(place) {
            return false;
        }
    }
    true
}

// Whether an answer has the streams of the whole one, each a beginning of it.
fn begins(whole: &Answer, answer: &Answer) -> bool {
    for (all, stream) in whole.streams.iter().zip(answer.streams.iter()) {
        if all.line != stream.line || !begin(&all.tokens, &stream.tokens) {
            return false;
        }
    }
    whole.streams.len() == answer.streams.len()
}

// Whether an answer is the whole one.
fn is_whole(whole: &Answer, answer: &Answer) -> bool {
    answer.verdict == Verdict::Finished
        && answer.ends.as_slice() == whole.ends.as_slice()
        && begins(whole, answer)
        && begins(answer, whole)
}

// Takes at most `most` values from the end of a reversed list, the last one first.
fn piece(alloc: Global, left: &mut Vec<Value>, most: u64) -> Result<Vec<Value>, AllocError> {
    let mut values = Vec::new(alloc);
    for _ in 0..most {
        match left.pop() {
            Some(value) => values.push(value)?,
            None => return Ok(values),
        }
    }
    Ok(values)
}

// Feeds a piece of each list, of at most `most` values, and runs a part of at most `events` events. Returns its answer.
fn answer_of<R: Threads + Wait + Sync>(
    rt: &R,
    alloc: Global,
    (held, left): &mut Part,
    most: u64,
    events: u64,
) -> Result<Answer, Fail> {
    for (channel, values) in left.iter_mut() {
        held.feed(channel.as_str(), piece(alloc, values, most)?)?;
    }
    held.resume(rt, events, &Counting::of(Hold::Inside(0), false))?;
    if held.settled() {
        Ok(held.answer()?)
    } else {
        Err(Fail::new("there is no answer"))
    }
}

// Holds a run before its first event, with all that there is to feed.
fn begun<'n>(
    alloc: Global,
    network: &'n Network,
    input: &str,
    config: Config,
) -> Result<Part<'n>, Fail> {
    let mut left = read_entries(alloc, input, network.channels())?;
    for (_, values) in left.iter_mut() {
        values.reverse();
    }
    let none = Input::none(alloc, network)?;
    Ok((Held::start(alloc, network, none, config)?, left))
}

// Runs in parts, and feeds in pieces, both as large as `number` picks. Returns whether each answer begins the whole one, and the last
// answer is the whole.
fn agrees_in_parts<R: Threads + Wait + Sync>(
    rt: &R,
    alloc: Global,
    part: &mut Part,
    number: u64,
    whole: &Answer,
) -> Result<bool, Fail> {
    let mut number = number;
    for _ in 0..below(12, shuffled(number)) {
        number = shuffled(number);
        let (most, events) = (below(30, number), below(90, shuffled(number)));
        if !begins(whole, &answer_of(rt, alloc, part, most, events)?) {
            return Ok(false);
        }
    }
    Ok(is_whole(whole, &answer_of(rt, alloc, part, AMPLE, AMPLE)?))
}

// Makes an input text with the numbers below `number` on a channel.
fn numbers(alloc: Global, number: u64) -> Result<String, AllocError> {
    let mut text = String::from_str(alloc, "A:")?;
    for value in 0..number {
        text.push_str(&format!(in alloc; " {value}")?)?;
    }
    Ok(text)
}

// Makes a configuration with a channel that is watched.
fn watching(
    alloc: Global,
    watch: &str,
    workers: u64,
    quantum: u64,
    bound: u64,
) -> Result<Config, AllocError> {
    let mut config = config(workers, quantum, bound);
    if !watch.is_empty() {
        config.watch = Some(String::from_str(alloc, watch)?);
    }
    Ok(config)
}

#[test]
fn parts_at_random(rt: HostRuntime) -> Result<(), Fail> {
    let alloc = rt.alloc();
    let long = numbers(alloc, 200)?;
    let rows = [
        (COPIES, "A: 1 2 3", "A"),
        (COPIES, long.as_str(), "X"),
        (COPIES, long.as_str(), ""),
        (ALTERNATE, "A: 1 2 3\nB: 9", "B"),
        (ADD, "B: 2\nA: 1", ""),
        (INVERT, "A: true FALSE true", ""),
        (TOP, "A: 0 1 2", ""),
        (DIVISION, "", "X"),
        (FOUR_TURNS, "", ""),
    ];
    let mut number = 74;
    for (program, input, watch) in rows {
        let network = network_of(&rt, alloc, program)?;
        let once = watching(alloc, watch, 1, 1000, AMPLE)?;
        let whole = run(
            &rt,
            alloc,
            &network,
            read_input(alloc, input, &network)?,
            once,
            &Open,
        )?;
        for _ in 0..20u64 {
            number = shuffled(number);
            let (workers, second) = (below(6, number).saturating_add(1), shuffled(number));
            let quantum = below(9, second).saturating_add(1);
            let config = watching(alloc, watch, workers, quantum, below(40, second))?;
            let mut part = begun(alloc, &network, input, config)?;
            assert!(rt;
                agrees_in_parts(&rt, alloc, &mut part, second, &whole)?,
                "{program} {number}"
            );
        }
    }
    Ok(())
}

//! The causes of a run, each with those that wait because of it, or each instance with its cause, in words.

use itoa::Buffer;
use kahn_chain::{Cause, Reason, Standing};
use kahn_diagnostic::{Lines, MOST_NOTES, Other, Sort, part_of, render_in, simple};
use kahn_streams::{Failure, Input, Network, Outcome, Process, Span, Verdict};
use kahn_syntax::{Class, Keyword, Lexeme, lex};
use kahn_texts::{add, add_more, channel_name, first_ones, process_name};
use kahn_warnings::fault_places;
use std::alloc::{AllocError, Global};

// Of so many instances all are named.
const MOST_NAMED: usize = 4;

pub(crate) type Wrote = Result<(), AllocError>;

type Places = Result<Vec<Span>, AllocError>;

/// What a run is told by.
#[derive(Clone, Copy)]
pub(crate) struct Story<'a> {
    pub alloc: Global,
    /// What the program text is called.
    pub path: &'a str,
    /// The program text.
    pub program: &'a Lines<'a>,
    /// Its lexemes, if an instance waits.
    pub lexemes: &'a [Lexeme],
    pub network: &'a Network,
    /// What it was fed, where that is known.
    pub fed: Option<&'a Input>,
    pub verdict: Verdict,
    /// Why each instance goes no further that hasn't ended.
    pub reasons: &'a [Reason],
}

fn source_of(cause: Cause) -> usize {
    match cause {
        Cause::Input(one, _) | Cause::Stopped(one, _) | Cause::Ring(one) => one,
    }
}

/// Returns the reasons whose waits lead to instance `one`: with `at_it` the cycle of `one`, or `one` itself; without it all others.
pub(crate) fn led_to(story: &Story, one: usize, at_it: bool) -> Result<Vec<Reason>, AllocError> {
    let mut those = Vec::new(story.alloc);
    for reason in story.reasons {
        let is_at_it = reason.is_on_ring || reason.instance == one;
        if source_of(reason.cause) == one && is_at_it == at_it {
            those.push(*reason)?;
        }
    }
    Ok(those)
}

pub(crate) fn add_count(text: &mut String, count: usize, one: &str, several: &str) -> Wrote {
    let mut buffer = Buffer::new();
    text.push_str(buffer.format(count))?;
    text.push_str(if count == 1 { one } else { several })
}

/// Adds an instance, by its number and its process, and what it does.
fn add_who(text: &mut String, story: &Story, one: usize, does: &[&str]) -> Wrote {
    add_count(text, one.saturating_add(1), " ", " ")?;
    text.push_str(process_name(story.network, one))?;
    add(text, does)
}

/// Adds instances by their names, or how many they are, where they are many, and that they wait.
pub(crate) fn add_those(text: &mut String, story: &Story, those: &[Reason]) -> Wrote {
    if those.len() > MOST_NAMED {
        return add_count(text, those.len(), "", " processes wait");
    }
    for (place, reason) in those.iter().enumerate() {
        let is_last = those.len().saturating_sub(place) == 1;
        let lead = if is_last { " and " } else { ", " };
        text.push_str(if place == 0 { "" } else { lead })?;
        add_who(text, story, reason.instance, &[])?;
    }
    text.push_str(if those.len() == 1 { " waits" } else { " wait" })
}

fn for_ever(reason: &Reason) -> &'static str {
    if reason.lasts { ": for ever" } else { "" }
}

pub(crate) fn is_fed(network: &Network, input: &Input) -> bool {
    (0..network.channels()).any(|channel| input.count(channel) > 0)
}

/// Adds that one waits on an input, and how many values came, all of which are taken, where that is known.
fn add_input(text: &mut String, story: &Story, channel: usize) -> Wrote {
    text.push_str(", an input")?;
    match (story.verdict, story.fed) {
        (Verdict::Memory, _) | (_, None) => Ok(()),
        (_, Some(input)) => match input.count(channel) {
            0 if is_fed(story.network, input) => text.push_str(
                ", to which nothing came: the input text has no values for it",
            ),
            0 => text.push_str(", to which nothing came: --input FILE brings values"),
            1 => text.push_str(", of which the one value is taken"),
            count => {
                text.push_str(", of which all ")?;
                add_count(text, count, "", " values are taken")
            }
        },
    }
}

fn writer_of(network: &Network, channel: usize) -> Option<usize> {
    if channel >= network.channels() {
        return None;
    }
    Some(network.writer(channel)?.instance)
}

/// Adds on which channel an instance waits, where, and who writes it; then that it is in a deadlock, or to whom its waits lead,
/// unless that is itself.
fn add_wait(
    text: &mut String,
    story: &Story,
    reason: &Reason,
    channel: usize,
    places: &[Span],
) -> Wrote {
    let name = channel_name(story.network, channel);
    add_who(text, story, reason.instance, &[" waits on ", name])?;
    let (told, more) = first_ones(places, if places.len() > 3 { 1 } else { 3 });
    for (number, place) in told.iter().enumerate() {
        let lead = if number == 0 { " at " } else { " or " };
        story.program.add_spot(text, lead, place.from)?;
    }
    if !more.is_empty() {
        text.push_str(" or ")?;
        add_count(text, more.len(), "", " places more")?;
    }
    match writer_of(story.network, channel) {
        Some(writer) => {
            text.push_str(" from ")?;
            add_who(text, story, writer, &[])?;
        }
        None => add_input(text, story, channel)?,
    }
    let source = source_of(reason.cause);
    let words = match reason.cause {
        _ if reason.is_on_ring => return add(text, &[", in a deadlock", for_ever(reason)]),
        _ if source == reason.instance => return Ok(()),
        Cause::Stopped(_, Standing::Ended) => " has ended",
        _ => " goes no further",
    };
    text.push_str(", as ")?;
    add_who(text, story, source, &[words, for_ever(reason)])
}

/// Returns the lexemes of a program text, or none if no instance waits. Fails only if memory is refused.
pub(crate) fn lexemes_for(
    alloc: Global,
    program: &str,
    reasons: &[Reason],
) -> Result<Vec<Lexeme>, AllocError> {
    let waits = |reason: &Reason| matches!(reason.end.outcome, Outcome::Waits(_));
    if !reasons.iter().any(waits) {
        return Ok(Vec::new(alloc));
    }
    lex(alloc, program).map_err(|_| AllocError)
}

/// Where an instance of a process waits on the channel of a parameter, in the order of the program text.
fn channel_waits(story: &Story, process: &Process, parameter: usize) -> Places {
    let mut places = Vec::new(story.alloc);
    let Some(parameter) = process.parameters.get(parameter) else {
        return Ok(places);
    };
    let (name, begin) = (parameter.name.text.as_str(), process.name.span.from);
    let first = story
        .lexemes
        .partition_point(|lexeme| lexeme.span.from < begin);
    let lexemes = story.lexemes.get(first..).unwrap_or(&[]);
    for (number, lexeme) in lexemes.iter().enumerate() {
        let waited = lexemes.get(number.saturating_add(2));
        let close = lexemes.get(number.saturating_add(3));
        match (lexeme.what, waited, close) {
            (Class::Word(Keyword::Process), _, _) => return Ok(places),
            (Class::Word(Keyword::Wait), Some(waited), Some(close)) => {
                if part_of(story.program.text(), waited.span) == name {
                    let (from, to) = (lexeme.span.from, close.span.to);
                    places.push(Span { from, to })?;
                }
            }
            _ => {}
        }
    }
    Ok(places)
}

/// Where an instance waits, or where its fault can have come from, in the order of the text.
fn places_of(story: &Story, reason: &Reason) -> Places {
    let (network, none) = (story.network, Vec::new(story.alloc));
    if reason.instance >= network.instances() {
        return Ok(none);
    }
    let process = network.instance(reason.instance).process;
    match reason.end.outcome {
        Outcome::Waits(channel) if channel < network.channels() => match network.reader(channel) {
            Some(side) => channel_waits(story, process, side.parameter),
            None => Ok(none),
        },
        Outcome::Faulted(kind) => {
            fault_places(story.alloc, network.seed(), kind, &process.statements)
        },
        _ => Ok(none),
    }
}

/// Returns the lines below an instance: for the first one of a deadlock how to break it, and who waits because of this one.
fn below(story: &Story, reason: &Reason, waiting: &[Reason]) -> Result<Vec<String>, AllocError> {
    let mut below = Vec::new(story.alloc);
    if let (Cause::Ring(one), Outcome::Waits(channel)) = (reason.cause, reason.end.outcome) {
        if one == reason.instance {
            let words = if writer_of(story.network, channel) == Some(one) {
                "its own queue is empty: let it send before it waits"
            } else {
                "this ring wants a first value (let one of its processes send before it waits), or one of them takes more than another sends: kahn_explain --trace shows what came"
            };
            below.push(String::from_str(story.alloc, words)?)?;
        }
    }
    if let Some(first) = waiting.first() {
        let mut words = String::new(story.alloc);
        add_those(&mut words, story, waiting)?;
        add(&mut words, &[" because of it", for_ever(first)])?;
        below.push(words)?;
    }
    Ok(below)
}

/// Adds a note at the first of these places, with the others, and sentences below it; or a line, where there are no places.
fn add_error(
    text: &mut String,
    story: &Story,
    words: &str,
    places: &[Span],
    below: Vec<String>,
) -> Wrote {
    let Some((first, others)) = places.split_first() else {
        add(text, &[words, "\n"])?;
        for sentence in &below {
            add(text, &["  = ", sentence.as_str(), "\n"])?;
        }
        return Ok(());
    };
    let (told, more) = first_ones(others, MOST_NOTES.saturating_sub(1));
    let mut note = simple(story.alloc, Sort::Error, *first, words)?;
    note.below = below;
    for place in told {
        let (span, words) = (*place, String::from_str(story.alloc, "or here")?);
        note.others.push(Other { span, words })?;
    }
    let lines = render_in(story.alloc, story.path, story.program, &note)?;
    text.push_str(lines.as_str())?;
    add_more(text, "", "place", more.len())
}

/// The first instance of the same process that has the same end.
fn like_first(story: &Story, reason: &Reason) -> usize {
    let name = process_name(story.network, reason.instance);
    let mut all = story.reasons.iter();
    let first = all.find(|one| {
        one.end.outcome == reason.end.outcome && process_name(story.network, one.instance) == name
    });
    first.map_or(reason.instance, |one| one.instance)
}

/// Adds an instance that hasn't ended, with those that wait because of it. The places of a fault are told once.
fn add_reason(text: &mut String, story: &Story, reason: &Reason, waiting: &[Reason]) -> Wrote {
    let (one, first) = (reason.instance, like_first(story, reason));
    let mut words = String::new(story.alloc);
    let mut places = Vec::new(story.alloc);
    match reason.end.outcome {
        Outcome::Ended => return Ok(()),
        Outcome::Waits(channel) if reason.is_on_ring => {
            places = places_of(story, reason)?;
            add_wait(&mut words, story, reason, channel, &[])?;
        }
        Outcome::Waits(channel) => {
            let spots = places_of(story, reason)?;
            add_wait(&mut words, story, reason, channel, &spots)?;
        }
        Outcome::Faulted(kind) => {
            let fault = match kind {
                Failure::Overflow => "overflow",
                Failure::Division => "division",
            };
            add_who(&mut words, story, one, &[" has a fault, ", fault])?;
            if first == one {
                places = places_of(story, reason)?;
            } else {
                words.push_str(": see ")?;
                add_who(&mut words, story, first, &[])?;
            }
        }
        Outcome::More => {
            let mut buffer = Buffer::new();
            let events = buffer.format(reason.end.events);
            add_who(&mut words, story, one, &[" wants more, after ", events])?;
            let is_one = reason.end.events == 1;
            words.push_str(if is_one { " event" } else { " events" })?;
        }
    }
    let below = below(story, reason, waiting)?;
    add_error(text, story, words.as_str(), &places, below)
}

/// Adds the cause at an instance, if it is one, and who waits because of it. A deadlock lists all its instances, with the waiting
/// ones below the first.
fn add_cause(text: &mut String, story: &Story, instance: usize) -> Wrote {
    let waiting = led_to(story, instance, false)?;
    let members = led_to(story, instance, true)?;
    if let (None, Some(first)) = (members.first(), waiting.first()) {
        let mut words = String::new(story.alloc);
        add_who(&mut words, story, instance, &[" has ended"])?;
        let below = below(story, first, &waiting)?;
        return add_error(text, story, words.as_str(), &[], below);
    }
    let (told, more) = first_ones(&members, MOST_NOTES);
    for reason in told {
        let is_first = reason.instance == instance;
        add_reason(text, story, reason, if is_first { &waiting } else { &[] })?;
    }
    add_more(text, "", "wait", more.len())
}

/// Adds each cause once, with those that wait because of it; or each instance that hasn't ended, with where its waits lead.
pub(crate) fn add_causes(text: &mut String, story: &Story, instances: usize, each: bool) -> Wrote {
    if !each {
        for instance in 0..instances {
            add_cause(text, story, instance)?;
        }
        return Ok(());
    }
    for reason in story.reasons {
        add_reason(text, story, reason, &[])?;
    }
    Ok(())
}

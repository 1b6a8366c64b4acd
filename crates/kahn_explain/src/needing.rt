//! The answers of `--needs` and `--wakes`: what values need, and the first values that need one.

ghost use Rattle.std.specs.Prelude.{◌≡◌, ◌↔◌, ℕ, Some, false, true, IfOk, MatchOption, MatchResult, Option, option_map, length};
ghost use Rattle.kahn_streams.specs.{Network.Given, Network.network_of, Solution.source, declared.value.Line.Line, Inputs.inputs_of};
ghost use Rattle.kahn_needs.specs.Finding.{IsNetworkLine, IsSeeking, AreNeedsFound};
ghost use Rattle.kahn_explain.specs.{inner.Told.IsGivenAs, Needing.IsAskable, Needing.IsLineNamed, Needing.IsPlaceWord, Needing.IsQuestion, Needing.IsUnasked, Histories.IsUntraced, Needing.IsSearchEnd, Needing.IsReply, Needing.found_end, Needing.AreFirstEnds, Needing.IsFirstEnd, Needing.IsFirstNeeding, Needing.worse, Histories.HasCounts, inner.Told.EndsSearch, inner.Told.IsSeekerOf};

use crate::tracing::{TableText, add_line, add_value, counted};
use itoa::Buffer;
use kahn_code::CodeFault;
use kahn_fault::{WorkFault, shown_path};
use kahn_line::parted;
use kahn_needs::{Found, Seeker};
use kahn_program_notes::add_unknown_channel;
use kahn_sequential::Counted;
use kahn_streams::{Config, Input, Line, Network, RunFault, Verdict, channel_named};
use kahn_texts::{add, read_input};
use std::alloc::{AllocError, Global};

/// Why a word asks for nothing.
pub(crate) fn fault_text(
    alloc: Global,
    network: &Network,
    word: &str,
    wakes: bool,
    fault: AskFault,
) -> Result<String, AllocError> {
    let shown = shown_path(alloc, word)?;
    let mut text = String::from_str(alloc, "kahn_explain: ")?;
    text.push_str(if wakes { "--wakes " } else { "--needs " })?;
    text.push_str(shown.as_str())?;
    text.push_str(match fault {
        AskFault::NoLine => ": no such channel",
        AskFault::WrongLine if wakes => ": not an input channel",
        AskFault::WrongLine => ": an input needs nothing else",
        AskFault::NoPlace => ": places are counted from 1",
    })?;
    if let AskFault::NoLine = fault {
        let (name, _) = parted(word, ':');
        add_unknown_channel(&mut text, alloc, network.program(), name.as_bytes())?;
    }
    text.push_str("\n")?;
    Ok(text)
}

/// A line of a network, and a place of it, counted from 0, or all of them.
#[derive(Clone, Copy)]
pub struct Question {
    pub line: Line,
    pub place: Option<u64>,
}

/// Why a word asks for nothing.
#[derive(Clone, Copy)]
pub enum AskFault {
    /// It names no line.
    NoLine,
    /// It names an input, or another line where an input is asked for.
    WrongLine,
    /// What comes after its colon isn't a place.
    NoPlace,
}

/// The place whose number from 1 a word is, counted from 0.
fn place_of(word: &str) -> Option<u64>
    ensures { MatchOption result ((k : ℕ) → IsPlaceWord word.now k → ⊥) (IsPlaceWord word.now) }
{
    match word.parse::<u64>() {
        Ok(number) if number == 0 => None,
        Ok(number) => Some(number - 1),
        Err(_) => None,
    }
}

/// Returns the place after a colon, or nothing if there is no colon.
fn place_given(word: Option<&str>) -> Option<Option<u64>>
    ensures { IsGivenAs (option_map (λ t. t.now) word.entry) result }
{
    match word {
        None => Some(None),
        Some(word) => match place_of(word) {
            Some(place) => Some(Some(place)),
            None => None,
        },
    }
}

fn line_named(network: &Network, word: &str) -> Option<Line>
    ensures { MatchOption result ((c : Line) → IsLineNamed network.now word.now c → ⊥) (IsLineNamed network.now word.now) }
{
    match channel_named(network, word) {
        Some(channel) => Some(Line::Channel(channel)),
        None => match place_of(word) {
            Some(one) if one < network.instances() as u64 => Some(Line::Print(one as usize)),
            Some(_) => None,
            None => None,
        },
    }
}

fn is_given(network: &Network, line: Line) -> bool
    requires { IsNetworkLine (network_of network.now) line }
    ensures { result ≡ true ↔ source (network_of network.now) line ≡ Given }
{
    match line {
        Line::Channel(channel) => network.writer(channel).is_none(),
        Line::Print(_) => false,
    }
}

/// Whether it may be asked what the values of a line need; or, the other way round, what needs them.
fn is_askable(network: &Network, line: Line, wakes: bool) -> bool
    requires { IsNetworkLine (network_of network.now) line }
    ensures { result ≡ true ↔ IsAskable wakes network.now line }
{
    if is_given(network, line) {
        return wakes;
    }
    !wakes
}

/// What a word asks for, or why for nothing.
#[tactic(auto, using(crate::proofs::Worded::line_listed))]
pub(crate) fn sought(network: &Network, word: &str, wakes: bool) -> Result<Question, AskFault>
    ensures sought { MatchResult result (IsQuestion wakes network.now word.now) (IsUnasked wakes network.now word.now) }
    ensures listed { IfOk result (λ x. IsNetworkLine (network_of network.now) x.line) }
{
    let (name, place) = parted(word, ':');
    let Some(line) = line_named(network, name) else {
        return Err(AskFault::NoLine);
    };
    if !is_askable(network, line, wakes) {
        return Err(AskFault::WrongLine);
    }
    match place_given(place) {
        Some(place) => Ok(Question { line, place }),
        None => Err(AskFault::NoPlace),
    }
}

/// Returns what the value at a place of a line needs, in words, beside the counts of the whole run.
fn place_told(
    alloc: Global,
    network: &Network,
    run: &Counted,
    input: &Input,
    line: Line,
    place: u64,
    bound: u64,
) -> Result<(String, Verdict), CodeFault>
    requires line { IsNetworkLine (network_of network.now) line }
    requires written { source (network_of network.now) line ≡ Given → ⊥ }
    ensures { IfOk result (λ r. IsSearchEnd (AreNeedsFound (network_of network.now) (inputs_of input.now) line place) r.1) }
{
    let mut seeker = Seeker::new(alloc, network, input, line, bound)?;
    let found = seeker.find(alloc, place)?;
    let mut words = String::new(alloc);
    add_found(&mut words, network, run, line, place, false, &found)?;
    Ok((words, found_end(&found)))
}

/// Returns the text on the first values that need the one at a place of an input, with the counts of the whole run.
pub(crate) fn firsts_told(
    alloc: Global,
    network: &Network,
    text: &str,
    config: Config,
    question: Question,
) -> Result<(String, Verdict), WorkFault>
    requires { source (network_of network.now) question.line ≡ Given }
    ensures { MatchResult result (λ r. IsReply true network.now text.now config question.line question.place r.1) (IsUntraced network.now text.now config) }
{
    let bound = config.bound;
    let kept = counted(alloc, network, text, config)?;
    let lists = read_input(alloc, text, network)?;
    let place = question.place.unwrap_or(0);
    match firsts(alloc, network, &kept, &lists, (question.line, place), bound) {
        Ok(told) => Ok(told),
        Err(_) => Err(WorkFault::Run(RunFault::NoMemory)),
    }
}

/// Returns the text on what the value at a place of a line needs.
pub(crate) fn needs_told(
    alloc: Global,
    network: &Network,
    text: &str,
    config: Config,
    line: Line,
    place: u64,
) -> Result<(String, Verdict), WorkFault>
    requires line { IsNetworkLine (network_of network.now) line }
    requires written { source (network_of network.now) line ≡ Given → ⊥ }
    ensures { MatchResult result (λ r. IsReply false network.now text.now config line (Some place) r.1) (IsUntraced network.now text.now config) }
{
    let bound = config.bound;
    let input = read_input(alloc, text, network)?;
    let kept = counted(alloc, network, text, config)?;
    match place_told(alloc, network, &kept, &input, line, place, bound) {
        Ok(told) => Ok(told),
        Err(_) => Err(WorkFault::Run(RunFault::NoMemory)),
    }
}

/// The row that heads the columns of a table of needs.
pub(crate) fn needs_head(alloc: Global, network: &Network) -> TableText {
    let mut text = String::from_str(alloc, "place,value")?;
    for channel in 0..network.channels() {
        text.push_str(",")?;
        add_line(&mut text, network, Line::Channel(channel))?;
    }
    for instance in 0..network.instances() {
        text.push_str(",")?;
        add_line(&mut text, network, Line::Print(instance))?;
    }
    text.push_str("\n")?;
    Ok(text)
}

/// Adds how many of each channel or process are needed, by its name, if any are. If the run has finished, it adds out of how many.
fn add_counts(
    text: &mut String,
    network: &Network,
    run: &Counted,
    counts: &[u64],
    are_sent: bool,
) -> Result<(), AllocError> {
    let mut is_first = true;
    for (number, count) in counts.iter().enumerate() {
        if *count > 0 {
            text.push_str(if is_first { "" } else { ", " })?;
            is_first = false;
            let (line, whole) = if are_sent {
                let sent = run.counts.get(number).map_or(0, |count| count.sent);
                (Line::Channel(number), sent)
            } else {
                let done = run.answer.ends.get(number).map_or(0, |end| end.events);
                (Line::Print(number), done)
            };
            add_line(text, network, line)?;
            let mut digits = Buffer::new();
            add(text, &[": ", digits.format(*count)])?;
            if matches!(run.answer.verdict, Verdict::Finished) {
                add(text, &[" of ", digits.format(whole)])?;
            }
        }
    }
    Ok(())
}

/// Adds a place and what it needs; with `wakes`, if no value needs it, the line and that.
fn add_found(
    text: &mut String,
    network: &Network,
    run: &Counted,
    line: Line,
    place: u64,
    wakes: bool,
    found: &Found,
) -> Result<(), AllocError> {
    add_line(text, network, line)?;
    if !wakes || matches!(found, Found::Needs(_)) {
        let mut digits = Buffer::new();
        add(text, &[":", digits.format(place as u128 + 1)])?;
    }
    let words = match found {
        Found::Needs(needs) => {
            let is_free = needs.values.iter().all(|count| *count == 0);
            text.push_str(" = ")?;
            add_value(text, needs.value)?;
            text.push_str(if is_free {
                " needs no values"
            } else {
                " needs "
            })?;
            add_counts(text, network, run, &needs.values, true)?;
            text.push_str("\nevents of ")?;
            add_counts(text, network, run, &needs.events, false)?;
            "\n"
        }
        Found::Never | Found::Ring if wakes => ": no value needs it\n",
        Found::Bound if wakes => ": no value needs it within the bound\n",
        Found::Never => " never comes\n",
        Found::Ring => " never comes: processes that it waits for wait on one another\n",
        Found::Bound => " doesn't come within the bound\n",
    };
    text.push_str(words)
}

/// How a search ended: only a bound leaves something untold.
pub(crate) fn found_end(found: &Found) -> Verdict
    ensures { result ≡ found_end found.now }
{
    match found {
        Found::Bound => Verdict::Bound,
        Found::Needs(_) | Found::Never | Found::Ring => Verdict::Finished,
    }
}

/// Whether the search for the first value that needs that one of a line ends with what was found.
fn ends_search(found: &Found, line: Line, wanted: u64) -> bool
    ensures { result ≡ true ↔ EndsSearch line wanted found.now }
{
    match found {
        Found::Needs(needs) => match line {
            Line::Channel(channel) => match needs.values.get(channel) {
                Some(count) => wanted < *count,
                None => false,
            },
            Line::Print(_) => false,
        },
        Found::Never | Found::Ring | Found::Bound => true,
    }
}

/// The first value of a line that needs the value at place `wanted` of an input, by its own place; or that there is none.
fn first_needing(
    alloc: Global,
    seeker: &mut Seeker<'_>,
    input: Line,
    wanted: u64,
) -> Result<(u64, Found), CodeFault>
    requires first { seeker.old.next ≡ 0 }
    requires given { source (network_of seeker.old.network) input ≡ Given }
    ensures same { (seeker.new.network ≡ seeker.old.network) × (seeker.new.input ≡ seeker.old.input) }
    ensures first { IfOk result (λ r. IsFirstNeeding (network_of seeker.old.network) (inputs_of seeker.old.input) seeker.old.line input wanted r.0 r.1) }
{
    for place in 0..u64::MAX {
        let found = seeker.find(alloc, place)?;
        if ends_search(&found, input, wanted) {
            return Ok((place, found));
        }
    }
    Ok((u64::MAX, Found::Bound))
}

/// How two searches ended.
fn worse(first: Verdict, second: Verdict) -> Verdict
    ensures { result ≡ worse first second }
{
    match first {
        Verdict::Finished => second,
        Verdict::Bound => Verdict::Bound,
        Verdict::Memory => Verdict::Memory,
    }
}

/// Returns a search on a line for the events that the last search left, or for `bound` if there was none.
fn seeker_on<'n>(
    alloc: Global,
    network: &'n Network,
    lists: &'n Input,
    line: Line,
    bound: u64,
    last: Option<Seeker<'n>>,
) -> Result<Seeker<'n>, CodeFault>
    requires line { IsNetworkLine (network_of network.now) line }
    requires written { source (network_of network.now) line ≡ Given → ⊥ }
    requires last { IsSeekerOf network.now lists.now last }
    ensures { IfOk result (IsSeeking network.now lists.now line 0) }
{
    match last {
        Some(seeker) => seeker.turned(alloc, line),
        None => Seeker::new(alloc, network, lists, line, bound),
    }
}

/// Adds the text on a line, if an instance sends on it, and returns how the search ended, and the search itself for the next line.
fn add_first<'n>(
    alloc: Global,
    text: &mut String,
    network: &'n Network,
    run: &Counted,
    lists: &'n Input,
    line: Line,
    question: (Line, u64),
    bound: u64,
    last: Option<Seeker<'n>>,
) -> Result<(Verdict, Option<Seeker<'n>>), CodeFault>
    requires line { IsNetworkLine (network_of network.now) line }
    requires given { source (network_of network.now) question.0 ≡ Given }
    requires last { IsSeekerOf network.now lists.now last }
    ensures end { IfOk result (λ r. IsFirstEnd (network_of network.now) (inputs_of lists.now) question.0 question.1 line r.0) }
    ensures last { IfOk result (λ r. IsSeekerOf network.now lists.now r.1) }
{
    if is_given(network, line) {
        return Ok((Verdict::Finished, last));
    }
    let mut seeker = seeker_on(alloc, network, lists, line, bound, last)?;
    let first = first_needing(alloc, &mut seeker, question.0, question.1)?;
    add_found(text, network, run, line, first.0, true, &first.1)?;
    Ok((found_end(&first.1), Some(seeker)))
}

/// Returns the text on all streams of a run, and how the searches ended. Together they do at most `bound` events.
fn firsts(
    alloc: Global,
    network: &Network,
    run: &Counted,
    lists: &Input,
    at: (Line, u64),
    bound: u64,
) -> Result<(String, Verdict), CodeFault>
    requires run { HasCounts network.now run.now }
    requires given { source (network_of network.now) at.0 ≡ Given }
    ensures { IfOk result (λ r. AreFirstEnds (network_of network.now) run.now.answer (inputs_of lists.now) at.0 at.1 (length run.now.answer.streams.items) r.1) }
{
    let mut text = String::new(alloc);
    let mut verdict = Verdict::Finished;
    let mut seeker = None;
    for number in 0..run.answer.streams.len() {
        let stream = &run.answer.streams[number];
        let line = stream.line;
        let told = add_first(
            alloc, &mut text, network, run, lists, line, at, bound, seeker,
        )?;
        verdict = worse(verdict, told.0);
        seeker = told.1;
    }
    Ok((text, verdict))
}

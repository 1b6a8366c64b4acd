//! What is told of a run that stopped.

ghost use Rattle.std.specs.Prelude.{◌≡◌, ◌++◌, ℕ, IfOk, Option, map, string_bytes};
ghost use Rattle.kahn_texts.specs.Formats.{last_text};
ghost use Rattle.kahn_streams.specs.{Network.Schema, Network.network_of, Answers.IsRight, declared.answer.Answer.Answer, declared.answer.Verdict.TheVariants.Memory, Solution.Inputs};
ghost use Rattle.kahn_chain.specs.Chain.{AreStandings, stands};
ghost use Rattle.kahn_explanation.specs.{Why.AreCauses, Why.IsExplained, Why.LastForGood, Why.StayForGood, Why.came_to, Why.finding_lead, Why.has_fault, Why.has_ring, Why.is_fault, Why.is_ring, Why.is_silent, Why.standings_of, inner.Told.IsToldWhy};

use crate::why::lines::{Story, add_causes, add_count, add_those, is_fed, led_to, lexemes_for};
use itoa::Buffer;
use kahn_chain::{Cause, Reason, reasons};
use kahn_diagnostic::Lines;
use kahn_streams::{Answer, End, Input, Network, Outcome, Verdict};
use kahn_texts::add;
use std::alloc::{AllocError, Global};

/// What a run came to.
#[derive(Clone, Copy)]
pub enum Finding {
    /// A process has a fault of arithmetic.
    Fault,
    /// Processes wait on one another in a ring, and none has a fault.
    Deadlock,
    /// Neither, and the run stopped so.
    Stop(Verdict),
}

/// Why a run stopped.
#[derive(Drop)]
pub struct Explanation {
    /// In words.
    pub text: String,
    /// Why each instance goes no further that hasn't ended.
    pub reasons: Vec<Reason>,
    /// What it came to.
    pub told: Finding,
}

fn is_fault(outcome: Outcome) -> bool
    ensures { result ≡ is_fault outcome }
{
    matches!(outcome, Outcome::Faulted(_))
}

fn is_ring(cause: Cause) -> bool
    ensures { result ≡ is_ring cause }
{
    matches!(cause, Cause::Ring(_))
}

fn has_fault(reasons: &[Reason]) -> bool
    ensures { result ≡ has_fault reasons.now }
{
    reasons.iter().any(|reason| is_fault(reason.end.outcome))
}

fn has_ring(reasons: &[Reason]) -> bool
    ensures { result ≡ has_ring reasons.now }
{
    reasons.iter().any(|reason| is_ring(reason.cause))
}

fn came_to(verdict: Verdict, reasons: &[Reason]) -> Finding
    ensures { result ≡ came_to verdict reasons.now }
{
    if has_fault(reasons) {
        Finding::Fault
    } else if has_ring(reasons) {
        Finding::Deadlock
    } else {
        Finding::Stop(verdict)
    }
}

fn is_silent(finding: Finding) -> bool
    ensures { result ≡ is_silent finding }
{
    matches!(finding, Finding::Stop(Verdict::Finished))
}

/// Whether an instance has the least number of its ring.
fn is_first_on_ring(reason: &Reason) -> bool {
    matches!(reason.cause, Cause::Ring(one) if one == reason.instance)
}

/// How many of the instances have a fault, are the first ones of rings, or want more.
fn count_of(reasons: &[Reason], finding: Finding) -> usize {
    let those = reasons.iter().filter(|reason| match finding {
        Finding::Fault => is_fault(reason.end.outcome),
        Finding::Deadlock => is_first_on_ring(reason),
        Finding::Stop(_) => matches!(reason.end.outcome, Outcome::More),
    });
    those.count()
}

/// Adds the first words of what a run came to, with how many processes have a fault or how many rings there are.
fn add_lead(text: &mut String, finding: Finding, count: usize) -> Result<(), AllocError>
    ensures { IfOk result (λ _. string_bytes text.new ≡ string_bytes text.old ++ finding_lead finding count) }
{
    let mut buffer = Buffer::new();
    let digits = buffer.format(count);
    match finding {
        Finding::Fault if count == 1 => text.push_str("1 process has a fault"),
        Finding::Fault => add(text, &[digits, " processes have a fault"]),
        Finding::Deadlock if count == 1 => text.push_str("deadlock: "),
        Finding::Deadlock => add(text, &[digits, " deadlocks"]),
        Finding::Stop(Verdict::Finished) => text.push_str("no deadlock and no fault"),
        Finding::Stop(Verdict::Bound) => text.push_str("stopped by the bound"),
        Finding::Stop(Verdict::Memory) => text.push_str("stopped for want of memory"),
    }
}

/// Whether it is known that there was input, and that all was taken.
fn is_all_taken(story: &Story) -> bool {
    let Some(input) = story.fed else {
        return false;
    };
    for channel in 0..story.network.channels() {
        let awaits = |reason: &Reason| reason.end.outcome == Outcome::Waits(channel);
        if input.count(channel) > 0 && !story.reasons.iter().any(awaits) {
            return false;
        }
    }
    is_fed(story.network, input)
}

/// Returns the rest of the first line: that all input was taken; deadlocks beside a fault; who is in the only deadlock; that the
/// run was stopped too; how many processes want more events.
fn behind_lead(story: &Story, finding: Finding) -> Result<String, AllocError> {
    let mut text = String::new(story.alloc);
    let rings = count_of(story.reasons, Finding::Deadlock);
    let stop = Finding::Stop(story.verdict);
    if matches!(finding, Finding::Stop(Verdict::Finished)) && is_all_taken(story) {
        text.push_str("; all input was taken")?;
    }
    if rings > 0 && matches!(finding, Finding::Fault) {
        text.push_str("; ")?;
        add_lead(&mut text, Finding::Deadlock, rings)?;
    }
    let first = story.reasons.iter().find(|one| is_first_on_ring(one));
    if let (1, Some(first)) = (rings, first) {
        let those = led_to(story, first.instance, true)?;
        add_those(&mut text, story, &those)?;
        let is_own = those.len() == 1;
        let whom = if is_own { "itself" } else { "one another" };
        add(&mut text, &[" on ", whom])?;
    }
    if !is_silent(stop) && !matches!(finding, Finding::Stop(_)) {
        text.push_str("; ")?;
        add_lead(&mut text, stop, 0)?;
    }
    let wanting = count_of(story.reasons, stop);
    if wanting > 0 {
        text.push_str(": ")?;
        let (one, several) = (" process wants more events", " processes want more events");
        add_count(&mut text, wanting, one, several)?;
    }
    Ok(text)
}

/// Adds the last line of the report of an answer.
fn add_last(text: &mut String, answer: &Answer) -> Result<(), AllocError>
    ensures { IfOk result (λ _. string_bytes text.new ≡ string_bytes text.old ++ last_text answer.now) }
{
    let mut buffer = Buffer::new();
    let events = buffer.format(answer.events);
    let word = match answer.verdict {
        Verdict::Finished => "finished ",
        Verdict::Bound => "stopped by bound ",
        Verdict::Memory => "stopped by memory ",
    };
    add(text, &[word, events, "\n"])
}

/// What came of a run that ended so, and why, in words, with the reasons.
fn told(
    alloc: Global,
    path: &str,
    program: &str,
    network: &Network,
    fed: Option<&Input>,
    verdict: Verdict,
    ends: &[End],
    each: bool,
) -> Result<Explanation, AllocError>
    requires { AreStandings (network_of network.now) (map stands ends.now) }
    ensures { IfOk result (IsToldWhy network.now verdict ends.now) }
{
    let reasons = reasons(alloc, network, verdict, ends)?;
    let told = came_to(verdict, &reasons);
    let lexemes = lexemes_for(alloc, program, &reasons)?;
    let program = Lines::new(alloc, program)?;
    let story = Story {
        alloc,
        path,
        program: &program,
        lexemes: &lexemes,
        network,
        fed,
        verdict,
        reasons: &reasons,
    };
    let mut behind = behind_lead(&story, told)?;
    behind.push_str("\n")?;
    add_causes(&mut behind, &story, ends.len(), each)?;
    let mut text = String::new(alloc);
    add_lead(&mut text, told, count_of(&reasons, told))?;
    text.push_str(behind.as_str())?;
    Ok(Explanation {
        text,
        reasons,
        told,
    })
}

/// Returns the first line and the causes, as `explained` does; empty if each process has ended or waits for input. Fails only if
/// memory is refused.
pub fn causes(
    alloc: Global,
    path: &str,
    program: &str,
    network: &Network,
    verdict: Verdict,
    ends: &[End],
) -> Result<String, AllocError>
    requires { AreStandings (network_of network.now) (map stands ends.now) }
    ensures { IfOk result (λ words. AreCauses network.now verdict ends.now (string_bytes words)) }
{
    let told = told(alloc, path, program, network, None, verdict, ends, false)?;
    if is_silent(told.told) {
        return Ok(String::new(alloc));
    }
    Ok(told.text)
}

/// Explains why a run stopped: a line on what came of it; each cause once with who waits because of it (with `each`, every instance
/// that hasn't ended and where its waits lead); notes on the places of waits and faults; how the run ended. `fed`: its input, if
/// known. Fails only if memory is refused.
pub fn explained(
    alloc: Global,
    path: &str,
    program: &str,
    network: &Network,
    fed: Option<&Input>,
    answer: &Answer,
    each: bool,
) -> Result<Explanation, AllocError>
    requires { AreStandings (network_of network.now) (standings_of answer.now) }
    ensures { IfOk result (IsExplained network.now answer.now) }
{
    let (verdict, ends) = (answer.verdict, &answer.ends);
    let mut told = told(alloc, path, program, network, fed, verdict, ends, each)?;
    told.text.push_str(match verdict {
        Verdict::Bound => "--bound N with a greater N lets the run go on\n",
        Verdict::Finished | Verdict::Memory => "",
    })?;
    add_last(&mut told.text, answer)?;
    Ok(told)
}

/// The law of what is for ever. Its contract is what it does: whatever is added to the input, and whatever the bound is, an instance has
/// the end that a right answer gives it, where its cause is a ring, or an instance that has ended or has a fault. Want of memory is no such
/// answer: it can leave values where a reader doesn't come to them. So a reason that is told to last does.
pub fn for_good()
    ensures ends { (N : Schema) (I : Inputs) (b : ℕ) (w : Option ℕ) (a : Answer) → IsRight N I b w a → (a.verdict ≡ Memory → ⊥) → StayForGood N I a }
    ensures told { (N : Schema) (I : Inputs) (b : ℕ) (w : Option ℕ) (a : Answer) → IsRight N I b w a → LastForGood N I a }
{}

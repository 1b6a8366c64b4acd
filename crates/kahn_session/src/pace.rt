//! A run that is fed as it runs, each part of which may take a number of events, and what is new on its streams, in the form of a
//! session.

ghost use Rattle.std.specs.Prelude.{◌≡◌, ℕ, ◌+◌, ◌≤◌, [], Some, IfErr, IfOk, MatchResult, ◌==◌, ◌-◌, ◌<◌, MatchOption, drop, if◌then◌else◌, length, map, nat_lt, slice_get};
ghost use Rattle.kahn_sequential.specs.{HeldRuns.IsLineOf, HeldRuns.IsRightSoFar, HeldRuns.IsUnstarted, Flows.AreNew, Flows.HasFlowed, Flows.HasPouredIn, Flows.IsUnpoured, Flows.flow_lines};
ghost use Rattle.kahn_session.specs.{Forms.let_go_but, Forms.news_on, inner.Kept.AreStale, inner.Kept.kept_values, Pace.IsPart, Pace.events_of, Pace.part_bound, Forms.HasLetGoBehind, Forms.are_rows, Forms.cell_news, Forms.fewest, Forms.form_text, Forms.is_uneven, Forms.news_of, Forms.next_of, Forms.row_count, Forms.row_news, Forms.row_stop, Forms.rows_news, Forms.waiting_from, Live.OutBegins, inner.Kept.lines_text};
ghost use Rattle.std.specs.List.{list_any};
ghost use Rattle.kahn_streams.specs.{Tokens.token_value, Written.Writes, Written.value_text};
ghost use Rattle.kahn_streams.specs.declared.answer.Verdict.{Verdict as VerdictOf};

use itoa::Buffer;
use kahn_sequential::Flow;
use kahn_streams::{
    Config, End, FeedFault, Gate, Input, Line, MOST_BOUND, Network, NoMemory, RunFault, Tokens,
    Value, Values, Verdict,
};
use kahn_texts::{WriteFault, put_line, uncounted, write_news, write_plain};
use std::alloc::Global;
use std::io::Write;
use std::marker::Model;

/// A run that is fed as it runs. Each of its parts may take the number of events that is its bound.
#[derive(Drop)]
pub(crate) struct Paced<'n> {
    pub(crate) flow: Flow<'n>,
    pub(crate) step: u64,
    allowed: u64,
    lines: Vec<Line>,
    // Of each stream the values that wait for the others of their rows, of those that the run let go of.
    kept: Vec<Vec<Value>>,
}

type WriteResult = Result<(), WriteFault>;

impl<'n> Model for Paced<'n> {
    ghost use Rattle.kahn_streams.specs.contracts.tree.Action as action;
    ghost use Rattle.kahn_streams.specs.contracts.tree.Form as form;
    ghost use Rattle.std.specs.Coded.{codes};
    ghost use Rattle.kahn_session.specs.Pace.{Pace};
    ghost use Rattle.kahn_session.specs.inner.Kept.{IsPaced, kept_values};

    ghost Value = { Pace };

    ghost coded = { Prim.hlevel (codes, action.the_row.coded, form.the_row.coded) };

    ghost view = { λ p. record { flow = p.flow; waits = kept_values p.kept.items; step = p.step } };

    ghost invariant = { λ p. IsPaced p.flow.run p.lines.items p.allowed p.step };
}

impl<'n> Paced<'n> {
    pub(crate) fn start(
        alloc: Global,
        network: &'n Network,
        input: Input,
        config: Config,
    ) -> Result<Paced<'n>, RunFault>
        ensures { MatchResult result (λ p. HasFlowed network.now input config p.flow × (p.waits ≡ []) × (p.step ≡ config.bound)) (IsUnstarted network.now config) }
    {
        let step = config.bound;
        let flow = Flow::start(alloc, network, input, config)?;
        let lines = flow.lines()?;
        Ok(Paced {
            flow,
            step,
            allowed: step,
            lines,
            kept: Vec::new(alloc),
        })
    }

    fn more(&self) -> u64
        ensures { self.now.flow.run.bound + result ≡ part_bound self.now.step self.now.flow.run }
    {
        (self.step - self.flow.budget()).min(MOST_BOUND - self.allowed)
    }

    pub(crate) fn part<G: Gate>(&mut self, gate: &G) -> Verdict
        ensures { IsPart self.old self.new result }
    {
        let more = self.more();
        let Ok(verdict) = self.flow.resume(more, gate) else {
            unreachable!()
        };
        self.allowed += more;
        verdict
    }

    pub(crate) fn feed(&mut self, channel: &str, values: &[Value]) -> Result<(), FeedFault>
        ensures fed { IfOk result (λ _. HasPouredIn (channel.now, values.now) self.old.flow self.new.flow) }
        ensures unfed { IfErr result (IsUnpoured (channel.now, values.now) self.old.flow self.new.flow) }
        ensures rest { self.new ≡ record self.old { flow = self.new.flow } }
    {
        self.flow.feed(channel, values)
    }

    pub(crate) fn lines(&self) -> &[Line]
        ensures { result.now ≡ flow_lines self.now.flow.run }
    {
        &self.lines
    }

    pub(crate) fn kept(&self, number: usize) -> &[Value]
        ensures { result.now ≡ news_on number self.now.waits }
    {
        if number >= self.kept.len() {
            return &[];
        }
        self.kept[number].as_slice()
    }

    pub(crate) fn fresh(&self, line: Line) -> &Tokens
        requires { IsLineOf self.now.flow.run line }
        ensures { AreNew self.now.flow line result.now.items }
    {
        self.flow.fresh(line)
    }

    pub(crate) fn forget(&mut self, kept: Vec<Vec<Value>>)
        ensures { self.new ≡ let_go_but self.old (kept_values kept.items) }
    {
        self.flow.forget();
        self.kept = kept;
    }

    pub(crate) fn ends(&self) -> &[End]
        requires { (v : VerdictOf) × (self.now.flow.run.verdict ≡ Some v) }
        ensures { (v : VerdictOf) → self.now.flow.run.verdict ≡ Some v → IsRightSoFar self.now.flow.run v result.now }
    {
        self.flow.ends()
    }

    pub(crate) fn events(&self) -> u64
        ensures { result ≡ events_of self.now.flow.run }
    {
        self.flow.events()
    }
}

fn next_stream(run: &Paced<'_>, from: usize, count: usize) -> Option<usize>
    ensures { MatchOption result (AreStale run.now.flow from count) (λ n. (from ≤ n) × (n < count) × AreStale run.now.flow from n) }
{
    let next = run.flow.next_fresh(from);
    if next >= count {
        return None;
    }
    Some(next)
}

fn put_news<W: Write>(
    writer: &mut W,
    network: &Network,
    run: &Paced<'_>,
    lines: &[Line],
) -> WriteResult
    requires network { run.now.flow.run.network ≡ network.now }
    requires lines { lines.now ≡ flow_lines run.now.flow.run }
    ensures { Writes (W.contents writer.old) (W.contents writer.new) result (lines_text network.now run.now.flow lines.now) }
{
    let _program = network.program();
    let mut from = 0;
    'streams: while let Some(number) = next_stream(run, from, lines.len()) {
        let line = lines[number];
        write_news(writer, network, line, &run.fresh(line).values())?;
        from = number + 1;
    }
    Ok(())
}

fn fresh_of<'r>(run: &'r Paced<'_>, number: usize) -> Values<'r>
    ensures { result ≡ news_on number (news_of run.now.flow) }
{
    let lines = run.lines();
    if number >= lines.len() {
        return Values::none();
    }
    run.fresh(lines[number]).values()
}

fn value_text<'b>(buffer: &'b mut Buffer, value: Value) -> &'b str
    ensures { result.now ≡ value_text value }
{
    match value {
        Value::Integer(number) => buffer.format(number),
        Value::Logical(true) => "true",
        Value::Logical(false) => "false",
    }
}

fn put_cell<W: Write>(writer: &mut W, value: Option<Value>, stop: &str) -> WriteResult
    ensures { Writes (W.contents writer.old) (W.contents writer.new) result (cell_news value stop.now) }
{
    let Some(value) = value else {
        return Ok(());
    };
    let mut buffer = Buffer::new();
    let text = value_text(&mut buffer, value);
    put_line(
        writer,
        &[text.as_bytes(), stop.as_bytes()],
        &mut uncounted(),
    )
}

fn next_count(run: &Paced<'_>, number: usize) -> usize
    ensures { result ≡ length (next_of run.now number) }
{
    run.kept(number).len() + fresh_of(run, number).len()
}

fn next_at(run: &Paced<'_>, number: usize, place: usize) -> Option<Value>
    ensures { result ≡ slice_get (next_of run.now number) place }
{
    let kept = run.kept(number);
    if place < kept.len() {
        return Some(kept[place]);
    }
    fresh_of(run, number).get(place - kept.len())
}

fn row_stop(behind: &[usize]) -> &'static str
    ensures { result.now ≡ row_stop behind.now }
{
    if behind.is_empty() { "\n" } else { "," }
}

fn put_row<W: Write>(
    writer: &mut W,
    run: &Paced<'_>,
    columns: &[usize],
    place: usize,
) -> WriteResult
    ensures { Writes (W.contents writer.old) (W.contents writer.new) result (row_news (next_of run.now) place columns.now) }
{
    let mut rest = columns;
    'columns: while let Some((number, behind)) = rest.split_first() {
        let value = next_at(run, *number, place);
        put_cell(writer, value, row_stop(behind))?;
        rest = behind;
    }
    Ok(())
}

fn put_rows<W: Write>(
    writer: &mut W,
    run: &Paced<'_>,
    columns: &[usize],
    from: usize,
    to: usize,
) -> WriteResult
    ensures { Writes (W.contents writer.old) (W.contents writer.new) result (rows_news (next_of run.now) columns.now from (to - from)) }
{
    for place in from..to {
        put_row(writer, run, columns, place)?;
    }
    Ok(())
}

fn fewest(run: &Paced<'_>, first: usize, columns: &[usize]) -> usize
    ensures { result ≡ fewest (next_of run.now) first columns.now }
{
    let mut least = first;
    let mut rest = columns;
    'columns: while let Some((number, behind)) = rest.split_first() {
        least = least.min(next_count(run, *number));
        rest = behind;
    }
    least
}

pub(crate) fn row_count(run: &Paced<'_>, columns: &[usize]) -> usize
    ensures { result ≡ row_count (next_of run.now) columns.now }
{
    match columns.split_first() {
        None => 0,
        Some((number, behind)) => fewest(run, next_count(run, *number), behind),
    }
}

pub(crate) fn show<W: Write>(
    writer: &mut W,
    network: &Network,
    run: &Paced<'_>,
    columns: &[usize],
    from: usize,
    to: usize,
) -> WriteResult
    requires network { run.now.flow.run.network ≡ network.now }
    requires count { to ≡ row_count (next_of run.now) columns.now }
    ensures { Writes (W.contents writer.old) (W.contents writer.new) result (form_text columns.now from network.now run.now) }
{
    let Some((number, behind)) = columns.split_first() else {
        return put_news(writer, network, run, run.lines());
    };
    if behind.is_empty() {
        return write_plain(writer, &fresh_of(run, *number));
    }
    put_rows(writer, run, columns, from, to)
}

fn are_rows(columns: &[usize]) -> bool
    ensures { result ≡ are_rows columns.now }
{
    columns.len() > 1
}

fn has_more(run: &Paced<'_>, columns: &[usize], count: usize) -> bool
    ensures { result ≡ list_any (λ c. nat_lt count (length (next_of run.now c))) columns.now }
{
    columns
        .iter()
        .any(|number| next_count(run, *number) > count)
}

pub(crate) fn is_uneven(run: &Paced<'_>, columns: &[usize], count: usize) -> bool
    ensures { result ≡ is_uneven (next_of run.now) count columns.now }
{
    are_rows(columns) && has_more(run, columns, count)
}

fn waiting_of(
    alloc: Global,
    run: &Paced<'_>,
    columns: &[usize],
    number: usize,
    count: usize,
) -> Result<Vec<Value>, NoMemory>
    ensures { IfOk result (λ left. left.items ≡ (if list_any (λ c. c == number) columns.now then drop count (next_of run.now number) else [])) }
{
    let mut left = Vec::new(alloc);
    if !columns.contains(&number) {
        return Ok(left);
    }
    for place in count..usize::MAX {
        let Some(value) = next_at(run, number, place) else {
            return Ok(left);
        };
        left.push(value)?;
    }
    Err(NoMemory)
}

fn all_waiting(
    alloc: Global,
    run: &Paced<'_>,
    columns: &[usize],
    count: usize,
) -> Result<Vec<Vec<Value>>, NoMemory>
    ensures { IfOk result (λ left. kept_values left.items ≡ waiting_from (next_of run.now) count columns.now 0 (flow_lines run.now.flow.run)) }
{
    let lines = run.lines();
    let mut left = Vec::new(alloc);
    for number in 0..lines.len() {
        left.push(waiting_of(alloc, run, columns, number, count)?)?;
    }
    Ok(left)
}

/// Whether at most as many values would be copied as are new: so no value is copied more often than one arrives.
fn is_worth(run: &Paced<'_>, columns: &[usize], count: usize) -> bool {
    let mut new: usize = 0;
    for number in 0..run.lines().len() {
        new = new.saturating_add(fresh_of(run, number).len());
    }
    let mut left: usize = 0;
    for number in columns {
        left = left.saturating_add(next_count(run, *number).saturating_sub(count));
    }
    left <= new
}

/// Drops the values of the first `count` rows. Returns how many written rows are still kept: 0, or `count` if copying isn't worth
/// it yet or memory is refused.
pub(crate) fn let_go(alloc: Global, run: &mut Paced<'_>, columns: &[usize], count: usize) -> usize
    ensures gone { HasLetGoBehind count columns.now run.old run.new result }
    ensures run { run.new.flow.run ≡ run.old.flow.run }
{
    if !is_uneven(run, columns, count) {
        run.forget(Vec::new(alloc));
        return 0;
    }
    if !is_worth(run, columns, count) {
        return count;
    }
    let Ok(left) = all_waiting(alloc, run, columns, count) else {
        return count;
    };
    run.forget(left);
    0
}

/// States that what was written of each stream begins what there is of it. It changes nothing.
pub(crate) fn begun(run: &Paced<'_>, lines: &[Line])
    requires { lines.now ≡ flow_lines run.now.flow.run }
    ensures { OutBegins run.now.flow }
{
    for line in lines {
        let _fresh = run.fresh(*line);
    }
}

//! Runs for a table of histories or of counts; and the channel with the most values left.

ghost use Rattle.std.specs.Prelude.{◌≡◌, ◌<◌, ◌++◌, IfOk, MatchResult, false, length, map, ◌+◌, string_bytes};
ghost use Rattle.kahn_streams.specs.{Answers.HasStream, Answers.is_output, Network.network_of, Network.role_at, declared.value.Line.TheVariants.Channel};
ghost use Rattle.kahn_fault.specs.Work.{IsUnanswered};
ghost use Rattle.kahn_explain.specs.{Histories.IsCountedFor, Histories.IsRecordedFor, inner.Columns.AreAllHistories, inner.Columns.HasLine, inner.Columns.IsHistoryOf, Histories.IsRecord, Running.HasPut, inner.Columns.print_part, Untaken.IsFullest, Untaken.left_of, Untaken.put_line};
ghost use Rattle.kahn_line.specs.Parts.{parted as parted_at};

use crate::rows::{flush_all, put, put_value};
use itoa::Buffer;
use kahn_fault::WorkFault;
use kahn_line::parted;
use kahn_sequential::{Count, Counted, Recorded, run_counted, run_recorded};
use kahn_streams::{Answer, Config, Line, Network, Role, Side, Stream, Value, Verdict};
use kahn_texts::{WriteFault, add, channel_name, process_name, read_input};
use std::alloc::{AllocError, Global};
use std::io::Write;

/// Runs a network for an input text, and counts what each channel had. Fails as `read_input` and `run_counted` do.
pub(crate) fn counted(
    alloc: Global,
    network: &Network,
    text: &str,
    config: Config,
) -> Result<Counted, WorkFault>
    ensures { MatchResult result (IsCountedFor network.now text.now config) (IsUnanswered network.now text.now config) }
{
    let input = read_input(alloc, text, network)?;
    match run_counted(alloc, network, input, config) {
        Ok(run) => Ok(run),
        Err(fault) => Err(WorkFault::Run(fault)),
    }
}

/// Returns the run of a network for an input text, with all that was sent. Fails as `read_input` and `run_recorded` do.
pub(crate) fn recorded(
    alloc: Global,
    network: &Network,
    text: &str,
    config: Config,
) -> Result<Recorded, WorkFault>
    ensures { MatchResult result (IsRecordedFor network.now text.now config) (IsUnanswered network.now text.now config) }
{
    let input = read_input(alloc, text, network)?;
    match run_recorded(alloc, network, input, config) {
        Ok(run) => Ok(run),
        Err(fault) => Err(WorkFault::Run(fault)),
    }
}

fn streamed(answer: &Answer, line: Line) -> &Stream
    requires { HasLine answer.now line }
    ensures { HasStream answer.now result.now × (result.now.line ≡ line) }
{
    for stream in &answer.streams {
        if stream.line == line {
            return stream;
        }
    }
    unreachable!()
}

/// The history of a channel that isn't an output.
fn kept<'r>(_network: &Network, run: &'r Recorded, channel: usize) -> &'r Stream
    requires here { channel < length (network_of _network.now).channels }
    requires kept { is_output (role_at (network_of _network.now) channel) ≡ false }
    requires run { IsRecord _network.now run.now }
    ensures { IsHistoryOf _network.now run.now (Channel channel) result.now }
{
    &run.channels[channel]
}

/// Returns the history of a channel: the answer's if it is an output, and else what was kept.
fn history<'r>(network: &Network, run: &'r Recorded, channel: usize) -> &'r Stream
    requires here { channel < length (network_of network.now).channels }
    requires run { IsRecord network.now run.now }
    ensures { IsHistoryOf network.now run.now (Channel channel) result.now }
{
    match network.channel(channel).role {
        Role::Output => streamed(&run.answer, Line::Channel(channel)),
        Role::Inner | Role::Input => kept(network, run, channel),
    }
}

fn add_print<'r>(columns: &mut Vec<&'r Stream>, stream: &'r Stream) -> Result<(), AllocError>
    ensures { IfOk result (λ _. map (λ s. s.now) columns.new.items ≡ map (λ s. s.now) columns.old.items ++ print_part stream.now) }
{
    match stream.line {
        Line::Channel(_) => Ok(()),
        Line::Print(_) => Ok(columns.push(stream)?),
    }
}

/// Returns the histories of all channels and print streams of a run, from place 0 on. Each begins the history of its line, and if
/// the answer has finished it is the whole history.
fn columns_of<'r>(
    alloc: Global,
    network: &Network,
    run: &'r Recorded,
) -> Result<Vec<&'r Stream>, AllocError>
    requires { IsRecord network.now run.now }
    ensures { IfOk result (λ xs. AreAllHistories network.now run.now (map (λ s. s.now) xs.items)) }
{
    let mut columns = Vec::new(alloc);
    for channel in 0..network.channels() {
        let stream = history(network, run, channel);
        columns.push(stream)?;
    }
    for stream in &run.answer.streams {
        add_print(&mut columns, stream)?;
    }
    Ok(columns)
}

/// The text of a table.
pub(crate) type TableText = Result<String, AllocError>;

pub(crate) fn add_numbers(text: &mut String, numbers: &[u64]) -> Result<(), AllocError> {
    for number in numbers {
        let mut digits = Buffer::new();
        add(text, &[",", digits.format(*number)])?;
    }
    Ok(())
}

/// Adds the name of a channel, or the number and the name of a process.
pub(crate) fn add_line(text: &mut String, network: &Network, line: Line) -> Result<(), AllocError> {
    let mut digits = Buffer::new();
    match line {
        Line::Channel(channel) => text.push_str(channel_name(network, channel)),
        Line::Print(instance) => {
            let number = digits.format(instance as u128 + 1);
            add(text, &[number, " ", process_name(network, instance)])
        }
    }
}

pub(crate) fn add_value(text: &mut String, value: Value) -> Result<(), AllocError> {
    let mut buffer = Buffer::new();
    match value {
        Value::Integer(number) => text.push_str(buffer.format(number)),
        Value::Logical(true) => text.push_str("true"),
        Value::Logical(false) => text.push_str("false"),
    }
}

/// The table of all that the channels of a run carried. A first row heads the columns of its channels and prints; its first word is
/// `place`. Then comes a row for each place, from 1 to the last value's place. It has the value of each column there, or nothing if
/// there is none.
#[derive(Drop)]
pub(crate) struct Trace<'r> {
    head: String,
    columns: Vec<&'r Stream>,
    // The columns that have more values, by their numbers, from the first on.
    open: Vec<usize>,
    // A comma for each column.
    commas: Vec<u8>,
    places: usize,
}

impl<'r> Trace<'r> {
    /// Makes the table ready, so that nothing is allocated once a part of it has been written.
    pub(crate) fn new(
        alloc: Global,
        network: &Network,
        run: &'r Recorded,
    ) -> Result<Trace<'r>, AllocError>
        requires { IsRecord network.now run.now }
    {
        let columns = columns_of(alloc, network, run)?;
        let mut head = String::from_str(alloc, "place")?;
        let mut open = Vec::new(alloc);
        let mut places = 0;
        for (number, column) in columns.iter().enumerate() {
            head.push_str(match column.line {
                Line::Channel(_) => ",",
                Line::Print(_) => ",print ",
            })?;
            add_line(&mut head, network, column.line)?;
            places = places.max(column.tokens.len());
            open.push(number)?;
        }
        head.push_str("\n")?;
        let commas = vec![in alloc; b','; columns.len()]?;
        Ok(Trace {
            head,
            columns,
            open,
            commas,
            places,
        })
    }

    // As many commas as lead from one column to another.
    fn gap(&self, from: usize, to: usize) -> &[u8] {
        let count = to.saturating_sub(from).min(self.commas.len());
        &self.commas[..count]
    }

    fn value(&self, number: usize, place: usize) -> Option<Value> {
        match self.columns.get(number) {
            Some(column) => column.tokens.values().get(place),
            None => None,
        }
    }

    // Writes the value of a column at a place, if it has one, after the commas since the last one, and returns how many columns are written.
    #[tactic(auto, using(crate::proofs::Pieces::fails, crate::proofs::Pieces::next_piece, crate::proofs::Pieces::no_piece))]
    fn put_column<W: Write>(
        &self,
        out: &mut W,
        number: usize,
        place: usize,
        from: usize,
    ) -> Result<usize, WriteFault>
        ensures { HasPut (W.contents out.old) (W.contents out.new) result }
    {
        let Some(value) = self.value(number, place) else {
            return Ok(from);
        };
        let to = number.saturating_add(1);
        put_value(out, self.gap(from, to), value)?;
        Ok(to)
    }

    #[tactic(auto, using(crate::proofs::Pieces::fails, crate::proofs::Pieces::next_piece, crate::proofs::Pieces::no_piece))]
    fn put_columns<W: Write>(&self, out: &mut W, place: usize) -> Result<usize, WriteFault>
        ensures { HasPut (W.contents out.old) (W.contents out.new) result }
    {
        let mut from = 0;
        for number in &self.open {
            from = self.put_column(out, *number, place, from)?;
        }
        Ok(from)
    }

    #[tactic(auto, using(crate::proofs::Pieces::fails, crate::proofs::Pieces::next_piece, crate::proofs::Pieces::no_piece))]
    fn put_row<W: Write>(&self, out: &mut W, place: usize) -> Result<(), WriteFault>
        ensures { HasPut (W.contents out.old) (W.contents out.new) result }
    {
        let mut digits = Buffer::new();
        put(out, &[digits.format(place as u128 + 1).as_bytes()])?;
        let from = self.put_columns(out, place)?;
        put(out, &[self.gap(from, self.columns.len()), b"\n"])
    }

    // Leaves out the columns that have no values from a place on.
    fn close(&mut self, place: usize) {
        let mut kept = 0;
        for index in 0..self.open.len() {
            let number = self.open[index];
            if self.value(number, place).is_some() {
                if let Some(slot) = self.open.get_mut(kept) {
                    *slot = number;
                }
                kept = index.min(kept) + 1;
            }
        }
        self.open.truncate(kept);
    }

    /// Writes the table, and flushes. Never allocates.
    #[tactic(auto, using(crate::proofs::Pieces::fails, crate::proofs::Pieces::next_piece, crate::proofs::Pieces::no_piece))]
    pub(crate) fn put<W: Write>(mut self, out: &mut W) -> Result<(), WriteFault>
        ensures { HasPut (W.contents out.old) (W.contents out.new) result }
    {
        put(out, &[self.head.as_bytes()])?;
        for place in 0..self.places {
            self.close(place);
            self.put_row(out, place)?;
        }
        flush_all(out)
    }
}

/// Adds the number and the name of the process on a side of a channel; nothing if there is none.
fn add_side(text: &mut String, network: &Network, side: Option<Side>) -> Result<(), AllocError> {
    match side {
        Some(side) => add_line(text, network, Line::Print(side.instance)),
        None => Ok(()),
    }
}

/// Returns the table of the counts of a run's channels. A first row heads the columns; each channel has a row with its name, the
/// processes that write and read it, and how many values were sent, taken and left.
pub(crate) fn counts_text(alloc: Global, network: &Network, counts: &[Count]) -> TableText {
    let mut text = String::from_str(alloc, "channel,from,to,sent,taken,left\n")?;
    for number in 0..network.channels() {
        if let Some(count) = counts.get(number) {
            add(&mut text, &[channel_name(network, number), ","])?;
            add_side(&mut text, network, network.writer(number))?;
            text.push_str(",")?;
            add_side(&mut text, network, network.reader(number))?;
            let left = count.sent.saturating_sub(count.taken);
            add_numbers(&mut text, &[count.sent, count.taken, left])?;
            text.push_str("\n")?;
        }
    }
    Ok(text)
}

/// How many values of a channel are left that a process reads.
fn left_of(network: &Network, counts: &[Count], channel: usize) -> u64
    requires { channel < length (network_of network.now).channels }
    ensures { result ≡ left_of network.now counts.now channel }
{
    let Some(count) = counts.get(channel) else {
        return 0;
    };
    match network.channel(channel).role {
        Role::Output => 0,
        Role::Input | Role::Inner => count.sent.saturating_sub(count.taken),
    }
}

/// Returns `one`, or `next` if that has more values left, with how many.
fn fuller(network: &Network, counts: &[Count], one: (usize, u64), next: usize) -> (usize, u64)
    requires here { next < length (network_of network.now).channels }
    requires one { IsFullest network.now counts.now next one }
    ensures { IsFullest network.now counts.now (next + 1) result }
{
    let most = one.1;
    let left = left_of(network, counts, next);
    if most < left {
        return (next, left);
    }
    one
}

/// Returns the channel with the most values left, and how many, if a channel has any.
fn fullest(network: &Network, counts: &[Count]) -> (usize, u64)
    ensures { IsFullest network.now counts.now (length (network_of network.now).channels) result }
{
    let mut one = (0, 0);
    for next in 0..network.channels() {
        one = fuller(network, counts, one, next);
    }
    one
}

/// Returns the line on the channel with the most values left; nothing if no value is left, or the run has more to do.
pub(crate) fn untaken_line(
    alloc: Global,
    network: &Network,
    verdict: Verdict,
    counts: &[Count],
) -> Result<String, AllocError> {
    let mut text = String::new(alloc);
    let (channel, left) = fullest(network, counts);
    if left == 0 {
        return Ok(text);
    }
    let name = channel_name(network, channel);
    let sent = counts.get(channel).map_or(0, |count| count.sent);
    let (mut first, mut second) = (Buffer::new(), Buffer::new());
    let (some, all) = (first.format(left), second.format(sent));
    match verdict {
        Verdict::Finished if sent == 1 => {
            add(&mut text, &["the value of ", name, " was never taken\n"])?;
        }
        Verdict::Finished if left == sent => {
            let words = ["none of the ", all, " values of ", name, " was taken\n"];
            add(&mut text, &words)?;
        }
        Verdict::Finished => {
            let was = if left == 1 { " was" } else { " were" };
            add(&mut text, &[some, " of the ", all, " values of ", name])?;
            add(&mut text, &[was, " never taken\n"])?;
        }
        Verdict::Bound => {}
        Verdict::Memory => {
            add(&mut text, &[name, " holds ", some, " values that "])?;
            add_side(&mut text, network, network.reader(channel))?;
            text.push_str(" hasn't taken\n")?;
        }
    }
    Ok(text)
}

/// Returns a text with a line after its first one.
pub(crate) fn with_line(alloc: Global, text: &str, line: &str) -> Result<String, AllocError>
    ensures { IfOk result (λ whole. string_bytes whole ≡ put_line line.now (parted_at 10 text.now)) }
{
    let (first, rest) = parted(text, '\n');
    let mut whole = String::from_str(alloc, first)?;
    add(&mut whole, &["\n", line, rest.unwrap_or("")])?;
    Ok(whole)
}

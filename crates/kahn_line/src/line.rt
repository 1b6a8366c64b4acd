//! The command lines of the programs that do one run: that of `kahn`, of the program that draws, and of the one that explains.

ghost use Rattle.std.specs.Prelude.{◌≡◌, IfOk, codes, false, map, option_map, string_bytes};
ghost use Rattle.clap.specs.Words.{app_of, first_value, found_of, new_rule, one_text, rule_of};
ghost use Rattle.kahn_line.specs.{Line.bare_app, Line.file_named, Line.flag_rule, Line.was_given, Line.kahn_app, Line.number_rule, Line.text_rule, Line.IsAsked, Line.IsRead, Line.IsSet, Line.IsTold, Line.ReadsOr, declared.line.LineFault.TheVariants.NoMemory, Draw.IsDraw, Draw.draw_app, Explain.IsExplain, Explain.explain_app};

use clap::builder::ValueParser;
use clap::error::ErrorKind;
use clap::{Arg, ArgAction, ArgMatches, Command};
use kahn_streams::Config;
use std::alloc::{AllocError, Global};
use std::convert::AsStr;
use thiserror::Error;

// The help of options that several programs have.
pub(crate) static INPUT: &str =
    "File of the input text, with lines such as `A: 1 2 3` (an input channel and its values); /dev/stdin is standard input";

pub(crate) static BOUND: &str = "Events after which the run is stopped, 0 to 281474976710655";

pub(crate) static QUANTUM: &str = "Events that a process does at a time, 1 to 1000000";

/// The version of the programs, which `--version` prints after the name of the program. CHANGELOG.md has it as its newest heading.
static VERSION: &str = "0.9.0";

// The text after the options in the help.
static MORE: &str = "\
A program that sends 0, 1 and 2 on its output channel W:

  begin integer output channel W;
    process count(integer out W; integer N);
    begin integer I;
      while I < N do begin send I on W; I := I + 1 end
    end;
    count(W, 3)
  end

Its report has the values of W, the state of each process, and how the run ended:

  W: 0 1 2
  end 1 count: ended after 7
  finished 7

Events are counted: a wait that takes a value, a send, a print, and each turn of a loop. The workers and the quantum
change no value of any channel.

A run on an input text, whose report also shows X, a channel between two processes:

  kahn program.kahn --input data.txt --watch X

Other programs take the same text: kahn_explain says what is wrong with it and why its run stopped, kahn_draw draws its
network, and kahn_live runs it on lines of input as they come. Each has its own --help.

Exit status:
  0  report written: the run finished
  1  program or input refused
  2  command line refused
  3  report written: the run was stopped by the bound
  4  no memory; a report may be there, with a last line that says so
  5  a file can't be read or isn't UTF-8, or the report can't be written
  6  run refused: the watched channel isn't declared, or no thread could be started";

/// What the command line asks for.
#[derive(Debug, Drop)]
pub struct Options {
    /// The path of the program text, or nothing for standard input.
    pub program: Option<String>,
    /// The path of the input text, or nothing for the empty text.
    pub input: Option<String>,
    /// How the run is set up.
    pub config: Config,
}

/// Why a command line asks for no run.
#[derive(Debug, Drop, Error)]
pub enum LineFault {
    /// The words are refused, or ask for the help or the version: the text for the user.
    #[error("{0}")]
    Refused(clap::Error),
    /// Memory was refused.
    #[error("no memory")]
    NoMemory,
}

// The text after the options in the help of the program that draws.
static MORE_OF_DRAW: &str = "\
A box is an instance, with its number, process and value arguments; a second border means that its process prints. An
arrow is a channel, from its writer to its reader; a dashed one has logical values. Inputs and outputs are marked.

  kahn_draw program.kahn | dot -Tsvg > program.svg

With `--input`, which may name an empty file such as /dev/null, the program is run. A box then shows how its process ended,
and its colour too; the arrow of an output channel shows how many values were sent on it, and processes that wait on one
another in a ring are red.

  kahn_draw program.kahn --input data.txt | dot -Tsvg > program.svg

Exit status:
  0  the picture was written
  1  program or input refused
  2  command line refused
  4  no memory
  5  a file can't be read or isn't UTF-8, or the picture can't be written";

/// What the command line asks for.
#[derive(Debug, Drop)]
pub struct DrawOptions {
    /// The path of the program text, or nothing for standard input.
    pub program: Option<String>,
    /// The path of the input text of a run, or nothing for no run.
    pub input: Option<String>,
    /// After how many events the run is stopped.
    pub bound: u64,
}

// The text after the options in the help of the program that explains.
static MORE_OF_EXPLAIN: &str = "\
kahn_explain first says in one line what came of the run. Then it writes each cause once: a deadlock, which is a ring of
processes that wait on one another; a process that has a fault, waits on an input, or wants more events; or one that has
ended. Below it stands who waits because of it. With `--all` it writes each process that hasn't ended, and where its chain
of waits leads. If values are left that nobody took, the second line says of which channel most. The last line says how the
run ended. With a program whose process 1 waits on 2, and 2 on 1:

  kahn_explain ring.kahn

  deadlock: 1 stage and 2 stage wait on one another
  ring.kahn:4:17: error: 1 stage waits on A from 2 stage, in a deadlock: for ever
   4 |     repeat send wait(U) + 1 on W
     |                 ^^^^^^^
     = this ring wants a first value (let one of its processes send before it waits), or one of them takes more than another sends: kahn_explain --trace shows what came
  ring.kahn:4:17: error: 2 stage waits on B from 1 stage, in a deadlock: for ever
   4 |     repeat send wait(U) + 1 on W
     |                 ^^^^^^^
  finished 2

`for ever` means: whatever is added to the input, and however long the run is.

If the program text is refused, kahn_explain shows the place, with its source line and carets below. If something can't
be there, it names all that may be there.

Before the explanation, it warns of what is allowed but seldom meant: a comment that goes on over statements, a name that
is never read, a process without an instance, a loop that does nothing, a statement that is never reached. With `--strict`
a program with a warning isn't run.

With `--trace` it writes all values of all channels as a CSV table, in place of the explanation: a column for each channel
and each process that prints, a row for each place. The run keeps all values then, and the table comes
after it. Warnings go to standard error then, and so does the explanation if the status isn't 0. If the run
was stopped, the columns are beginnings. With a program that doubles what comes on A, and the input `A: 1 2`:

  kahn_explain double.kahn --input data.txt --trace

  place,A,B
  1,1,2
  2,2,4

With `--channels` it writes how many values each channel carried, in the same way: who sends on it and who takes from it,
how many values were sent and taken, and how many are left that nobody took:

  kahn_explain double.kahn --input data.txt --channels

  channel,from,to,sent,taken,left
  A,,1 double,2,2,0
  B,1 double,,2,0,2

With `--check` nothing is run: it only says what is wrong with the program text and the network, and with the input text
if there is one, and what it warns of. With `--json` it writes the same as data: a line for each note, an object of JSON.

With `--needs OUT:PLACE` it writes what the value at that place of a channel needs, whatever the schedule: the least number
of values of each channel, and of events of each process, of how many in the whole run. Places are counted from 1, and the
prints of process 1 are `--needs 1:PLACE`. Without `:PLACE` it writes a CSV table, with a row for each value of OUT:

  kahn_explain double.kahn --input data.txt --needs B:1

  B:1 = 2 needs A: 1 of 2
  events of 1 double: 3 of 7

With `--wakes IN:PLACE` it goes the other way round: it writes the same of the first value of each output that needs that
value of an input.

Exit status:
  0  the run finished, without a deadlock and without a fault; or it is known what a value needs, or that it never comes
  1  program, input or word of `--needs` or `--wakes` refused; with `--strict`, also for a warning
  2  command line refused
  3  the run was stopped by the bound
  4  no memory
  5  a file can't be read or isn't UTF-8, or the lines can't be written
  6  run refused: no thread could be started
  7  processes are in a deadlock
  8  a process has a fault of arithmetic, whatever else there is";

/// What the command line asks for.
#[derive(Debug, Drop)]
pub struct ExplainOptions {
    /// The path of the program text, or nothing for standard input.
    pub program: Option<String>,
    /// The path of the input text, or nothing for the empty text.
    pub input: Option<String>,
    /// How the run is set up. No channel is watched.
    pub config: Config,
    /// Whether each process is told that hasn't ended, and not only each cause.
    pub all: bool,
    /// Whether a program with a warning is refused.
    pub strict: bool,
    /// Whether a table of all histories is written.
    pub trace: bool,
    /// Whether a table of how many values each channel carried is written.
    pub channels: bool,
    /// Whether the texts are only looked at, and no run is done.
    pub check: bool,
    /// The line or the place of a line whose needs are written, or nothing.
    pub needs: Option<String>,
    /// The place of an input, of which is written which values are the first that need it, or nothing.
    pub wakes: Option<String>,
    /// Whether the texts are only looked at, and what is said of them is written as data.
    pub json: bool,
}

impl From<clap::Error> for LineFault {
    ghost from_gives = { λ error fault. IsTold error fault };

    fn from(error: clap::Error) -> LineFault {
        match error.kind() {
            ErrorKind::OutOfMemory => LineFault::NoMemory,
            _ => LineFault::Refused(error),
        }
    }
}

impl From<AllocError> for LineFault {
    ghost from_gives = { λ _ fault. fault ≡ NoMemory };

    fn from(_error: AllocError) -> LineFault {
        LineFault::NoMemory
    }
}

pub(crate) fn text_arg<'a>(alloc: Global, name: &'a str, value: &'a str, help: &'a str) -> Arg<'a>
    ensures rule { rule_of result ≡ text_rule name.entry.now }
    ensures local { result.global ≡ false }
{
    let named = Arg::new(alloc, name).long(name);
    named.value_name(value).help(help)
}

pub(crate) fn number_arg<'a>(
    alloc: Global,
    name: &'a str,
    least: u64,
    most: u64,
    given: &'a str,
    help: &'a str,
) -> Arg<'a>
    ensures rule { rule_of result ≡ number_rule name.entry.now least most given.entry.now }
    ensures local { result.global ≡ false }
{
    text_arg(alloc, name, "N", help)
        .value_parser(ValueParser::unsigned(least, most))
        .default_value(given)
}

pub(crate) fn program_arg<'a>(alloc: Global) -> Arg<'a>
    ensures rule { rule_of result ≡ new_rule (codes "PROGRAM") }
    ensures local { result.global ≡ false }
{
    Arg::new(alloc, "PROGRAM").help("File of the program text; without it, standard input")
}

pub(crate) fn flag_arg<'a>(alloc: Global, name: &'a str, help: &'a str) -> Arg<'a>
    ensures rule { rule_of result ≡ flag_rule name.entry.now }
    ensures local { result.global ≡ false }
{
    let named = Arg::new(alloc, name).long(name);
    named.action(ArgAction::SetTrue).help(help)
}

/// Whether an option without a text was given, by what was found for it.
pub(crate) fn was_given(found: Option<&str>) -> bool
    ensures { result ≡ was_given (option_map (λ t. t.now) found.entry) }
{
    match found {
        Some(text) => text == "true",
        None => false,
    }
}

/// Makes a command: a program's name, its version, its usage, and the texts around its options in the help.
pub(crate) fn bare<'a>(
    alloc: Global,
    name: &'a str,
    usage: &'a str,
    about: &'a str,
    more: &'a str,
) -> Result<Command<'a>, AllocError>
    ensures { IfOk result (λ c. app_of c ≡ bare_app name.entry.now) }
{
    let named = Command::new(alloc, name).bin_name(name)?.version(VERSION);
    Ok(named.override_usage(usage).about(about).after_help(more))
}

fn command<'a>(alloc: Global) -> Result<Command<'a>, AllocError>
    ensures { IfOk result (λ c. app_of c ≡ kahn_app) }
{
    let usage = "kahn [PROGRAM] [--input FILE] [OPTIONS]";
    let about =
        "Runs a network of processes that send one another values over channels, and reports what was sent.";
    let threads = "Threads at most, as many as have work, 1 to 16";
    let watch =
        "Reports one more channel besides the output channels; kahn_explain --trace shows all";
    bare(alloc, "kahn", usage, about, MORE)?
        .arg(program_arg(alloc))?
        .arg(text_arg(alloc, "input", "FILE", INPUT))?
        .arg(number_arg(alloc, "workers", 1, 16, "4", threads))?
        .arg(number_arg(alloc, "quantum", 1, 1_000_000, "1000", QUANTUM))?
        .arg(number_arg(alloc, "bound", 0, 281_474_976_710_655, "1000000", BOUND))?
        .arg(text_arg(alloc, "watch", "NAME", watch))
}

/// Copies a text, if there is one.
pub fn copied(alloc: Global, text: Option<&str>) -> Result<Option<String>, AllocError>
    ensures { IfOk result (λ copy. option_map string_bytes copy ≡ option_map (λ t. t.now) text.entry) }
{
    match text {
        Some(text) => Ok(Some(String::from_str(alloc, text)?)),
        None => Ok(None),
    }
}

/// The file that a word names: a minus is standard input.
fn file_named(word: &str) -> &str
    ensures { result.now ≡ file_named word.now }
{
    if word == "-" { "/dev/stdin" } else { word }
}

pub(crate) fn file_copied(alloc: Global, word: Option<&str>) -> Result<Option<String>, AllocError>
    ensures { IfOk result (λ copy. option_map string_bytes copy ≡ option_map file_named (option_map (λ t. t.now) word.entry)) }
{
    copied(alloc, word.map(file_named))
}

pub(crate) fn number_or(matches: &ArgMatches<'_>, name: &str, other: u64) -> u64
    ensures { ReadsOr other (one_text (found_of matches.now) name.now) result }
{
    matches.get_one::<u64>(name).unwrap_or(other)
}

/// Returns how the run is set up, with `workers` workers by default; the option `limit` has its bound.
pub(crate) fn config_of(
    alloc: Global,
    matches: &ArgMatches<'_>,
    workers: u64,
    limit: &str,
) -> Result<Config, AllocError>
    ensures { IfOk result (IsSet (found_of matches.now) workers limit.now) }
{
    Ok(Config {
        workers: number_or(matches, "workers", workers),
        quantum: number_or(matches, "quantum", 1000),
        bound: number_or(matches, limit, 1_000_000),
        watch: copied(alloc, matches.get_str("watch"))?,
    })
}

/// Reads the words of a command line, the first of which is the name of the program. Fails with `Refused` if clap
/// refuses the words or they ask for the help or the version, and with `NoMemory` if memory was refused.
pub fn read_line<S: AsStr>(alloc: Global, words: &[S]) -> Result<Options, LineFault>
    ensures { IsRead kahn_app IsAsked (map S.text words.now) result }
{
    let matches = command(alloc)?.try_get_matches_from(words)?;
    Ok(Options {
        program: copied(alloc, matches.get_str("PROGRAM"))?,
        input: copied(alloc, matches.get_str("input"))?,
        config: config_of(alloc, &matches, 4, "bound")?,
    })
}

fn draw_command<'a>(alloc: Global) -> Result<Command<'a>, AllocError>
    ensures { IfOk result (λ c. app_of c ≡ draw_app) }
{
    let usage = "kahn_draw [PROGRAM] [--input FILE] [OPTIONS]";
    let about = "Draws the network of a program, in the language of Graphviz.";
    bare(alloc, "kahn_draw", usage, about, MORE_OF_DRAW)?
        .arg(program_arg(alloc))?
        .arg(text_arg(alloc, "input", "FILE", INPUT))?
        .arg(number_arg(alloc, "bound", 0, 281_474_976_710_655, "1000000", BOUND))
}

/// Reads the words of a command line, as `read_line` does.
pub fn read_draw_line<S: AsStr>(alloc: Global, words: &[S]) -> Result<DrawOptions, LineFault>
    ensures { IsRead draw_app IsDraw (map S.text words.now) result }
{
    let matches = draw_command(alloc)?.try_get_matches_from(words)?;
    Ok(DrawOptions {
        program: file_copied(alloc, matches.get_str("PROGRAM"))?,
        input: file_copied(alloc, matches.get_str("input"))?,
        bound: number_or(&matches, "bound", 1_000_000),
    })
}

fn explain_command<'a>(alloc: Global) -> Result<Command<'a>, AllocError>
    ensures { IfOk result (λ c. app_of c ≡ explain_app) }
{
    let usage = "kahn_explain [PROGRAM] [--input FILE] [OPTIONS]";
    let about = "Runs a network of processes, and explains why the run stopped.";
    let workers = "As of kahn, 1 to 16; without effect here, where one thread runs";
    let trace = "Writes all values of all channels, as a CSV table";
    let channels = "Writes how many values each channel carried, as a CSV table";
    let check = "Looks at the texts alone, for editors and repositories: nothing is run";
    let needs =
        "Writes what the value at a place of a channel needs; without a place, a CSV table of all";
    let wakes =
        "Writes which value of each output is the first that needs the value at a place of an input";
    let json = "As --check, and writes each note as an object of JSON, for editors";
    bare(alloc, "kahn_explain", usage, about, MORE_OF_EXPLAIN)?
        .arg(program_arg(alloc))?
        .arg(text_arg(alloc, "input", "FILE", INPUT))?
        .arg(number_arg(alloc, "workers", 1, 16, "4", workers))?
        .arg(number_arg(alloc, "quantum", 1, 1_000_000, "1000", QUANTUM))?
        .arg(number_arg(alloc, "bound", 0, 281_474_976_710_655, "1000000", BOUND))?
        .arg(flag_arg(alloc, "all", "Tells each process that hasn't ended"))?
        .arg(flag_arg(alloc, "strict", "Refuses a program with a warning"))?
        .arg(flag_arg(alloc, "trace", trace))?
        .arg(flag_arg(alloc, "channels", channels))?
        .arg(flag_arg(alloc, "check", check))?
        .arg(text_arg(alloc, "needs", "OUT[:PLACE]", needs))?
        .arg(text_arg(alloc, "wakes", "IN[:PLACE]", wakes))?
        .arg(flag_arg(alloc, "json", json))
}

/// Reads the words of a command line, as `read_line` does.
pub fn read_explain_line<S: AsStr>(alloc: Global, words: &[S]) -> Result<ExplainOptions, LineFault>
    ensures { IsRead explain_app IsExplain (map S.text words.now) result }
{
    let matches = explain_command(alloc)?.try_get_matches_from(words)?;
    Ok(ExplainOptions {
        program: file_copied(alloc, matches.get_str("PROGRAM"))?,
        input: file_copied(alloc, matches.get_str("input"))?,
        config: config_of(alloc, &matches, 4, "bound")?,
        all: was_given(matches.get_str("all")),
        strict: was_given(matches.get_str("strict")),
        trace: was_given(matches.get_str("trace")),
        channels: was_given(matches.get_str("channels")),
        check: was_given(matches.get_str("check")),
        needs: copied(alloc, matches.get_str("needs"))?,
        wakes: copied(alloc, matches.get_str("wakes"))?,
        json: was_given(matches.get_str("json")),
    })
}

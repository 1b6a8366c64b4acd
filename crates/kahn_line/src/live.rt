//! The command line of the program that is fed line by line, and its words that have two parts.

ghost use Rattle.std.specs.Prelude.{◌≡◌, IfOk, codes, map, string_bytes, ◌<◌, ◌≤◌, ◌∷◌, ◌++◌, Some, length, option_copied, option_map};
ghost use Rattle.clap.specs.Words.{app_of, found_of};
ghost use Rattle.kahn_line.specs.{Line.IsRead, Live.IsLive, Live.live_app, Parts.found_texts, Parts.input_named, Parts.joined_words, Parts.set_line, Parts.IsJoinedBy, Parts.columns_given, Parts.lent, Parts.names_given, Parts.names_in, Parts.parted, Parts.plain_parts, Parts.short_given, Parts.takes_behind};

use crate::line::{
    LineFault, QUANTUM, bare, config_of, copied, file_copied, flag_arg, number_arg, text_arg,
    was_given,
};
use clap::{Arg, ArgAction, ArgMatches, Command};
use kahn_streams::Config;
use std::alloc::{AllocError, Global};
use std::convert::AsStr;

// The text after the options in the help.
static MORE: &str = "\
Each line of standard input is like a line of an input text, `A: 1 2 3`: an input channel, and values that are added to
those that it has. After each line the network runs until it waits for more input. Then kahn_live writes a line for each
output channel that has new values, with only these. With a program that doubles what comes on A:

  printf 'A: 1\\nA: 2 3\\n' | kahn_live double.kahn

  B: 2
  B: 4 6

The events after a line are a part of the run. A blank line feeds nothing and runs a part, and so does the start. Standard
output has values and nothing else. If the status isn't 0, a process has a fault, or processes wait on one another in a
ring, standard error says at the end how each process stands and how the run ended.

If a line can't be taken, standard error says so, with its number and the word at fault, and the line changes nothing. A
mistake in a line of `--at-end` is said at the start, and no line is taken. If a line wants more events than --step allows,
standard error says so once, and if memory is refused after a line was taken, it says so too. In both cases the run goes on
with the next line, even a blank one. The run uses one thread. It doesn't keep what it wrote, nor the input that was taken.

With `--in A` a line has only values of that channel, separated by blanks. With `--in A,B` a line is a row: one value for
each of these channels, with blanks, tabs or commas between. A row that can't be taken whole feeds nothing. Other input
channels get no values; where one is named, kahn_live says so. With `--out X` it writes only the new values of that channel,
one a line; with `--in` alone those of the first stream. With `--out X,Y` it writes rows, with commas between: the next value
of each of these channels, once all have it. `--plain A,X` is short for `--in A --out X`.

  printf '1\\n2 3\\n' | kahn_live double.kahn --in A --out B

  2
  4
  6

A program without an input channel takes no lines. It runs on until its reader goes away or nothing can go on.

Exit status:
  0  the end was reached, and the run finished; or nobody reads the lines any more
  1  program refused; or a line was refused, and the status would be 0 otherwise
  2  command line refused
  3  the end was reached, but the last part used up its step
  4  no memory
  5  a file or standard input can't be read, the program isn't UTF-8, or the lines can't be written
  6  run refused: a channel named in an option doesn't exist, or isn't an input; or a line of --at-end can't be taken
  7  with --strict: the end was reached, and processes wait on one another in a ring
  8  with --strict: the end was reached, and a process has a fault of arithmetic";

/// What the command line asks for.
#[derive(Debug, Drop)]
pub struct LiveOptions {
    /// The path of the program text. The words always name one.
    pub program: Option<String>,
    /// How the run is set up, by one worker. Its bound is how many events a part may take.
    pub config: Config,
    /// Whether lines that are refused leave the status as it is.
    pub keep_going: bool,
    /// Whether a fault of a process, or processes that wait on one another, have a status of their own.
    pub strict: bool,
    /// The lines that are fed once the input has ended, in this order.
    pub at_end: Vec<String>,
    /// The channels whose values stand alone in the lines of input and output, if they do.
    pub plain: Option<PlainNames>,
}

/// Channels whose values stand alone in the lines of input and output.
#[derive(Debug, Drop)]
pub struct PlainNames {
    /// The names of the channels whose values are taken, with commas between, never empty; or nothing if lines begin with names.
    pub input: Option<String>,
    /// The names of the channels whose values are shown, with commas between, never empty; or nothing for the first stream of a report.
    pub output: Option<String>,
}

fn live_command<'a>(alloc: Global) -> Result<Command<'a>, AllocError>
    ensures { IfOk result (λ c. app_of c ≡ live_app) }
{
    let usage = "kahn_live PROGRAM [--in NAMES] [--out NAMES] [OPTIONS] < LINES";
    let about =
        "Runs a network of processes on the lines of its standard input, and shows after each line what is new.";
    let program = "File of the program text";
    let keep_going = "Leaves the status 0 even if lines were refused";
    let plain = "Is short for --in INPUT --out OUTPUT";
    let step =
        "Limit of events after each line, 1 to 281474976710655; if one needs more, its answers come late";
    let watch =
        "Shows one more channel besides the output channels; with --plain, write --plain INPUT,NAME";
    let strict =
        "Ends with 8 if a process has a fault of arithmetic, and else with 7 if processes wait on one another";
    let at_end =
        "Feeds the line `NAME: VALUE` when the input has ended; with --plain, VALUE alone, such as -1; may be repeated";
    let inputs =
        "Reads bare values of this input channel alone, or rows with one value for each of these";
    let outputs =
        "Writes bare values of this channel alone, one a line, or rows of these; with --in alone, those of the first stream";
    bare(alloc, "kahn_live", usage, about, MORE)?
        .arg(Arg::new(alloc, "PROGRAM").required(true).help(program))?
        .arg(number_arg(alloc, "quantum", 1, 1_000_000, "1000", QUANTUM))?
        .arg(number_arg(alloc, "step", 1, 281_474_976_710_655, "1000000", step))?
        .arg(text_arg(alloc, "watch", "NAME", watch))?
        .arg(flag_arg(alloc, "keep-going", keep_going))?
        .arg(flag_arg(alloc, "strict", strict))?
        .arg(text_arg(alloc, "at-end", "NAME=VALUE", at_end).action(ArgAction::Append))?
        .arg(text_arg(alloc, "in", "NAME[,NAME..]", inputs))?
        .arg(text_arg(alloc, "out", "NAME[,NAME..]", outputs))?
        .arg(text_arg(alloc, "plain", "INPUT[,OUTPUT]", plain))
}

fn lines_at_end(
    alloc: Global,
    matches: &ArgMatches<'_>,
    plain: &Option<PlainNames>,
) -> Result<Vec<String>, AllocError>
    ensures { IfOk result (λ lines. map string_bytes lines.items ≡ map (set_line (input_named plain.now)) (found_texts (found_of matches.now) (codes "at-end"))) }
{
    let words = matches.get_strs("at-end").unwrap_or(&[]);
    let input = input_named(plain);
    let mut lines = Vec::new(alloc);
    for word in words {
        lines.push(set_line(alloc, input, word)?)?;
    }
    Ok(lines)
}

/// Reads the words of a command line, which have to name a program text, as `read_line` does.
pub fn read_live_line<S: AsStr>(alloc: Global, words: &[S]) -> Result<LiveOptions, LineFault>
    ensures { IsRead live_app IsLive (joined_words (map S.text words.now)) result }
{
    let words = joined_words(alloc, words)?;
    let matches = live_command(alloc)?.try_get_matches_from(words.as_slice())?;
    let (inputs, outputs) = (matches.get_str("in"), matches.get_str("out"));
    let plain = plain_of(alloc, inputs, outputs, matches.get_str("plain"))?;
    let set = config_of(alloc, &matches, 1, "step")?;
    Ok(LiveOptions {
        program: file_copied(alloc, matches.get_str("PROGRAM"))?,
        config: Config { workers: 1, ..set },
        keep_going: was_given(matches.get_str("keep-going")),
        strict: was_given(matches.get_str("strict")),
        at_end: lines_at_end(alloc, &matches, &plain)?,
        plain,
    })
}

/// Returns the parts of a word before and after the first such sign; a word without it has one part.
pub fn parted(word: &str, sign: char) -> (&str, Option<&str>)
    requires { sign < 128 }
    ensures first { result.0.now ≡ (parted sign word.now).0 }
    ensures second { option_map (λ t. t.now) result.1 ≡ (parted sign word.now).1 }
{
    match word.split_once(sign) {
        Some((before, behind)) => (before, Some(behind)),
        None => (word, None),
    }
}

/// Whether a word is `--at-end`, and the one after it begins as a negative number does.
fn takes_behind(word: &str, value: &str) -> bool
    ensures { result ≡ takes_behind word.now value.now }
{
    word == "--at-end" && matches!(value.as_bytes(), [b'-', digit, ..] if digit.is_ascii_digit())
}

fn joined(alloc: Global, word: &str, sign: &str, value: &str) -> Result<String, AllocError>
    ensures { IfOk result (λ text. string_bytes text ≡ word.now ++ (sign.now ++ value.now)) }
{
    let mut text = String::from_str(alloc, word)?;
    text.push_str(sign)?;
    text.push_str(value)?;
    Ok(text)
}

/// Adds a word, joined with the next one if that belongs to it, and returns the words that are left.
fn add_joined<'w, S: AsStr>(
    alloc: Global,
    all: &mut Vec<String>,
    word: &S,
    behind: &'w [S],
) -> Result<&'w [S], AllocError>
    ensures fewer { IfOk result (λ left. length left.now ≤ length behind.now) }
    ensures joined { IfOk result (λ left. IsJoinedBy S.text all.old.items (word.now ∷ behind.now) all.new.items left.now) }
{
    let word = word.as_str();
    if let Some((value, left)) = behind.split_first() {
        let value = value.as_str();
        if takes_behind(word, value) {
            all.push(joined(alloc, word, "=", value)?)?;
            return Ok(left);
        }
    }
    all.push(String::from_str(alloc, word)?)?;
    Ok(behind)
}

/// Joins a negative number after `--at-end` to it, in these words.
fn joined_words<S: AsStr>(alloc: Global, words: &[S]) -> Result<Vec<String>, AllocError>
    ensures { IfOk result (λ all. map string_bytes all.items ≡ joined_words (map S.text words.now)) }
{
    let mut all = Vec::new(alloc);
    let mut rest = words;
    'words: while let Some((word, behind)) = rest.split_first() {
        rest = add_joined(alloc, &mut all, word, behind)?;
    }
    Ok(all)
}

/// Returns the line `NAME: VALUE` of a word `NAME=VALUE`. A word without `=` is values of the input channel that is given, or the line.
fn set_line(alloc: Global, input: Option<&str>, word: &str) -> Result<String, AllocError>
    ensures { IfOk result (λ line. string_bytes line ≡ set_line (option_copied input.entry) word.now) }
{
    let (name, value) = parted(word, '=');
    match (value, input) {
        (Some(value), _) => joined(alloc, name, ": ", value),
        (None, Some(input)) => joined(alloc, input, ": ", name),
        (None, None) => String::from_str(alloc, name),
    }
}

/// Returns the names of the channels whose values are alone in the lines of input, never empty; or nothing if lines begin with names.
pub fn input_named(plain: &Option<PlainNames>) -> Option<&str>
    ensures { option_copied result ≡ input_named plain.now }
{
    match plain {
        Some(plain) => plain.input.as_deref(),
        None => None,
    }
}

/// Returns the names in a word, unless it is empty.
fn names_in(word: &str) -> Option<&str>
    ensures { option_copied result ≡ names_in word.entry.now }
{
    if word.is_empty() { None } else { Some(word) }
}

/// Returns the names that an option gives, if it is there and its word isn't empty.
fn names_given<'a>(word: Option<&'a str>) -> Option<&'a str>
    ensures { option_copied result ≡ names_given (lent word.entry) }
{
    match word {
        Some(word) => names_in(word),
        None => None,
    }
}

/// Returns the names of inputs and outputs that the short form gives, with a comma between both.
fn short_given<'a>(word: Option<&'a str>) -> (Option<&'a str>, Option<&'a str>)
    ensures { (option_copied result.0, option_copied result.1) ≡ short_given (lent word.entry) }
{
    let Some(word) = word else {
        return (None, None);
    };
    let (inputs, outputs) = parted(word, ',');
    (names_in(inputs), names_given(outputs))
}

/// Returns the channels that the words of `--in` and `--out` name, if one of them names some, and else those of the short form.
fn plain_of<'a>(
    alloc: Global,
    inputs: Option<&'a str>,
    outputs: Option<&'a str>,
    word: Option<&'a str>,
) -> Result<Option<PlainNames>, AllocError>
    ensures { IfOk result (λ p. option_map plain_parts p ≡ columns_given (lent inputs.entry) (lent outputs.entry) (lent word.entry)) }
{
    let (input, output) = match (names_given(inputs), names_given(outputs)) {
        (None, None) => short_given(word),
        named => named,
    };
    if input.is_none() && output.is_none() {
        return Ok(None);
    }
    Ok(Some(PlainNames {
        input: copied(alloc, input)?,
        output: copied(alloc, output)?,
    }))
}

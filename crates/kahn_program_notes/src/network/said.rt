//! The words after the name of a fault, chosen by facts about its place: what was expected and found, and advice; and a related
//! place.

use crate::network::changes::{Edit, EditKind, MOST_LEXEMES, found_kind};
use crate::network::near::{add_near, nearest};
use crate::network::place::{NameKind, NetworkPlace, is_called, names_seen, side_of, taken_by};
use itoa::Buffer;
use kahn_diagnostic::Other;
use kahn_fault::{check_span, check_words};
use kahn_streams::{CheckFault, Kind, NoMemory, Role, Span};
use kahn_syntax::{Class, Keyword, Sign};
use kahn_texts::add;
use std::alloc::AllocError;

/// Whether memory was there for adding words.
type Added = Result<(), AllocError>;

/// Expected and found. A row is a fault, the facts that it needs, and words; the first row whose facts all hold counts.
const FOUND: &str = "
kind does not agree | integer | : wanted logical, found integer
kind does not agree | logical | : wanted integer, found logical
direction does not agree | source | : wanted `in`, found `out`
direction does not agree | target | : wanted `out`, found `in`
a channel is expected | outside is-process | , found a process
a channel is expected | - | , found a value
a value is expected | channel | , found a channel
a value is expected | body | , found a channel
a value is expected | is-process | , found a process
a value is expected | - | , found a name; an instance hands over numbers, `true` and `false`
limit is exceeded | - | ; a program has at most 1024 channels and 256 instances
";

/// What to do: `#` is what stands at the place, `@` a process.
const ADVICE: &str = "
kind does not agree | body conditional | 
kind does not agree | integer body number | ; truth values are `true` and `false`
kind does not agree | integer body | ; compare it, as in `# <> 0` or `# = 0`
kind does not agree | logical body compared | ; a comparison gives a truth value
kind does not agree | logical body | ; truth values have `and`, `or`, `not`, `=` and `<>`
kind does not agree | named outside | 
kind does not agree | integer | ; hand over `true` or `false` there
kind does not agree | logical | ; hand over a number there
a value is expected | from-channel assigned | ; declare a variable for what is taken from it
a value is expected | from-channel | ; its next value is `wait(#)`
a value is expected | to-channel | ; it takes a value by `send E on #`
a value is expected | outside channel | ; hand over a number, `true` or `false` there
name is not declared | channel target integer | ; add `integer out #` to the parameters of `@`, and hand `#` to it
name is not declared | channel body integer | ; add `integer in #` to the parameters of `@`, and hand `#` to it
name is not declared | body short | ; `@` has fewer parameters than an instance has arguments
name is not declared | assigned | ; is a declaration such as `integer #;` missing after `begin`?
name is not declared | wants-channel | ; is a declaration such as `integer channel #;` missing?
a channel is expected | body source | ; a value is read without `wait`
name is declared twice | channel is-process | ; channels and processes share one name space: give one of them another name
channel has two writers | - | ; give each writer a channel of its own, and join these in a process, as in examples/merge.kahn
channel has two readers | - | ; let a process take from it and send each value on a channel for each reader
channel has no writer | inner unread | ; it is handed to no process: leave its declaration out
channel has no writer | inner | ; hand it to an `out` parameter, or declare it `input` where its values come from outside
channel has no writer | - | ; hand it to an `out` parameter
channel has no reader | inner | ; hand it to an `in` parameter, or declare it `output` where its values are to be reported
channel has no reader | - | ; hand it to an `in` parameter, or leave its declaration out
";

/// What is said of another place.
const ELSEWHERE: &str = "
name is declared twice | - | declared here first
name is not declared | body | declared here, outside of the process, which sees its own names alone
name is not declared | - | declared here as a channel, and not as a process
channel has no writer | idle | this process has no instance
channel has no reader | idle | this process has no instance
channel has no writer | - | this one has no reader
channel has no reader | - | this one has no writer
channel has two writers | passed | handed over here first, to be written
channel has two readers | passed | handed over here first, to be read
channel has two writers | - | declared here as an input, which is written from outside: without `input` a process writes it
channel has two readers | - | declared here as an output, which is read from outside: without `output` a process reads it, and --watch shows it
a channel is expected | named | declared here
a channel is expected | - | its parameter is declared here
";

/// The sentence of the first row of a fault of which all facts hold.
fn sentence_of(table: &'static str, fault: CheckFault, facts: &[&str]) -> Option<&'static str> {
    for row in table.lines() {
        let (words, rest) = row.split_once(" | ").unwrap_or(("", ""));
        let (wanted, sentence) = rest.split_once(" | ").unwrap_or(("", ""));
        let mut all = wanted.split_whitespace();
        if words == check_words(fault) && all.all(|fact| facts.contains(&fact)) {
            return Some(sentence);
        }
    }
    None
}

pub(crate) fn facts_of(
    place: NetworkPlace,
    fault: CheckFault,
) -> Result<Vec<&'static str>, NoMemory> {
    let parameter = place.own_parameter().map(|parameter| taken_by(parameter).0);
    let channel = place.channel(place.word());
    let kind = match fault {
        CheckFault::WrongKind(_) => found_kind(place)?,
        _ => channel.map(|channel| channel.0),
    };
    let (asked, side, word) = (place.asked(), side_of(fault), place.word());
    let (own, next) = (place.class(0), place.class(1));
    let mut facts = Vec::new(place.alloc);
    for (holds, fact) in [
        (true, "-"),
        (place.body.is_some(), "body"),
        (place.body.is_none(), "outside"),
        (channel.is_some(), "channel"),
        (matches!(channel, Some((_, Role::Inner))), "inner"),
        (place.called().is_some(), "is-process"),
        (own == Some(Class::Name), "named"),
        (matches!(own, Some(Class::Number(_))), "number"),
        (kind == Some(Kind::Integer), "integer"),
        (kind == Some(Kind::Logical), "logical"),
        (asked == NameKind::Channel, "wants-channel"),
        (asked == NameKind::Source, "source"),
        (asked == NameKind::Target, "target"),
        (next == Some(Class::Sign(Sign::Becomes)), "assigned"),
        (own == Some(Class::Word(Keyword::If)), "conditional"),
        (word.iter().any(|byte| b"<=>".contains(byte)), "compared"),
        (parameter == Some(NameKind::Source), "from-channel"),
        (parameter == Some(NameKind::Target), "to-channel"),
        (place.is_short(), "short"),
        (place.taker(side).is_some(), "idle"),
        (place.passed(NameKind::Source, word).is_none(), "unread"),
        (place.passed_before(side).is_some(), "passed"),
    ] {
        if holds {
            facts.push(fact)?;
        }
    }
    Ok(facts)
}

/// Adds what is wanted, and what is found: of an instance how many arguments.
fn add_found(words: &mut String, place: NetworkPlace, fault: CheckFault, facts: &[&str]) -> Added {
    let (CheckFault::WrongCount(_), Some(process)) = (fault, place.called()) else {
        return words.push_str(sentence_of(FOUND, fault, facts).unwrap_or(""));
    };
    let (mut first, mut second) = (Buffer::new(), Buffer::new());
    let wanted = first.format(process.parameters.len());
    let found = second.format(place.handed_there().len());
    add(words, &[": wanted ", wanted, ", found ", found])
}

/// Adds a sentence, with what stands at the place where that is on one line, and with its process.
fn add_filled(words: &mut String, place: NetworkPlace, sentence: &str) -> Added {
    for (number, piece) in sentence.split("#").enumerate() {
        let whole = place.part(place.at);
        let shown = if whole.contains("\n") { "E" } else { whole };
        words.push_str(if number == 0 { "" } else { shown })?;
        for (number, piece) in piece.split("@").enumerate() {
            add(words, &[if number == 0 { "" } else { place.name() }, piece])?;
        }
    }
    Ok(())
}

/// Adds which name was perhaps meant, or else the first five of those that may stand there, and what to do.
fn add_unknown(words: &mut String, place: NetworkPlace, advice: &str) -> Added {
    if let Some(name) = place.parameter_for().filter(|_| !advice.is_empty()) {
        let its = name.text.as_str();
        return add(words, &["; `", place.name(), "` has it as `", its, "`"]);
    }
    let names = names_seen(place.alloc, place.program, place.body, place.asked())?;
    let mut free = Vec::new(place.alloc);
    for name in &names {
        if place.lexemes.len() <= MOST_LEXEMES && place.is_free(name) {
            free.push(*name)?;
        }
    }
    let near = nearest(place.word(), &free).or(nearest(place.word(), &names));
    let only = free.first().copied().filter(|_| free.len() == 1);
    if let Some(name) = near.or(only) {
        return add(words, &["; did you mean `", name.text.as_str(), "`?"]);
    }
    if place.body.is_none() || place.channel(place.word()).is_none() {
        add_near(words, place.word(), "; in sight: ", &names)?;
    }
    add_filled(words, place, advice)
}

/// Adds what to do, where no change is known that leaves fewer faults.
fn add_advice(words: &mut String, place: NetworkPlace, fault: CheckFault, facts: &[&str]) -> Added {
    let sentence = sentence_of(ADVICE, fault, facts).unwrap_or("");
    let is_named = match fault {
        CheckFault::Unknown(_) | CheckFault::WrongDirection(_) => true,
        CheckFault::ChannelExpected(_) => place.body.is_some(),
        _ => false,
    };
    if is_named {
        return add_unknown(words, place, sentence);
    }
    add_filled(words, place, sentence)
}

/// Adds what is wanted and found, and a change, unless it is told apart, or else what to do.
pub(crate) fn add_said(
    words: &mut String,
    place: NetworkPlace,
    fault: CheckFault,
    facts: &[&str],
    change: &Option<Edit>,
) -> Added {
    add_found(words, place, fault, facts)?;
    let Some(change) = change else {
        return add_advice(words, place, fault, facts);
    };
    let (first, last) = (place.part(change.parts.0), place.part(change.parts.1));
    match change.way {
        EditKind::Fix => Ok(()),
        EditKind::Swap => {
            add(words, &["; are `", first, "` and `", last])?;
            words.push_str("` interchanged?")
        }
        _ => add(words, &["; did you mean `", change.fix.put.as_str(), "`?"]),
    }
}

/// The other place that has to do with a fault, if there is one: a process that could have the side, where the channel is handed over first,
/// where the name is declared, in its process or outside, or the parameter that takes it.
pub(crate) fn others_of(
    place: NetworkPlace,
    fault: CheckFault,
    facts: &[&str],
) -> Result<Vec<Other>, AllocError> {
    let (mut others, side) = (Vec::new(place.alloc), side_of(fault));
    let body = place
        .body
        .filter(|_| !matches!(fault, CheckFault::Unknown(_)));
    let names = names_seen(place.alloc, place.program, body, NameKind::Any)?;
    let mut all = names.iter();
    let declared = all.find(|name| is_called(place.word(), name));
    let second = match (fault, declared) {
        (CheckFault::NoWriter(_) | CheckFault::NoReader(_), _) => {
            let mut others = place.faults.iter();
            let other = others.find(|other| side_of(**other) != side);
            let lacking = other.and_then(|other| check_span(*other));
            place.taker(side).or(lacking)
        }
        (CheckFault::TooMany(_), _) => None,
        (CheckFault::ChannelExpected(_), None) => place.parameter().map(|one| one.name.span),
        _ => place.passed_before(side).or(declared.map(|name| name.span)),
    };
    if let Some(span) = second {
        let sentence = sentence_of(ELSEWHERE, fault, facts).unwrap_or("declared here");
        let words = String::from_str(place.alloc, sentence)?;
        others.push(Other { span, words })?;
    }
    Ok(others)
}

//! What explaining comes to: why a program text or an input text is refused, and what is warned of, in lines or as data.

ghost use Rattle.std.specs.Prelude.{◌++◌, Bool, false, IfOk, [], ◌≡◌, All, MatchOption, None, string_bytes};
ghost use Rattle.kahn_fault.specs.{Work.IsUnchecked, Message.check_span};
ghost use Rattle.kahn_explanation.specs.{Telling.AreInputLines, Telling.HasToldInput, inner.Told.HasAdmitted, inner.Told.HasRefused, inner.Told.HasWritten, inner.Told.IsStrictAbout, Noting.AreWarningLines, Noting.StandsIn, Refusing.IsNoteOn, Refusing.IsRefusal, Refusing.IsRefusedWords, Refusing.IsRenderedAs, Refusing.IsSyntaxNote, Refusing.expected_of, Data.HasToldData, declared.explaining.Came.TheVariants.Refused};
ghost use Rattle.kahn_syntax.specs.Texts.{IsTextFault as IsSyntaxFault};

use crate::why::Finding;
use itoa::Buffer;
use kahn_check::{CheckFault, check, every, part_by_part};
use kahn_diagnostic::{Lines, MOST_NOTES, Note, Sort, padded, render, simple};
use kahn_expected::comments_of;
use kahn_fault::{WorkFault, check_span, checked, syntax_span, syntax_words};
use kahn_input_notes::input_note;
use kahn_program_notes::{
    character_help, commented_note, fault_notes, held_remark, unexpected_note,
};
use kahn_streams::{Network, NoMemory, Program, RunFault, Span};
use kahn_syntax::{SyntaxFault, What, parse};
use kahn_texts::{TextFault, add, add_more, first_ones, read_input, write_line};
use kahn_warnings::warning_notes;
use std::alloc::{AllocError, Global};
use std::hash::RandomState;
use std::io::Write;

/// The most notes as data. One more says how many were left out.
const MOST_OBJECTS: usize = 100;

/// What the explaining came to.
#[derive(Clone, Copy)]
pub enum Came {
    /// A run stopped so.
    Stopped(Finding),
    /// The program text was refused, for a fault or for a warning, and it was told why.
    Refused,
}

/// A program that isn't refused, and the notes on what is warned of in it.
#[derive(Drop)]
pub struct Admitted {
    pub network: Network,
    pub notes: String,
}

/// Writes two texts, one behind the other, and answers what that came to.
pub fn write_both<W: Write>(
    first: &str,
    second: &str,
    came: Came,
    writer: &mut W,
) -> Result<Came, WorkFault>
    ensures { HasWritten (first.now ++ second.now) came (W.contents writer.old) (W.contents writer.new) result }
{
    match write_line(writer, &[first.as_bytes(), second.as_bytes()]) {
        Ok(()) => Ok(came),
        Err(fault) => Err(WorkFault::Write(fault)),
    }
}

/// Writes why a program text was refused; returns `fault` itself if it has no place in the text.
fn refuse<W: Write>(
    alloc: Global,
    seed: RandomState,
    path: &str,
    program: &str,
    fault: WorkFault,
    writer: &mut W,
) -> Result<Came, WorkFault>
    requires { IsUnchecked program.now fault }
    ensures { (strict : Bool) → HasRefused path.now program.now strict (W.contents writer.old) (W.contents writer.new) result }
{
    match refusal_note(alloc, seed, path, program, fault) {
        Ok(Some(note)) => write_both("", note.as_str(), Came::Refused, writer),
        Ok(None) => Err(fault),
        Err(NoMemory) => Err(WorkFault::Run(RunFault::NoMemory)),
    }
}

fn is_strict_about(strict: bool, notes: &str) -> bool
    ensures { IsStrictAbout strict notes.now result }
{
    strict && !notes.is_empty()
}

/// Returns the program of a text with its warnings, or the outcome of refusing it: for a fault, or for a warning if `strict`.
pub fn admit<W: Write>(
    alloc: Global,
    seed: RandomState,
    path: &str,
    program: &str,
    strict: bool,
    writer: &mut W,
) -> Result<Admitted, Result<Came, WorkFault>>
    ensures { HasAdmitted path.now program.now strict (W.contents writer.old) (W.contents writer.new) result }
{
    let network = match checked(alloc, seed, program) {
        Ok(network) => network,
        Err(fault) => return Err(refuse(alloc, seed, path, program, fault, writer)),
    };
    let Ok(notes) = warned_lines(alloc, seed, path, program, network.program()) else {
        return Err(Err(WorkFault::Run(RunFault::NoMemory)));
    };
    if is_strict_about(strict, notes.as_str()) {
        return Err(write_both("", notes.as_str(), Came::Refused, writer));
    }
    Ok(Admitted { network, notes })
}

/// The note on why an input text is refused, in lines, where that has a place.
fn input_lines(
    alloc: Global,
    path: &str,
    network: &Network,
    text: &str,
    fault: TextFault,
) -> Result<Option<String>, NoMemory>
    ensures { IfOk result (AreInputLines network.now path.now text.now fault) }
{
    let note = input_note(alloc, network, text, fault)?;
    Ok(rendered(alloc, path, text, &note)?)
}

/// Writes why an input text is refused, where that has a place; the fault is answered where it has none.
pub fn refuse_input<W: Write>(
    alloc: Global,
    seed: RandomState,
    path: &str,
    program: &str,
    text: &str,
    fault: TextFault,
    writer: &mut W,
) -> Result<Came, WorkFault>
    ensures { HasToldInput path.now program.now text.now fault (W.contents writer.old) (W.contents writer.new) result }
{
    let network = checked(alloc, seed, program)?;
    match input_lines(alloc, path, &network, text, fault) {
        Ok(Some(note)) => write_both("", note.as_str(), Came::Refused, writer),
        Ok(None) => Err(WorkFault::Text(fault)),
        Err(NoMemory) => Err(WorkFault::Run(RunFault::NoMemory)),
    }
}

/// The words of a fault of a program text, with what the language has in the place of such a character.
fn refused_words(alloc: Global, program: &str, fault: SyntaxFault) -> Result<String, AllocError>
    ensures { IfOk result (λ words. IsRefusedWords fault (string_bytes words)) }
{
    let mut words = String::from_str(alloc, syntax_words(fault))?;
    words.push_str(character_help(program, fault))?;
    Ok(words)
}

fn expected_of(fault: SyntaxFault) -> Option<(Span, What)>
    ensures { result ≡ expected_of fault }
{
    match fault {
        SyntaxFault::Expected(span, what) => Some((span, what)),
        _ => None,
    }
}

fn syntax_note(alloc: Global, program: &str, fault: SyntaxFault) -> Result<Option<Note>, NoMemory>
    requires { IsSyntaxFault program.now fault }
    ensures { IfOk result (IsSyntaxNote program.now fault) }
{
    match expected_of(fault) {
        Some((span, what)) => {
            let note = unexpected_note(alloc, program, span, what)?;
            Ok(Some(note))
        }
        None => match syntax_span(fault) {
            Some(span) => {
                let words = refused_words(alloc, program, fault)?;
                let placed = commented_note(alloc, program, span, words.as_str())?;
                Ok(Some(placed))
            }
            None => Ok(None),
        },
    }
}

fn rendered(
    alloc: Global,
    path: &str,
    program: &str,
    note: &Option<Note>,
) -> Result<Option<String>, AllocError>
    ensures { IfOk result (IsRenderedAs path.now program.now note.now) }
{
    match note {
        Some(note) => Ok(Some(render(alloc, path, program, note)?)),
        None => Ok(None),
    }
}

/// What is said below the note on a name that isn't declared: of the comment that holds its declaration.
fn held_words(
    alloc: Global,
    text: &str,
    comments: &[Span],
    faults: &[CheckFault],
    note: &Note,
) -> Result<String, AllocError> {
    let from = note.span.from;
    let mut all = faults.iter();
    if all.any(|fault| matches!(fault, CheckFault::Unknown(span) if span.from == from)) {
        return held_remark(alloc, text, note.span, comments);
    }
    Ok(String::new(alloc))
}

/// Returns the notes as text, with `between` between two of them; a note on an undeclared name ends with the comment that seems to
/// declare it.
fn note_lines(
    alloc: Global,
    path: &str,
    text: &str,
    notes: &[Note],
    between: &str,
    comments: &[Span],
    faults: &[CheckFault],
) -> Result<String, AllocError>
    ensures { IfOk result (λ lines. All (StandsIn path.now text.now (string_bytes lines)) notes.now) }
{
    let mut lines = String::new(alloc);
    for note in notes {
        let held = held_words(alloc, text, comments, faults, note)?;
        let one = render(alloc, path, text, note)?;
        lines.push_str(if lines.is_empty() { "" } else { between })?;
        lines.push_str(one.as_str())?;
        lines.push_str(held.as_str())?;
    }
    Ok(lines)
}

/// Returns the first 20 warnings on a program in lines, and how many more there are. Fails only if memory is refused.
fn warned_lines(
    alloc: Global,
    seed: RandomState,
    path: &str,
    text: &str,
    program: &Program,
) -> Result<String, NoMemory>
    ensures { IfOk result (λ lines. AreWarningLines path.now text.now program.now (string_bytes lines)) }
{
    let notes = warning_notes(alloc, seed, text, program)?;
    if notes.is_empty() {
        return Ok(String::new(alloc));
    }
    let (told, more) = first_ones(&notes, MOST_NOTES);
    let mut lines = note_lines(alloc, path, text, told, "", &[], &[])?;
    add_more(&mut lines, "", "warning", more.len())?;
    Ok(lines)
}

/// Returns the notes on the faults of a network, and how many more there are, if its first fault has a place.
fn network_note(
    alloc: Global,
    seed: RandomState,
    path: &str,
    program: &str,
    fault: CheckFault,
) -> Result<Option<String>, NoMemory>
    ensures { IfOk result (λ note. MatchOption note (check_span fault ≡ None) (IsNoteOn path.now program.now)) }
{
    if check_span(fault).is_none() {
        return Ok(None);
    }
    // A text that was checked is refused for want of memory alone, and what it spells has a fault.
    let Ok(tree) = parse(alloc, program) else {
        return Err(NoMemory);
    };
    let faults = every(alloc, seed, &tree)?;
    if faults.is_empty() {
        return Err(NoMemory);
    }
    part_by_part();
    let comments = comments_of(alloc, program)?;
    let told = fault_notes(alloc, seed, program, &tree, &faults)?;
    let (notes, between) = (&told.notes, "\n");
    let mut lines = note_lines(alloc, path, program, notes, between, &comments, &faults)?;
    add_more(&mut lines, between, "fault", told.more)?;
    Ok(Some(lines))
}

/// Returns the note on a fault of a program text, if it has a place: what was expected and found, the nearest name, and related
/// places. In a network each part with a fault has a note, unless the fault seems to follow from another one. Fails only if
/// memory is refused.
#[tactic(auto, using(crate::proofs::Refused::told_syntax))]
fn refusal_note(
    alloc: Global,
    seed: RandomState,
    path: &str,
    program: &str,
    fault: WorkFault,
) -> Result<Option<String>, NoMemory>
    requires { IsUnchecked program.now fault }
    ensures { IfOk result (λ note. MatchOption note (IsRefusal path.now program.now fault None) (IsNoteOn path.now program.now)) }
{
    match fault {
        WorkFault::Syntax(fault) => {
            let note = syntax_note(alloc, program, fault)?;
            Ok(rendered(alloc, path, program, &note)?)
        }
        WorkFault::Check(fault) => network_note(alloc, seed, path, program, fault),
        WorkFault::Text(_) | WorkFault::Run(_) | WorkFault::Write(_) => Ok(None),
    }
}

/// Adds a text as a string of JSON, behind what stands before it; a control character that no program has is U+FFFD.
fn add_string(json: &mut String, before: &str, text: &str) -> Result<(), AllocError> {
    add(json, &[before, "\""])?;
    for character in text.chars() {
        match character {
            '"' => json.push_str("\\\"")?,
            '\\' => json.push_str("\\\\")?,
            '\n' => json.push_str("\\n")?,
            '\r' => json.push_str("\\r")?,
            '\t' => json.push_str("\\t")?,
            '\0'..='\u{1F}' => json.push_str("\u{FFFD}")?,
            _ => json.push(character)?,
        }
    }
    json.push_str("\"")
}

fn add_number(json: &mut String, name: &str, number: usize) -> Result<(), AllocError> {
    let mut digits = Buffer::new();
    add(json, &[name, digits.format(number)])
}

/// Adds where a part of a text begins, and where what stands behind it does: by line and column, and by the byte.
fn add_part(
    json: &mut String,
    before: &str,
    text: &Lines<'_>,
    span: Span,
) -> Result<(), AllocError> {
    let length = text.text().len();
    let from = span.from.min(length);
    let to = span.to.min(length).max(from);
    let ((line, column), (last, behind)) = (text.place(from), text.place(to));
    json.push_str(before)?;
    add_number(json, "\"line\":", line)?;
    add_number(json, ",\"column\":", column)?;
    add_number(json, ",\"end_line\":", last)?;
    add_number(json, ",\"end_column\":", behind)?;
    add_number(json, ",\"from\":", from)?;
    add_number(json, ",\"to\":", to)
}

/// Adds a note as a JSON object and a line end. Lines and columns count from 1, bytes from 0. Fails only if memory is refused.
fn add_json(
    json: &mut String,
    alloc: Global,
    path: &str,
    text: &Lines<'_>,
    note: &Note,
) -> Result<(), AllocError> {
    add_string(json, "{\"path\":", path)?;
    let sort = match note.sort {
        Sort::Error => ",\"sort\":\"error\",",
        Sort::Warning => ",\"sort\":\"warning\",",
        Sort::Note => ",\"sort\":\"note\",",
    };
    add_part(json, sort, text, note.span)?;
    add_string(json, ",\"words\":", note.words.as_str())?;
    if let Some(fix) = &note.fix {
        add_part(json, ",\"fix\":{", text, fix.span)?;
        add_string(json, ",\"put\":", padded(alloc, text.text(), fix)?.as_str())?;
        json.push_str("},\"below\":[")?;
    } else {
        json.push_str(",\"fix\":null,\"below\":[")?;
    }
    for (number, sentence) in note.below.iter().enumerate() {
        add_string(json, if number == 0 { "" } else { "," }, sentence.as_str())?;
    }
    json.push_str("],\"others\":[")?;
    for (number, other) in note.others.iter().enumerate() {
        add_part(json, if number == 0 { "{" } else { ",{" }, text, other.span)?;
        add_string(json, ",\"words\":", other.words.as_str())?;
        json.push_str("}")?;
    }
    json.push_str("]}\n")
}

/// Returns the notes on the texts, how many more there are, and whether they are on the input text. Fails only if memory is refused.
fn notes_on(
    alloc: Global,
    seed: RandomState,
    program: &str,
    input: &str,
    strict: bool,
) -> Result<(Vec<Note>, usize, bool), NoMemory> {
    let mut notes = Vec::new(alloc);
    let tree = match parse(alloc, program) {
        Ok(tree) => tree,
        Err(fault) => {
            // Of all faults only want of memory has no note here.
            notes.push(syntax_note(alloc, program, fault)?.ok_or(NoMemory)?)?;
            return Ok((notes, 0, false));
        }
    };
    let faults = every(alloc, seed, &tree)?;
    if !faults.is_empty() {
        let told = fault_notes(alloc, seed, program, &tree, &faults)?;
        return Ok((told.notes, told.more, false));
    }
    let Ok(network) = check(alloc, seed, tree) else {
        return Err(NoMemory);
    };
    let warnings = warning_notes(alloc, seed, program, network.program())?;
    if strict && !warnings.is_empty() {
        return Ok((warnings, 0, false));
    }
    if let Err(fault) = read_input(alloc, input, &network) {
        notes.push(input_note(alloc, &network, input, fault)?.ok_or(NoMemory)?)?;
        return Ok((notes, 0, true));
    }
    Ok((warnings, 0, false))
}

fn data_lines(
    alloc: Global,
    seed: RandomState,
    paths: (&str, &str),
    program: &str,
    input: &str,
    strict: bool,
) -> Result<String, NoMemory> {
    let (notes, more, is_on_input) = notes_on(alloc, seed, program, input, strict)?;
    let (path, text) = if is_on_input {
        (paths.1, input)
    } else {
        (paths.0, program)
    };
    let text = Lines::new(alloc, text)?;
    let mut lines = String::new(alloc);
    let (told, others) = first_ones(&notes, MOST_OBJECTS);
    for note in told {
        add_json(&mut lines, alloc, path, &text, note)?;
    }
    if let (Some(last), true) = (told.last(), more > 0 || !others.is_empty()) {
        let last = unsaid_note(alloc, last, more.saturating_add(others.len()))?;
        add_json(&mut lines, alloc, path, &text, &last)?;
    }
    Ok(lines)
}

/// Returns a note that says how many more notes or faults there are, at the place of `last`.
fn unsaid_note(alloc: Global, last: &Note, more: usize) -> Result<Note, AllocError> {
    let what = match last.sort {
        Sort::Error => "fault",
        Sort::Warning | Sort::Note => "warning",
    };
    let mut words = String::new(alloc);
    add_more(&mut words, "", what, more)?;
    simple(alloc, Sort::Note, last.span, words.as_str().trim_end())
}

/// Whether a text was refused and nothing says why.
fn is_unsaid(came: Came, lines: &str) -> bool
    ensures { result ≡ false → came ≡ Refused → ¬ (lines.now ≡ []) }
{
    match came {
        Came::Stopped(_) => false,
        Came::Refused => lines.is_empty(),
    }
}

/// Writes a line with a JSON object for each of the first 100 notes on the texts, and one that says how many more there are.
/// `came` is the outcome of looking at them with a writer to memory. Returns its fault, and `NoMemory` if that writer failed.
pub fn write_data<W: Write>(
    alloc: Global,
    seed: RandomState,
    paths: (&str, &str),
    program: &str,
    input: &str,
    strict: bool,
    came: Result<Came, WorkFault>,
    writer: &mut W,
) -> Result<Came, WorkFault>
    ensures { HasToldData came (W.contents writer.old) (W.contents writer.new) result }
{
    match came {
        Ok(came) => match data_lines(alloc, seed, paths, program, input, strict) {
            Ok(lines) => {
                let text = lines.as_str();
                if is_unsaid(came, text) {
                    return Err(WorkFault::Run(RunFault::NoMemory));
                }
                write_both("", text, came, writer)
            }
            Err(NoMemory) => Err(WorkFault::Run(RunFault::NoMemory)),
        },
        Err(WorkFault::Write(_)) => Err(WorkFault::Run(RunFault::NoMemory)),
        Err(fault) => Err(fault),
    }
}

//! All that is warned of in a program, and how it is told; and where its faults of arithmetic come from.

ghost use Rattle.std.specs.Prelude.{◌≡◌, ◌++◌, ◌&&◌, ◌||◌, IfOk, None, if◌then◌else◌};
ghost use Rattle.std.specs.{List.list_any, Option.option_or};
ghost use Rattle.kahn_streams.specs.View.{Scope, body_of, statement_of};
ghost use Rattle.kahn_warnings.specs.{Comments.AreCommentWarnings, Loops.LoopsHold, Sites.action_sites, Sites.body_sites, Loops.is_seen, Loops.never_ends, Warnings.AreWarnings, Warnings.bare_kind, Warnings.body_warnings, Warnings.declaration_warnings, Warnings.is_of, Warnings.loop_kind, Warnings.name_kind, Warnings.names_warnings, Warnings.process_kind, Warnings.statement_warnings, Warned.warned, Telling.AreWarningNotes, Telling.note_place, Telling.warning_place, Faults.FaultsLie, Faults.fault_places, Faults.place_where};

use crate::layout::misplaced;
use crate::program::WarningKind::{BareThen, Idle, NoInstance};
use crate::sites::{
    ConstantSite, SiteKind, add_expression, add_site, has, is_empty, is_true, names_in, site_can,
    site_kind, varies_by, waits_in,
};
use kahn_diagnostic::{Note, Other, Sort, simple};
use kahn_expected::{comments_of, swallows};
use kahn_streams::{
    Action, Declaration, Failure, Instance, Kind, NoMemory, Process, Program, Span, Statement,
};
use std::alloc::{AllocError, Global};
use std::hash::RandomState;

#[derive(Clone, Copy)]
pub(crate) enum WarningKind {
    LongComment,
    NoInstance,
    Unused,
    Unread,
    StaysZero,
    StaysFalse,
    Idle,
    Unreached,
    Divides,
    Overflows,
    AlwaysTrue,
    AlwaysFalse,
    Unchanged,
    BareDo,
    BareThen,
    Beside,
}

/// A warning, and the part of the text that it is about.
#[derive(Clone, Copy)]
pub(crate) struct Warning {
    pub kind: WarningKind,
    /// The whole comment; the name of the process, of the parameter or of the variable where it is declared; the loop; the
    /// first statement that isn't reached, or doesn't belong to the `if`; the right operand, or the one behind a sign; the test; or the `if`.
    pub span: Span,
}

/// The warnings of the comments of a text that has lexemes, in order. It refuses only where memory was refused.
fn comment_warnings(alloc: Global, text: &str) -> Result<Vec<Warning>, NoMemory>
    ensures { IfOk result (λ ws. AreCommentWarnings text.now ws.items) }
{
    let comments = comments_of(alloc, text)?;
    let mut warnings = Vec::new(alloc);
    for comment in &comments {
        if swallows(text.as_bytes(), comment.from, comment.to, false) {
            let (kind, span) = (WarningKind::LongComment, *comment);
            warnings.push(Warning { kind, span })?;
        }
    }
    Ok(warnings)
}

fn has_instance(instances: &[Instance], process: &Process) -> bool
    ensures { result ≡ list_any (is_of process.now) instances.now }
{
    instances.iter().any(|instance| instance.process.text.as_bytes()
        == process.name.text.as_bytes())
}

fn process_kind(instances: &[Instance], process: &Process) -> Option<WarningKind>
    ensures { result ≡ process_kind instances.now process.now }
{
    if has_instance(instances, process) {
        return None;
    }
    Some(NoInstance)
}

/// Returns the warning on a name, by whether it is used and assigned; `variable` is its kind, or `None` for a parameter.
fn name_kind(is_used: bool, is_assigned: bool, variable: Option<Kind>) -> Option<WarningKind>
    ensures { result ≡ name_kind is_used is_assigned variable }
{
    match (is_used, is_assigned, variable) {
        (false, false, _) => Some(WarningKind::Unused),
        (false, true, _) => Some(WarningKind::Unread),
        (true, false, Some(Kind::Integer)) => Some(WarningKind::StaysZero),
        (true, false, Some(Kind::Logical)) => Some(WarningKind::StaysFalse),
        (true, false, None) | (true, true, _) => None,
    }
}

fn add_names(
    warnings: &mut Vec<Warning>,
    alloc: Global,
    seed: RandomState,
    process: &Process,
) -> Result<(), AllocError>
    ensures { IfOk result (λ _. warnings.new.items ≡ warnings.old.items ++ names_warnings process.now) }
{
    let names = names_in(alloc, seed, process)?;
    for parameter in &process.parameters {
        let name = &parameter.name;
        let kind = name_kind(has(&names.0, name), has(&names.1, name), None);
        add_warning(warnings, kind, Some(name.span))?;
    }
    for variable in &process.variables {
        let name = &variable.name;
        let kind = name_kind(
            has(&names.0, name),
            has(&names.1, name),
            Some(variable.kind),
        );
        add_warning(warnings, kind, Some(name.span))?;
    }
    Ok(())
}

fn loop_kind(is_endless: bool, is_seen: bool) -> Option<WarningKind>
    ensures { result ≡ loop_kind is_endless is_seen }
{
    if is_endless & !is_seen {
        Some(Idle)
    } else {
        None
    }
}

/// What is warned of an `if` without `else`, where nothing may stand behind its `then`.
fn bare_kind(yes: &Statement) -> Option<WarningKind>
    ensures { result ≡ bare_kind yes.now.action }
{
    if is_empty(yes) { Some(BareThen) } else { None }
}

/// Returns the place of the first unreachable statement: `place` if there is one, or else `next` if a statement before it never
/// ends.
fn place_on(ends: bool, place: Option<Span>, next: Option<Span>) -> Option<Span>
    ensures { result ≡ option_or place (if ends then next else None) }
{
    place.or(if ends { next } else { None })
}

/// Whether an `if` never ends, by both branches, and whether it is seen, by its test too.
fn branched(waits: bool, yes: (bool, bool), no: (bool, bool)) -> (bool, bool)
    ensures ends { result.0 ≡ yes.0 && no.0 }
    ensures seen { result.1 ≡ waits || yes.1 || no.1 }
{
    (yes.0 & no.0, waits | yes.1 | no.1)
}

/// Adds the warnings of a list of statements, and its constant sites. Returns whether one of them never ends, and whether one
/// waits, sends or prints.
#[cycle(walk)]
fn add_list(
    warnings: &mut Vec<Warning>,
    sites: &mut Vec<ConstantSite>,
    alloc: Global,
    seed: RandomState,
    statements: &[Statement],
) -> Result<(bool, bool), AllocError>
    ensures warnings { IfOk result (λ _. warnings.new.items ≡ warnings.old.items ++ body_warnings statements.now) }
    ensures sites { IfOk result (λ _. sites.new.items ≡ sites.old.items ++ body_sites statements.now) }
    ensures ends { IfOk result (λ course. (names : Scope) → course.0 ≡ never_ends (body_of names statements.now)) }
    ensures seen { IfOk result (λ course. (names : Scope) → course.1 ≡ is_seen (body_of names statements.now)) }
{
    let mut ends = false;
    let mut seen = false;
    let mut place = None;
    for statement in statements {
        place = place_on(ends, place, statement.span);
        let course = add_statement(warnings, sites, alloc, seed, statement)?;
        ends = ends | course.0;
        seen = seen | course.1;
    }
    add_warning(warnings, Some(WarningKind::Unreached), place)?;
    Ok((ends, seen))
}

#[cycle(walk)]
fn add_statement(
    warnings: &mut Vec<Warning>,
    sites: &mut Vec<ConstantSite>,
    alloc: Global,
    seed: RandomState,
    statement: &Statement,
) -> Result<(bool, bool), AllocError>
    ensures warnings { IfOk result (λ _. warnings.new.items ≡ warnings.old.items ++ statement_warnings statement.now.span statement.now.action) }
    ensures sites { IfOk result (λ _. sites.new.items ≡ sites.old.items ++ action_sites statement.now.action) }
    ensures ends { IfOk result (λ course. (names : Scope) → course.0 ≡ never_ends (statement_of names statement.now)) }
    ensures seen { IfOk result (λ course. (names : Scope) → course.1 ≡ is_seen (statement_of names statement.now)) }
{
    match &statement.action {
        Action::Empty => Ok((false, false)),
        Action::Assign(_, expression) => {
            add_expression(sites, expression)?;
            Ok((false, waits_in(alloc, seed, expression)))
        }
        Action::Send(expression, _) | Action::Print(expression) => {
            add_expression(sites, expression)?;
            Ok((false, true))
        }
        Action::Block(statements) => add_list(warnings, sites, alloc, seed, statements),
        Action::If(test, yes, no) => {
            let value = add_expression(sites, test)?;
            add_site(sites, SiteKind::Test(value), test.span)?;
            let first = add_statement(warnings, sites, alloc, seed, yes)?;
            let Some(no) = no else {
                add_warning(warnings, bare_kind(yes), statement.span)?;
                return Ok(branched(waits_in(alloc, seed, test), first, (false, false)));
            };
            let second = add_statement(warnings, sites, alloc, seed, no)?;
            Ok(branched(waits_in(alloc, seed, test), first, second))
        }
        Action::While(test, body) => {
            let value = add_expression(sites, test)?;
            let kind = SiteKind::Turn(value, varies_by(alloc, seed, body, test)?, is_empty(body));
            add_site(sites, kind, test.span)?;
            let (_, seen) = add_statement(warnings, sites, alloc, seed, body)?;
            let ends = is_true(value);
            add_warning(warnings, loop_kind(ends, seen), statement.span)?;
            Ok((ends, waits_in(alloc, seed, test) | seen))
        }
        Action::Repeat(body) => {
            let (_, seen) = add_statement(warnings, sites, alloc, seed, body)?;
            add_warning(warnings, loop_kind(true, seen), statement.span)?;
            Ok((true, seen))
        }
    }
}

fn add_declaration(
    warnings: &mut Vec<Warning>,
    alloc: Global,
    seed: RandomState,
    instances: &[Instance],
    declaration: &Declaration,
) -> Result<(), AllocError>
    ensures { IfOk result (λ _. warnings.new.items ≡ warnings.old.items ++ declaration_warnings instances.now declaration.now) }
{
    match declaration {
        Declaration::Channels(_, _, _) => Ok(()),
        Declaration::Process(process) => {
            let place = Some(process.name.span);
            add_warning(warnings, process_kind(instances, process), place)?;
            add_names(warnings, alloc, seed, process)?;
            let mut sites = Vec::new(alloc);
            add_list(warnings, &mut sites, alloc, seed, &process.statements)?;
            for site in &sites {
                add_warning(warnings, site_kind(site.kind), Some(site.span))?;
            }
            Ok(())
        }
    }
}

/// All that is warned of in a program of this text: the comments first, then one process after another, and then by indentation. It
/// refuses only where memory was refused.
fn warnings(
    alloc: Global,
    seed: RandomState,
    program: &Program,
    text: &str,
) -> Result<Vec<Warning>, NoMemory>
    ensures { IfOk result (λ ws. AreWarnings text.now program.now ws.items) }
{
    let mut warnings = comment_warnings(alloc, text)?;
    for declaration in &program.declarations {
        add_declaration(&mut warnings, alloc, seed, &program.instances, declaration)?;
    }
    let spans = misplaced(alloc, text, program)?;
    for span in &spans {
        add_warning(&mut warnings, Some(WarningKind::Beside), Some(*span))?;
    }
    Ok(warnings)
}

/// The law of loops: what stands behind a statement that never ends is never done, a loop that doesn't wait, send or print takes
/// nothing and sends nothing, and a name that is never assigned keeps its value. Its contract is what it does.
#[tactic(auto, using(crate::proofs::Unseen::loops_hold))]
pub fn loops_hold()
    ensures { LoopsHold }
{}

/// Adds the warning of a part, where there is something to warn of and the part stands anywhere.
fn add_warning(
    warnings: &mut Vec<Warning>,
    kind: Option<WarningKind>,
    place: Option<Span>,
) -> Result<(), AllocError>
    ensures { IfOk result (λ _. warnings.new.items ≡ warnings.old.items ++ warned kind place) }
{
    match (kind, place) {
        (None, _) | (Some(_), None) => Ok(()),
        (Some(kind), Some(span)) => Ok(warnings.push(Warning { kind, span })?),
    }
}

fn warning_words(kind: WarningKind) -> &'static str {
    match kind {
        WarningKind::LongComment =>
            "comment goes on to a later line, over what reads like a statement",
        WarningKind::NoInstance => "process has no instance",
        WarningKind::Unused => "name is never used",
        WarningKind::Unread => "name is assigned, and never read",
        WarningKind::StaysZero => "name is read, and never assigned: it is always 0",
        WarningKind::StaysFalse => "name is read, and never assigned: it is always false",
        WarningKind::Idle => "loop never ends, and doesn't wait, send or print",
        WarningKind::Unreached =>
            "statement is never reached: one before it never ends; `begin` and `end` make one statement of several",
        WarningKind::Divides => "divisor is always 0",
        WarningKind::Overflows => "result is always out of range: overflow",
        WarningKind::AlwaysTrue => "test is always true",
        WarningKind::AlwaysFalse => "test is always false",
        WarningKind::Unchanged =>
            "nothing in the loop changes this test; `begin` and `end` make one statement of several",
        WarningKind::BareDo =>
            "nothing stands behind `do`, so nothing changes this test: a statement behind `;` is not in the loop",
        WarningKind::BareThen =>
            "nothing stands behind `then`: a statement behind `;` is always done",
        WarningKind::Beside =>
            "statement is indented like the one before it, and isn't part of the same `if` or loop; `begin` and `end` make one statement of several",
    }
}

fn note_of(alloc: Global, warning: Warning) -> Result<Note, AllocError>
    ensures { IfOk result (λ note. note_place note ≡ warning_place warning) }
{
    let words = warning_words(warning.kind);
    let mut note = simple(alloc, Sort::Warning, warning.span, words)?;
    if let WarningKind::LongComment = warning.kind {
        let to = warning.span.to;
        let from = to.saturating_sub(1);
        let span = Span { from, to };
        let words = String::from_str(alloc, "comment ends here")?;
        note.others.push(Other { span, words })?;
    }
    Ok(note)
}

/// The notes on what is warned of in a program of this text, in order. It refuses only where memory was refused.
pub fn warning_notes(
    alloc: Global,
    seed: RandomState,
    text: &str,
    program: &Program,
) -> Result<Vec<Note>, NoMemory>
    ensures { IfOk result (λ notes. AreWarningNotes text.now program.now notes.items) }
{
    let warnings = warnings(alloc, seed, program, text)?;
    let mut notes = Vec::new(alloc);
    for warning in &warnings {
        notes.push(note_of(alloc, *warning)?)?;
    }
    Ok(notes)
}

fn add_where(places: &mut Vec<Span>, can: bool, at: Span) -> Result<(), AllocError>
    ensures { IfOk result (λ _. places.new.items ≡ places.old.items ++ place_where can at) }
{
    if can {
        places.push(at)?;
    }
    Ok(())
}

/// The operands in a body by which a fault can come, in the order of the text: of an operator its right one, of a sign its only one.
pub fn fault_places(
    alloc: Global,
    seed: RandomState,
    failure: Failure,
    statements: &[Statement],
) -> Result<Vec<Span>, AllocError>
    ensures { IfOk result (λ places. places.items ≡ fault_places failure statements.now) }
{
    let mut warnings = Vec::new(alloc);
    let mut sites = Vec::new(alloc);
    add_list(&mut warnings, &mut sites, alloc, seed, statements)?;
    let mut places = Vec::new(alloc);
    for site in &sites {
        add_where(&mut places, site_can(failure, site.kind), site.span)?;
    }
    Ok(places)
}

/// The law of faults: an operator that `fault_places` doesn't list never has that fault, whatever its operands. So if an instance
/// has the fault in the solution, its body has a listed place. Its contract is what it does.
#[tactic(auto, using(crate::proofs::Nowhere::faults_lie))]
pub fn faults_lie()
    ensures { FaultsLie }
{}

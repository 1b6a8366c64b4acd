//! Statements that are indented as if they belonged to the one before.

use kahn_expected::bytes_between;
use kahn_streams::{Action, Declaration, Program, Span, Statement};
use std::alloc::{AllocError, Global};

/// Returns where the line of byte `at` begins.
fn line_start(text: &str, at: usize) -> usize {
    let before = bytes_between(text, 0, at);
    let end = before.iter().rposition(|byte| *byte == b'\n');
    end.map_or(0, |end| end.saturating_add(1))
}

/// Returns the column after the bytes of a line before byte `at`, and how deep the line is indented. A tab goes to the next multiple of 8.
fn column_before(text: &str, at: usize) -> (usize, usize) {
    let (mut column, mut deep, mut blank) = (0usize, 0usize, true);
    for byte in bytes_between(text, line_start(text, at), at) {
        if *byte == b'\t' {
            column |= 7;
        }
        column = column.saturating_add(1);
        blank = blank && (*byte == b' ' || *byte == b'\t');
        if blank {
            deep = column;
        }
    }
    (column, deep)
}

/// Whether nothing but blanks comes before byte `at` on its line. It looks back over these blanks only.
fn is_first(text: &str, at: usize) -> bool {
    let before = bytes_between(text, 0, at);
    let last = before
        .iter()
        .rposition(|byte| *byte != b' ' && *byte != b'\t');
    match last {
        Some(last) => matches!(before.get(last), Some(b'\n')),
        None => true,
    }
}

/// Whether a statement looks like a part of the `if` or the loop of one that stands behind a `then`, an `else`, a `do` or a `repeat`: that is
/// deeper than the line of this, and the statement begins a later line in its column; or it stands on the line that the other one begins.
/// Whole lines are walked only at a line's end, so a long line costs no more than as much text in short ones.
fn is_under(text: &str, inner: Span, next: Span) -> bool {
    let is_later = bytes_between(text, inner.from, next.from).contains(&b'\n');
    if !is_first(text, if is_later { next.from } else { inner.from }) {
        return false;
    }
    let (other, _) = column_before(text, inner.from);
    if is_later && column_before(text, next.from).0 != other {
        return false;
    }
    let guard = text.get(..inner.from).unwrap_or("").trim_end().len();
    column_before(text, guard).1 < other
}

/// Adds those within statements that stand one behind the other, and those of them that are indented as if they belonged to the one before.
#[cycle(layout)]
fn add_under(
    spans: &mut Vec<Span>,
    text: &str,
    statements: &[Statement],
) -> Result<(), AllocError> {
    for (number, statement) in statements.iter().enumerate() {
        let next = statements.get(number.saturating_add(1));
        add_within(
            spans,
            text,
            statement,
            next.and_then(|next| next.span),
            false,
        )?;
    }
    Ok(())
}

/// Adds the misleading statements within `statement`, which is `guarded` if it follows `then`, `else`, `do` or `repeat`; and
/// `next`, if `statement` isn't a block and `next` looks as if it belonged to the same guard, or to the one at its end.
#[cycle(layout)]
fn add_within(
    spans: &mut Vec<Span>,
    text: &str,
    statement: &Statement,
    next: Option<Span>,
    guarded: bool,
) -> Result<(), AllocError> {
    let is_block = matches!(statement.action, Action::Block(_));
    let mut behind = next;
    if let (true, false, Some(span), Some(next)) = (guarded, is_block, statement.span, next) {
        if is_under(text, span, next) {
            spans.push(next)?;
            behind = None;
        }
    }
    match &statement.action {
        Action::Block(statements) => add_under(spans, text, statements),
        Action::If(_, yes, Some(no)) => {
            add_within(spans, text, yes, None, true)?;
            add_within(spans, text, no, behind, true)
        }
        Action::If(_, body, None) => add_within(spans, text, body, behind, true),
        Action::While(_, body) | Action::Repeat(body) => {
            add_within(spans, text, body, behind, true)
        }
        _ => Ok(()),
    }
}

pub(crate) fn misplaced(
    alloc: Global,
    text: &str,
    program: &Program,
) -> Result<Vec<Span>, AllocError> {
    let mut spans = Vec::new(alloc);
    for declaration in &program.declarations {
        if let Declaration::Process(process) = declaration {
            add_under(&mut spans, text, &process.statements)?;
        }
    }
    Ok(spans)
}

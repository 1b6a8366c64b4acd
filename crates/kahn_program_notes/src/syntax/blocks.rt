//! What is said of blocks where a text has more `begin`s than `end`s, or fewer, by the indentation of their lines.

use crate::syntax::place::{
    Fixed, Place, Saying, finds, front, has_word, mending, near, placed, put_at, put_behind,
};
use crate::syntax::unexpected::class_word;
use kahn_diagnostic::part_of;
use kahn_syntax::Span;
use std::alloc::AllocError;

const FAR: usize = 256;

/// A lexeme, as its class is written, with the number of its line, how deep that is indented, and whether the lexeme begins it.
#[derive(Clone, Copy)]
struct LineLexeme {
    word: &'static str,
    span: Span,
    line: usize,
    deep: usize,
    first: bool,
}

/// The lexemes of a text, each with its line; a tab goes to the next multiple of 8.
fn seats(place: Place) -> Result<Vec<LineLexeme>, AllocError> {
    let mut seats = Vec::new(place.alloc);
    let (mut from, mut line, mut deep, mut first) = (0, 1usize, 0usize, true);
    for lexeme in place.lexemes {
        let (word, span) = (class_word(lexeme.what), lexeme.span);
        let to = span.from;
        for byte in part_of(place.text, Span { from, to }).bytes() {
            (line, deep, first) = match (byte, first) {
                (b'\n', _) => (line.saturating_add(1), 0, true),
                (b' ', true) => (line, deep.saturating_add(1), true),
                (b'\t', true) => (line, (deep | 7).saturating_add(1), true),
                (_, _) => (line, deep, false),
            };
        }
        from = span.from;
        seats.push(LineLexeme {
            word,
            span,
            line,
            deep,
            first,
        })?;
    }
    Ok(seats)
}

fn word_of(seats: &[LineLexeme], number: usize) -> &'static str {
    seats.get(number).map_or("", |seat| seat.word)
}

/// Returns the `do`, `then`, `else` or `repeat` whose statements the `end` at `number` seems to close: on its line, or on the
/// nearest line of the same depth.
fn guard_of(seats: &[LineLexeme], number: usize, end: LineLexeme) -> Option<usize> {
    let (mut depth, mut found) = (0usize, None);
    for (number, seat) in front(seats, number).iter().enumerate().rev().take(FAR) {
        depth = match (seat.word, depth) {
            ("process", _) | ("begin", 0) => return found,
            ("begin", _) => depth.saturating_sub(1),
            ("end", _) => depth.saturating_add(1),
            (_, _) => depth,
        };
        let next = word_of(seats, number.saturating_add(1));
        let is_led = has_word("send print if while repeat", next)
            || word_of(seats, number.saturating_add(2)) == ":=";
        let is_guard = is_led && has_word("do then else repeat", seat.word);
        let leads = depth == 0 && is_guard && (seat.word != "else" || next != "if");
        let is_level = end.first && seat.deep == end.deep;
        if end.first && seat.deep < end.deep {
            return if leads { Some(number) } else { found };
        }
        if !end.first && seat.line != end.line {
            return found;
        }
        if leads && (is_level || !end.first) {
            found = Some(number);
        }
    }
    found
}

/// Whether the block of `begin` must have ended before `seat`. That starts a later line with `process`, an `end` less deep than
/// `begin`, or anything else no deeper.
fn is_past(seats: &[LineLexeme], begin: usize, seat: LineLexeme) -> bool {
    let Some([begin, inside, ..]) = seats.get(begin..) else {
        return false;
    };
    let is_within = inside.line == begin.line || begin.deep < inside.deep;
    seat.first
        && seat.line != begin.line
        && match seat.word {
            "process" => true,
            "end" => seat.deep < begin.deep,
            _ => seat.deep <= begin.deep && is_within,
        }
}

/// Returns the unclosed block: its `begin`, and the lexeme before which it ends by the indentation. If that doesn't show it: the
/// innermost open block, and the place.
fn unclosed_at(place: Place, seats: &[LineLexeme]) -> Result<Option<(usize, usize)>, AllocError> {
    let mut open = Vec::new(place.alloc);
    let seen = front(seats, place.number.saturating_add(1));
    for (at, seat) in seen.iter().enumerate() {
        let is_within = seat.word == "end" || 1 < open.len();
        match (seat.word, open.last().copied()) {
            ("begin", _) => open.push(at)?,
            (_, Some(begin)) if is_within && is_past(seats, begin, *seat) => {
                return Ok(Some((begin, at)));
            }
            ("end", _) => open.truncate(open.len().saturating_sub(1)),
            (_, _) => {}
        }
    }
    let outer = if near(place, 0).is_some() { 1 } else { 0 };
    if open.len() > outer && finds("nothing ( process par integer logical", near(place, 0)) {
        return Ok(open.last().map(|begin| (*begin, place.number)));
    }
    Ok(None)
}

/// Returns the surplus `end` among those up to `place`: one deeper than its block, one that closes several statements that aren't a
/// block, or the last.
fn surplus_at(place: Place, seats: &[LineLexeme]) -> Result<Option<usize>, AllocError> {
    let (mut open, mut doubt): (Vec<LineLexeme>, Option<usize>) = (Vec::new(place.alloc), None);
    let seen = front(seats, place.number.saturating_add(1));
    for (at, seat) in seen.iter().enumerate() {
        match seat.word {
            "begin" => open.push(*seat)?,
            "end" => {
                let begin = open.pop();
                let is_far = begin.is_some_and(|begin| begin.line != seat.line);
                let is_deep = seat.first && begin.is_some_and(|begin| begin.deep < seat.deep);
                if is_deep || open.is_empty() {
                    return Ok(doubt.or(Some(at)));
                }
                let is_several = doubt.is_none() && guard_before(seats, at).is_some();
                if (is_far && !seat.first) || (!is_far && is_several) {
                    doubt = Some(at);
                }
            }
            _ => {}
        }
    }
    Ok(doubt)
}

/// The `end` before a lexeme with which a place is mended, before a semicolon there or with one.
fn closing(place: Place, seats: &[LineLexeme], number: usize) -> Fixed {
    let last = number.saturating_sub(1);
    let is_ended = word_of(seats, last) == ";";
    let first = last.saturating_sub(if is_ended { 1 } else { 0 });
    for (at, put) in [(first, "end"), (last, "end"), (last, "end;")] {
        let part = seats.get(at).map_or(place.span, |seat| seat.span);
        let fix = put_behind(place.alloc, part, put)?;
        let fix = mending(place.alloc, place.text, place.span, Some(fix))?;
        if fix.is_some() {
            return Ok(fix);
        }
    }
    Ok(None)
}

/// What is said of the `begin` that has no `end`: where its block ends by its indentation; one that stands beside another one is left out.
fn unclosed(place: Place, seats: &[LineLexeme]) -> Saying {
    let (alloc, text) = (place.alloc, place.text);
    let Some((number, end)) = unclosed_at(place, seats)? else {
        return Ok(None);
    };
    let Some(one) = seats.get(number) else {
        return Ok(None);
    };
    let is_second = word_of(seats, number.wrapping_sub(1)) == "begin"
        || word_of(seats, number.wrapping_add(1)) == "begin";
    let out = put_at(alloc, one.span, one.span, "")?;
    let out = if is_second { Some(out) } else { None };
    if let Some(fix) = mending(alloc, text, place.span, out)? {
        let words = String::from_str(alloc, "the second `begin` has no `end`")?;
        return Ok(Some((Some((one.span, words)), Some(fix), None)));
    }
    let line = one.line;
    let (words, from) = match seats.get(end) {
        Some(end) if line == end.line => ("it ends before #", end.span.from),
        Some(end) => ("by its indentation it ends before line %", end.span.from),
        None => ("by its indentation it ends at the end of the text", 0),
    };
    let ending = placed(alloc, text, words, "", from)?;
    let mut inner = seats
        .get(number.saturating_add(1)..end)
        .unwrap_or(&[])
        .iter();
    let inner = inner.find(|seat| seat.word == "begin" && seat.line == line);
    let words = match inner {
        Some(_) => "`begin` has no `end`, or that at # has none: @",
        None => "`begin` has no `end`: @",
    };
    let at = inner.map_or(0, |inner| inner.span.from);
    let words = placed(alloc, text, words, ending.as_str(), at)?;
    let fix = closing(place, seats, end)?;
    Ok(Some((Some((one.span, words)), fix, None)))
}

fn guard_before(seats: &[LineLexeme], number: usize) -> Option<LineLexeme> {
    let guard = guard_of(seats, number, *seats.get(number)?)?;
    let mut between = seats.get(guard..number)?.iter();
    let is_several = between.any(|seat| seat.word == ";");
    seats.get(guard).copied().filter(|_| is_several)
}

/// What is said of the `end` that is one too many, or that closes several statements without a block behind what leads to them.
fn surplus(place: Place, seats: &[LineLexeme]) -> Saying {
    let (alloc, text) = (place.alloc, place.text);
    let number = surplus_at(place, seats)?.unwrap_or(usize::MAX);
    let Some(end) = seats.get(number) else {
        return Ok(None);
    };
    if let Some(guard) = guard_before(seats, number) {
        let words = "several statements stand behind `@` without `begin`, to the `end` at #";
        let words = placed(alloc, text, words, guard.word, end.span.from)?;
        let fix = put_behind(alloc, guard.span, "begin")?;
        return Ok(Some((Some((guard.span, words)), Some(fix), None)));
    }
    let words = "`end` has no `begin`: an `if`, a `while` or a `repeat` has no `end` of its own";
    let words = String::from_str(alloc, words)?;
    let fix = put_at(alloc, end.span, end.span, "")?;
    Ok(Some((Some((end.span, words)), Some(fix), None)))
}

/// What is said of blocks at a place, by the indentation of the lines up to it.
pub(crate) fn blocks_said(place: Place) -> Saying {
    let all = seats(place)?;
    let begins = all.iter().filter(|seat| seat.word == "begin").count();
    let ends = all.iter().filter(|seat| seat.word == "end").count();
    if ends < begins {
        unclosed(place, &all)
    } else if begins < ends {
        surplus(place, &all)
    } else {
        Ok(None)
    }
}

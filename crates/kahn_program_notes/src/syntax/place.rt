//! The place of a syntax error with its neighbours, the tests that table rows make on it, and fixes, each tried by parsing the
//! changed text.

ghost use Rattle.std.specs.Prelude.{◌-◌, ◌<◌, IfOk, IfSome, IsTrue, length};
ghost use Rattle.kahn_program_notes.specs.Notes.{Mends, MendsText};
ghost use Rattle.kahn_syntax.specs.Texts.{IsTextFault};

use crate::syntax::rules::row_of_foreign;
use crate::syntax::unexpected::class_word;
use kahn_diagnostic::{Fix, applied, is_within, part_of};
use kahn_expected::{Change, LexemeGroup, Reach, Wanted, is_of_word};
use kahn_streams::NoMemory;
use kahn_syntax::{Class, Keyword, Lexeme, Span, SyntaxFault, parse};
use kahn_texts::{add, add_spot};
use std::alloc::{AllocError, Global};

/// The most lexemes of a text in which changes are tried.
pub(crate) const MOST: usize = 8192;

/// The place where a text goes wrong.
#[derive(Clone, Copy)]
pub(crate) struct Place<'p> {
    pub(crate) alloc: Global,
    pub(crate) text: &'p str,
    pub(crate) lexemes: &'p [Lexeme],
    /// `number`: how many lexemes are before this place. `back`: how far it is before the reported one.
    pub(crate) number: usize,
    pub(crate) back: usize,
    pub(crate) span: Span,
    pub(crate) wanted: &'p Wanted,
    /// How far the text parses with each change. `to`: the farthest of these, at least `number + 3`; `usize::MAX` is a whole
    /// program.
    pub(crate) reaches: &'p [Reach],
    pub(crate) to: usize,
}

/// A change with which the text parses more than this many lexemes further is as good as one that makes it a program.
const GOOD: usize = 16;

pub(crate) type Put = Result<Fix, AllocError>;

pub(crate) type Fixed = Result<Option<Fix>, NoMemory>;

/// The place and words of a heading, if it isn't the `expected .., found ..` one.
pub(crate) type Heading = Option<(Span, String)>;

/// What a rule says, if it applies: a heading, a fix and a sentence, each if there is one.
pub(crate) type Saying = Result<Option<(Heading, Option<Fix>, Option<String>)>, NoMemory>;

pub(crate) type Words = Result<String, AllocError>;

/// Returns the lexeme `count` after the one at `place`; a negative `count` goes backwards.
pub(crate) fn near(place: Place, count: isize) -> Option<Lexeme> {
    let number = place.number.checked_add_signed(count)?;
    place.lexemes.get(number).copied()
}

/// Returns `place` moved `back` lexemes towards the beginning. Its span stays.
pub(crate) fn before(mut place: Place, back: usize) -> Place {
    place.number = place.number.wrapping_sub(back);
    place.back = back;
    place
}

/// Returns the first `count` items, or all if there are fewer.
pub(crate) fn front<T>(items: &[T], count: usize) -> &[T] {
    items.get(..count).unwrap_or(items)
}

pub(crate) fn word_at<'p>(place: Place<'p>) -> &'p str {
    near(place, 0).map_or("", |one| part_of(place.text, one.span))
}

pub(crate) fn name_at<'p>(place: Place<'p>, count: isize) -> Option<&'p str> {
    let name = near(place, count).filter(|one| one.what == Class::Name)?;
    Some(part_of(place.text, name.span))
}

fn is_far(place: Place) -> bool {
    let number = place.number.wrapping_add(place.back);
    number.saturating_add(GOOD) < place.to
}

/// Returns the change at `place` that parses farthest, removes `out` lexemes and inserts a word of `puts`, tried in order;
/// `nothing` inserts none.
pub(crate) fn offered(place: Place, out: usize, puts: &str) -> Option<Change> {
    for word in puts.split_whitespace() {
        let found = place.reaches.iter().find(|reach| {
            let one = reach.change;
            let put = one.put.map_or("nothing", |class| class_word(class));
            reach.to == place.to && one.at == place.number && one.out == out && put == word
        });
        if let Some(reach) = found {
            return Some(reach.change);
        }
    }
    None
}

/// Whether the name at `place` is undeclared and one edit away from `word`. A name of up to three letters must also occur only
/// once; a longer one that another language has must let the text parse far.
fn is_slip(place: Place, word: &str) -> bool {
    let Some(name) = name_at(place, 0) else {
        return false;
    };
    let same = place.lexemes.iter();
    let mut same = same.filter(|one| part_of(place.text, one.span) == name);
    let may_slip = match name.len() {
        0..=3 => same.nth(1).is_none() && !name.eq_ignore_ascii_case("xor"),
        _ => is_far(place) || row_of_foreign(name).is_none(),
    };
    may_slip && is_within(name.as_bytes(), word.as_bytes(), 1) && !is_declared(place)
}

/// Returns the change that replaces a misspelt name, at `place` or just before it, by a keyword: the one that parses farthest.
pub(crate) fn slip(place: Place) -> Option<Change> {
    let slips = place.reaches.iter().filter(|one| {
        let (change, back) = (one.change, place.number.saturating_sub(one.change.at));
        change.out == 1
            && back < 2
            && matches!(change.put, Some(Class::Word(word)) if is_slip(before(place, back), word.letters()))
    });
    let best = slips.min_by_key(|one| usize::MAX.saturating_sub(one.to))?;
    Some(best.change)
}

pub(crate) fn cell(row: &'static str, number: usize) -> &'static str {
    row.split(" | ").nth(number).unwrap_or("")
}

pub(crate) fn has_word(words: &str, word: &str) -> bool {
    let mut words = words.split_whitespace();
    words.any(|one| one.eq_ignore_ascii_case(word))
}

/// Whether the class of `lexeme` is written in `words`; a missing lexeme is written `nothing`.
pub(crate) fn finds(words: &str, lexeme: Option<Lexeme>) -> bool {
    let word = lexeme.map_or("nothing", |lexeme| class_word(lexeme.what));
    has_word(words, word)
}

/// Whether `wanted` has the group called `word`, or among the other classes the one written `word`.
pub(crate) fn may_stand(word: &str, wanted: &Wanted) -> bool {
    let groups: &[LexemeGroup] = match word {
        "statement" => &[LexemeGroup::Statement],
        "declaration" => &[LexemeGroup::Declaration],
        "operand" => &[LexemeGroup::Operand],
        "arithmetic" => &[LexemeGroup::Arithmetic],
        "operator" => &[LexemeGroup::Operator, LexemeGroup::Arithmetic],
        "value" => &[LexemeGroup::Expression, LexemeGroup::Operand],
        _ => return wanted.others.iter().any(|class| class_word(*class) == word),
    };
    wanted.groups.iter().any(|group| groups.contains(group))
}

/// Returns the text between the lexeme at `place` and the next; `None` if either is missing.
fn between<'p>(place: Place<'p>) -> Option<&'p str> {
    let (from, to) = (near(place, 0)?.span.to, near(place, 1)?.span.from);
    Some(part_of(place.text, Span { from, to }))
}

fn is_so(test: &str, place: Place) -> bool {
    let last = before(place, 1);
    match test {
        "joined" => between(last) == Some(""),
        "line" => between(last).is_none_or(|between| between.contains('\n')),
        "here" => place.back == 0,
        "near" => place.back < 2,
        "alone" => offered(place, 0, "name number + = and ( )").is_none(),
        "whole" => place.to == usize::MAX,
        "far" => is_far(place),
        "twice" => { word_at(last) == word_at(place) && !finds("number + -", near(last, 0)) }
        "named" => offered(place, 1, "name").is_some(),
        "chained" => finds(":=", near(place, -2)),
        "opens" => offered(place, 0, "(").is_some() || offered(last, 0, "(").is_some(),
        "declared" => is_declared(place),
        _ => true,
    }
}

pub(crate) fn is_declared(place: Place) -> bool {
    let name = name_at(place, 0);
    let mut declares = false;
    for number in 0..place.number {
        let earlier = Place { number, ..place };
        if declares && name.is_some() && name_at(earlier, 0) == name {
            return true;
        }
        let lexeme = near(earlier, 0);
        if !finds("name ,", lexeme) {
            declares = finds("integer logical in out channel process", lexeme);
        }
    }
    false
}

/// Whether a test holds. `+W`: `W` is expected here. `-W`: it isn't. `>W_X`: the next lexeme is `W` or `X`. Anything else: a word
/// of `is_so`. `!` before it negates.
pub(crate) fn holds(test: &str, place: Place) -> bool {
    let bare = test.strip_prefix("!").unwrap_or(test);
    let is_met = match bare.split_at_checked(1).unwrap_or(("", "")) {
        ("+", word) => may_stand(word, place.wanted),
        ("-", word) => !may_stand(word, place.wanted),
        (">", words) => words.split("_").any(|word| finds(word, near(place, 1))),
        (_, _) => is_so(bare, place),
    };
    is_met == (bare.len() == test.len())
}

/// Whether a row of a table fits at a place: the lexeme before it, the one there, and the tests.
pub(crate) fn fits(row: &'static str, place: Place) -> bool {
    let (one, here) = (cell(row, 0), cell(row, 1));
    let mut tests = cell(row, 2).split_whitespace();
    (one == "any" || finds(one, near(place, -1)))
        && (here == "any" || finds(here, near(place, 0)))
        && tests.all(|test| holds(test, place))
}

/// Whether less text is left after `at` in `new` than after `span`, and than after `part`, in `text`.
fn is_less(new: &str, at: Span, text: &str, span: Span, part: Span) -> bool
    ensures { IsTrue result → length new.now - at.from < length text.now - span.from }
{
    let left = new.len().saturating_sub(at.from);
    left < text.len().saturating_sub(span.from) && left < text.len().saturating_sub(part.to)
}

/// Whether `fault` is an unexpected lexeme or a bad character, and comes later than `span` in the sense of `is_less`.
fn is_later(new: &str, fault: SyntaxFault, text: &str, span: Span, part: Span) -> bool
    requires { IsTextFault new.now fault }
    ensures { IsTrue result → MendsText text.now span new.now }
{
    match fault {
        SyntaxFault::Expected(at, _what) => is_less(new, at, text, span, part),
        SyntaxFault::BadCharacter(at) => is_less(new, at, text, span, part),
        _ => false,
    }
}

/// Whether `new` parses, or goes wrong later than `span` in the sense of `is_less`. Fails only if memory is refused.
fn goes_on(alloc: Global, new: &str, text: &str, span: Span, part: Span) -> Result<bool, NoMemory>
    ensures { IfOk result (λ mends. IsTrue mends → MendsText text.now span new.now) }
{
    match parse(alloc, new) {
        Ok(_program) => Ok(true),
        Err(SyntaxFault::NoMemory) => Err(NoMemory),
        Err(fault) => Ok(is_later(new, fault, text, span, part)),
    }
}

pub(crate) fn mending(alloc: Global, text: &str, span: Span, fix: Option<Fix>) -> Fixed
    ensures { IfOk result (λ fix. IfSome fix (Mends text.now span)) }
{
    let Some(fix) = fix else {
        return Ok(None);
    };
    let Some(new) = applied(alloc, text, &fix)? else {
        return Ok(None);
    };
    if goes_on(alloc, new.as_str(), text, span, fix.span)? {
        return Ok(Some(fix));
    }
    Ok(None)
}

/// A sentence of ASCII with words for some of its signs.
pub(crate) fn filled(alloc: Global, sentence: &str, words: &[(u8, &str)]) -> Words {
    let mut filled = String::new(alloc);
    for byte in sentence.bytes() {
        match words.iter().find(|word| word.0 == byte) {
            Some(word) => filled.push_str(word.1)?,
            None => filled.push(char::from(byte))?,
        }
    }
    Ok(filled)
}

pub(crate) fn sentence(alloc: Global, sentence: &str, word: &str, other: &str) -> Words {
    filled(alloc, sentence, &[(b'@', word), (b'#', other)])
}

/// Fills in a sentence: `@` is `word`, `#` is LINE:COLUMN of byte `at`, `%` is its line.
pub(crate) fn placed(alloc: Global, text: &str, sentence: &str, word: &str, at: usize) -> Words {
    let mut spot = String::new(alloc);
    add_spot(&mut spot, "", text, at)?;
    let line = spot.split(":").next().unwrap_or("");
    let words = [(b'@', word), (b'#', spot.as_str()), (b'%', line)];
    filled(alloc, sentence, &words)
}

/// What is put in the place of a part of a text, beside a lexeme.
pub(crate) fn put_at(alloc: Global, span: Span, beside: Span, put: &str) -> Put {
    let put = String::from_str(alloc, put)?;
    Ok(Fix { span, put, beside })
}

pub(crate) fn put_behind(alloc: Global, part: Span, put: &str) -> Put {
    let from = part.to;
    put_at(alloc, Span { from, to: from }, part, put)
}

/// Returns a change as an edit of the text; `None` if it would insert a name or a number, since many would do.
pub(crate) fn fix_of(place: Place, change: Option<Change>) -> Fixed {
    let Some(change) = change else {
        return Ok(None);
    };
    let (alloc, number) = (place.alloc, change.at);
    let at = Place { number, ..place };
    let put = match change.put {
        Some(Class::Name | Class::Number(_)) => return Ok(None),
        Some(class) => class_word(class),
        None => "",
    };
    let is_first = has_word("send if process while integer logical", put);
    let before = near(at, -1).filter(|_| !is_first);
    let here = near(at, 0);
    let fix = match (here.filter(|_| change.out == 1), before, here) {
        (Some(only), _, _) => put_at(alloc, only.span, only.span, put)?,
        (_, Some(one), _) => put_behind(alloc, one.span, put)?,
        (_, _, Some(next)) => {
            let to = next.span.from;
            put_at(alloc, Span { to, ..next.span }, next.span, put)?
        }
        (_, _, None) => return Ok(None),
    };
    Ok(Some(fix))
}

/// What is said of a fix, if it mends the place. If it changes an earlier part, the heading is on that part.
pub(crate) fn told(place: Place, fix: Option<Fix>) -> Saying {
    let Some(fix) = mending(place.alloc, place.text, place.span, fix)? else {
        return Ok(None);
    };
    let (old, put) = (part_of(place.text, fix.span), fix.put.as_str());
    if old.is_empty() || fix.span.from == place.span.from {
        return Ok(Some((None, Some(fix), None)));
    }
    let is_word = put == "comment" || Keyword::named(put.as_bytes()).is_some();
    let is_name = old.bytes().all(is_of_word) && Keyword::named(old.as_bytes()).is_none();
    let words = match (put, is_name && is_word) {
        ("", _) => "unexpected `#`",
        (_, true) => "`#` is no keyword; did you mean `@`?",
        (_, false) => "expected `@`, found `#`",
    };
    let words = sentence(place.alloc, words, put, old)?;
    Ok(Some((Some((fix.span, words)), Some(fix), None)))
}

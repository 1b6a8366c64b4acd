//! What a note on a syntax error says beside `expected .., found ..`: tables of rules, and of words and characters of other
//! languages.

ghost use Rattle.std.specs.Prelude.{IfOk, IfSome};
ghost use Rattle.kahn_program_notes.specs.Notes.{Mends};

use crate::syntax::blocks::blocks_said;
use crate::syntax::place::{
    Fixed, Place, Put, Saying, before, cell, filled, finds, fits, fix_of, has_word, holds,
    is_declared, mending, name_at, near, offered, put_at, sentence, slip, told, word_at,
};
use kahn_diagnostic::{is_within, padded, part_of};
use kahn_expected::is_of_word;
use kahn_syntax::{Span, SyntaxFault};
use std::alloc::Global;

/// Rules, the first that says something wins. A row has the lexeme before the place, the one at it, tests, and what to say:
/// - a change: its kind, then what to insert, of which the first that helps counts;
/// - the name of a rule;
/// - a sentence, in which `$` is the lexeme before the place and `^` the one at it.
/// The order: slips, words of other languages, and blocks; habits for which a change would mislead; changes of one lexeme,
/// replacing and removing before inserting; other habits; examples.
const RULES: &str = "
any | = | >< | sign | <=
any | = | >> | sign | >=
any | > | >< | sign | <>
any | < | here >- | there is no arrow: `X := E` assigns, `X := wait(C)` takes a value, `send E on C` sends one
any | if process repeat while send print wait in out input output channel | twice | out
any | , | near -number >integer_logical | instead | ;
any | any | always | slip
any | any | always | remark
any | any | -, | foreign
any | any | +) | foreign
any | name | !declared near !>;_end_else_nothing | instead | send process if while else do then channel on end begin par
begin ; do then else | name | !declared near >begin | instead | repeat
begin ; do then else repeat | name | !declared near far !>;_end_else_nothing | out
any | and begin channel div do else end false if in input integer logical mod not on or out output par print process repeat send then true wait while | named near | `^` is a keyword, and no name, in any letter case: take another one
any | in or | far | instead | on
any | end | far near | instead | send
any | any | always | blocks
- | > | joined | there is no arrow: `send E on C` sends, `X := wait(C)` takes, and `;` stands between statements
any | + - | >+_-_= -value | there is no `++`, `--` or `+=`: `X := X + 1`; a comment goes from `comment` to `;`
* < > | * < > | joined | there is no power and no shift: `X * X`, `X * 16`, `X div 16`
then | if while repeat | always | `^` behind `then` stands between `begin` and `end`
any | if | +operand | an `if` among operators stands in brackets
( ; | input output | +integer -declaration -statement | a parameter has its kind and direction: `integer in U` is read, `integer out W` is written
; | name | +integer -declaration -statement !>integer_logical | put | integer
any | name | +integer -declaration -statement !>integer_logical | a parameter has its kind: `integer in U` is read, `integer out W` is written, `integer N` is a number
send | on | always | `on` and a channel stand behind the value: `send E on C`
any | if | +operator !line | a choice among values is `if E then E else E`
any | not | +operator | unequal is `<>`, and `not` stands before a truth value
, | in out | +name | parameters of another direction stand behind `;`: `integer in U; integer out W`
any | in out input output channel | >integer_logical | a kind stands first: `integer in U`, `integer input channel C`
channel | input output | always | `^` stands before `channel`: `integer ^ channel C`
any | in out | +) +, | the direction stands behind the kind: `integer in U; integer out W`
name | := | chained | a statement assigns to one name: `X := E; Y := X`
any | any | twice near | out
in out input output | in out input output | always | out
any | name | near >on +:= | put | send
any | = <= - | here | instead | :=
any | := | here | instead | =
begin ; | name | near >,_; | put | integer
name number ) end true false | , | +; | instead | ;
any | input | always | instead | in
any | output | always | instead | out
any | in | always | instead | input
any | out | always | instead | output
any | ; , | >else_do_then_par_on_) | out
any | any | always | put | ;
name number | name number | +, !joined here | put | ,
name number | name number | +, +) -; !joined | a comma stands between two arguments: `P(A, B)`
any | any | always | put | )
any | any | here | put | (
name | name number wait not true false if - + * | near | put | :=
any | any | always | put | on then do par else
nothing | any | always | put | begin
any | any | whole here | put | begin end
number ) | name | declared -then -do | put | *
number ) | ( | always | put | *
in out input output | any | always | put | channel
any | ; , ) ( := begin end then do else on par | whole here alone !opens | out
any | any | far | put | send if while
then begin do else ; repeat | wait | always | `wait(C)` is a value: a statement takes one by `X := wait(C)`
begin do else ; repeat | ( - | +statement | a statement begins with a name or a keyword; a comment goes from `comment` to `;`
begin do else ; | do | always | a loop is `while E do S`, or `repeat S`, which has no end
repeat | number | always | `repeat` goes on for ever: `while I < 10 do begin ..; I := I + 1 end` is ten turns
wait | any | always | brackets stand round the channel: `wait(C)`
( | if wait not true false number ( - ) | +name -) | one channel's name stands between these brackets: `if B then wait(U) else wait(V)`
on | any | always | a channel's name stands behind `on`: `send E on C`
any | on | +operator +end | `on` stands behind the value of a `send`: `send E on C`; `print E` needs no channel
any | in out input output channel integer logical wait not if ( | +true | an instance hands over channels and literals, by their places: `P(A, -1, true)`
any | process | +statement | no process stands in the body of another one: all of them stand side by side
any | channel | always | outside of processes `integer channel C` declares one; a process gets it by `integer in U` or `integer out W`
nothing | name | always | a program has no name: it goes from `begin` to `end`
any | name | +channel | variables are declared in processes; a channel is `integer channel C`
any | ) | opens | this `)` has no `(`: insert `(` before it, or leave it out
any | begin | +:= | a loop that counts is `while I < N do begin S; I := I + 1 end`, and one without an end `repeat S`
any | number | +name -declaration | a name begins with a letter
) | name | +; -end -, | `;` stands behind the parameters, and variables behind `begin`: `process P(integer in U); begin integer X; .. end`
end | if while repeat do process | always | an `end` stands alone: no word says what it ends
any | if while repeat wait send print | +declaration | statements stand in processes alone
; | name process if while repeat send print | +begin | the body of a process stands between `begin` and `end`
any | integer logical | +value | a kind changes no value: `if T then 1 else 0` makes a number of `T`, `X <> 0` a truth value of `X`
any | integer logical process | +end -statement | channels and processes are declared before all instances
any | integer logical | !+declaration | variables are declared right behind the first `begin` of a process, channels outside of processes
any | end | +declaration | a program ends with its instances: `p(A, B) par q(B, C)`
any | begin | +declaration >integer_logical | a process begins with its heading: `process P(integer in U; integer out W);`
any | begin | +declaration | instances stand without `begin`: `p(A) par q(B)`
any | ; | +:= | a statement that begins with a name assigns to it, `X := E`; names of one kind stand with commas, `integer I, J`
any | ; end else par | +( | brackets stand behind the name of a process, also where they are empty: `p()`
any | ; end else par on do then ) , | +else -end | an `if` among values has its `else`: `if E then E else E`
name | - | -operator | a name has letters, digits and `_`
integer logical | input output | +in | a channel is `integer input channel C`, and a process gets it by `integer in U` or `integer out W`
name | := = | +( -operator | an instance is `P(A, B)`: its brackets hand over the channels; statements stand in processes alone
any | = := + - * < > <> <= >= and div mod or | +, +) -; | an argument is no expression: an instance hands over channels and literals, by their places: `P(A, -1, true)`
any | + - * < > <> <= >= and div mod or = | -, +arithmetic | a comparison has two sides: `0 < X and X < 3`
name | , + - * < > <> <= >= and div mod or | +) -, -; -operator | one channel alone stands between these brackets: `wait(C) + 1`
any | = := | +, -arithmetic | a variable begins as 0 or `false`; a statement assigns to it, `X := E`
any | , | +:= | a statement assigns to one name: `X := E; Y := F`
any | , | +operator +) | one value stands between these brackets: `send E on C` sends it, and `print E` prints it
any | , | +; +operator | a statement has one value: `print E; print F`
name | , | +; | a value goes on one channel: `send E on C; send E on D`
name | ( | +:= | a body calls nothing and starts nothing: `send E on C` sends a value, and instances stand behind all processes
name | ( | +operator | a body calls nothing: there are no functions, `wait(C)` takes a value, and nothing tells whether one is there
+ - * div mod = <> < <= > >= and or not ( := send print if while | ; ) end on then do else , par send print while repeat nothing * div mod = <> < <= > >= and or | +value | a value is missing behind `$`, or `$` is too much
any | and begin channel div do else end false if in input integer logical mod not on or out output par print process repeat send then true wait while := ( ) , + - * = <> < <= > >= | far near | out
name ) | number | !line +operator far | an operator stands between two values: `X + 1`
any | number ; | far here | out
end | name | far here | out
any | else | +end | an `else` stands behind `if E then S`, where S is one statement; `begin` and `end` make one of several
number | name | joined | a number has decimal digits alone
any | any | near | instead | ) ( , on then do begin end par ;
any | , | +on | `send` sends one value: `send E on C; send F on C`
nothing | any | always | a program is like `begin integer output channel B; process p(integer out W); begin send 1 on W end; p(B) end`
name | name | +( -operator | an instance is `P(A, B)`: brackets stand round what it hands over; words for readers stand between `comment` and `;`
any | any | +:= | a statement begins with `send`, `print`, `if`, `while`, `repeat` or `begin`, or assigns to a name: `X := X + 1`, `X := wait(C)`
any | any | +declaration | here stand channels, `integer channel C;`, and processes, `process P(integer in U; integer out W); begin .. end;`; then instances, `P(A, B)`
any | any | +statement | a statement is like `X := wait(C)`, `send X on C`, `print X`, `if X > 0 then S`, `while X > 0 do S`, `repeat S` or `begin S; T end`
any | any | +value | a value is like `X`, `12`, `wait(C)`, `-X`, `(X + 1)` or `if X > 0 then 1 else 0`
any | name number ( wait , | +operator | a value goes on with `+`, `-`, `*`, `div`, `mod`, `=`, `<>`, `<`, `<=`, `>`, `>=`, `and` or `or`; a statement behind another one stands behind `;`
any | any | +on | a value is sent as by `send X + 1 on C`
any | any | +integer | parameters are like `integer in U; integer out W; integer N`
";

/// How many lexemes before a place a change may stand.
pub(crate) const FAR: usize = 8;

/// Rows: characters; replacements, each offered if the text then parses further; a hint. The first row that fits counts.
const CHARACTERS: &str = "
. |  | ; numbers are whole, and no `.` stands in a name or behind the last `end`
_ |  | ; a name begins with a letter, and a number has decimal digits alone
!= ~= /= \u{2260} | <> | ; unequal is `<>`
! | not | ; a value is sent by `send E on C`, and `not` is a word
% | mod comment | ; a remainder is `mod`, and a comment goes from `comment` to `;`
// /* | comment | ; a comment goes from `comment` to `;`, and a quotient is `div`
/ | div | ; a quotient is `div`, and a comment goes from `comment` to `;`
#define |  | ; there are no constants: an instance hands a number over, `P(A, 10)`
# | comment | ; a comment goes from `comment` to `;`, and unequal is `<>`
\" \u{2018} \u{2019} \u{201C} \u{201D} |  | ; there are no texts
' | _ | ; there are no texts, and a name has letters, digits and `_`
] | ) | ; brackets are `(` and `)`
[ | ( | ; brackets are `(` and `)`, and there are no arrays; a channel that one process writes and reads is a queue
{ | begin | ; a block goes from `begin` to `end`, a comment from `comment` to `;`
} | end ) | ; a block goes from `begin` to `end`, a comment from `comment` to `;`
&& & | and par | ; `and` is a word, and of logicals; between instances stands `par`
^ |  | ; there is no power and no exclusive or: of logicals it is `<>`
|| | or par | ; it is the word `or`, and between instances `par`
| | or par | ; it is the word `or`, and between instances `par`
~ | not | ; it is the word `not`
? |  | ; a value is taken by `X := wait(C)`, and a choice is `if .. then .. else ..`
: | then do nothing := ; | ; `:` stands right before `=` alone: a kind stands before its names, and behind a test `then` or `do`
$ @ | nothing | ; a name begins with a letter, and has letters, digits and `_`
``` |  | ; the lines of a fence are no part of a program
` | nothing | ; names and operators stand without such marks
\u{A0} \u{2002} \u{2003} \u{2009} \u{200A} \u{200B} \u{202F} |  | ; this isn't the blank that the space bar makes
\u{2192} |  | ; there is no arrow: `send E on C` sends, `X := wait(C)` takes
\u{2190} \u{2254} | := | ; all signs are of ASCII
\u{2011} \u{2013} \u{2014} \u{2212} | - | ; all signs are of ASCII
\u{2264} | <= | ; all signs are of ASCII
\u{2265} | >= | ; all signs are of ASCII
\u{FEFF} |  | ; a byte order mark (U+FEFF) isn't a blank here: save the text without one
";

/// Words of other languages, the keyword in their place if the text goes on with it, what is said of them, and a test of the place.
const FOREIGN: &str = "
elif elsif elseif | none | ; it is two words: `else if`
let set var local declare | none | ; a kind declares variables, right behind the `begin` of a process: `integer X`; and `X := E` assigns
until goto | none | ; `repeat S` goes on for ever, and a loop with a test is `while not E do S`
for foreach | none | ; a loop that counts is `while I < N do begin S; I := I + 1 end`, and one without an end `repeat S`
inout | none | ; one process reads a channel, and another one writes it: `in U`, `out W`
break exit continue stop halt | none | ; a loop ends where the test of its `while` is false
return yield | send | ; a process has no result: `send E on C` gives a value to another one | +:=
int ints long short unsigned | integer | ; the kinds are `integer` and `logical`; one stands before its names
bool boolean booleans | logical | ; the kinds are `integer` and `logical`; one stands before its names
real float string char array | none | ; the kinds are `integer` and `logical`; one stands before its names
inputs | input in | ; an input is `integer input channel C`, an output `integer output channel C`
outputs | output out | ; an input is `integer input channel C`, an output `integer output channel C`
function func procedure proc def fn void thread task node actor | process | ; a process is `process P(integer in U; integer out W); begin .. end`
endif endwhile endfor endprocess endproc fi od done tel | end | ; an `if`, a `while` or a `repeat` has no `end` of its own
const constant | none | ; there are no constants: an instance hands a number over, `P(A, 10)`
xor | none | ; there is no exclusive or: of logicals it is `<>`
go call spawn start run cobegin parbegin doco closeco coend parend | none | ; nothing starts an instance: it is `p(A, B)`, and `par` stands between two
select alt | none | ; there is no choice among channels, since timing can't matter: a process waits on one at a time | +:=
case switch match | none | ; a choice is `if E then S else if F then T else ..` | +:=
recv receive get read take await waits scanf getline readln | none | ; a statement takes a value by `X := wait(C)` | +:=
put emit write push sends give | send | ; a statement sends a value by `send E on C` | +:=
writeln println printf echo prints | print | ; a statement prints a value by `print E` | +:=
close | none | ; a channel has no end that is told: a process just sends no more | +:=
skip pass null nop | none | ; a statement that does nothing is empty, or `begin end` | +:=
";

/// For a word of another language: the fix that puts our keyword in its place; or else a heading, what this language has instead,
/// and perhaps a fix that removes it.
fn foreign_said(place: Place) -> Saying {
    let Some((at, row)) = foreign_word(place) else {
        return Ok(None);
    };
    let meant = told(place, fix_of(place, offered(at, 1, cell(row, 1)))?)?;
    if meant.is_some() {
        return Ok(meant);
    }
    let is_out = cell(row, 1) == "end"
        || finds("integer logical", near(place, 0))
        || (cell(row, 3) == "+:=" && finds("; end", near(place, 0)))
        || (holds("far", place)
            && finds("name", near(place, 0))
            && !finds("integer logical", near(at, -1)));
    let change = offered(at, 1, "nothing").filter(|_| is_out);
    let fix = fix_of(place, change)?;
    let name = near(at, 0).map_or(place.span, |name| name.span);
    let words = "`@` is no word of the language";
    let words = sentence(place.alloc, words, part_of(place.text, name), "")?;
    let below = cell(row, 2).strip_prefix("; ").unwrap_or("");
    let below = String::from_str(place.alloc, below)?;
    let head = Some((name, words)).filter(|_| at.back == 1);
    Ok(Some((head, fix, Some(below))))
}

/// Makes the change of a row, which removes `out` lexemes, at `place` or at the nearest of the `FAR` lexemes before it where that
/// helps.
fn change_said(row: &'static str, place: Place, out: usize, puts: &str) -> Saying {
    for back in 0..FAR.saturating_add(1) {
        let at = before(place, back);
        if fits(row, at) {
            let said = told(place, fix_of(place, offered(at, out, puts))?)?;
            if said.is_some() {
                return Ok(said);
            }
        }
    }
    Ok(None)
}

/// Replaces the two lexemes at `place`, or else those one before it, by the sign `put`.
fn sign_said(row: &'static str, place: Place, put: &str) -> Saying {
    for back in 0..2 {
        let at = before(place, back);
        let one = near(at, 0).map_or(place.span, |one| one.span);
        let to = near(at, 1).map_or(one.to, |next| next.span.to);
        if fits(row, at) {
            let fix = put_at(place.alloc, Span { to, ..one }, place.span, put)?;
            return told(place, Some(fix));
        }
    }
    Ok(None)
}

fn said_by(row: &'static str, place: Place) -> Saying {
    let puts = cell(row, 4);
    match cell(row, 3) {
        "out" => change_said(row, place, 1, "nothing"),
        "put" => change_said(row, place, 0, puts),
        "instead" => change_said(row, place, 1, puts),
        "sign" => sign_said(row, place, puts),
        _ if !fits(row, place) => Ok(None),
        "slip" => told(place, fix_of(place, slip(place))?),
        "remark" => {
            let one = near(place, -1).map_or(place.span, |one| one.span);
            let is_near = is_within(part_of(place.text, one).as_bytes(), b"comment", 1);
            let fix = put_at(place.alloc, one, one, "comment")?;
            told(place, Some(fix).filter(|_| is_near))
        }
        "foreign" => foreign_said(place),
        "blocks" => blocks_said(place),
        words => {
            let names = [(b'$', word_at(before(place, 1))), (b'^', word_at(place))];
            let words = filled(place.alloc, words, &names)?;
            Ok(Some((None, None, Some(words))))
        }
    }
}

pub(crate) fn grammar_said(place: Place) -> Saying {
    for row in RULES.lines() {
        let said = said_by(row, place)?;
        if said.is_some() {
            return Ok(said);
        }
    }
    Ok(None)
}

/// The row of the character that begins a text, and the part of it that stands there.
fn row_at(rest: &str) -> Option<(&'static str, &'static str)> {
    for row in CHARACTERS.lines() {
        let mut keys = cell(row, 0).split_ascii_whitespace();
        if let Some(key) = keys.find(|key| rest.starts_with(*key)) {
            return Some((row, key));
        }
    }
    None
}

/// Returns the edit that makes the rest of the line, from `part` on, a comment.
fn remark(alloc: Global, text: &str, part: Span) -> Put {
    let rest = text.get(part.to..).unwrap_or("");
    let line = rest.lines().next().unwrap_or("").trim_end();
    let to = part.to.saturating_add(line.len());
    let words = line.trim_end_matches("*/").trim();
    let put = sentence(alloc, "comment @;", words, "")?;
    put_at(alloc, Span { to, ..part }, part, put.as_str())
}

/// Returns the first replacement with which the text parses past the next lexeme, with blanks for all other bad characters.
pub(crate) fn character_fix(alloc: Global, text: &str, plain: &str, span: Span) -> Fixed
    ensures { IfOk result (λ fix. IfSome fix (Mends text.now span)) }
{
    let rest = text.get(span.from..).unwrap_or("");
    let (row, key) = row_at(rest).unwrap_or(("", ""));
    let to = span.from.saturating_add(key.len());
    let part = Span { to, ..span };
    let behind = text.get(to..).unwrap_or("").trim_start().len();
    let from = text.len().saturating_sub(behind);
    for put in cell(row, 1).split_whitespace() {
        let mut fix = match put {
            "nothing" => put_at(alloc, part, part, "")?,
            "comment" => remark(alloc, text, part)?,
            _ => put_at(alloc, part, part, put)?,
        };
        fix.put = padded(alloc, text, &fix)?;
        let fix = mending(alloc, plain, Span { from, to: from }, Some(fix))?;
        let fix = mending(alloc, text, span, fix)?;
        if fix.is_some() {
            return Ok(fix);
        }
    }
    Ok(None)
}

/// What is said of a character that isn't of the language, or of a number that is too large, behind the words of the fault; nothing of others.
pub fn character_help(program: &str, fault: SyntaxFault) -> &'static str {
    let rest = match fault {
        SyntaxFault::BadCharacter(span) => program.get(span.from..).unwrap_or(""),
        SyntaxFault::NumberTooLarge(_) => {
            return "; the greatest is 9223372036854775807, the least -9223372036854775807 - 1";
        }
        _ => "",
    };
    match (row_at(rest), rest.as_bytes().first()) {
        (Some((row, _)), _) => cell(row, 2),
        (None, None | Some(0..=0x7F)) => "",
        (None, _) => "; names have ASCII letters, digits and `_`, and all signs are of ASCII",
    }
}

pub(crate) fn row_of_foreign(word: &str) -> Option<&'static str> {
    FOREIGN.lines().find(|row| has_word(cell(row, 0), word))
}

/// Returns the word of another language just before `place` or at it, and its row. A declared name or the left side of an
/// assignment doesn't count.
fn foreign_word(place: Place) -> Option<(Place, &'static str)> {
    for back in [1, 0] {
        let at = before(place, back);
        let is_head = finds("process channel", near(at, -1));
        let is_given = back > 0 && finds("= :=", near(place, 0));
        if let Some(row) = row_of_foreign(name_at(at, 0).unwrap_or("")) {
            if !is_given && !is_head && !is_declared(at) && holds(cell(row, 3), place) {
                return Some((at, row));
            }
        }
    }
    None
}

//! The parts of a program, by what may still come; the grammar, as tables: what a part begins with, and which are open behind that; and
//! whether a part begins with a lexeme.

ghost use Rattle.std.specs.Prelude.{◌≡◌, List, ℕ, ℤ, drop, option_map};
ghost use Rattle.std.proofs.Common.{bytes_eq};
ghost use Rattle.kahn_syntax.specs.{Grammar.rank, Grammar.word as word_terminal, Texts.bytes_of_sign, Texts.letters_of, Texts.sign_terminal};
ghost use Rattle.kahn_syntax.specs.inner.Machine.{a_name, a_number, a_sign, a_word, accepts, an_operator, enters, operator_of, rank_or, rules_of};
ghost use Rattle.kahn_expected.specs.inner.Walk.{awaited_part, lead_of, opened_parts, rules_as, rules_by, terminal_with};

use crate::grammar::Awaited::{
    Ands, Argument, Arguments, Comparison, Conjunction, Declarations, Denial, Direction,
    Expression, Factor, Group, Groups, Instance, Just, Last, Level, MoreArguments, MoreGroups,
    MoreInstances, MoreNames, MoreStatements, Ors, Otherwise, Products, Program, Role, Signs,
    Simple, Statement, Sum, Term, Variables,
};
use crate::grammar::Lead::{Either, Like, Mark, Word};
use kahn_syntax::Keyword::{
    self, Begin, Channel, Do, Else, End, False, If, In, Input, Integer, Logical, Not, On, Out,
    Output, Par, Print, Process, Repeat, Send, Then, True, Wait, While,
};
use kahn_syntax::Sign::{self, Becomes, Close, Comma, Minus, Open, Semicolon};
use kahn_syntax::{Class, Operator};

/// A part of a program that is open: one that is awaited, or that may be left out.
#[derive(Clone, Copy)]
pub(crate) enum Awaited {
    Program,
    Declarations,
    Role,
    Groups,
    Group,
    Direction,
    Variables,
    Statement,
    Simple,
    Expression,
    Conjunction,
    Denial,
    Sum,
    Term,
    Factor,
    Ors,
    Ands,
    Comparison,
    Signs,
    Products,
    Instance,
    Arguments,
    Argument,
    MoreNames,
    MoreStatements,
    MoreGroups,
    MoreArguments,
    MoreInstances,
    Otherwise,
    Last,
    Level,
    Just(Lead),
}

/// What a part begins with.
#[derive(Clone, Copy)]
pub(crate) enum Lead {
    Word(Keyword),
    /// One of these two.
    Either(Keyword, Keyword),
    Mark(Sign),
    Number,
    Name,
    /// An operator of the level of this one.
    Like(Operator),
}

/// A lexeme with which a part begins, and what is open behind it, the first part last: behind an operand the operators of all levels.
pub(crate) type LeadRule = (Lead, &'static [Awaited]);

/// Whether a part may be left out, and what it begins with: by rules, of which so many parts are none of it; or a single lexeme.
pub(crate) type PartRules = Result<(bool, usize, &'static [LeadRule]), Lead>;

const KIND: Lead = Either(Integer, Logical);

const TRUTH: Lead = Either(True, False);

const NAME: Awaited = Just(Lead::Name);

const OPEN: Awaited = Just(Mark(Open));

const CLOSE: Awaited = Just(Mark(Close));

const SEMICOLON: Awaited = Just(Mark(Semicolon));

const CHANNEL: Awaited = Just(Word(Channel));

const ELSE: Awaited = Just(Word(Else));

const END: Awaited = Just(Word(End));

const THEN: Awaited = Just(Word(Then));

static PROGRAM: [LeadRule; 1] = [(
    Word(Begin),
    &[Last, END, Last, MoreInstances, Instance, Declarations],
)];

static DECLARATIONS: [LeadRule; 2] = [
    (
        KIND,
        &[Declarations, SEMICOLON, MoreNames, NAME, CHANNEL, Role],
    ),
    (
        Word(Process),
        &[
            Declarations,
            SEMICOLON,
            END,
            MoreStatements,
            Statement,
            Variables,
            Just(Word(Begin)),
            SEMICOLON,
            CLOSE,
            Groups,
            OPEN,
            NAME,
        ],
    ),
];

static STATEMENT: [LeadRule; 7] = [
    (Word(If), &[Level, Otherwise, Simple, THEN, Expression]),
    (Word(While), &[Level, Statement, Just(Word(Do)), Expression]),
    (Word(Repeat), &[Level, Statement]),
    (Lead::Name, &[Expression, Just(Mark(Becomes))]),
    (Word(Send), &[NAME, Just(Word(On)), Expression]),
    (Word(Print), &[Expression]),
    (Word(Begin), &[Level, END, MoreStatements, Statement]),
];

/// Those of all levels: an operand of one is without the operators of those before it, and `not` takes those of truth values.
static EXPRESSION: [LeadRule; 8] = [
    (
        Word(If),
        &[Level, Expression, ELSE, Expression, THEN, Expression],
    ),
    (Word(Not), &[Ors, Ands, Level, Denial]),
    (Lead::Number, &[Ors, Ands, Comparison, Signs, Products]),
    (TRUTH, &[Ors, Ands, Comparison, Signs, Products]),
    (Lead::Name, &[Ors, Ands, Comparison, Signs, Products]),
    (
        Word(Wait),
        &[Ors, Ands, Comparison, Signs, Products, CLOSE, NAME, OPEN],
    ),
    (
        Mark(Minus),
        &[Ors, Ands, Comparison, Signs, Products, Level, Factor],
    ),
    (
        Mark(Open),
        &[
            Ors, Ands, Comparison, Signs, Products, Level, CLOSE, Expression,
        ],
    ),
];

static ARGUMENTS: [LeadRule; 5] = [
    (Mark(Close), &[]),
    (Lead::Name, &[CLOSE, MoreArguments]),
    (Lead::Number, &[CLOSE, MoreArguments]),
    (TRUTH, &[CLOSE, MoreArguments]),
    (Mark(Minus), &[CLOSE, MoreArguments, Just(Lead::Number)]),
];

static ARGUMENT: [LeadRule; 4] = [
    (Lead::Name, &[]),
    (Lead::Number, &[]),
    (TRUTH, &[]),
    (Mark(Minus), &[Just(Lead::Number)]),
];

/// What a part begins with.
pub(crate) fn rules(part: Awaited) -> PartRules
    ensures { rules_by result ≡ rules_of (awaited_part part) }
{
    match part {
        Program => Ok((false, 0, &PROGRAM)),
        Declarations => Ok((true, 0, &DECLARATIONS)),
        Role => Ok((true, 0, &[(Either(Input, Output), &[])])),
        Groups => Ok((
            true,
            0,
            &[(KIND, &[MoreGroups, MoreNames, NAME, Direction])],
        )),
        Group => Ok((false, 0, &[(KIND, &[MoreNames, NAME, Direction])])),
        Direction => Ok((true, 0, &[(Either(In, Out), &[])])),
        Variables => Ok((true, 0, &[(KIND, &[Variables, SEMICOLON, MoreNames, NAME])])),
        Statement => Ok((true, 0, &STATEMENT)),
        Simple => Ok((true, 0, &STATEMENT[3..])),
        Expression => Ok((false, 0, &EXPRESSION)),
        Conjunction => Ok((false, 1, &EXPRESSION[1..])),
        Denial => Ok((false, 2, &EXPRESSION[1..])),
        Sum => Ok((false, 3, &EXPRESSION[2..])),
        Term => Ok((false, 4, &EXPRESSION[2..])),
        Factor => Ok((false, 5, &EXPRESSION[2..])),
        Ors => Ok((true, 0, &[(Like(Operator::Or), &[Ors, Conjunction])])),
        Ands => Ok((true, 0, &[(Like(Operator::And), &[Ands, Denial])])),
        Comparison => Ok((true, 0, &[(Like(Operator::Equal), &[Sum])])),
        Signs => Ok((true, 0, &[(Like(Operator::Add), &[Signs, Term])])),
        Products => Ok((true, 0, &[(Like(Operator::Multiply), &[Products, Factor])])),
        Instance => Ok((false, 0, &[(Lead::Name, &[Arguments, OPEN])])),
        Arguments => Ok((false, 0, &ARGUMENTS)),
        Argument => Ok((false, 0, &ARGUMENT)),
        MoreNames => Ok((true, 0, &[(Mark(Comma), &[MoreNames, NAME])])),
        MoreStatements => Ok((true, 0, &[(Mark(Semicolon), &[MoreStatements, Statement])])),
        MoreGroups => Ok((true, 0, &[(Mark(Semicolon), &[MoreGroups, Group])])),
        MoreArguments => Ok((true, 0, &[(Mark(Comma), &[MoreArguments, Argument])])),
        MoreInstances => Ok((true, 0, &[(Word(Par), &[MoreInstances, Instance])])),
        Otherwise => Ok((true, 0, &[(Word(Else), &[Statement])])),
        Last => Ok((true, 0, &[(Mark(Semicolon), &[])])),
        Level => Ok((true, 0, &[])),
        Just(lead) => Err(lead),
    }
}

fn same_word(first: Keyword, second: Keyword) -> bool
    ensures { result ≡ bytes_eq (letters_of first) (letters_of second) }
{
    first.letters().as_bytes() == second.letters().as_bytes()
}

/// The letters of a sign.
pub fn sign_letters(sign: Sign) -> &'static str
    ensures { result.now ≡ bytes_of_sign sign }
{
    match sign {
        Sign::Becomes => ":=",
        Sign::Open => "(",
        Sign::Close => ")",
        Sign::Comma => ",",
        Sign::Semicolon => ";",
        Sign::Plus => "+",
        Sign::Minus => "-",
        Sign::Times => "*",
        Sign::Equal => "=",
        Sign::Unequal => "<>",
        Sign::Less => "<",
        Sign::AtMost => "<=",
        Sign::Greater => ">",
        Sign::AtLeast => ">=",
        Sign::Not => "\u{AC}",
    }
}

fn same_sign(first: Sign, second: Sign) -> bool
    ensures { result ≡ bytes_eq (bytes_of_sign first) (bytes_of_sign second) }
{
    sign_letters(first).as_bytes() == sign_letters(second).as_bytes()
}

#[tactic(auto, using(crate::proofs::Leading::word_or_sign))]
fn is_word(word: Keyword, class: Class) -> bool
    ensures { (n : List ℕ) (z : ℤ) → result ≡ accepts (a_word word) (terminal_with n z class) }
{
    match class {
        Class::Word(found) => same_word(word, found),
        Class::Sign(found) => same_sign(Sign::Not, found) && same_word(word, Keyword::Not),
        Class::Name | Class::Number(_) => false,
    }
}

#[tactic(auto, using(crate::proofs::Leading::sign_or_word))]
fn is_sign(sign: Sign, class: Class) -> bool
    ensures { (n : List ℕ) (z : ℤ) → result ≡ accepts (a_sign sign) (terminal_with n z class) }
{
    match class {
        Class::Word(_) => false,
        Class::Sign(found) => !same_sign(Sign::Not, found) && same_sign(sign, found),
        Class::Name | Class::Number(_) => false,
    }
}

fn rank(operator: Operator) -> u8
    ensures { result ≡ rank operator }
{
    match operator {
        Operator::Or => 1,
        Operator::And => 2,
        Operator::Equal | Operator::Unequal | Operator::Less | Operator::AtMost => 4,
        Operator::Greater | Operator::AtLeast => 4,
        Operator::Add | Operator::Subtract => 5,
        Operator::Multiply | Operator::Divide | Operator::Remainder => 6,
    }
}

/// That of a lexeme, and 0 where it is no operator.
fn rank_of(class: Class) -> u8
    ensures { (n : List ℕ) (z : ℤ) → result ≡ rank_or (operator_of (terminal_with n z class)) }
{
    match class {
        Class::Word(Keyword::Or) => 1,
        Class::Word(Keyword::And) => 2,
        Class::Word(Keyword::Div | Keyword::Mod) => 6,
        Class::Sign(Sign::Equal | Sign::Unequal | Sign::Less | Sign::AtMost) => 4,
        Class::Sign(Sign::Greater | Sign::AtLeast) => 4,
        Class::Sign(Sign::Plus | Sign::Minus) => 5,
        Class::Sign(Sign::Times) => 6,
        _ => 0,
    }
}

/// Whether a lexeme is one with which a part begins.
#[tactic(auto, using(crate::proofs::Leading::one_of_two))]
fn accepts(lead: Lead, class: Class) -> bool
    ensures { (n : List ℕ) (z : ℤ) → result ≡ accepts (lead_of lead) (terminal_with n z class) }
{
    match lead {
        Word(word) => is_word(word, class),
        Either(first, second) => is_word(first, class) || is_word(second, class),
        Mark(sign) => is_sign(sign, class),
        Lead::Number => matches!(class, Class::Number(_)),
        Lead::Name => matches!(class, Class::Name),
        Like(operator) => rank_of(class) == rank(operator),
    }
}

/// Parts without so many of them.
fn without(from: usize, parts: &'static [Awaited]) -> &'static [Awaited]
    ensures { result.now ≡ drop from parts.now }
{
    parts.get(from..).unwrap_or(&[])
}

/// What is open behind a lexeme, by the first rule that has it, without so many of its parts.
fn by_rules(from: usize, rules: &'static [LeadRule], class: Class) -> Option<&'static [Awaited]>
    ensures { (n : List ℕ) (z : ℤ) → option_map opened_parts result ≡ enters (rules_as from rules.now) (terminal_with n z class) }
{
    for rule in rules {
        if accepts(rule.0, class) {
            return Some(without(from, rule.1));
        }
    }
    None
}

/// Whether a part may be left out, and what is open behind a lexeme, where it begins with that.
pub(crate) fn entered(rules: PartRules, class: Class) -> (bool, Option<&'static [Awaited]>)
    ensures optional { result.0 ≡ (rules_by rules.entry).0 }
    ensures opened { (n : List ℕ) (z : ℤ) → option_map opened_parts result.1 ≡ enters (rules_by rules.entry).1 (terminal_with n z class) }
{
    match rules {
        Ok((optional, from, rules)) => (optional, by_rules(from, rules, class)),
        Err(lead) if accepts(lead, class) => (false, Some(&[])),
        Err(_) => (false, None),
    }
}

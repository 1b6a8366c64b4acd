//! Classes of lexemes, told in groups of the grammar.

ghost use Rattle.std.specs.Prelude.{◌≡◌, ◌↔◌, ◌++◌, All, Contains, IfOk, MatchBool, flat_map};
ghost use Rattle.std.specs.Bool.{OnTrue};
ghost use Rattle.kahn_syntax.specs.declared.lexeme.Class.{Class};
ghost use Rattle.kahn_expected.specs.Wanted.{members, told_classes};

use kahn_syntax::{Class, Keyword, Sign};
use std::alloc::{AllocError, Global};

/// A group of lexemes, in a word of the grammar: those with which one may begin.
#[derive(Clone, Copy, PartialEq)]
pub enum LexemeGroup {
    /// Any expression.
    Expression,
    /// An expression without `not` and `if`.
    Operand,
    /// Any statement.
    Statement,
    /// A statement that may stand behind `then`.
    SimpleStatement,
    /// A declaration of channels or of a process.
    Declaration,
    /// Any operator between operands.
    Operator,
    /// An operator of integers.
    Arithmetic,
}

/// What may stand at a place: these groups, and these classes, of which the number 0 stands for all numbers.
#[derive(Drop)]
pub struct Wanted {
    /// The groups.
    pub groups: Vec<LexemeGroup>,
    /// The classes that are in none of them.
    pub others: Vec<Class>,
}

/// The groups; one that has another stands before it.
const GROUPS: [LexemeGroup; 7] = [
    LexemeGroup::Expression,
    LexemeGroup::Operand,
    LexemeGroup::Statement,
    LexemeGroup::SimpleStatement,
    LexemeGroup::Declaration,
    LexemeGroup::Operator,
    LexemeGroup::Arithmetic,
];

/// The classes of lexemes, those of a group beside one another; the one of the number 0 stands for all numbers. The sign for `not` is the
/// word.
pub const CLASSES: [Class; 44] = [
    Class::Word(Keyword::If),
    Class::Word(Keyword::Not),
    Class::Name,
    Class::Number(0),
    Class::Word(Keyword::False),
    Class::Word(Keyword::True),
    Class::Word(Keyword::Wait),
    Class::Sign(Sign::Open),
    Class::Sign(Sign::Minus),
    Class::Sign(Sign::Plus),
    Class::Sign(Sign::Times),
    Class::Word(Keyword::Div),
    Class::Word(Keyword::Mod),
    Class::Sign(Sign::Equal),
    Class::Sign(Sign::Unequal),
    Class::Sign(Sign::Less),
    Class::Sign(Sign::AtMost),
    Class::Sign(Sign::Greater),
    Class::Sign(Sign::AtLeast),
    Class::Word(Keyword::And),
    Class::Word(Keyword::Or),
    Class::Word(Keyword::Begin),
    Class::Word(Keyword::Channel),
    Class::Word(Keyword::Do),
    Class::Word(Keyword::Else),
    Class::Word(Keyword::End),
    Class::Word(Keyword::In),
    Class::Word(Keyword::Input),
    Class::Word(Keyword::Integer),
    Class::Word(Keyword::Logical),
    Class::Word(Keyword::Process),
    Class::Word(Keyword::On),
    Class::Word(Keyword::Out),
    Class::Word(Keyword::Output),
    Class::Word(Keyword::Par),
    Class::Word(Keyword::Print),
    Class::Word(Keyword::Repeat),
    Class::Word(Keyword::Send),
    Class::Word(Keyword::Then),
    Class::Word(Keyword::While),
    Class::Sign(Sign::Becomes),
    Class::Sign(Sign::Close),
    Class::Sign(Sign::Comma),
    Class::Sign(Sign::Semicolon),
];

static STATEMENT: [Class; 7] = [
    Class::Name,
    Class::Word(Keyword::Send),
    Class::Word(Keyword::Print),
    Class::Word(Keyword::Begin),
    Class::Word(Keyword::If),
    Class::Word(Keyword::While),
    Class::Word(Keyword::Repeat),
];

fn members(group: LexemeGroup) -> &'static [Class]
    ensures { result.now ≡ members group }
{
    match group {
        LexemeGroup::Expression => &CLASSES[..9],
        LexemeGroup::Operand => &CLASSES[2..9],
        LexemeGroup::Statement => &STATEMENT,
        LexemeGroup::SimpleStatement => &STATEMENT[..4],
        LexemeGroup::Declaration => &CLASSES[28..31],
        LexemeGroup::Operator => &CLASSES[8..21],
        LexemeGroup::Arithmetic => &CLASSES[8..13],
    }
}

fn has(classes: &[Class], class: Class) -> bool
    ensures { MatchBool result (Contains classes.now class) (¬ (Contains classes.now class)) }
{
    classes.contains(&class)
}

fn are_within(some: &[Class], classes: &[Class]) -> bool
    ensures { OnTrue result (All (Contains classes.now) some.now) }
{
    for class in some {
        if !has(classes, *class) {
            return false;
        }
    }
    true
}

/// The groups of which all members are among these classes, and these members. None is told of which all members were told before.
fn find_groups(
    alloc: Global,
    classes: &[Class],
) -> Result<(Vec<LexemeGroup>, Vec<Class>), AllocError>
    ensures { IfOk result (λ t. (t.1.items ≡ flat_map members t.0.items) × All (Contains classes.now) t.1.items) }
{
    let mut groups = Vec::new(alloc);
    let mut told = Vec::new(alloc);
    for group in GROUPS {
        let members = members(group);
        if are_within(members, classes) && !are_within(members, &told) {
            groups.push(group)?;
            told.extend_from_slice(members)?;
        }
    }
    Ok((groups, told))
}

/// Those of the classes that weren't told.
fn find_others(alloc: Global, classes: &[Class], told: &[Class]) -> Result<Vec<Class>, AllocError>
    ensures { IfOk result (λ others. All (Contains classes.now) others.items × All (Contains (told.now ++ others.items)) classes.now) }
{
    let mut others = Vec::new(alloc);
    for class in classes {
        if !has(told, *class) {
            others.push(*class)?;
        }
    }
    Ok(others)
}

/// The classes, in groups where all members of one are there.
pub(crate) fn grouped(alloc: Global, classes: &[Class]) -> Result<Wanted, AllocError>
    ensures { IfOk result (λ w. (c : Class) → Contains (told_classes w) c ↔ Contains classes.now c) }
{
    let (groups, told) = find_groups(alloc, classes)?;
    let others = find_others(alloc, classes, &told)?;
    Ok(Wanted { groups, others })
}

//! Lexemes: the words, names, numbers and signs of a text.

ghost use Rattle.std.specs.Prelude.{◌≡◌, IfSome, IfNone};
ghost use Rattle.kahn_syntax.specs.{declared.lexeme.Keyword.Keyword, Texts.letters_of, Texts.IsSpelled};

use Keyword::{
    And, Begin, Channel, Div, Do, Else, End, False, If, In, Input, Integer, Logical, Mod, Not, On,
    Or, Out, Output, Par, Print, Process, Repeat, Send, Then, True, Wait, While,
};
use kahn_streams::Span;

/// A keyword. It is written in any letter case.
#[derive(Clone, Copy, Debug, PartialEq, Eq)]
pub enum Keyword {
    And,
    Begin,
    Channel,
    Div,
    Do,
    Else,
    End,
    False,
    If,
    In,
    Input,
    Integer,
    Logical,
    Mod,
    Not,
    On,
    Or,
    Out,
    Output,
    Par,
    Print,
    Process,
    Repeat,
    Send,
    Then,
    True,
    Wait,
    While,
}

/// A sign.
#[derive(Clone, Copy, Debug, PartialEq, Eq)]
pub enum Sign {
    /// `:=`
    Becomes,
    /// `(`
    Open,
    /// `)`
    Close,
    /// `,`
    Comma,
    /// `;`
    Semicolon,
    /// `+`
    Plus,
    /// `-`
    Minus,
    /// `*`
    Times,
    /// `=`
    Equal,
    /// `<>`
    Unequal,
    /// `<`
    Less,
    /// `<=`
    AtMost,
    /// `>`
    Greater,
    /// `>=`
    AtLeast,
    /// The character U+00AC, which is read as the word `not`.
    Not,
}

/// What a lexeme is.
#[derive(Clone, Copy, Debug, PartialEq, Eq)]
pub enum Class {
    /// A keyword.
    Word(Keyword),
    /// A name: any other word, of at most 64 bytes.
    Name,
    /// A number with its value.
    Number(i64),
    /// A sign.
    Sign(Sign),
}

/// A lexeme and its span. Its text is that slice of the source.
#[derive(Clone, Copy, Debug, PartialEq, Eq)]
pub struct Lexeme {
    /// The bytes of the text that it takes.
    pub span: Span,
    /// What it is.
    pub what: Class,
}

const KEYWORDS: [Keyword; 28] = [
    And, Begin, Channel, Div, Do, Else, End, False, If, In, Input, Integer, Logical, Mod, Not, On,
    Or, Out, Output, Par, Print, Process, Repeat, Send, Then, True, Wait, While,
];

impl Keyword {
    /// Returns the keyword that a word is, in any letter case.
    pub fn named(word: &[u8]) -> Option<Keyword>
        ensures some { IfSome result (λ k. IsSpelled (letters_of k) word.now) }
        ensures none { IfNone result ((k : Keyword) → ¬ (IsSpelled (letters_of k) word.now)) }
    {
        'keywords: for keyword in KEYWORDS {
            if word.eq_ignore_ascii_case(keyword.letters().as_bytes()) {
                return Some(keyword);
            }
        }
        None
    }

    /// Returns its letters, in lower case.
    pub fn letters(self) -> &'static str
        ensures { result.now ≡ letters_of self }
    {
        match self {
            And => "and",
            Begin => "begin",
            Channel => "channel",
            Div => "div",
            Do => "do",
            Else => "else",
            End => "end",
            False => "false",
            If => "if",
            In => "in",
            Input => "input",
            Integer => "integer",
            Logical => "logical",
            Mod => "mod",
            Not => "not",
            On => "on",
            Or => "or",
            Out => "out",
            Output => "output",
            Par => "par",
            Print => "print",
            Process => "process",
            Repeat => "repeat",
            Send => "send",
            Then => "then",
            True => "true",
            Wait => "wait",
            While => "while",
        }
    }
}

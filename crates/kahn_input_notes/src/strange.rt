//! What stands in input texts and belongs to other languages, and what is said of it.

use kahn_streams::Kind;

/// Words for what is like a key: `9` in a key matches digits, and `*` at either end matches anything. Keys have blanks between.
#[derive(Clone, Copy)]
pub(crate) struct WordRow {
    keys: &'static str,
    says: &'static str,
}

macro_rules! words {
    ($($keys:literal => $says:literal;)+) => {
        [$(WordRow { keys: $keys, says: $says }),+]
    };
}

/// Characters that look like blanks and other signs and are none, and the mark of byte order.
static CHARACTERS: [WordRow; 4] = words! {
    "*\u{FEFF}*" => "; in it stands a byte order mark (EF BB BF)";
    "*\u{00A0}*" => "; in it stands a no-break space (U+00A0)";
    "*\r*" => "; in it stands a carriage return (U+000D)";
    "*\u{2212}* *\u{2010}* *\u{2011}* *\u{2013}* *\u{2014}*" => "; in it stands a minus sign or a dash, which is no `-`";
};

/// Words of letters that are no values.
static WORDS: [WordRow; 5] = words! {
    "to until through" => "; there are no ranges: each value stands there itself";
    "nan nil null none na missing" => "; a missing value is left out";
    "eof end stop quit done" => "; an input ends with its last line: no word says so";
    "is" => "; each name stands at the front of its line, with one `:` behind";
    "and" => "; blanks stand between values, and no commas, brackets or quotation marks";
};

/// Other words that are no values.
static VALUES: [WordRow; 14] = words! {
    "#* /* -- %*" => "; an input has no comments";
    "9,9 -9,9" => "; blanks stand between values, and a number has no `,`: 1200 for 1,200, and 185 tenths for 18,5";
    "9:9*" => "; a time is a number, as 1230 for 12:30";
    "9.9 -9.9 .9 -.9 9. 9/9" => "; numbers are whole: count tenths or hundredths, as 185 for 18.5";
    "9-9-9* 9/9/9*" => "; a date is a number, as 20240105 for 2024-01-05";
    "*..* 9-9" => "; there are no ranges: each value stands there itself";
    "9 -9" => "; it is past 64 bits";
    "0x* 0b* 0o*" => "; numbers are decimal";
    "+*" => "; a number has no `+`";
    "- --* 9-" => "; a `-` stands right before its digits; a missing value is left out";
    "? _ n/a" => "; a missing value is left out";
    "=* :* *: ->*" => "; each name stands at the front of its line, with one `:` behind";
    "*,* *;* *[* *]* *(* *)* *{* *}* *<* *|* *\"* *'* *`*" => "; blanks stand between values, and no commas, brackets or quotation marks";
    "*\\*" => "; all values of a channel stand on one line";
};

/// What a line begins with in the place of the name of a channel.
static HEADS: [WordRow; 3] = words! {
    "9* -9* true false" => "; all values of a channel stand on one line, behind its name";
    "integer logical int bool boolean channel input inputs in out" => "; no kind stands before the name";
    "begin send print let var set put export const echo" => "; an input has no statements: values stand behind the name of their channel";
};

/// What stands in the place of a name or a colon.
pub(crate) static PARTS: [WordRow; 3] = words! {
    "#* /* -- %* ;* !*" => "; an input has no comments";
    ",* :*" => "; each channel has a line, with all of its values behind the `:`";
    "*:" => "; a name has no blanks, and no signs but `_`";
};

/// How many bytes of a word are looked at.
const MOST_SHOWN: usize = 64;

fn has_shape(shape: &str, word: &[u8]) -> bool {
    let mut rest = word;
    for sign in shape.as_bytes() {
        let end = match *sign {
            b'9' => rest.iter().position(|byte| !byte.is_ascii_digit()),
            b'*' => return true,
            _ if matches!(rest.first(), Some(byte) if byte.eq_ignore_ascii_case(sign)) => Some(1),
            _ => Some(0),
        };
        let length = end.unwrap_or(rest.len());
        if length == 0 {
            return false;
        }
        rest = rest.get(length..).unwrap_or(b"");
    }
    rest.is_empty()
}

/// Whether a word is like a key.
fn is_like(key: &str, word: &[u8]) -> bool {
    let mut places = 0..word.len();
    match key.strip_prefix("*") {
        Some(shape) => places.any(|at| has_shape(shape, word.get(at..).unwrap_or(b""))),
        None => has_shape(key, word),
    }
}

/// Returns the words of the first row with a key like `word`, or nothing.
pub(crate) fn words_of(rows: &[WordRow], word: &[u8]) -> &'static str {
    let part = word.get(..MOST_SHOWN).unwrap_or(word);
    for row in rows {
        if row.keys.split(' ').any(|key| is_like(key, part)) {
            return row.says;
        }
    }
    ""
}

pub(crate) fn first_words(all: &[&'static str]) -> &'static str {
    let mut all = all.iter();
    all.find(|words| !words.is_empty()).copied().unwrap_or("")
}

/// What is said of the first character in a part that is strange, or isn't of ASCII.
pub(crate) fn strange_words(part: &[u8]) -> &'static str {
    if part.iter().all(u8::is_ascii_graphic) {
        return "";
    }
    match words_of(&CHARACTERS, part) {
        "" if !part.is_ascii() => "; in it stands a character that isn't of ASCII",
        words => words,
    }
}

/// What is said of a part in the place of a name or a colon, in a line that begins with this name, of a channel of this kind or none.
pub(crate) fn head_words(name: &[u8], kind: Option<Kind>, part: &[u8]) -> &'static str {
    let first: &[u8] = match kind {
        _ if name.is_empty() => part,
        None => name,
        Some(_) => b"",
    };
    let (heads, parts) = (words_of(&HEADS, first), words_of(&PARTS, part));
    first_words(&[strange_words(part), heads, parts])
}

/// What is said of a word that is no value, behind the name of a channel of this kind or none.
pub(crate) fn value_words(kind: Option<Kind>, word: &[u8]) -> &'static str {
    let others = match kind {
        Some(Kind::Logical) => "; truth values are `true` and `false`",
        Some(Kind::Integer) => "; a number is digits alone, without letters, signs or a unit",
        None => "",
    };
    let is_of_letters = word.iter().all(u8::is_ascii_alphabetic);
    let words = if is_of_letters {
        words_of(&WORDS, word)
    } else {
        words_of(&VALUES, word)
    };
    first_words(&[strange_words(word), words, others])
}

//! The lines and columns of a text, found from the nearest of many places that were counted once, and what is shown of a line.

ghost use Rattle.std.specs.Prelude.{◌≡◌, ◌≤◌, ◌<◌, ◌+◌, ◌++◌, IfOk, All, length, string_bytes};
ghost use Rattle.kahn_streams.specs.Place.{line_of, column_of};
ghost use Rattle.kahn_diagnostic.specs.{Marks.near_of, Marks.near_end, inner.Spots.IsSpotOf};
ghost use Rattle.kahn_texts.specs.Shown.{spot_text};

use kahn_streams::Span;
use kahn_texts::add_counted;
use std::alloc::{AllocError, Global};
use std::marker::Model;

/// How many bytes before and behind a place are shown of its line.
const NEAR: usize = 80;

/// So many bytes apart the places of a text are counted that are kept.
const STEP: usize = 256;

/// A byte of a text, or its end, with its line and its column, both from 1.
#[derive(Clone, Copy)]
pub(crate) struct Spot {
    at: usize,
    line: usize,
    column: usize,
}

/// A text whose lines and columns cost little to find. Contracts see the text.
#[derive(Drop)]
pub struct Lines<'t> {
    text: &'t str,
    spots: Vec<Spot>,
}

impl<'t> Model for Lines<'t> {
    ghost use Rattle.std.specs.Prelude.{All, List, ℕ};
    ghost use Rattle.kahn_diagnostic.specs.inner.Spots.{IsSpotOf};

    ghost Value = { List ℕ };

    ghost view = { λ l. l.text.now };

    ghost invariant = { λ l. All (IsSpotOf l.text.now) l.spots.items };
}

/// Returns the spot of the next byte.
#[tactic(auto, using(crate::proofs::Counted::line_after_end, crate::proofs::Counted::line_after_other, crate::proofs::Counted::column_after_end, crate::proofs::Counted::column_after_other, crate::proofs::Counted::few_lines, crate::proofs::Counted::few_columns))]
fn next_spot(text: &[u8], spot: Spot) -> Spot
    requires counted { IsSpotOf text.now spot }
    requires inside { spot.at < length text.now }
    ensures spot { IsSpotOf text.now result }
    ensures at { result.at ≡ spot.at + 1 }
{
    let at = spot.at + 1;
    if text[spot.at] == b'\n' {
        let line = spot.line + 1;
        return Spot {
            at,
            line,
            column: 1,
        };
    }
    Spot {
        at,
        line: spot.line,
        column: spot.column + 1,
    }
}

/// Returns the spot of byte `from`, counted from an earlier one.
fn spot_from(text: &[u8], earlier: Spot, from: usize) -> Spot
    requires counted { IsSpotOf text.now earlier }
    requires earlier { earlier.at ≤ from }
    requires within { from ≤ length text.now }
    ensures spot { IsSpotOf text.now result }
    ensures at { result.at ≡ from }
{
    let mut spot = earlier;
    'bytes: while spot.at < from {
        spot = next_spot(text, spot);
    }
    spot
}

/// Keeps a spot if it is one of those that are kept.
fn keep(text: &[u8], spots: &mut Vec<Spot>, spot: Spot) -> Result<(), AllocError>
    requires counted { IsSpotOf text.now spot }
    requires all { All (IsSpotOf text.now) spots.old.items }
    ensures { IfOk result (λ _. All (IsSpotOf text.now) spots.new.items) }
{
    let _text = text;
    if spot.at % STEP != 0 {
        return Ok(());
    }
    Ok(spots.push(spot)?)
}

/// Returns the first spot of a text.
fn first_spot(_text: &[u8]) -> Spot
    ensures spot { IsSpotOf _text.now result }
    ensures at { result.at ≡ 0 }
{
    Spot {
        at: 0,
        line: 1,
        column: 1,
    }
}

fn spots_of(alloc: Global, text: &[u8]) -> Result<Vec<Spot>, AllocError>
    ensures { IfOk result (λ spots. All (IsSpotOf text.now) spots.items) }
{
    let mut spots = Vec::new(alloc);
    let mut spot = first_spot(text);
    'bytes: while spot.at < text.len() {
        keep(text, &mut spots, spot)?;
        spot = next_spot(text, spot);
    }
    Ok(spots)
}

impl<'t> Lines<'t> {
    /// Counts the lines and columns of a text once. Fails only if memory is refused.
    pub fn new(alloc: Global, text: &'t str) -> Result<Lines<'t>, AllocError>
        ensures { IfOk result (λ lines. lines ≡ text.now) }
    {
        let spots = spots_of(alloc, text.as_bytes())?;
        Ok(Lines { text, spots })
    }

    /// Returns the text.
    pub fn text(&self) -> &'t str
        ensures { result.now ≡ self.now }
    {
        self.text
    }

    /// Returns the kept spot at `from`, or one before it.
    fn spot_before(&self, from: usize) -> Spot
        ensures spot { IsSpotOf self.now result }
        ensures before { result.at ≤ from }
    {
        match self.spots.get(from / STEP) {
            Some(spot) if spot.at <= from => *spot,
            _ => first_spot(self.text.as_bytes()),
        }
    }

    /// Returns the line and the column of byte `from`, both from 1, columns in bytes; of the end of the text if there is no such byte.
    #[tactic(auto, using(kahn_texts::proofs::Characters::same_line, kahn_texts::proofs::Characters::same_column))]
    pub fn place(&self, from: usize) -> (usize, usize)
        ensures line { result.0 ≡ line_of self.now from }
        ensures column { result.1 ≡ column_of self.now from }
    {
        let from = from.min(self.text.len());
        let spot = spot_from(self.text.as_bytes(), self.spot_before(from), from);
        (spot.line, spot.column)
    }

    /// Adds the line and the column of byte `from` after `before`.
    pub fn add_spot(&self, words: &mut String, before: &str, from: usize) -> Result<(), AllocError>
        ensures { IfOk result (λ _. string_bytes words.new ≡ string_bytes words.old ++ spot_text before.now self.now from) }
    {
        let (line, column) = self.place(from);
        add_counted(words, before, line, column)
    }

    /// Returns what is shown of the line of byte `from`.
    pub(crate) fn near(&self, from: usize) -> Span
        requires { from ≤ length self.now }
        ensures { result ≡ near_of self.now from }
    {
        let (_, column) = self.place(from);
        let before = column.saturating_sub(1).min(NEAR);
        Span {
            from: from.saturating_sub(before),
            to: near_end(self.text.as_bytes(), from),
        }
    }
}

/// Returns where what is shown of the line of byte `from` ends.
#[tactic(auto, using(crate::proofs::Ends::one_more, crate::proofs::Ends::none_more, crate::proofs::Ends::none_left, crate::proofs::Ends::far, crate::proofs::Ends::whole, crate::proofs::Ends::without))]
fn near_end(text: &[u8], from: usize) -> usize
    requires { from ≤ length text.now }
    ensures { result ≡ near_end text.now from }
{
    let mut end = from;
    'bytes: while end < text.len() && text[end] != b'\n' && end - from <= NEAR {
        end += 1;
    }
    if end - from > NEAR {
        return from + NEAR;
    }
    let is_line_end = end < text.len();
    if is_line_end && end > 0 && text[end - 1] == b'\r' {
        return end - 1;
    }
    end
}

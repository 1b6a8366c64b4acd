//! Tables that are written row by row. The text of a whole table is never in memory.

ghost use Rattle.std.specs.Prelude.{◌≡◌, ◌≤◌, IfOk};
ghost use Rattle.kahn_streams.specs.{Inputs.inputs_of, Network.network_of};
ghost use Rattle.kahn_needs.specs.Finding.{AreNeedsFound, IsSeeking};
ghost use Rattle.kahn_explain.specs.{Needing.AreAllNeeds, Running.HasPut};

use itoa::Buffer;
use kahn_needs::{Found, Needs, Seeker};
use kahn_streams::Value;
use kahn_texts::{WriteFault, flush, put_line, uncounted};
use std::alloc::{AllocError, Global};
use std::io::Write;

/// How many numbers of a row are compared at once with those of the row before.
const BLOCK: usize = 64;

/// Writes pieces of a table. Never allocates.
pub(crate) fn put<W: Write>(out: &mut W, pieces: &[&[u8]]) -> Result<(), WriteFault>
    ensures { HasPut (W.contents out.old) (W.contents out.new) result }
{
    put_line(out, pieces, &mut uncounted())
}

/// Writes a value after `commas`.
#[tactic(auto, using(crate::proofs::Pieces::fails, crate::proofs::Pieces::next_piece, crate::proofs::Pieces::no_piece))]
pub(crate) fn put_value<W: Write>(
    out: &mut W,
    commas: &[u8],
    value: Value,
) -> Result<(), WriteFault>
    ensures { HasPut (W.contents out.old) (W.contents out.new) result }
{
    let mut digits = Buffer::new();
    let text = match value {
        Value::Integer(number) => digits.format(number),
        Value::Logical(true) => "true",
        Value::Logical(false) => "false",
    };
    put(out, &[commas])?;
    put(out, &[text.as_bytes()])
}

/// Flushes a writer.
#[tactic(auto, using(crate::proofs::Pieces::kept_piece))]
pub(crate) fn flush_all<W: Write>(out: &mut W) -> Result<(), WriteFault>
    ensures { HasPut (W.contents out.old) (W.contents out.new) result }
{
    flush(out, &mut uncounted())
}

/// Numbers after commas, as a row has them. The next row changes only what is another number.
#[derive(Drop)]
struct Numbers {
    text: Vec<u8>,
    // Where each number begins in the text.
    starts: Vec<usize>,
    numbers: Vec<u64>,
}

impl Numbers {
    fn new(alloc: Global) -> Numbers {
        Numbers {
            text: Vec::new(alloc),
            starts: Vec::new(alloc),
            numbers: Vec::new(alloc),
        }
    }

    fn write(&mut self, numbers: &[u64]) -> Result<(), AllocError> {
        self.text.clear();
        self.starts.clear();
        self.numbers.clear();
        for number in numbers {
            let mut digits = Buffer::new();
            self.text.push(b',')?;
            self.starts.push(self.text.len())?;
            self.text
                .extend_from_slice(digits.format(*number).as_bytes())?;
        }
        self.numbers.extend_from_slice(numbers)?;
        Ok(())
    }

    // Where the text of a number ends.
    fn end(&self, index: usize) -> usize {
        match self.starts.get(index.saturating_add(1)) {
            Some(start) => start.saturating_sub(1),
            None => self.text.len(),
        }
    }

    // Puts a number in the place of another, if it has as many digits.
    fn replaced(&mut self, index: usize, number: u64) -> bool {
        let mut digits = Buffer::new();
        let new = digits.format(number).as_bytes();
        let (start, end) = match self.starts.get(index) {
            Some(start) => (*start, self.end(index)),
            None => return false,
        };
        if end > self.text.len() || start > end || end - start != new.len() {
            return false;
        }
        self.text[start..end].copy_from_slice(new);
        if let Some(old) = self.numbers.get_mut(index) {
            *old = number;
        }
        true
    }

    // Rewrites the numbers from a place on, if each has as many digits as the one before it there.
    fn renewed(&mut self, start: usize, block: &[u64]) -> bool {
        if has_block(&self.numbers, start, block) {
            return true;
        }
        for (index, number) in block.iter().enumerate() {
            let place = start.saturating_add(index);
            let is_same = self.numbers.get(place) == Some(number);
            if !is_same && !self.replaced(place, *number) {
                return false;
            }
        }
        true
    }

    /// Makes the text the text of these numbers.
    fn renew(&mut self, numbers: &[u64]) -> Result<(), AllocError> {
        if self.numbers.len() != numbers.len() {
            return self.write(numbers);
        }
        for (number, block) in numbers.chunks(BLOCK).enumerate() {
            if !self.renewed(number.saturating_mul(BLOCK), block) {
                return self.write(numbers);
            }
        }
        Ok(())
    }
}

/// Whether a block of numbers is in the list from a place on. All are looked at, so that a processor compares several at once.
fn has_block(numbers: &[u64], start: usize, block: &[u64]) -> bool {
    if start > numbers.len() || numbers.len() - start < block.len() {
        return false;
    }
    let there = &numbers[start..];
    let mut differs = 0;
    for place in 0..block.len() {
        differs |= there[place] ^ block[place];
    }
    differs == 0
}

/// The numbers of a row of a table of needs.
#[derive(Drop)]
pub(crate) struct NeedsRow {
    values: Numbers,
    events: Numbers,
}

impl NeedsRow {
    pub(crate) fn new(alloc: Global) -> NeedsRow {
        NeedsRow {
            values: Numbers::new(alloc),
            events: Numbers::new(alloc),
        }
    }

    fn renew(&mut self, needs: &Needs) -> Result<(), AllocError> {
        self.values.renew(&needs.values)?;
        self.events.renew(&needs.events)
    }

    #[tactic(auto, using(crate::proofs::Pieces::fails, crate::proofs::Pieces::next_piece, crate::proofs::Pieces::no_piece))]
    fn put_row<W: Write>(&self, out: &mut W, place: u64, value: Value) -> Result<(), WriteFault>
        ensures { HasPut (W.contents out.old) (W.contents out.new) result }
    {
        let mut digits = Buffer::new();
        put(out, &[digits.format(place as u128 + 1).as_bytes()])?;
        put_value(out, b",", value)?;
        put(out, &[&self.values.text, &self.events.text, b"\n"])
    }

    #[tactic(auto, using(crate::proofs::Pieces::fails, crate::proofs::Pieces::next_piece, crate::proofs::Pieces::no_piece))]
    fn put<W: Write>(&mut self, out: &mut W, place: u64, needs: &Needs) -> Result<(), RowsFault>
        ensures { HasPut (W.contents out.old) (W.contents out.new) result }
    {
        if self.renew(needs).is_err() {
            return Err(RowsFault::NoMemory);
        }
        match self.put_row(out, place, needs.value) {
            Ok(()) => Ok(()),
            Err(fault) => Err(RowsFault::Write(fault)),
        }
    }
}

/// Why the rows of a table of needs broke off.
#[derive(Clone, Copy, Debug)]
pub(crate) enum RowsFault {
    /// Memory was refused to the search, or for a row.
    NoMemory,
    Write(WriteFault),
}

/// What the value at a place needs.
fn found_at(alloc: Global, seeker: &mut Seeker<'_>, place: u64) -> Result<Found, RowsFault>
    requires { seeker.old.next ≤ place }
    ensures same { IsSeeking seeker.old.network seeker.old.input seeker.old.line place seeker.new }
    ensures found { IfOk result (AreNeedsFound (network_of seeker.old.network) (inputs_of seeker.old.input) seeker.old.line place) }
{
    match seeker.find(alloc, place) {
        Ok(found) => Ok(found),
        Err(_) => Err(RowsFault::NoMemory),
    }
}

/// Writes a row for each value of a line, up to its end or to the bound, and returns which of them it was.
#[tactic(auto, using(crate::proofs::Pieces::fails, crate::proofs::Pieces::next_piece, crate::proofs::Pieces::no_piece))]
fn put_rows<W: Write>(
    alloc: Global,
    out: &mut W,
    seeker: &mut Seeker<'_>,
) -> Result<Found, RowsFault>
    requires { seeker.old.next ≡ 0 }
    ensures rows { IfOk result (AreAllNeeds (network_of seeker.old.network) (inputs_of seeker.old.input) seeker.old.line) }
    ensures put { HasPut (W.contents out.old) (W.contents out.new) result }
{
    let mut row = NeedsRow::new(alloc);
    for place in 0..u64::MAX {
        let found = found_at(alloc, seeker, place)?;
        match found {
            Found::Needs(needs) => row.put(out, place, &needs)?,
            Found::Never => return Ok(Found::Never),
            Found::Ring => return Ok(Found::Ring),
            Found::Bound => return Ok(Found::Bound),
        }
    }
    Ok(Found::Bound)
}

/// Writes a table of needs, with a row for each value of a line as it is found, and flushes.
#[tactic(auto, using(crate::proofs::Pieces::fails, crate::proofs::Pieces::next_piece, crate::proofs::Pieces::no_piece))]
pub(crate) fn put_needs<W: Write>(
    alloc: Global,
    out: &mut W,
    head: &str,
    seeker: &mut Seeker<'_>,
) -> Result<Found, RowsFault>
    requires { seeker.old.next ≡ 0 }
    ensures rows { IfOk result (AreAllNeeds (network_of seeker.old.network) (inputs_of seeker.old.input) seeker.old.line) }
    ensures put { HasPut (W.contents out.old) (W.contents out.new) result }
{
    if let Err(fault) = put(out, &[head.as_bytes()]) {
        return Err(RowsFault::Write(fault));
    }
    let found = put_rows(alloc, out, seeker)?;
    match flush_all(out) {
        Ok(()) => Ok(found),
        Err(fault) => Err(RowsFault::Write(fault)),
    }
}

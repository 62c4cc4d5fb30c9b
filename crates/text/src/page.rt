//! Text on a page that the caller lends.
ghost use Rattle.std.specs.Prelude.{◌≡◌, ◌+◌, ◌<◌, ◌≤◌, [], ◌∷◌, map, length, IfOk, decimal};
ghost use Rattle.text.specs.Fields.{line_of};
ghost use Rattle.text.specs.declared.page.Field.TheVariants.{Figure};
ghost use Rattle.text.specs.Pages.{shortest, field_text, gap, Puts, checked, Checked, fault_fields, no_line, fault_line, end_line, answered, page_with};

use crate::fault::Fault;
use crate::field::TAB;
use crate::frame::FEED;
use itoa::Buffer;
use rules::refusal::Refusal;

/// A page of this many bytes has room for every answer.
pub const SHORTEST: usize = 64;

/// A field to be written: a word as it is, a figure in decimal digits.
#[derive(Clone, Copy)]
pub enum Field<'a> {
    Word(&'a [u8]),
    Figure(u64),
}

/// A figure of 32 bits has at most ten digits.
impl From<u32> for Field<'_> {
    ghost from_gives = { λ n field. (field ≡ Figure n) × (length (field_text field) ≤ 10) };

    fn from(n: u32) -> Self {
        Field::Figure(u64::from(n))
    }
}

/// A page, and the place from which on it is written. What writes a little goes where it is called, so that a line of known fields is
/// written without a loop; digits that need a buffer stay a call.
#[derive(Drop)]
struct Writer<'a> {
    page: &'a mut [u8],
    at: usize,
}

impl Writer<'_> {
    /// Writes the text.
    #[inline(always)]
    fn put(&mut self, text: &[u8])
        requires { self.old.at + length text.now ≤ length self.old.page.now }
        ensures text { Puts self.old.page.now self.old.at text.now self.new.page.now self.new.at }
        ensures same { self.new.page.ghost_name ≡ self.old.page.ghost_name }
        ensures long { length self.new.page.now ≡ length self.old.page.now }
    {
        let end = self.at + text.len();
        self.page[self.at..end].copy_from_slice(text);
        self.at = end;
    }

    /// Writes a byte.
    #[inline(always)]
    fn put_byte(&mut self, byte: u8)
        requires { self.old.at < length self.old.page.now }
        ensures text { Puts self.old.page.now self.old.at (byte ∷ []) self.new.page.now self.new.at }
        ensures same { self.new.page.ghost_name ≡ self.old.page.ghost_name }
        ensures long { length self.new.page.now ≡ length self.old.page.now }
    {
        self.page[self.at] = byte;
        self.at += 1;
    }

    /// Writes the digits of a figure of two or more: two at once.
    #[inline(never)]
    fn put_long(&mut self, n: u64)
        requires room { self.old.at + length (decimal n) ≤ length self.old.page.now }
        requires long { 10 ≤ n }
        ensures text { Puts self.old.page.now self.old.at (decimal n) self.new.page.now self.new.at }
        ensures same { self.new.page.ghost_name ≡ self.old.page.ghost_name }
        ensures long { length self.new.page.now ≡ length self.old.page.now }
    {
        if n < 100 {
            self.put_byte(b'0' + (n / 10) as u8);
            self.put_byte(b'0' + (n % 10) as u8);
            return;
        }
        let mut digits = Buffer::new();
        self.put(digits.format(n).as_bytes());
    }

    /// Writes the digits of a figure: a single one at once.
    #[inline(always)]
    fn put_digits(&mut self, n: u64)
        requires { self.old.at + length (decimal n) ≤ length self.old.page.now }
        ensures text { Puts self.old.page.now self.old.at (decimal n) self.new.page.now self.new.at }
        ensures same { self.new.page.ghost_name ≡ self.old.page.ghost_name }
        ensures long { length self.new.page.now ≡ length self.old.page.now }
    {
        if n < 10 {
            self.put_byte(b'0' + n as u8);
            return;
        }
        self.put_long(n);
    }

    /// Writes what stands before the field at this place of a line.
    #[inline(always)]
    fn put_gap(&mut self, place: usize)
        requires { self.old.at + length (gap place) ≤ length self.old.page.now }
        ensures text { Puts self.old.page.now self.old.at (gap place) self.new.page.now self.new.at }
        ensures same { self.new.page.ghost_name ≡ self.old.page.ghost_name }
        ensures long { length self.new.page.now ≡ length self.old.page.now }
    {
        if place > 0 {
            self.put_byte(TAB);
        }
    }

    /// Writes a field.
    #[inline(always)]
    fn put_field(&mut self, field: Field)
        requires { self.old.at + length (field_text field) ≤ length self.old.page.now }
        ensures text { Puts self.old.page.now self.old.at (field_text field.entry) self.new.page.now self.new.at }
        ensures same { self.new.page.ghost_name ≡ self.old.page.ghost_name }
        ensures long { length self.new.page.now ≡ length self.old.page.now }
    {
        match field {
            Field::Word(text) => self.put(text),
            Field::Figure(n) => self.put_digits(n),
        }
    }
}

/// Writes a line: the fields, with a tab between any two, and the line feed.
#[inline(always)]
pub fn put_line(page: &mut [u8], at: usize, fields: &[Field]) -> usize
    requires { at + length (line_of (map field_text fields.now)) ≤ length page.old }
    ensures { Puts page.old at (line_of (map field_text fields.now)) page.new result }
{
    let mut writer = Writer { page, at };
    for (i, field) in fields.iter().enumerate() {
        writer.put_gap(i);
        writer.put_field(*field);
    }
    writer.put_byte(FEED);
    writer.at
}

/// Whether the page has room for an answer.
pub fn check(page: &[u8]) -> Result<(), Fault>
    ensures answer { result ≡ checked page.now }
    ensures room { Checked page.now result }
{
    if page.len() < SHORTEST {
        return Err(Refusal::Page.into());
    }
    Ok(())
}

/// Writes a line from the start of the page on, if the page has room for an answer.
#[inline(always)]
fn write_line(page: &mut [u8], fields: &[Field]) -> Result<usize, Fault>
    requires { length (line_of (map field_text fields.now)) ≤ shortest }
    ensures value { result ≡ answered (line_of (map field_text fields.now)) page.old }
    ensures after { page.new ≡ page_with (line_of (map field_text fields.now)) page.old }
    ensures fits { IfOk result (λ n. n ≤ shortest) }
{
    check(page)?;
    Ok(put_line(page, 0, fields))
}

/// What tells a fault in a line: its layer, its number and its field.
#[inline(always)]
fn fault_fields(fault: Fault) -> [Field<'static>; 3]
    ensures fields { map field_text result ≡ fault_fields fault }
    ensures short { length (line_of (fault_fields fault)) ≤ 20 }
{
    [
        Field::Word(fault.layer().word().as_bytes()),
        fault.refusal.number().into(),
        fault.field.into(),
    ]
}

/// Writes the answer to a line that was refused: `no` and the fault.
pub fn write_no(page: &mut [u8], fault: Fault) -> Result<usize, Fault>
    ensures value { result ≡ answered (no_line fault) page.old }
    ensures after { page.new ≡ page_with (no_line fault) page.old }
    ensures fits { IfOk result (λ n. n ≤ shortest) }
{
    let [layer, number, field] = fault_fields(fault);
    write_line(page, &[Field::Word(b"no"), layer, number, field])
}

/// Writes the closing line of a fault: `fault`, the number of its line, and the fault.
pub fn write_fault(page: &mut [u8], line: u64, fault: Fault) -> Result<usize, Fault>
    ensures value { result ≡ answered (fault_line line fault) page.old }
    ensures after { page.new ≡ page_with (fault_line line fault) page.old }
    ensures fits { IfOk result (λ n. n ≤ shortest) }
{
    let [layer, number, field] = fault_fields(fault);
    write_line(
        page,
        &[
            Field::Word(b"fault"),
            Field::Figure(line),
            layer,
            number,
            field,
        ],
    )
}

/// Writes the last line: `end`, how many lines were read, and how many of them were refused.
pub fn write_end(page: &mut [u8], lines: u64, refusals: u64) -> Result<usize, Fault>
    ensures value { result ≡ answered (end_line lines refusals) page.old }
    ensures after { page.new ≡ page_with (end_line lines refusals) page.old }
    ensures fits { IfOk result (λ n. n ≤ shortest) }
{
    write_line(
        page,
        &[
            Field::Word(b"end"),
            Field::Figure(lines),
            Field::Figure(refusals),
        ],
    )
}

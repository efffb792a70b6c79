// A row of a sheet, read from what is left of the text: nothing is copied. What is read comes with what is left behind it.
// Definitions: the crate sheet_row, and specs/Scan.antt (what is found, as slices). Laws: proofs/Quotes.antt, by which a quoted field may be cut at
// its next quote: a row with a doubled quote is bad either way.
ghost use Rattle.std.specs.Prelude.{◌≡◌, ◌&&◌, true, eqb, Some, IfSome, length};
ghost use Rattle.std.specs.List.{fold, position, take_while};
ghost use Rattle.std.specs.Char.{is_ascii_hexdigit};
ghost use Rattle.sheet_row.specs.Fields.{quote, is_text, unquoted, row_end};
ghost use Rattle.sheet_row.specs.Lanes.{is_dash, is_key, fits_field, is_lane, first_row};
ghost use Rattle.sheet_read.specs.Scan.{short_quoted, short_field, short_after, split_of, ended_of, row_of, asked_row, Shorter};

use item_check::{has_end, has_start};
use item_name::code_of;

// What a row says: the code of its name, and the contents of its two keys' fields.
#[derive(Clone, Copy)]
pub(crate) struct RowFields<'a> {
    pub(crate) code: u32,
    pub(crate) start: &'a [u8],
    pub(crate) end: &'a [u8],
}

// The first row, where it is good.
pub(crate) fn good_row(rest: &[u8]) -> Option<(RowFields, &[u8])>
    ensures found { row_of result ≡ first_row rest.now }
    ensures shorter { IfSome result (Shorter rest.now) }
{
    row_fields(rest).filter(|(row, _)| row.is_lane())
}

// The same of a row that was read before and is good: whether its fields say a lane is not asked again.
pub(crate) fn row_fields(rest: &[u8]) -> Option<(RowFields, &[u8])>
    ensures found { asked_row result ≡ first_row rest.now }
    ensures shorter { IfSome result (Shorter rest.now) }
{
    let (name, rest) = field(rest)?;
    let (start, rest) = after_comma(rest)?;
    let (end, rest) = after_comma(rest)?;
    let rest = row_end(rest)?;
    let code = code_of(name);
    Some((RowFields { code, start, end }, rest))
}

// ---- fields

// The content of the first field: a quoted one, where a quote comes first. Tried: a look at the first byte before the run; reading took up to a third
// longer.
fn field(rest: &[u8]) -> Option<(&[u8], &[u8])>
    ensures { split_of result ≡ short_field rest.now }
{
    match unquoted(rest) {
        ([], [b'"', rest @ ..]) => quoted(rest),
        field => Some(field),
    }
}

fn unquoted(rest: &[u8]) -> (&[u8], &[u8])
    ensures { split_of (Some result) ≡ unquoted rest.now }
{
    rest.split_at(text_run(rest))
}

// That of a quoted field, from behind its opening quote.
fn quoted(rest: &[u8]) -> Option<(&[u8], &[u8])>
    ensures { split_of result ≡ short_quoted rest.now }
{
    let n = next_quote(rest)?;
    Some((&rest[..n], &rest[n + 1..]))
}

// That of the field behind a comma.
#[tactic(auto, unfolding(crate::specs::Scan::short_after))]
fn after_comma(rest: &[u8]) -> Option<(&[u8], &[u8])>
    ensures { split_of result ≡ short_after rest.now }
{
    match rest {
        [b',', rest @ ..] => field(rest),
        _ => None,
    }
}

// What is left behind the end of a row: the end of the text, or CR LF.
#[tactic(auto, unfolding(sheet_row::specs::Fields::row_end))]
fn row_end(rest: &[u8]) -> Option<&[u8]>
    ensures { ended_of result ≡ row_end rest.now }
{
    match rest {
        [] => Some(rest),
        [b'\r', b'\n', rest @ ..] => Some(rest),
        _ => None,
    }
}

// How many bytes at the front a field without quotes has.
fn text_run(s: &[u8]) -> usize
    ensures { result ≡ length (take_while is_text s.now) }
{
    s.iter().take_while(|b| is_text(**b)).count()
}

// The index of the first quote.
fn next_quote(s: &[u8]) -> Option<usize>
    ensures { result ≡ position (λ b. eqb b quote) s.now }
{
    s.iter().position(|b| *b == b'"')
}

fn is_text(b: u8) -> bool
    ensures { result ≡ is_text b }
{
    !((b == b'"') | (b == b',') | (b == b'\r') | (b == b'\n'))
}

// ---- what a row says

impl RowFields<'_> {
    fn is_lane(&self) -> bool
        ensures { result ≡ is_lane self.now.code self.now.start.now self.now.end.now }
    {
        (self.code < 10)
            & fits_field(has_start(self.code), self.start)
            & fits_field(has_end(self.code), self.end)
    }
}

fn fits_field(present: bool, s: &[u8]) -> bool
    ensures { result ≡ fits_field present s.now }
{
    (present & is_key(s)) | (!present & s.is_empty())
}

fn is_key(s: &[u8]) -> bool
    ensures { result ≡ is_key s.now }
{
    is_dash(s) | (!s.is_empty() & (s.len() % 2 == 0) & all_hex(s))
}

// Every byte is asked, also behind one that is no digit: without a way out of the loop, the compiler asks many at a time.
fn all_hex(s: &[u8]) -> bool
    ensures { result ≡ fold (λ all c. all && is_ascii_hexdigit c) true s.now }
{
    s.iter().fold(true, |all, c| all & c.is_ascii_hexdigit())
}

fn is_dash(s: &[u8]) -> bool
    ensures { result ≡ is_dash s.now }
{
    s == b"-".as_slice()
}

// Module 6 of document 01: a report of positions as the original's text, written into lent bytes.
// Definitions: specs/Text.antt. Laws: proofs/Laws.antt; among them that the text is never longer than MAX_TEXT, and that so much room is
// never refused.
//
// The text is put twice, first into no bytes, so that it is counted, and then, where there is room, into those that are lent.
#![tactic(auto)]

ghost use Rattle.std.specs.Prelude.{◌≡◌, ◌∷◌, ◌≤◌, length};
ghost use Rattle.position_describe.specs.Text.{first_part, numbers_of, text_of, most_text, describe_answer, described_in};
ghost use Rattle.position_report.specs.Reports.{most_reported};
ghost use Rattle.lent_text.specs.Text.{decimal, stored};

use item_check::{Reason, Refusal, refuse};
use lent_text::{put_number, put_text};
use position_report::PositionMismatch;

// The longest text of a report: so many lent bytes are always room enough.
pub const MAX_TEXT: usize = 394;

// inner: so many bytes, all alike.
pub fn text_room(byte: u8) -> [u8; MAX_TEXT]
    ensures { most_text ≡ length result }
{
    [byte; MAX_TEXT]
}

// Writes a report's text. Lent bytes past it stay (01 m6.13).
pub fn describe(report: PositionMismatch, out: &mut [u8]) -> Result<usize, Refusal>
    ensures result_value { result ≡ describe_answer report (length out.old) }
    ensures out_after { out.new ≡ described_in (describe_answer report (length out.old)) report out.old }
{
    if PositionMismatch::MAX_REPORTED_POSITIONS < report.count {
        return refuse(Reason::Malformed, 0, 0);
    }
    let n = put_report(&mut [], report);
    if out.len() < n {
        return refuse(Reason::NoRoom, 0, 0);
    }
    Ok(put_report(out, report))
}

// The whole text of a report with at most 16 examples.
fn put_report(out: &mut [u8], report: PositionMismatch) -> usize
    requires { report.count ≤ most_reported }
    ensures { (result ≡ length (text_of report)) × (out.new ≡ stored out.old 0 (text_of report)) }
{
    let a = put_number(out, 0, report.total.0);
    let b = a + put_text(out, a, b" positions");
    let c = b + put_first(out, b, report.total.0, report.count);
    let d = c + put_text(out, c, b": [");
    let e = d + put_numbers(out, d, report);
    e + put_text(out, e, b"]")
}

// How many examples there are, where that is not the total.
fn put_first(out: &mut [u8], at: usize, total: u64, count: usize) -> usize
    requires { at ≤ 100 }
    ensures { (result ≡ length (first_part total count)) × (out.new ≡ stored out.old at (first_part total count)) × (result ≤ 28) }
{
    if (count as u64) < total {
        let a = put_text(out, at, b", first ");
        return a + put_number(out, at + a, count as u64);
    }
    0
}

// The examples, with a comma and a space between.
fn put_numbers(out: &mut [u8], at: usize, report: PositionMismatch) -> usize
    requires { (at ≤ 200) × (report.count ≤ most_reported) }
    ensures { (result ≡ length (numbers_of report)) × (out.new ≡ stored out.old at (numbers_of report)) × (result ≤ 352) }
{
    if report.count == 0 {
        return 0;
    }
    let mut n = put_number(out, at, report.examples[0]);
    for i in 1..report.count {
        n += put_later(out, at + n, report.examples[i]);
    }
    n
}

fn put_later(out: &mut [u8], at: usize, p: u64) -> usize
    requires { at ≤ 1000 }
    ensures { (result ≡ length (44 ∷ 32 ∷ decimal p)) × (out.new ≡ stored out.old at (44 ∷ 32 ∷ decimal p)) × (result ≤ 22) }
{
    let a = put_text(out, at, b", ");
    a + put_number(out, at + a, p)
}

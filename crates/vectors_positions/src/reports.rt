// Reports, and their text. Inputs of a report: the intervals, and the proved positions or the spans, each as numbers after their number
// (2 bytes). Its answer is the total, how many examples there are (2 bytes), and the sixteen places.
use crate::words::{holds_all, room};
use position_describe::text_room;
use position_given::RowCount;
use position_mismatch::Compared;
use position_report::PositionMismatch;
use vectors::lent::front;
use vectors::{Reader, Recorded};

// A call on intervals and on a second list of numbers.
pub(crate) fn compared<F: Fn(&[u64], &[u64]) -> Compared>(
    compare: F,
    mut x: Reader<'_>,
    recorded: Recorded<'_>,
) -> bool
    requires { F.IsAlwaysCallable compare }
{
    let mut intervals = room();
    let mut second = room();
    let pairs = x.numbers(&mut intervals);
    let count = x.numbers(&mut second);
    let Compared { checked, report } = compare(front(&intervals, pairs), front(&second, count));
    match checked {
        Ok(()) => recorded.answers(|held| {
            let counted = held.long(report.total.0).short(report.count as u64);
            holds_all(counted, &report.examples)
        }),
        Err(refusal) => recorded.refuses(refusal),
    }
}

// Inputs: the total, how many examples there are (2 bytes), the sixteen places, and the bytes lent (2 bytes). The answer is the text. Bytes
// past it are kept.
pub(crate) fn describe(mut x: Reader<'_>, recorded: Recorded<'_>) -> bool {
    let mut out = text_room(BYTE_MARK);
    let total = RowCount(x.long());
    let count = x.short() as usize;
    let mut examples = [0u64; PositionMismatch::MAX_REPORTED_POSITIONS];
    for example in examples.iter_mut() {
        *example = x.long();
    }
    let report = PositionMismatch {
        total,
        count,
        examples,
    };
    let lent = out.len().min(x.short() as usize);
    match position_describe::describe(report, &mut out[..lent]) {
        Ok(n) => recorded.answers(|held| held.bytes(front(&out, n))) & is_kept(&out, n),
        Err(refusal) => recorded.refuses(refusal) & is_kept(&out, 0),
    }
}

const BYTE_MARK: u8 = 254;

fn is_kept(out: &[u8], from: usize) -> bool {
    out.iter().skip(from).all(|byte| *byte == BYTE_MARK)
}

// Questions of intervals. Inputs: the intervals, numbers after their number (2 bytes), and for `contains` a position.
use crate::words::room;
use item_check::Refusal;
use position_given::LogPosition;
use position_intervals::ask;
use vectors::lent::front;
use vectors::{Reader, Recorded};

pub(crate) fn contains(mut x: Reader<'_>, recorded: Recorded<'_>) -> bool {
    let mut words = room();
    let count = x.numbers(&mut words);
    is_yes(
        recorded,
        ask::contains(front(&words, count), LogPosition(x.long())),
    )
}

pub(crate) fn is_empty(mut x: Reader<'_>, recorded: Recorded<'_>) -> bool {
    let mut words = room();
    let count = x.numbers(&mut words);
    is_yes(recorded, ask::is_empty(front(&words, count)))
}

fn is_yes(recorded: Recorded<'_>, answer: Result<bool, Refusal>) -> bool {
    match answer {
        Ok(yes) => recorded.number(u64::from(yes)),
        Err(refusal) => recorded.refuses(refusal),
    }
}

pub(crate) fn len(mut x: Reader<'_>, recorded: Recorded<'_>) -> bool {
    let mut words = room();
    let count = x.numbers(&mut words);
    match ask::len(front(&words, count)) {
        Ok(rows) => recorded.answers(|held| held.long(rows.0)),
        Err(refusal) => recorded.refuses(refusal),
    }
}

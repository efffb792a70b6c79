// Position keys and queries.
use crate::words::{holds_all, is_left, room};
use item_words::ITEM_SIZE;
use position_given::RowCount;
use vectors::lent::front;
use vectors::{Reader, Recorded, lent};

// Inputs: a key. The answer is its position.
pub(crate) fn be_u64(mut x: Reader<'_>, recorded: Recorded<'_>) -> bool {
    let answer = position_key::be_u64(x.key());
    let Ok(position) = answer else {
        return answer.is_err_and(|refusal| recorded.refuses(refusal));
    };
    recorded.answers(|held| held.long(position.0))
}

// Inputs: a pool, the count of rows, the numbers lent (2 bytes), how many items have positions (2 bytes), and the items, after their number
// (2 bytes). The answer is the pairs, after their number. Numbers of pairs merged away are 0, and later ones are kept.
pub(crate) fn from_query_items(mut x: Reader<'_>, recorded: Recorded<'_>) -> bool {
    let mut out = room();
    let mut items = lent::room();
    let pool = x.block();
    let count = RowCount(x.long());
    let lent = out.len().min(x.short() as usize);
    let given = 2 * x.short() as usize;
    let words = x.items(&mut items) * ITEM_SIZE;
    let answer = position_query::query::from_query_items(
        pool,
        front(&items, words),
        count,
        &mut out[..lent],
    );
    match answer {
        Ok(stored) => {
            let n = stored.pairs.min(out.len() / 2);
            recorded.answers(|held| {
                holds_all(held.short(stored.pairs as u64), front(&out, 2 * n))
            }) & is_left(&out, 2 * n, given)
        }
        Err(refusal) => recorded.refuses(refusal) & is_left(&out, 0, 0),
    }
}

// The checks of a stored list, and its total.
ghost use Rattle.std.specs.Prelude.{◌≡◌};
ghost use Rattle.position_given.specs.Answers.{length_of};
ghost use Rattle.position_stored.specs.Stored.{stored_verdict, total_answer};

use item_check::{Reason, Refusal, refuse};
use position_given::{RowCount, count_rows};

// The stored total, which is what counting afresh gives; 9 where it is not (02 §4.6, §4.10).
pub fn stored_total(words: &[u64], count: usize, total: RowCount) -> Result<RowCount, Refusal>
    ensures { length_of result ≡ total_answer words.now count total.0 }
{
    check_stored(words, count, total)?;
    Ok(total)
}

// The count, the pairs, then the total, counted afresh.
pub(crate) fn check_stored(words: &[u64], count: usize, total: RowCount) -> Result<(), Refusal>
    ensures { result ≡ stored_verdict words.now count total.0 }
{
    if words.len() / 2 < count {
        return refuse(Reason::Malformed, 0, 0);
    }
    let rows = count_rows(&words[..2 * count])?;
    if rows.0 != total.0 {
        return refuse(Reason::NotCanonical, 0, count);
    }
    Ok(())
}

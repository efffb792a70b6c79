// Module 2 of document 01: the calls on a single item, each of which checks its input: both conversions, whether an item holds a key, and
// whether keys that it holds may stand in a direction; the last two are asked of the item's borrowed range. Items need not be upright.
// Definitions: specs/Asked.antt, specs/Calls.antt. Laws: proofs/Laws.antt.
#![tactic(auto)]

ghost use Rattle.std.specs.Prelude.{◌≡◌};
ghost use Rattle.item_ask.specs.Calls.{to_range_set_answer, to_query_item_answer, containment_answer, direction_answer};

use item_check::{Refusal, check_item, check_set};
use item_words::query_item;
use query_item::{ItemWords, QueryItem, RangeSet};
use range_borrowed::{Direction, KeyContainmentResult, item_contains, item_may_stand};

// The two boundaries of an item (01 m2.1, m2.6).
pub fn to_range_set(pool: &[u8], item: ItemWords) -> Result<RangeSet, Refusal>
    ensures { result ≡ to_range_set_answer pool.now item }
{
    check_item(pool, item).map(|()| query_item(item).to_range_set())
}

// The item of two boundaries, or that there is none (01 m2.1, keys.12).
pub fn to_query_item(pool: &[u8], set: RangeSet) -> Result<Option<QueryItem>, Refusal>
    ensures { result ≡ to_query_item_answer pool.now set }
{
    check_set(pool, set).map(|()| set.to_query_item(pool))
}

// Whether an item holds a key, and whether the key sits on an exclusive bound (01 m2.3, m2.6).
pub fn could_contain_key<'a>(
    pool: &'a [u8],
    item: ItemWords,
    key: &'a [u8],
) -> Result<KeyContainmentResult, Refusal>
    ensures { result ≡ containment_answer pool.now item key.now }
{
    check_item(pool, item)?;
    Ok(item_contains(pool, item, key))
}

// Whether keys that an item holds may stand in a direction of a key. No means that none does (01 m2.4, m2.5).
pub fn could_have_items_in_direction<'a>(
    pool: &'a [u8],
    item: ItemWords,
    key: &'a [u8],
    direction: Direction,
) -> Result<bool, Refusal>
    ensures { result ≡ direction_answer pool.now item key.now direction }
{
    check_item(pool, item)?;
    Ok(item_may_stand(pool, item, key, direction))
}

// Section 8 of document 02. An amount is a signed number of ten-thousandths; the keys of an invoice are pairs of words, offset and length.
ghost use Rattle.std.specs.Prelude.{◌≡◌};
ghost use Rattle.cents.specs.Cents.{cents};
ghost use Rattle.item_find.specs.Found.{found_answer};
ghost use Rattle.rate_card.specs.Card.{rate_answer};
ghost use Rattle.rate_card.specs.Invoice.{amount_of, invoice_answer};
ghost use Rattle.fernsponge.specs.Answers.{returned, left};
ghost use Rattle.fernsponge.specs.Cards.{found_numbers, has_rate, sum_in, without_in, cents_in};

use crate::numbers::refusal_number;
use item_find::find_item;
use rate_card::{invoice, rate};

// Which item of a list holds a key: 1 and its index, or twice 0 (02 §8.3).
#[unsafe(no_mangle)]
pub extern "C" fn fernsponge_find_item(
    pool: &[u8],
    words: &[u32],
    key: &[u8],
    found: &mut [u64; 2],
) -> u64
    ensures value { result ≡ returned (found_answer pool.now words.now key.now) }
    ensures found_after { found.new ≡ left found_numbers (found_answer pool.now words.now key.now) found.old }
{
    match find_item(pool, words, key) {
        Ok(Some(i)) => {
            *found = [1, i as u64];
            0
        }
        Ok(None) => {
            *found = [0, 0];
            0
        }
        Err(refusal) => refusal_number(refusal),
    }
}

// An amount in cents: the nearest, of two the even one. It refuses nothing (02 §8.6).
#[unsafe(no_mangle)]
pub extern "C" fn fernsponge_to_cents(amount: i64) -> i64
    ensures { result ≡ cents amount }
{
    cents::to_cents(amount)
}

// The rate of a key on a card: 1 and the amount of the item that holds it, or twice 0 (02 §8.3).
#[unsafe(no_mangle)]
pub extern "C" fn fernsponge_rate(
    pool: &[u8],
    words: &[u32],
    amounts: &[i64],
    key: &[u8],
    has: &mut u32,
    amount: &mut i64,
) -> u64
    ensures value { result ≡ returned (rate_answer pool.now words.now amounts.now key.now) }
    ensures has_after { has.new ≡ left has_rate (rate_answer pool.now words.now amounts.now key.now) has.old }
    ensures amount_after { amount.new ≡ left amount_of (rate_answer pool.now words.now amounts.now key.now) amount.old }
{
    match rate(pool, words, amounts, key) {
        Ok(Some(a)) => {
            *has = 1;
            *amount = a;
            0
        }
        Ok(None) => {
            *has = 0;
            *amount = 0;
            0
        }
        Err(refusal) => refusal_number(refusal),
    }
}

// The totals of an invoice on a card: the exact sum, how many keys have no rate, and the sum in cents (02 §8.4, §8.5, §8.6).
#[unsafe(no_mangle)]
pub extern "C" fn fernsponge_invoice(
    pool: &[u8],
    words: &[u32],
    amounts: &[i64],
    keys: &[u32],
    sum: &mut i64,
    without: &mut u64,
    cents: &mut i64,
) -> u64
    ensures value { result ≡ returned (invoice_answer pool.now words.now amounts.now keys.now) }
    ensures sum_after { sum.new ≡ left sum_in (invoice_answer pool.now words.now amounts.now keys.now) sum.old }
    ensures without_after { without.new ≡ left without_in (invoice_answer pool.now words.now amounts.now keys.now) without.old }
    ensures cents_after { cents.new ≡ left cents_in (invoice_answer pool.now words.now amounts.now keys.now) cents.old }
{
    match invoice(pool, words, amounts, keys) {
        Ok(totals) => {
            *sum = totals.sum;
            *without = totals.without as u64;
            *cents = totals.cents;
            0
        }
        Err(refusal) => refusal_number(refusal),
    }
}

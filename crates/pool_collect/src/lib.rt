// Section 6 of document 02: the keys that two lists name, each once, packed into a fresh pool, and the lists over it.
// Definitions: specs/Collected.antt; specs/Table.antt has what the passes go by. Laws: proofs/Laws.antt.
//
// A first pass finds the distinct keys, notes where each key goes, and writes nothing lent. If they fit, a second one writes the fresh pool and
// the noted offsets.
#![tactic(auto)]

ghost use Rattle.std.specs.Prelude.{◌≡◌};
ghost use Rattle.item_check.specs.Checks.{accepted};
ghost use Rattle.pool_collect.specs.Collected.{collect_verdict, Collects, keys_kept, together};
ghost use Rattle.pool_collect.specs.Table.{Complete, Start, Writable, Writes};

use crate::check::check_collect;
use crate::gather::gather_list;
use crate::pack::pack;
use crate::rewrite::rewrite_list;
use crate::table::Keys;
use item_check::{Reason, Refusal, refuse};
use item_words::ITEM_SIZE;

mod check;
mod gather;
mod pack;
mod rewrite;
mod table;

// Packs the keys that two lists name into a fresh pool, rewrites the lists' offsets, and answers how many bytes are used (02 §6.1, §6.5, §6.8).
pub fn collect(
    pool: &[u8],
    fresh: &mut [u8],
    ours: &mut [u32],
    theirs: &mut [u32],
) -> Result<usize, Refusal>
    ensures { Collects pool.now fresh.old ours.old theirs.old
        result fresh.new ours.new theirs.new }
{
    check_collect(pool, fresh, ours, theirs)?;
    collect_checked(pool, fresh, ours, theirs)
}

// The same of lists that are checked already: what is left to refuse is want of room.
fn collect_checked(
    pool: &[u8],
    fresh: &mut [u8],
    ours: &mut [u32],
    theirs: &mut [u32],
) -> Result<usize, Refusal>
    requires { collect_verdict pool.now fresh.old ours.old theirs.old ≡ accepted }
    ensures { Collects pool.now fresh.old ours.old theirs.old
        result fresh.new ours.new theirs.new }
{
    let mut order = [0u64; 8192];
    let mut table = [0u16; 8192];
    let mut places = [0u32; 8192];
    collect_with(
        pool,
        fresh,
        ours,
        theirs,
        &mut order,
        &mut table,
        &mut places,
    )
}

// The same, with arrays for all keys that two lists can name.
fn collect_with(
    pool: &[u8],
    fresh: &mut [u8],
    ours: &mut [u32],
    theirs: &mut [u32],
    order: &mut [u64; 8192],
    table: &mut [u16; 8192],
    places: &mut [u32; 8192],
) -> Result<usize, Refusal>
    requires { collect_verdict pool.now fresh.old ours.old theirs.old ≡ accepted }
    ensures { Collects pool.now fresh.old ours.old theirs.old
        result fresh.new ours.new theirs.new }
{
    let mut keys = Keys {
        order,
        table,
        known: 0,
        used: 0,
    };
    gather_both(pool, ours, theirs, &mut keys, places);
    let Keys {
        order,
        known,
        used,
        ..
    } = keys;
    if fresh.len() < used {
        return refuse(Reason::NoRoom, 0, 0);
    }
    write_all(pool, fresh, ours, theirs, order, places, known);
    Ok(used)
}

// The first pass: ours before theirs.
fn gather_both(pool: &[u8], ours: &[u32], theirs: &[u32], keys: &mut Keys, places: &mut [u32])
    requires { Start pool.now ours.now theirs.now keys.old.order.now keys.old.table.now places.old × (keys.old.known ≡ 0) × (keys.old.used ≡ 0) }
    ensures { Complete pool.now ours.now theirs.now keys.new.order.now places.new keys.new.known
        × (keys.new.used ≡ together (keys_kept pool.now ours.now theirs.now)) }
{
    gather_list(pool, ours, keys, places, 0);
    gather_list(pool, theirs, keys, places, 2 * (ours.len() / ITEM_SIZE));
}

// The second pass: the fresh pool, then the offsets.
fn write_all(
    pool: &[u8],
    fresh: &mut [u8],
    ours: &mut [u32],
    theirs: &mut [u32],
    order: &[u64],
    places: &[u32],
    known: usize,
)
    requires { Writable pool.now fresh.old ours.old theirs.old order.now places.now known }
    ensures { Writes pool.now fresh.old ours.old theirs.old fresh.new ours.new theirs.new }
{
    pack(pool, &order[..known], fresh);
    let theirs_at = 2 * (ours.len() / ITEM_SIZE);
    rewrite_list(places, 0, ours);
    rewrite_list(places, theirs_at, theirs);
}

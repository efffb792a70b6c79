// The distinct keys found so far: `order` has them in order of first use, `table` their indices in it in order of bytes. A key is found by halving;
// a new one moves the indices above it on by one. The keys of a strict list ascend, and then none moves but for those of the other list that lie
// above; at worst, where keys descend, 33 million move.
ghost use Rattle.std.specs.Prelude.{◌≡◌, ◌%◌, ◌≤◌, ◌<◌, length, get_or};
ghost use Rattle.key_order.specs.Order.{compare_keys};
ghost use Rattle.query_item.specs.Items.{bytes_of};
ghost use Rattle.item_check.specs.Checks.{most_pool, most_key};
ghost use Rattle.pool_collect.specs.Table.{most_bytes, entry_of, new_offset, old_key, entry_key, entry_at, Searchable, Spot, is_below, Inserted, is_there, Ready, Gathers};

use query_item::KeyAt;
use query_item::pooled::compare_keys;
use std::cmp::Ordering;

// The distinct keys found so far: the entries in order of first use, their indices in order of bytes, how many there are, and how many bytes they
// have together.
#[derive(Drop)]
pub(crate) struct Keys<'a> {
    pub(crate) order: &'a mut [u64],
    pub(crate) table: &'a mut [u16],
    pub(crate) known: usize,
    pub(crate) used: usize,
}

// Where a key goes in the fresh pool, its offset in the old one and its length, as one number.
fn entry_of(to: usize, key: KeyAt) -> u64
    requires { (to ≤ most_bytes) × (key.offset ≤ most_pool) × (key.length ≤ most_key) }
    ensures { result ≡ entry_of to key }
{
    to as u64 * 16777216 + u64::from(key.offset) * 256 + u64::from(key.length)
}

// Where the key of an entry goes.
fn new_offset(entry: u64) -> u32
    ensures { result ≡ new_offset entry % 4294967296 }
{
    (entry / 16777216 % 4294967296) as u32
}

// The key of an entry, in the old pool.
pub(crate) fn old_key(entry: u64) -> KeyAt
    ensures { result ≡ old_key entry }
{
    KeyAt {
        offset: (entry / 256 % 65536) as u32,
        length: (entry % 256) as u32,
    }
}

// Whether the key of the entry at an index is below a key. An index past the entries has none.
#[tactic(auto, unfolding(crate::specs::Table::entry_key))]
fn is_below(pool: &[u8], order: &[u64], index: u16, key: KeyAt) -> bool
    ensures { result ≡ is_below pool.now order.now (bytes_of pool.now key) index }
{
    match order.get(usize::from(index)) {
        Some(entry) => compare_keys(pool, old_key(*entry), key).is_lt(),
        None => false,
    }
}

// `Searchable` stands in three contracts: it speaks of the pool too, and does not hold between two writes of `gather_key`, so that no ghost field has it.
impl Keys<'_> {
    // The entry whose key is the i-th in order of bytes.
    fn entry_at(&self, i: usize) -> u64
        requires { (i < length self.now.table.now) × (get_or self.now.table.now i 0 < length self.now.order.now) }
        ensures { result ≡ entry_at self.now.order.now self.now.table.now i }
    {
        let j = self.table[i] as usize;
        self.order[j]
    }

    // How its key stands to a key.
    fn compare_entry(&self, pool: &[u8], i: usize, key: KeyAt) -> Ordering
        requires { (i < length self.now.table.now) × (get_or self.now.table.now i 0 < length self.now.order.now) }
        ensures { result ≡ compare_keys (entry_key pool.now (entry_at self.now.order.now self.now.table.now i)) (bytes_of pool.now key) }
    {
        compare_keys(pool, old_key(self.entry_at(i)), key)
    }

    // Where a key stands among the entries, or would stand.
    fn find_spot(&self, pool: &[u8], key: KeyAt) -> usize
        requires { Searchable pool.now self.now.order.now self.now.table.now self.now.known }
        ensures { Spot pool.now (entry_at self.now.order.now self.now.table.now) self.now.known (bytes_of pool.now key) result }
    {
        let order = &*self.order;
        self.table[..self.known].partition_point(|i| is_below(pool, order, *i, key))
    }

    // The same: past all of them where the last is below the key, as it is where keys come ascending.
    fn spot_of(&self, pool: &[u8], key: KeyAt) -> usize
        requires { Searchable pool.now self.now.order.now self.now.table.now self.now.known }
        ensures { Spot pool.now (entry_at self.now.order.now self.now.table.now) self.now.known (bytes_of pool.now key) result }
    {
        if 0 < self.known {
            if self.compare_entry(pool, self.known - 1, key).is_lt() {
                return self.known;
            }
        }
        self.find_spot(pool, key)
    }

    // Whether the key at a spot is a key.
    fn is_there(&self, pool: &[u8], spot: usize, key: KeyAt) -> bool
        requires { Searchable pool.now self.now.order.now self.now.table.now self.now.known }
        ensures { result ≡ is_there pool.now (entry_at self.now.order.now self.now.table.now) self.now.known spot (bytes_of pool.now key) }
    {
        if spot < self.known {
            return self.compare_entry(pool, spot, key).is_eq();
        }
        false
    }

    // One key more, and where it goes in the fresh pool; the empty key goes to 0.
    pub(crate) fn gather_key(&mut self, pool: &[u8], key: KeyAt) -> u32
        requires { Ready pool.now self.old.order.now self.old.table.now self.old.known self.old.used key }
        ensures { Gathers pool.now self.old.order.now self.old.known self.old.used (bytes_of pool.now key)
            self.new.order.now self.new.table.now self.new.known self.new.used result }
    {
        let long = key.length as usize;
        if long == 0 {
            return 0;
        }
        let known = self.known;
        let spot = self.spot_of(pool, key);
        if self.is_there(pool, spot, key) {
            return new_offset(self.entry_at(spot));
        }
        let used = self.used;
        self.order[known] = entry_of(used, key);
        insert_index(self.table, spot, known, known as u16);
        self.known = known + 1;
        self.used = used + long;
        used as u32
    }
}

// Puts an index at a spot; those from there on move on by one.
fn insert_index(table: &mut [u16], spot: usize, known: usize, index: u16)
    requires { (spot ≤ known) × (known < length table.old) }
    ensures { Inserted table.old spot known index table.new }
{
    table.copy_within(spot..known, spot + 1);
    table[spot] = index;
}

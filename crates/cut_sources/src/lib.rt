// Rows of counted sources: how often each sender was cut, for each cause.
#![tactic(auto)]

ghost use Rattle.std.specs.Prelude.{◌≡◌, ◌+◌, ◌<◌, ◌≤◌, length};
ghost use Rattle.store.specs.Causes.{index_of};
ghost use Rattle.sender.specs.Sender as sender;
ghost use Rattle.store.specs.Store as store;
ghost use Rattle.cut_sources.specs.Counted as counts;

mod totals;

use sender::{Name, Named, Unit, Words};
use std::mem;
use store::{CAUSES, Cause, SourceRow};
pub use totals::total_at;
use totals::{keep_from, total};

// ---- a counted source: a tag, and a row of kind, four words, three counts

// A source's words.
pub fn counted_words(counted: &[SourceRow], i: usize) -> Words
    requires { i < length counted.now }
    ensures { result ≡ store.words_at counted.now i }
{
    store::words_at(counted, i)
}

// A source's counts of receiver-ceiling, over-share and relay-rate.
#[tactic(auto, unfolding(crate::specs::Counted::counts_at))]
pub fn counts_at(counted: &[SourceRow], i: usize) -> [u64; CAUSES]
    requires { i < length counted.now }
    ensures { result ≡ counts.counts_at counted.now i }
{
    let row = &counted[i];
    [row[5], row[6], row[7]]
}

// Whether the row's words are these: raw words are compared.
#[tactic(auto, unfolding(store::specs::Store::same))]
fn has_words(counted: &[SourceRow], i: usize, words: Words) -> bool
    requires { i < length counted.now }
    ensures { result ≡ store.same (store.words_at counted.now i) words }
{
    counted_words(counted, i) == words
}

// One more for a cause.
#[tactic(auto, unfolding(crate::specs::Counted::counted_up))]
fn counted_up(counted: &mut [SourceRow], i: usize, cause: Cause)
    requires { i < length counted.old }
    ensures { counted.new ≡ counts.counted_up counted.old i (index_of cause) }
{
    let cuts = &mut counted[i][5 + usize::from(cause)];
    *cuts = cuts.wrapping_add(1);
}

#[tactic(auto, unfolding(crate::specs::Counted::counted_add))]
fn counted_add(counted: &mut [SourceRow], i: usize, w: Words)
    requires { i < length counted.old }
    ensures { counted.new ≡ counts.counted_add counted.old i w }
{
    let Words { kind, a, b, c, d } = w;
    counted[i] = [kind, a, b, c, d, 0, 0, 0];
}

// The counted sources in lent memory: of each a tag and a row. No fact on their lengths stands here, since a caller may lend fewer
// tags than rows: each call asks for both.
#[derive(Drop)]
pub struct Sources<'a> {
    pub tags: &'a mut [u16],
    pub counted: &'a mut [SourceRow],
}

// The same lent to a call that only reads them.
#[derive(Clone, Copy)]
pub struct SourcesRead<'a> {
    pub tags: &'a [u16],
    pub counted: &'a [SourceRow],
}

impl SourcesRead<'_> {
    // The unit that the source at i reads as.
    pub fn unit_at(&self, i: usize) -> Unit
        requires tag_in_bounds { i < length self.now.tags.now }
        requires row_in_bounds { i < length self.now.counted.now }
        ensures { result ≡ store.unit_at self.now.tags.now self.now.counted.now i }
    {
        store::unit_at::<8>(self.tags, self.counted, i)
    }
}

impl Sources<'_> {
    ghost use Rattle.std.specs.Option.{IfSome};
    ghost use Rattle.cut_sources.specs.Held.{SameSources};
    ghost use Rattle.store.specs.Found.{found};

    // The first of n sources that reads as overflow. Its tag may be any: each is read.
    #[tactic(auto, using(crate::proofs::Reading::shared_here, crate::proofs::Reading::shared_none))]
    fn find_shared(&self, n: usize) -> Option<usize>
        requires n_in_bounds { n ≤ length self.now.tags.now }
        requires n_in_bounds_2 { n ≤ length self.now.counted.now }
        ensures value { result ≡ found n (counts.counted_find self.now.tags.now self.now.counted.now (sender.name_of Unit.Overflow) n) }
        ensures upper_bound { IfSome result (λ i. i < n) }
    {
        for i in 0..n {
            if sender::is_overflow(store::unit_at::<8>(self.tags, self.counted, i)) {
                return Some(i);
            }
        }
        None
    }

    // The first of n sources that reads as the unit.
    fn counted_find(&self, n: usize, named: Named) -> Option<usize>
        requires n_in_bounds { n ≤ length self.now.tags.now }
        requires n_in_bounds_2 { n ≤ length self.now.counted.now }
        ensures value { result ≡ found n (counts.counted_find self.now.tags.now self.now.counted.now named.name n) }
        ensures upper_bound { IfSome result (λ i. i < n) }
    {
        if sender::is_overflow(named.unit) {
            return self.find_shared(n);
        }
        let Name { tag, words } = named.name;
        let counted = &*self.counted;
        store_search::find_tagged(self.tags, n, tag, |i| has_words(counted, i, words))
    }

    // Of n sources, the unit's count for a cause is one more; how many sources there are then.
    #[tactic(auto, using(crate::proofs::Tagged::counted_there, crate::proofs::Tagged::tagged_there, crate::proofs::Tagged::counted_behind, crate::proofs::Tagged::tagged_behind))]
    pub fn count(&mut self, n: usize, named: Named, cause: Cause) -> usize
        requires n_in_bounds { n < length self.old.tags.now }
        requires n_in_bounds_2 { n < length self.old.counted.now }
        ensures counted_after { counts.sources result self.new.counted.now
            ≡ counts.count self.old.tags.now self.old.counted.now n named.name (index_of cause) }
        ensures tags_after { self.new.tags.now ≡ counts.count_tags self.old.tags.now self.old.counted.now n named.name }
        ensures upper_bound { result ≤ n + 1 }
        ensures slices { SameSources self.old self.new }
    {
        let Name { tag, words } = named.name;
        if let Some(i) = self.counted_find(n, named) {
            counted_up(self.counted, i, cause);
            return n;
        }
        self.tags[n] = tag;
        counted_add(self.counted, n, words);
        counted_up(self.counted, n, cause);
        n + 1
    }

    // ---- leaving out the least counted

    // The source at i: moved to j, the end of those kept, where its total is above k, else freed.
    #[tactic(auto, unfolding(crate::specs::Counted::prune_one, crate::specs::Counted::tag_moved, crate::specs::Counted::total_at))]
    fn prune_one(&mut self, i: usize, j: usize, k: u64) -> usize
        requires i_in_bounds { i < length self.old.tags.now }
        requires i_in_bounds_2 { i < length self.old.counted.now }
        requires j_le_i { j ≤ i }
        ensures counted_after { counts.sources result self.new.counted.now
            ≡ counts.prune_one (counts.sources j self.old.counted.now) k i }
        ensures tags_after { self.new.tags.now
            ≡ counts.tag_moved self.old.tags.now (counts.total_at self.old.counted.now i) k i j }
        ensures upper_bound { result ≤ i + 1 }
        ensures slices { SameSources self.old self.new }
    {
        let tag = mem::replace(&mut self.tags[i], 0);
        let row = mem::replace(&mut self.counted[i], [0; 8]);
        if total(&row) <= k {
            return j;
        }
        self.tags[j] = tag;
        self.counted[j] = row;
        j + 1
    }

    // Of n sources those above k stay, in their order; freed places become 0.
    fn prune(&mut self, n: usize, k: u64) -> usize
        requires n_in_bounds { n ≤ length self.old.tags.now }
        requires n_in_bounds_2 { n ≤ length self.old.counted.now }
        ensures counted_after { counts.sources result self.new.counted.now ≡ counts.prune self.old.counted.now k n }
        ensures tags_after { self.new.tags.now ≡ counts.prune_tags self.old.tags.now self.old.counted.now k n }
        ensures upper_bound { result ≤ n }
        ensures slices { SameSources self.old self.new }
    {
        let mut j = 0;
        // Not std's `retain`, which is a Vec's: the lent memory is fixed.
        for i in 0..n {
            j = self.prune_one(i, j, k);
        }
        j
    }

    // The total up to which sources are left out. It has a function of its own, since after a slice is read in a function that
    // has `&mut self` the check keeps no more than its length.
    fn keep_from(&self, n: usize) -> u64
        requires { n ≤ length self.now.counted.now }
        ensures { result ≡ counts.keep_from (counts.totals self.now.counted.now n) }
    {
        keep_from(self.counted, n)
    }

    // Where the spare row is taken too, the least counted are left out; then at least one row is free again.
    #[tactic(auto, using(crate::proofs::Pruning::pruned_room, crate::proofs::Tagged::pruned_tags_room))]
    pub fn pruned(&mut self, n: usize) -> usize
        requires n_in_bounds { n ≤ length self.old.tags.now }
        requires n_in_bounds_2 { n ≤ length self.old.counted.now }
        ensures counted_after { counts.sources result self.new.counted.now
            ≡ counts.pruned (counts.sources n self.old.counted.now) }
        ensures tags_after { self.new.tags.now
            ≡ counts.pruned_tags (counts.sources n self.old.counted.now) self.old.tags.now }
        ensures upper_bound { result ≤ n }
        ensures upper_bound_2 { 0 < length self.old.counted.now → result < length self.old.counted.now }
        ensures slices { SameSources self.old self.new }
    {
        if n < self.counted.len() {
            return n;
        }
        let k = self.keep_from(n);
        self.prune(n, k)
    }
}

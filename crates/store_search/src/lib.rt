// Searches over tags. Those in use are the first n of a longer slice; n stays beside it, since the definitions speak of places of the
// whole slice.
#![tactic(auto)]

ghost use Rattle.std.specs.Prelude.{◌≡◌, ℕ, true, ◌<◌, ◌≤◌, ◌+◌, ◌==◌, false, length, IfSome, MatchOption};
ghost use Rattle.store.specs.Store as store;
ghost use Rattle.store_search.specs.Passing as passing;

// How many tags are tried at once.
const FAR: usize = 32;

// Whether one of the STEP tags from i on passes. No jump depends on a test, so the compiler makes eight of them at once; std's
// `any` jumps.
fn any_passes<const STEP: usize, F: Fn(u16) -> bool>(tags: &[u16], i: usize, passes: F) -> bool
    requires i_in_bounds { i + STEP ≤ length tags.now }
    requires callable { F.IsAlwaysCallable passes }
    ensures { result ≡ false → passing.None (F.post passes) tags.now i (i + STEP) }
{
    let mut met = false;
    for k in i..i + STEP {
        met |= passes(tags[k]);
    }
    met
}

// A place up to n before which no tag from `from` on passes, in steps of STEP. The answer of this, of `next` and of `next_tagged` is a
// number, not an Option: their callers go on from it up to n.
fn skip<const STEP: usize, F: Fn(u16) -> bool>(
    tags: &[u16],
    from: usize,
    n: usize,
    passes: F,
) -> usize
    requires step { 0 < STEP }
    requires from_le_n { from ≤ n }
    requires n_in_bounds { n ≤ length tags.now }
    requires callable { F.IsAlwaysCallable passes }
    ensures { passing.Passed (F.post passes) tags.now from n result }
{
    let mut i = from;
    // A `while`: a stepped range asks for a proof that its end fits, and its last block may be short.
    while STEP <= n - i && !any_passes::<STEP, &F>(tags, i, &passes) {
        i += STEP;
    }
    i
}

// The first place from `from` on whose tag passes, else n. By place: the answer is one of the whole slice, where `position` would
// count from the part that is left.
fn next<const STEP: usize, F: Fn(u16) -> bool>(
    tags: &[u16],
    from: usize,
    n: usize,
    passes: F,
) -> usize
    requires step { 0 < STEP }
    requires from_le_n { from ≤ n }
    requires n_in_bounds { n ≤ length tags.now }
    requires callable { F.IsAlwaysCallable passes }
    ensures passed { passing.Passed (F.post passes) tags.now from n result }
    ensures result_value { result < n → passing.Passes (F.post passes) tags.now result }
{
    let skipped = skip::<STEP, &F>(tags, from, n, &passes);
    for i in skipped..n {
        if passes(tags[i]) {
            return i;
        }
    }
    n
}

// The first record from `from` on that has the tag, else n.
#[tactic(auto, unfolding(store::specs::Store::has_tag))]
pub fn next_tagged(tags: &[u16], from: usize, n: usize, tag: u16) -> usize
    requires from_le_n { from ≤ n }
    requires n_in_bounds { n ≤ length tags.now }
    ensures lower_bound { from ≤ result }
    ensures upper_bound { result ≤ n }
    ensures none { store.None (store.has_tag tags.now tag) from result }
    ensures result_value { result < n → store.has_tag tags.now tag result ≡ true }
{
    next::<FAR, _>(tags, from, n, |x| x == tag)
}

// The first of n records that has the tag and is sought: a search reads 2 bytes of each record. Another unit may have the same
// tag: then the search goes on behind it.
pub fn find_tagged<F: Fn(usize) -> bool>(
    tags: &[u16],
    n: usize,
    tag: u16,
    is_sought: F,
) -> Option<usize>
    requires n_in_bounds { n ≤ length tags.now }
    requires callable { (i : ℕ) → i < n → F.pre is_sought i }
    ensures value { MatchOption result (passing.NoneSought (F.post is_sought) tags.now tag n)
        (λ i. passing.Sought (F.post is_sought) tags.now tag i × passing.NoneSought (F.post is_sought) tags.now tag i) }
    ensures upper_bound { IfSome result (λ i. i < n) }
{
    let mut i = next_tagged(tags, 0, n, tag);
    // A `while`: the next place is the search's.
    while i < n && !is_sought(i) {
        i = next_tagged(tags, i + 1, n, tag);
    }
    (i < n).then_some(i)
}

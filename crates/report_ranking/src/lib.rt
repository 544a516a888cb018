// Which sources a report names, and in which order. Those counted are the first n of longer slices; n stays beside it, since the
// definitions speak of places of the whole slice.
//
// What a tag has to be is told by a hash, which takes longer than all else of a comparison, and a source with another tag reads as
// overflow. So a search first takes each source whose words name a key for that key, whatever its tag is (`tagged` is false). By
// that no source stands behind where it stands by its tag, since a key stands before overflow: where the one found has its own
// tag, it is the first. Where it has another, all are searched once more by their tags (`tagged`).
#![tactic(auto)]

ghost use Rattle.std.specs.Prelude.{◌≡◌, ◌<◌, ◌≤◌, true, false, length};
ghost use Rattle.std.specs.Option.{IfSome, unwrap_or};
ghost use Rattle.text.specs.Order.{less};
ghost use Rattle.label.specs.Label.{key_label};
ghost use Rattle.store.specs.Found.{found};
ghost use Rattle.report_ranking.specs.Sources as ranking;
ghost use Rattle.report_ranking.specs.Taken as taken;

use cut_sources::{SourcesRead, total_at};
use label::label_less;
use sender::{PublicKey, Unit, Words};

// The sources that a report names at most.
pub const SOURCES_REPORTED: usize = 16;

// Whether the label of key x stands before that of y, by their words: no label is written.
#[tactic(auto, using(crate::proofs::Keys::keys_less))]
fn key_less(x: PublicKey, y: PublicKey) -> bool
    ensures { result ≡ less (key_label x) (key_label y) }
{
    [x.a, x.b, x.c, x.d] < [y.a, y.b, y.c, y.d]
}

// The key that words of its kind name.
fn key_in(words: Words) -> PublicKey
    ensures { result ≡ taken.key_in words }
{
    let Words {
        kind: _,
        a,
        b,
        c,
        d,
    } = words;
    PublicKey { a, b, c, d }
}

// Whether the label of source i stands before that of source j, by what both read as. That of a key stands before all others.
fn read_less_at(sources: &SourcesRead<'_>, i: usize, j: usize) -> bool
    requires i_in_bounds { i < length sources.now.tags.now }
    requires i_in_bounds_2 { i < length sources.now.counted.now }
    requires j_in_bounds { j < length sources.now.tags.now }
    requires j_in_bounds_2 { j < length sources.now.counted.now }
    ensures { result ≡ less (ranking.label_at sources.now.tags.now sources.now.counted.now i) (ranking.label_at sources.now.tags.now sources.now.counted.now j) }
{
    let y = sources.unit_at(j);
    match sources.unit_at(i) {
        Unit::Corroborated(x) => match y {
            Unit::Corroborated(y) => key_less(x, y),
            _ => true,
        },
        x => match y {
            Unit::Corroborated(_) => false,
            y => label_less(x, y),
        },
    }
}

// The same by what both are taken for. A key's kind is 0.
fn label_less_at(sources: &SourcesRead<'_>, tagged: bool, i: usize, j: usize) -> bool
    requires i_in_bounds { i < length sources.now.tags.now }
    requires i_in_bounds_2 { i < length sources.now.counted.now }
    requires j_in_bounds { j < length sources.now.tags.now }
    requires j_in_bounds_2 { j < length sources.now.counted.now }
    ensures { result ≡ less (ranking.label_at (taken.taken tagged sources.now.tags.now sources.now.counted.now) sources.now.counted.now i) (ranking.label_at (taken.taken tagged sources.now.tags.now sources.now.counted.now) sources.now.counted.now j) }
{
    if tagged {
        return read_less_at(sources, i, j);
    }
    let x = store::words_at(sources.counted, i);
    let y = store::words_at(sources.counted, j);
    if y.kind == 0 {
        if x.kind == 0 {
            return key_less(key_in(x), key_in(y));
        }
        return false;
    }
    if x.kind == 0 {
        return true;
    }
    read_less_at(sources, i, j)
}

// Of two sources with the same total: the label by bytes, then the order of the store.
#[tactic(auto, unfolding(crate::specs::Sources::label_precedes))]
fn label_precedes(sources: &SourcesRead<'_>, tagged: bool, i: usize, j: usize) -> bool
    requires i_in_bounds { i < length sources.now.tags.now }
    requires i_in_bounds_2 { i < length sources.now.counted.now }
    requires j_in_bounds { j < length sources.now.tags.now }
    requires j_in_bounds_2 { j < length sources.now.counted.now }
    ensures { result ≡ ranking.label_precedes (taken.taken tagged sources.now.tags.now sources.now.counted.now) sources.now.counted.now i j }
{
    label_less_at(sources, tagged, i, j) || i < j && !label_less_at(sources, tagged, j, i)
}

// Whether source i stands before source j: the larger total first.
#[tactic(auto, unfolding(crate::specs::Sources::precedes))]
fn precedes(sources: &SourcesRead<'_>, tagged: bool, i: usize, j: usize) -> bool
    requires i_in_bounds { i < length sources.now.tags.now }
    requires i_in_bounds_2 { i < length sources.now.counted.now }
    requires j_in_bounds { j < length sources.now.tags.now }
    requires j_in_bounds_2 { j < length sources.now.counted.now }
    ensures { result ≡ ranking.precedes (taken.taken tagged sources.now.tags.now sources.now.counted.now) sources.now.counted.now i j }
{
    let x = total_at(sources.counted, i);
    let y = total_at(sources.counted, j);
    x > y || x == y && label_precedes(sources, tagged, i, j)
}

// Whether source i reads as what its words name.
fn is_own(sources: &SourcesRead<'_>, i: usize) -> bool
    requires i_in_bounds { i < length sources.now.tags.now }
    requires i_in_bounds_2 { i < length sources.now.counted.now }
    ensures { result ≡ true → taken.IsOwn (taken.taken false sources.now.tags.now sources.now.counted.now) sources.now.tags.now sources.now.counted.now i }
{
    match Unit::from(store::words_at(sources.counted, i)) {
        Unit::Corroborated(_) => !sender::is_overflow(sources.unit_at(i)),
        _ => true,
    }
}

// Whether source i stands after source p, of the same total, by what both read as; p reads as what it is taken for. Most sources
// stand after p by their words; of the others, mostly those named before p, the tag is asked.
fn label_follows(sources: &SourcesRead<'_>, tagged: bool, p: usize, i: usize) -> bool
    requires p_in_bounds { p < length sources.now.tags.now }
    requires p_in_bounds_2 { p < length sources.now.counted.now }
    requires i_in_bounds { i < length sources.now.tags.now }
    requires i_in_bounds_2 { i < length sources.now.counted.now }
    requires p_own { taken.IsOwn (taken.taken tagged sources.now.tags.now sources.now.counted.now) sources.now.tags.now sources.now.counted.now p }
    ensures { result ≡ ranking.label_precedes sources.now.tags.now sources.now.counted.now p i }
{
    let follows = label_precedes(sources, tagged, p, i);
    if follows || tagged || is_own(sources, i) {
        return follows;
    }
    label_precedes(sources, true, p, i)
}

// Whether source i stands after source p.
#[tactic(auto, unfolding(crate::specs::Sources::precedes))]
fn follows(sources: &SourcesRead<'_>, tagged: bool, p: usize, i: usize) -> bool
    requires p_in_bounds { p < length sources.now.tags.now }
    requires p_in_bounds_2 { p < length sources.now.counted.now }
    requires i_in_bounds { i < length sources.now.tags.now }
    requires i_in_bounds_2 { i < length sources.now.counted.now }
    requires p_own { taken.IsOwn (taken.taken tagged sources.now.tags.now sources.now.counted.now) sources.now.tags.now sources.now.counted.now p }
    ensures { result ≡ ranking.precedes sources.now.tags.now sources.now.counted.now p i }
{
    let x = total_at(sources.counted, p);
    let y = total_at(sources.counted, i);
    x > y || x == y && label_follows(sources, tagged, p, i)
}

// Whether source i stands after p; each stands after none. A match, as in `better`: of a struct that a closure captures the check
// loses what its slices hold.
#[tactic(auto, using(crate::proofs::Choosing::after_none, crate::proofs::Choosing::after_some))]
fn is_after(sources: &SourcesRead<'_>, tagged: bool, n: usize, p: Option<usize>, i: usize) -> bool
    requires n_in_bounds { n ≤ length sources.now.tags.now }
    requires n_in_bounds_2 { n ≤ length sources.now.counted.now }
    requires p_lt_n { IfSome p (λ q. q < n) }
    requires p_own { IfSome p (λ q. taken.IsOwn (taken.taken tagged sources.now.tags.now sources.now.counted.now) sources.now.tags.now sources.now.counted.now q) }
    requires i_lt_n { i < n }
    ensures { result ≡ ranking.is_after sources.now.tags.now sources.now.counted.now n (unwrap_or p n) i }
{
    match p {
        None => true,
        Some(q) => follows(sources, tagged, q, i),
    }
}

// The earlier of source i, where it stands after p, and the best so far. Few precede the best, and only those are
// compared with p.
#[tactic(auto, using(crate::proofs::Choosing::better_none, crate::proofs::Choosing::better_new, crate::proofs::Choosing::better_old, crate::proofs::Choosing::better_skip))]
fn better(
    sources: &SourcesRead<'_>,
    tagged: bool,
    n: usize,
    p: Option<usize>,
    best: Option<usize>,
    i: usize,
) -> Option<usize>
    requires n_in_bounds { n ≤ length sources.now.tags.now }
    requires n_in_bounds_2 { n ≤ length sources.now.counted.now }
    requires p_lt_n { IfSome p (λ q. q < n) }
    requires p_own { IfSome p (λ q. taken.IsOwn (taken.taken tagged sources.now.tags.now sources.now.counted.now) sources.now.tags.now sources.now.counted.now q) }
    requires best_lt_n { IfSome best (λ b. b < n) }
    requires i_lt_n { i < n }
    ensures value { unwrap_or result n ≡ taken.better_taken (taken.taken tagged sources.now.tags.now sources.now.counted.now) sources.now.tags.now sources.now.counted.now n (unwrap_or p n) (unwrap_or best n) i }
    ensures upper_bound { IfSome result (λ b. b < n) }
{
    match best {
        Some(b) if !precedes(sources, tagged, i, b) => best,
        _ if is_after(sources, tagged, n, p, i) => Some(i),
        _ => best,
    }
}

// Of n sources the first of those that stand after p, as they are taken.
fn first_taken(sources: &SourcesRead<'_>, tagged: bool, n: usize, p: Option<usize>) -> Option<usize>
    requires n_in_bounds { n ≤ length sources.now.tags.now }
    requires n_in_bounds_2 { n ≤ length sources.now.counted.now }
    requires p_lt_n { IfSome p (λ q. q < n) }
    requires p_own { IfSome p (λ q. taken.IsOwn (taken.taken tagged sources.now.tags.now sources.now.counted.now) sources.now.tags.now sources.now.counted.now q) }
    ensures value { unwrap_or result n ≡ taken.first_taken (taken.taken tagged sources.now.tags.now sources.now.counted.now) sources.now.tags.now sources.now.counted.now n (unwrap_or p n) n }
    ensures upper_bound { IfSome result (λ i. i < n) }
{
    let mut best = None;
    // By place: a source is sources by it.
    for i in 0..n {
        best = better(sources, tagged, n, p, best, i);
    }
    best
}

// Whether the source at p, if there is one, reads as what its words name.
fn is_own_or_none(sources: &SourcesRead<'_>, p: Option<usize>) -> bool
    requires p_in_bounds { IfSome p (λ q. q < length sources.now.tags.now) }
    requires p_in_bounds_2 { IfSome p (λ q. q < length sources.now.counted.now) }
    ensures { result ≡ true → IfSome p (λ q. taken.IsOwn (taken.taken false sources.now.tags.now sources.now.counted.now) sources.now.tags.now sources.now.counted.now q) }
{
    match p {
        None => true,
        Some(q) => is_own(sources, q),
    }
}

// Of n sources the first of those that stand after p.
pub fn first_after(sources: &SourcesRead<'_>, n: usize, p: Option<usize>) -> Option<usize>
    requires n_in_bounds { n ≤ length sources.now.tags.now }
    requires n_in_bounds_2 { n ≤ length sources.now.counted.now }
    requires p_lt_n { IfSome p (λ q. q < n) }
    ensures value { result ≡ found n (ranking.first_after sources.now.tags.now sources.now.counted.now n (unwrap_or p n) n) }
    ensures upper_bound { IfSome result (λ i. i < n) }
{
    if is_own_or_none(sources, p) {
        let best = first_taken(sources, false, n, p);
        if is_own_or_none(sources, best) {
            return best;
        }
    }
    first_taken(sources, true, n, p)
}

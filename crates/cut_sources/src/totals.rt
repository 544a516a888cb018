// A counted source's total, and the total up to which sources are left out. Those counted are the first n of a longer slice; n stays
// beside it, as in the definitions.
ghost use Rattle.std.specs.Prelude.{◌≡◌, ◌<◌, ◌≤◌, length};
ghost use Rattle.cut_sources.specs.Sorted as sorted;
ghost use Rattle.cut_sources.specs.Counted as counts;

use store::SourceRow;

// The sum of a source's three counts, which wraps.
#[tactic(auto, unfolding(crate::specs::Counted::total))]
pub fn total(row: &SourceRow) -> u64
    ensures { result ≡ counts.total row.now }
{
    row[5].wrapping_add(row[6]).wrapping_add(row[7])
}

#[tactic(auto, unfolding(crate::specs::Counted::total_at))]
pub fn total_at(counted: &[SourceRow], i: usize) -> u64
    requires { i < length counted.now }
    ensures { result ≡ counts.total_at counted.now i }
{
    total(&counted[i])
}

// How many of n totals are below x.
fn below(counted: &[SourceRow], n: usize, x: u64) -> usize
    requires { n ≤ length counted.now }
    ensures { result ≡ sorted.below x (counts.totals counted.now n) }
{
    counted[..n].iter().filter(|row| total(row) < x).count()
}

// The highest of n totals.
fn highest(counted: &[SourceRow], n: usize) -> u64
    requires { n ≤ length counted.now }
    ensures { result ≡ sorted.highest (counts.totals counted.now n) }
{
    counted[..n].iter().map(total).max().unwrap_or(0)
}

// Of n totals, ascending, the one at index n / 4: the largest x with no more than n / 4 totals below it. It is searched
// for by halves between 0 and the highest total, so that nothing is sorted: at most 64 passes.
pub fn keep_from(counted: &[SourceRow], n: usize) -> u64
    requires { n ≤ length counted.now }
    ensures { result ≡ counts.keep_from (counts.totals counted.now n) }
{
    if n == 0 {
        return 0;
    }
    let mut low = 0;
    let mut high = highest(counted, n);
    // A `while`: a turn halves the span between two values and steps through no slice.
    while low < high {
        let tried = high - (high - low) / 2;
        if below(counted, n, tried) <= n / 4 {
            low = tried;
        } else {
            high = tried - 1;
        }
    }
    low
}

// The histogram of wants, per dimension, and the level found from it.
#![tactic(auto)]

ghost use Rattle.flow.specs.Flow.{dims};
ghost use Rattle.std.specs.Prelude.{◌≡◌, ◌<◌, [], slice_index_or};
ghost use Rattle.wants.specs.Bucket as bucket;
ghost use Rattle.wants.specs.Wants as wants;

pub mod bucket;

pub use bucket::BUCKETS;
use bucket::bucket_of;
use flow::DIMS;

// The histogram, for each dimension: how many units want so much, and the sum of their wants.
pub type Counts = [[u32; BUCKETS]; DIMS];

pub type Sums = [[f64; BUCKETS]; DIMS];

// Those two arrays, lent.
#[derive(Drop)]
pub struct Histogram<'a> {
    pub counts: &'a mut Counts,
    pub sums: &'a mut Sums,
}

// The same arrays lent to a call that only reads them.
#[derive(Clone, Copy)]
pub struct HistogramRead<'a> {
    pub counts: &'a Counts,
    pub sums: &'a Sums,
}

impl Histogram<'_> {
    ghost use Rattle.wants.specs.Held.{wants_held, wants_read, SameArrays};

    // As a scan begins: no wants.
    #[tactic(auto, unfolding(crate::specs::Wants::cleared))]
    pub fn clear(&mut self)
        ensures wants_after { wants_held self.new ≡ wants.cleared }
        ensures arrays { SameArrays self.old self.new }
    {
        *self.counts = [[0; BUCKETS]; DIMS];
        *self.sums = [[0.0; BUCKETS]; DIMS];
    }

    // Counts one unit's want in a dimension; the count wraps, as in a release build.
    #[tactic(auto, unfolding(crate::specs::Wants::added, crate::specs::Wants::one_more, crate::specs::Wants::plus))]
    pub fn add(&mut self, dim: usize, want: f64)
        requires { dim < dims }
        ensures wants_after { wants_held self.new ≡ wants.added (wants_held self.old) dim want }
        ensures arrays { SameArrays self.old self.new }
    {
        let b = bucket_of(want);
        self.counts[dim][b] = self.counts[dim][b].wrapping_add(1);
        self.sums[dim][b] += want;
    }

    // The arrays lent on to a call that only reads them.
    pub fn read(&self) -> HistogramRead<'_>
        ensures { wants_read result ≡ wants_held self.now }
    {
        HistogramRead {
            counts: &*self.counts,
            sums: &*self.sums,
        }
    }

    // The water level of a max-min fair division of the rate among the units counted, as the arrays that are read have it.
    pub fn level(&self, dim: usize, rate: f64) -> f64
        requires { dim < dims }
        ensures { result ≡ wants.level (wants_held self.now) dim rate }
    {
        self.read().level(dim, rate)
    }
}

impl HistogramRead<'_> {
    ghost use Rattle.wants.specs.Held.{wants_read};

    // The number of units counted in a dimension. The definition sums doubles from the highest bucket down. Each of those sums is
    // a whole number below 2^53, so none is rounded, and the whole numbers summed in any order come to the same double. A loop:
    // its invariant is the sum up to a bucket, which std's `sum` would hide.
    fn counted(&self, dim: usize) -> f64
        requires { dim < dims }
        ensures { result ≡ wants.counted (slice_index_or self.now.counts.now dim []) bucket.«BUCKETS» bucket.«BUCKETS» }
    {
        let counts = self.counts;
        let mut total = 0;
        for n in &counts[dim] {
            total += u64::from(*n);
        }
        flow::whole(total)
    }

    // The water level of a max-min fair division of the rate among the units counted: what a unit that wants more is held to.
    // Infinite where the demand is within the rate.
    pub fn level(&self, dim: usize, rate: f64) -> f64
        requires { dim < dims }
        ensures { result ≡ wants.level (wants_read self.now) dim rate }
    {
        let counts = self.counts;
        let sums = self.sums;
        let mut left = rate;
        let mut remaining = self.counted(dim);
        // By places: `zip` over the two rows takes nearly twice as long.
        for b in 0..BUCKETS {
            let n = counts[dim][b];
            if n == 0 {
                continue;
            }
            let count = f64::from(n);
            let sum = sums[dim][b];
            if sum / count * remaining <= left {
                left -= sum;
                remaining -= count;
            } else {
                return left / remaining;
            }
        }
        f64::INFINITY
    }
}

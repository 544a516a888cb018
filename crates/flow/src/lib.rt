// The float core of a judgement, by value: the token bucket and a unit's use. The want and the decision are in `verdict`. No store is known here.
#![tactic(auto)]

ghost use Rattle.std.specs.Prelude.{◌≡◌, ℕ, ◌-◌, ◌*◌, ◌^◌, ◌<◌, Bool, List, length, min, max};
ghost use Rattle.std.specs.Mem.{type_size};
ghost use Rattle.ieee.specs.Doubles.{whole};
ghost use Rattle.flow.specs.Flow as flow;

pub use fade::WINDOW_MS;

// Receptions and bytes. Every loop, array and law goes over this number.
pub const DIMS: usize = 2;

// A dimension of a rate, a cost or a level.
#[derive(Clone, Copy)]
pub enum Dim {
    Receptions,
    Bytes,
}

// The window in seconds: a rate is a faded sum over it.
pub const WINDOW_SECS: f64 = 2.0;

// The seconds of its fill that a unit's credit holds: its depth.
pub const CREDIT_SECS: f64 = 4.0;

// A rate that bounds nothing, u64::MAX, and the double nearest to it, 2^64.
pub const UNBOUNDED: u64 = u64::MAX;

const UNBOUNDED_RATE: f64 = 18446744073709551616.0;

// The highest rate, and the most of a ceiling that a burst holds.
pub const RATE_MOST: u64 = 1 << 40;

#[repr(C)]
#[derive(Clone, Copy)]
pub struct Bucket {
    pub tokens: f64,
    pub burst: f64,
    pub rate_per_ms: f64,
}

// What a unit attempted (a sum that fades) and what it may still be admitted, as of `at_ms`. `fresh`: nothing of it was judged
// yet; any word but 0, so that every word is one that memory or C may hold.
#[repr(C)]
#[derive(Clone, Copy)]
pub struct Use {
    pub attempted: [f64; DIMS],
    pub credit: [f64; DIMS],
    pub at_ms: u64,
    pub fresh: u64,
}

// A dimension's place.
impl From<Dim> for usize {
    ghost from_gives = { λ dim d. (d ≡ flow.dim_of dim) × (d < flow.dims) };

    #[tactic(auto, unfolding(crate::specs::Flow::dim_of))]
    fn from(dim: Dim) -> usize {
        dim as usize
    }
}

// The dimension at a place. Not TryFrom: a place comes from a search over the dimensions, so that a caller would have a case that
// never comes.
#[tactic(auto, unfolding(crate::specs::Flow::dim_at))]
pub fn dim_at(d: usize) -> Dim
    ensures { result ≡ flow.dim_at d }
{
    if d == 0 { Dim::Receptions } else { Dim::Bytes }
}

// A value with a part for each dimension: what f gives of each.
pub fn per_dim<T, F: Fn(usize) -> T>(f: F) -> [T; DIMS]
    requires fits { flow.dims * type_size T.row < 2 ^ 63 }
    requires callable { (d : ℕ) → d < flow.dims → F.pre f d }
    ensures value { (g : ℕ → T) (xs : List T) → ((d : ℕ) (x : T) → d < flow.dims → F.post f d x → x ≡ g d) → length xs ≡ flow.dims → result ≡ flow.upto g flow.dims xs }
{
    per_place(f)
}

// What `f` gives of each place, as an array.
pub fn per_place<T, F: Fn(usize) -> T, const N: usize>(f: F) -> [T; N]
    requires fits { N * type_size T.row < 2 ^ 63 }
    requires callable { (i : ℕ) → i < N → F.pre f i }
    ensures value { (g : ℕ → T) (xs : List T) → ((i : ℕ) (x : T) → i < N → F.post f i x → x ≡ g i) → length xs ≡ N → result ≡ flow.upto g N xs }
{
    std::array::from_fn(f)
}

// Whether f passes each dimension.
pub fn each_passes<F: Fn(usize) -> bool>(f: F) -> bool
    requires callable { (d : ℕ) → d < flow.dims → F.pre f d }
    ensures value { (p : ℕ → Bool) → ((d : ℕ) (x : Bool) → d < flow.dims → F.post f d x → x ≡ p d) → result ≡ flow.all p flow.dims }
{
    (0..DIMS).all(f)
}

// ---- numbers

// The double nearest to a whole number, the number itself up to 2^53. It is defined on every number, so that no bound is asked.
pub fn whole(n: u64) -> f64
    ensures { result ≡ whole n }
{
    std::num::nearest_u64_to_f64(n)
}

// A rate or a cost as a double. The unbounded rate is a constant.
pub fn per_second(rate: u64) -> f64
    ensures { result ≡ whole rate }
{
    if rate == UNBOUNDED {
        UNBOUNDED_RATE
    } else {
        whole(rate)
    }
}

// Rates or costs as doubles, `per_second` of each: the definition's word; std has no `From` of arrays that rounds.
#[tactic(auto, unfolding(crate::specs::Flow::numbers))]
pub fn numbers(xs: [u64; DIMS]) -> [f64; DIMS]
    ensures { result ≡ flow.numbers xs }
{
    per_dim(|d| per_second(xs[d]))
}

// The rate at which credit fills: the level, or the relay's rate where that is less.
#[tactic(auto, unfolding(crate::specs::Flow::fills))]
pub fn fills(level: [f64; DIMS], rate: [f64; DIMS]) -> [f64; DIMS]
    ensures { result ≡ flow.fills level rate }
{
    per_dim(|d| ieee::min(level[d], rate[d]))
}

// The time since `at`, none if that is not past: std's method under the name that its callers read, and no plainer without.
pub fn since(clock: u64, at_ms: u64) -> u64
    ensures { result ≡ clock - at_ms }
{
    clock.saturating_sub(at_ms)
}

// The later of two stamps: std's method under the name that its callers read, and no plainer without.
pub fn later(a: u64, b: u64) -> u64
    ensures { result ≡ max a b }
{
    a.max(b)
}

// ---- the bucket

// The part of a ceiling that a burst holds: std's `min` with RATE_MOST, named, since the bucket that is opened reads plainer so.
fn held(ceiling: u64) -> u64
    ensures { result ≡ min ceiling flow.RATE_MOST }
{
    ceiling.min(RATE_MOST)
}

impl Bucket {
    // Full, with a second of the rate to hold, or of the ceiling where that is more; 1 at least.
    pub fn new(rate: u64, ceiling: u64) -> Bucket
        ensures { result ≡ flow.opened rate ceiling }
    {
        let per_s = per_second(rate);
        let burst = ieee::max(ieee::max(per_s, whole(held(ceiling))), 1.0);
        Bucket {
            tokens: burst,
            burst,
            rate_per_ms: per_s / 1000.0,
        }
    }

    // After `elapsed` milliseconds.
    pub fn refilled(mut self, elapsed: u64) -> Bucket
        ensures { result ≡ flow.refilled self elapsed }
    {
        self.tokens = ieee::min(self.tokens + whole(elapsed) * self.rate_per_ms, self.burst);
        self
    }

    // At another rate and ceiling: burst and rate per millisecond as at a start, and of the tokens no more than the burst.
    pub fn turned(self, rate: u64, ceiling: u64) -> Bucket
        ensures { result ≡ flow.turned self rate ceiling }
    {
        let full = Bucket::new(rate, ceiling);
        Bucket {
            tokens: ieee::min(self.tokens, full.burst),
            ..full
        }
    }

    // An admitted batch takes its cost.
    pub fn spent(mut self, cost: f64) -> Bucket
        ensures { result ≡ flow.spent self cost }
    {
        self.tokens -= cost;
        self
    }

    // A hand-back gives it again, up to the burst.
    pub fn returned(mut self, cost: f64) -> Bucket
        ensures { result ≡ flow.returned self cost }
    {
        self.tokens = ieee::min(self.tokens + cost, self.burst);
        self
    }
}

// ---- one dimension

// Whether a mark says that nothing was judged yet.
pub fn is_fresh(mark: u64) -> bool
    ensures { result ≡ flow.is_fresh mark }
{
    mark != 0
}

// A time in seconds.
pub fn seconds(ms: u64) -> f64
    ensures { result ≡ flow.seconds ms }
{
    whole(ms) / 1000.0
}

// A fresh unit's credit is full, another's is filled for the time since its last judgement, up to full.
pub fn credit_of(fresh: bool, credit: f64, fill: f64, idle: u64) -> f64
    ensures { result ≡ flow.credit_of fresh credit fill idle }
{
    let depth = fill * CREDIT_SECS;
    if fresh {
        depth
    } else {
        ieee::min(credit + fill * seconds(idle), depth)
    }
}

// What a hand-back makes of a credit: uncapped until the next judgement.
fn credit_back(credit: f64, cost: f64) -> f64
    ensures { result ≡ flow.credit_back credit cost }
{
    credit + cost
}

// ---- over the dimensions

impl Use {
    // A unit new to the store.
    pub fn new(at_ms: u64) -> Use
        ensures { result ≡ flow.added at_ms }
    {
        Use {
            attempted: [0.0; DIMS],
            credit: [0.0; DIMS],
            at_ms,
            fresh: 1,
        }
    }

    // At a judgement: the credit, filled since the last.
    pub fn credited(mut self, clock: u64, fill: [f64; DIMS]) -> Use
        ensures { result ≡ flow.credited self clock fill }
    {
        let idle = since(clock, self.at_ms);
        let fresh = is_fresh(self.fresh);
        self.credit = per_dim(|d| credit_of(fresh, self.credit[d], fill[d], idle));
        self
    }

    // The sums faded from when they were last read to the clock.
    pub fn fade_to(mut self, clock: u64) -> Use
        ensures { result ≡ flow.fade_to self clock }
    {
        let faded = fade::fade(since(clock, self.at_ms));
        self.attempted = per_dim(|d| self.attempted[d] * faded);
        self.at_ms = later(self.at_ms, clock);
        self
    }

    // A batch is added to what was attempted, admitted or not; the unit is fresh no more.
    pub fn tried(mut self, cost: [f64; DIMS]) -> Use
        ensures { result ≡ flow.tried self cost }
    {
        self.attempted = per_dim(|d| self.attempted[d] + cost[d]);
        self.fresh = 0;
        self
    }

    // What the unit attempts a second, faded to the clock: its sums over the window.
    #[tactic(auto, unfolding(crate::specs::Flow::rates))]
    pub fn rates(self, clock: u64) -> [f64; DIMS]
        ensures { result ≡ flow.rates self clock }
    {
        let faded = fade::fade(since(clock, self.at_ms));
        per_dim(|d| self.attempted[d] * faded / WINDOW_SECS)
    }

    // An admitted batch is taken off the credit.
    pub fn charged(mut self, cost: [f64; DIMS]) -> Use
        ensures { result ≡ flow.charged self cost }
    {
        self.credit = per_dim(|d| self.credit[d] - cost[d]);
        self
    }

    // A cut for the receiver's own pace gives all of it back.
    pub fn handed_back(mut self, cost: [f64; DIMS]) -> Use
        ensures { result ≡ flow.handed_back self cost }
    {
        self.attempted = per_dim(|d| ieee::max(self.attempted[d] - cost[d], 0.0));
        self.credit = per_dim(|d| credit_back(self.credit[d], cost[d]));
        self
    }
}

// ---- the buckets, over the dimensions

pub fn refilled_all(buckets: [Bucket; DIMS], elapsed: u64) -> [Bucket; DIMS]
    ensures { result ≡ flow.refilled_all buckets elapsed }
{
    per_dim(|d| buckets[d].refilled(elapsed))
}

pub fn turned_all(
    buckets: [Bucket; DIMS],
    rate: [u64; DIMS],
    ceiling: [u64; DIMS],
) -> [Bucket; DIMS]
    ensures { result ≡ flow.turned_all buckets rate ceiling }
{
    per_dim(|d| buckets[d].turned(rate[d], ceiling[d]))
}

// One shape with the others, which is `per_dim`; each is another method, with a definition of its own.
pub fn spent_all(buckets: [Bucket; DIMS], cost: [f64; DIMS]) -> [Bucket; DIMS]
    ensures { result ≡ flow.spent_all buckets cost }
{
    per_dim(|d| buckets[d].spent(cost[d]))
}

pub fn returned_all(buckets: [Bucket; DIMS], cost: [f64; DIMS]) -> [Bucket; DIMS]
    ensures { result ≡ flow.returned_all buckets cost }
{
    per_dim(|d| buckets[d].returned(cost[d]))
}

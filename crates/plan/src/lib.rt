// Collection hours: a weekly plan of windows with rates. The minute of a clock, the rates that a plan has for it, and what is asked of a plan.
#![tactic(auto)]

ghost use Rattle.std.specs.Prelude.{◌≡◌, eqb};
ghost use Rattle.plan.specs.Plan as hours;

use flow::{DIMS, RATE_MOST, UNBOUNDED};

// Windows of a plan at most.
pub const WINDOWS: usize = 32;

// Milliseconds of a minute.
const MINUTE_MS: u64 = 60000;

// Minutes of a week.
const WEEK: u64 = 7 * 1440;

// Thursday's first minute: the clock's 0 is there.
const THURSDAY: u64 = 3 * 1440;

// The first minute, the end, and the rates. Minutes count from Monday 00:00 UTC; the first is inside, the end is outside.
pub type Window = [u64; 2 + DIMS];

pub type Plan = [Window; WINDOWS];

// What is wrong with windows: the first question answered no, by its number.
#[derive(Clone, Copy, PartialEq, Eq)]
pub enum Fault {
    // a window's rates
    Rates = 1,
    // a window's rates are unbounded
    Unbounded = 10,
    // too many windows, or one that is empty or ends outside the week
    Range = 11,
    // two windows overlap
    Overlap = 12,
}

impl From<Fault> for u64 {
    ghost from_gives = { λ fault n. n ≡ hours.fault_number fault };

    #[tactic(auto, unfolding(crate::specs::Plan::fault_number))]
    fn from(fault: Fault) -> u64 {
        fault as u64
    }
}

// ---- the minute, and the rates for it

// The minute of the week.
#[tactic(auto, unfolding(crate::specs::Plan::minute))]
pub fn minute(clock: u64) -> u64
    ensures { result ≡ hours.minute clock }
{
    (clock / MINUTE_MS + THURSDAY) % WEEK
}

#[tactic(auto, unfolding(crate::specs::Plan::rates_of))]
fn rates_of(window: Window) -> [u64; DIMS]
    ensures { result ≡ hours.rates_of window }
{
    flow::per_dim(|d| window[2 + d])
}

#[tactic(auto, unfolding(crate::specs::Plan::holds))]
fn holds(window: Window, minute: u64) -> bool
    ensures { result ≡ hours.holds window minute }
{
    (window[0] <= minute) & (minute < window[1])
}

// The rates of the first of so many windows that holds the clock's minute, else those outside. No more windows than there are places
// are read.
#[tactic(auto, using(crate::proofs::Turns::none_planned), unfolding(crate::specs::Plan::planned))]
pub fn planned(outside: [u64; DIMS], windows: usize, plan: &Plan, clock: u64) -> [u64; DIMS]
    ensures { result ≡ hours.planned outside windows plan.now clock }
{
    if windows == 0 {
        return outside;
    }
    first_holding(outside, &plan[..windows.min(WINDOWS)], minute(clock))
}

#[tactic(auto, using(crate::proofs::Turns::first_none, crate::proofs::Turns::first_here, crate::proofs::Turns::first_next))]
fn first_holding(outside: [u64; DIMS], windows: &[Window], minute: u64) -> [u64; DIMS]
    ensures { result ≡ hours.first_holding outside windows.now minute }
{
    for window in windows {
        if holds(*window, minute) {
            return rates_of(*window);
        }
    }
    outside
}

// ---- the questions

// Whether the rates bound nothing.
#[tactic(auto, unfolding(crate::specs::Plan::is_unbounded))]
pub fn is_unbounded(rates: [u64; DIMS]) -> bool
    ensures { result ≡ hours.is_unbounded rates }
{
    flow::each_passes(|d| rates[d] == UNBOUNDED)
}

#[tactic(auto, unfolding(crate::specs::Plan::is_bounded))]
fn is_bounded(rates: [u64; DIMS]) -> bool
    ensures { result ≡ hours.is_bounded rates }
{
    flow::each_passes(|d| 1 <= rates[d] && rates[d] <= RATE_MOST)
}

// Whether a window's rates are all unbounded, or each from 1 to the highest.
#[tactic(auto, unfolding(crate::specs::Plan::window_rates))]
pub fn window_rates(rates: [u64; DIMS]) -> bool
    ensures { result ≡ hours.window_rates rates }
{
    is_unbounded(rates) || is_bounded(rates)
}

// Question 1 of each window, also behind the 32nd.
#[tactic(auto, using(crate::proofs::Turns::all_none, crate::proofs::Turns::all_next), unfolding(crate::specs::Plan::rates_held))]
fn rates_held(windows: &[Window]) -> bool
    ensures { result ≡ hours.rates_held windows.now }
{
    let mut passes = true;
    for window in windows {
        passes &= window_rates(rates_of(*window));
    }
    passes
}

#[tactic(auto, unfolding(crate::specs::Plan::is_span))]
fn is_span(window: Window) -> bool
    ensures { result ≡ hours.is_span window }
{
    window[0] < window[1] && window[1] <= WEEK
}

// Question 11: no more windows than a plan has places, and each begins before its end, which is in the week.
#[tactic(auto, using(crate::proofs::Turns::all_none, crate::proofs::Turns::all_next), unfolding(crate::specs::Plan::in_range))]
fn in_range(windows: &[Window]) -> bool
    ensures { result ≡ hours.in_range windows.now }
{
    let mut passes = windows.len() <= WINDOWS;
    for window in windows {
        passes &= is_span(*window);
    }
    passes
}

// Two that touch do not.
#[tactic(auto, unfolding(crate::specs::Plan::overlap))]
fn overlap(v: Window, w: Window) -> bool
    ensures { result ≡ hours.overlap v w }
{
    v[0] < w[1] && w[0] < v[1]
}

// Whether the window overlaps none of these.
#[tactic(auto, using(crate::proofs::Turns::all_none, crate::proofs::Turns::all_next), unfolding(crate::specs::Plan::is_apart))]
fn is_apart(windows: &[Window], from: Window) -> bool
    ensures { result ≡ hours.is_apart windows.now from }
{
    let mut passes = true;
    for window in windows {
        passes &= !overlap(*window, from);
    }
    passes
}

// Question 12 of all pairs: each window and those before it.
#[tactic(auto, using(crate::proofs::Turns::all_none, crate::proofs::Turns::all_next), unfolding(crate::specs::Plan::apart))]
fn apart(windows: &[Window]) -> bool
    ensures { result ≡ hours.apart windows.now }
{
    let mut passes = true;
    for (j, window) in windows.iter().enumerate() {
        passes &= is_apart(&windows[..j], *window);
    }
    passes
}

// Question 10: no window is unbounded.
#[tactic(auto, using(crate::proofs::Turns::all_none, crate::proofs::Turns::all_next), unfolding(crate::specs::Plan::none_unbounded))]
fn none_unbounded(windows: &[Window]) -> bool
    ensures { result ≡ hours.none_unbounded windows.now }
{
    let mut passes = true;
    for window in windows {
        passes &= !is_unbounded(rates_of(*window));
    }
    passes
}

// Whether a bounded window begins at the end of the one before or later.
#[tactic(auto, unfolding(crate::specs::Plan::follows))]
fn follows(last: u64, window: Window) -> bool
    ensures { result ≡ hours.follows last window }
{
    last <= window[0] && window[0] < window[1] && is_bounded(rates_of(window))
}

// Yes at once for windows in ascending order that pass: one pass, of which no jump is taken but the loop's.
#[tactic(auto, using(crate::proofs::Turns::all_none, crate::proofs::Turns::all_next, crate::proofs::Turns::end_next, crate::proofs::Turns::ascending_stops), unfolding(crate::specs::Plan::ascending))]
fn ascending(windows: &[Window]) -> bool
    ensures { result ≡ hours.ascending windows.now }
{
    if windows.len() > WINDOWS {
        return false;
    }
    let mut last = 0;
    for window in windows {
        if !follows(last, *window) {
            return false;
        }
        last = window[1];
    }
    last <= WEEK
}

// The questions one by one: of each window by itself, then pair by pair.
#[tactic(auto, unfolding(crate::specs::Plan::windows_asked, crate::specs::Plan::number_of, crate::specs::Plan::fault_number))]
fn asked_singly(windows: &[Window]) -> Result<(), Fault>
    ensures { hours.number_of result ≡ hours.windows_asked windows.now }
{
    if !rates_held(windows) {
        return Err(Fault::Rates);
    }
    if !in_range(windows) {
        return Err(Fault::Range);
    }
    if !apart(windows) {
        return Err(Fault::Overlap);
    }
    if !none_unbounded(windows) {
        return Err(Fault::Unbounded);
    }
    Ok(())
}

// The first question that windows of any number fail, in the order 1, 11, 12, 10. Windows in ascending order are told in one pass.
#[tactic(auto, using(crate::proofs::Passing::quick_passes))]
pub fn windows_asked(windows: &[Window]) -> Result<(), Fault>
    ensures { hours.number_of result ≡ hours.windows_asked windows.now }
{
    if ascending(windows) {
        return Ok(());
    }
    asked_singly(windows)
}

#[tactic(auto, using(crate::proofs::Passing::ok_is))]
fn windows_pass(windows: &[Window]) -> bool
    ensures { result ≡ eqb (hours.windows_asked windows.now) 0 }
{
    windows_asked(windows).is_ok()
}

// Whether a relay's plan passes: it has no windows, or its rates outside them are bounded and its windows pass. Nothing is asked of the
// rows behind them.
#[tactic(auto, unfolding(crate::specs::Plan::plan_whole))]
pub fn plan_whole(outside: [u64; DIMS], windows: usize, plan: &Plan) -> bool
    ensures { result ≡ hours.plan_whole outside windows plan.now }
{
    windows == 0 || (windows <= WINDOWS && !is_unbounded(outside) && windows_pass(&plan[..windows]))
}

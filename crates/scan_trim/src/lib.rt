// The level at the end of a scan: what the wants leave, and the trim by which it follows the rate admitted.
#![tactic(auto)]

ghost use Rattle.std.specs.Prelude.{◌≡◌};
ghost use Rattle.wants.specs.Held.{wants_read};
ghost use Rattle.scan_trim.specs.Trimming as trimming;

use flow::DIMS;
use head::{Scan, Shedder};
use wants::HistogramRead;

// The most that the trim moves the level in one scan, and the least that it leaves of it.
pub const TRIM_STEP: f64 = 0.05;

pub const TRIM_FLOOR: f64 = 0.5;

// The seconds in which the trim closes the gap between the rate admitted and the relay's.
pub const TRIM_SECS: f64 = 1.0;

#[tactic(auto, unfolding(crate::specs::Trimming::step_of))]
fn step_of(rate: f64, gained: f64, span: f64) -> f64
    ensures { result ≡ trimming.step_of rate gained span }
{
    ieee::clamp(
        1.0 + span / TRIM_SECS * (rate / gained - 1.0),
        1.0 - TRIM_STEP,
        1.0 + TRIM_STEP,
    )
}

#[tactic(auto, using(crate::proofs::Doubles::finite_is), unfolding(crate::specs::Trimming::trim_of))]
fn trim_of(open: f64, trim: f64, rate: f64, gain: f64, span: f64) -> f64
    ensures { result ≡ trimming.trim_of «open» trim rate gain span }
{
    if !open.is_finite() {
        return 1.0;
    }
    let gained = gain / span;
    if 0.0 < span && 0.0 < gained {
        ieee::clamp(trim * step_of(rate, gained, span), TRIM_FLOOR, 1.0)
    } else {
        trim
    }
}

#[tactic(auto, unfolding(crate::specs::Trimming::opens))]
fn opens(histogram: &HistogramRead<'_>, rate: [f64; DIMS]) -> [f64; DIMS]
    ensures { result ≡ trimming.opens (wants_read histogram.now) rate }
{
    flow::per_dim(|d| histogram.level(d, rate[d]))
}

#[tactic(auto, unfolding(crate::specs::Trimming::trims))]
fn trims(
    open: [f64; DIMS],
    trim: [f64; DIMS],
    rate: [f64; DIMS],
    admitted: [f64; DIMS],
    read: [f64; DIMS],
    span: f64,
) -> [f64; DIMS]
    ensures { result ≡ trimming.trims «open» trim rate admitted read span }
{
    flow::per_dim(|d| trim_of(open[d], trim[d], rate[d], admitted[d] - read[d], span))
}

#[tactic(auto, unfolding(crate::specs::Trimming::levels))]
fn levels(open: [f64; DIMS], trim: [f64; DIMS]) -> [f64; DIMS]
    ensures { result ≡ trimming.levels «open» trim }
{
    flow::per_dim(|d| ieee::max(open[d] * trim[d], 1.0))
}

#[tactic(auto, unfolding(crate::specs::Trimming::span_of))]
fn span_of(clock: u64, read_ms: u64) -> f64
    ensures { result ≡ trimming.span_of clock read_ms }
{
    flow::seconds(flow::since(clock, read_ms))
}

// The scan is over: the level found, its trim, and the level stored. Its locals stay: of an array stored straight from a field
// the check makes no proof.
#[tactic(auto, unfolding(crate::specs::Trimming::trimmed))]
pub fn trimmed(h: Shedder, histogram: &HistogramRead<'_>) -> Shedder
    ensures { result ≡ trimming.trimmed h (wants_read histogram.now) }
{
    let rate = flow::numbers(h.flow.rate);
    let open = opens(histogram, rate);
    let admitted = h.flow.admitted;
    let trim = trims(
        open,
        h.scan.trim,
        rate,
        admitted,
        h.scan.read_admitted,
        span_of(h.flow.at_ms, h.scan.read_ms),
    );
    let scan = Scan {
        open,
        trim,
        read_ms: h.flow.at_ms,
        read_admitted: admitted,
        ..h.scan
    };
    let level = levels(open, trim);
    Shedder { scan, level, ..h }
}

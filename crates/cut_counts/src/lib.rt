// The counts of cuts: by cause in the head, by source in lent rows. Behind the tags of the unit records stand those of the sources.
#![tactic(auto)]

ghost use Rattle.std.specs.Prelude.{◌≡◌, ◌+◌, ◌<◌, MatchOption, true, false, length};
ghost use Rattle.verdict.specs.Verdict.{is_admitted};
ghost use Rattle.store.specs.Held.{lent_rows, SameLent};
ghost use Rattle.store.specs.Store.{with_tags};
ghost use Rattle.store.specs.Causes.{index_of};
ghost use Rattle.cut_sources.specs.Counted as counts;
ghost use Rattle.cut_counts.specs.Counting as counting;

use cut_sources::Sources;
use flow::DIMS;
use head::Shedder;
use sender::Named;
use store::{Cause, Lent, SourceRow};
use verdict::Verdict;

// The cause of a cut; an admission has none. No TryFrom: an admission is no failure.
#[tactic(auto, unfolding(crate::specs::Counting::cause_of, verdict::specs::Verdict::is_admitted, store::specs::Causes::index_of))]
fn cause_of(verdict: Verdict) -> Option<Cause>
    ensures { MatchOption result (is_admitted verdict ≡ true)
        (λ cause. (is_admitted verdict ≡ false) × (index_of cause ≡ counting.cause_of verdict)) }
{
    match verdict {
        Verdict::Admitted => None,
        Verdict::OverShare => Some(Cause::OverShare),
        Verdict::RelayRate => Some(Cause::RelayRate),
    }
}

// One batch and its receptions more for a cause; so many sources are counted.
#[tactic(auto, unfolding(crate::specs::Counting::added, crate::specs::Counting::upped))]
fn added(mut h: Shedder, n: usize, cause: Cause, receptions: u64) -> Shedder
    ensures { result ≡ counting.added h n (index_of cause) receptions }
{
    let i = usize::from(cause);
    h.batches[i] = h.batches[i].wrapping_add(1);
    h.receptions[i] = h.receptions[i].wrapping_add(receptions);
    h.counted = n;
    h
}

// One cut more is counted under the unit named; where the spare row was taken, the least counted go: how many sources there are
// then. The slices are parameters: of a part of a slice that is put into a `Sources` in one function the check loses the value.
fn listed(
    tags: &mut [u16],
    counted: &mut [SourceRow],
    had: usize,
    named: Named,
    cause: Cause,
) -> usize
    requires had_in_bounds { had < length tags.old }
    requires had_in_bounds_2 { had < length counted.old }
    ensures counted_after { counts.sources result counted.new ≡ counts.pruned (counts.count tags.old counted.old had named.name (index_of cause)) }
    ensures tags_after { tags.new
        ≡ counts.pruned_tags (counts.count tags.old counted.old had named.name (index_of cause)) (counts.count_tags tags.old counted.old had named.name) }
{
    let mut sources = Sources { tags, counted };
    let n = sources.count(had, named, cause);
    sources.pruned(n)
}

// The same where the tags of the sources stand behind those of the unit records. The head stays outside, since it would be copied.
fn sourced(lent: &mut Lent<'_>, room: usize, had: usize, named: Named, cause: Cause) -> usize
    requires had_in_bounds { room + had < length lent.old.tags.now }
    requires had_in_bounds_2 { had < length lent.old.counted.now }
    ensures counted_after { counting.sources result lent.new.tags.now lent.new.counted.now
        ≡ counting.sourced room lent.old.tags.now lent.old.counted.now had named.name (index_of cause) }
    ensures rows_after { lent_rows lent.new ≡ with_tags (lent_rows lent.old) lent.new.tags.now }
    ensures slices { SameLent lent.old lent.new }
{
    listed(&mut lent.tags[room..], lent.counted, had, named, cause)
}

// A cut is counted: in the head under its cause, among the sources under the unit named. It is inlined, so that an admission copies
// no head for a call that it does not make.
#[inline(always)]
pub fn tallied(
    h: Shedder,
    lent: &mut Lent<'_>,
    named: Named,
    cause: Cause,
    receptions: u64,
) -> Shedder
    requires counted_in_bounds { h.unit_room + h.counted < length lent.old.tags.now }
    requires counted_in_bounds_2 { h.counted < length lent.old.counted.now }
    ensures counted_after { counting.tally result lent.new.tags.now lent.new.counted.now
        ≡ counting.tallied (counting.tally h lent.old.tags.now lent.old.counted.now) named.name (index_of cause) receptions }
    ensures tracked_value { result.tracked ≡ h.tracked }
    ensures scan_value { result.scan ≡ h.scan }
    ensures rows_after { lent_rows lent.new ≡ with_tags (lent_rows lent.old) lent.new.tags.now }
    ensures slices { SameLent lent.old lent.new }
{
    let n = sourced(lent, h.unit_room, h.counted, named, cause);
    added(h, n, cause, receptions)
}

// A verdict that cuts is counted.
pub fn count_verdict(
    h: Shedder,
    lent: &mut Lent<'_>,
    named: Named,
    verdict: Verdict,
    cost: [u64; DIMS],
) -> Shedder
    requires counted_in_bounds { h.unit_room + h.counted < length lent.old.tags.now }
    requires counted_in_bounds_2 { h.counted < length lent.old.counted.now }
    ensures counted_after { counting.tally result lent.new.tags.now lent.new.counted.now
        ≡ counting.count_verdict (counting.tally h lent.old.tags.now lent.old.counted.now) named.name verdict cost }
    ensures tracked_value { result.tracked ≡ h.tracked }
    ensures scan_value { result.scan ≡ h.scan }
    ensures rows_after { lent_rows lent.new ≡ with_tags (lent_rows lent.old) lent.new.tags.now }
    ensures slices { SameLent lent.old lent.new }
{
    let Some(cause) = cause_of(verdict) else {
        return h;
    };
    tallied(h, lent, named, cause, cost[0])
}

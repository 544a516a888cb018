// Whether a judgement uses a unit's own record, asked before the judgement.
ghost use Rattle.std.specs.Prelude.{◌≡◌, ◌&&◌};
ghost use Rattle.head.specs.Questions.{whole_with, memory_whole};
ghost use Rattle.store.specs.Held.{read_rows, read_sizes};
ghost use Rattle.fair_row.specs.Replay as replay;

use head::Shedder;
use sender::Unit;
use store::LentRead;

// Whether questions 3 and 4 are answered yes.
fn is_held(head: Shedder, lent: &LentRead<'_>) -> bool
    ensures { result ≡ (whole_with head lent.now.offsets.now && memory_whole head (read_sizes lent.now)) }
{
    head::whole_with(head, lent.offsets) && head::memory_whole(head, lent.sizes())
}

// Whether a judgement of the unit uses the unit's own record: found, or added. False where question 3 or 4 is answered no: such a judgement is refused.
fn uses_own(head: Shedder, lent: &LentRead<'_>, unit: Unit) -> bool
    ensures { result ≡ replay.own_used head (read_rows lent.now) lent.now.counted.now unit }
{
    if sender::is_overflow(unit) {
        return false;
    }
    if head.tracked < head.unit_room {
        return true;
    }
    if !is_held(head, lent) {
        return false;
    }
    let name = sender::name_of(unit);
    parts::find_in(lent.tags, lent.slots, lent.offsets, lent.units, name).is_some()
}

// Whether a judgement of the unit uses the watched record: that of the unit `watched`, or overflow's where that is overflow.
pub fn on_watched(head: Shedder, lent: &LentRead<'_>, watched: Unit, unit: Unit) -> bool
    ensures { result ≡ replay.on_watched head (read_rows lent.now) lent.now.counted.now watched unit }
{
    if uses_own(head, lent, unit) {
        return watched == unit;
    }
    sender::is_overflow(watched)
}

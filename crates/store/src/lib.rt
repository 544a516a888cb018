// Rows of lent memory: a unit's record.
#![tactic(auto)]

ghost use Rattle.std.specs.Prelude.{◌≡◌, ◌<◌, ◌≤◌, length};
ghost use Rattle.store.specs.Store as store;
ghost use Rattle.store.specs.Causes as causes;

mod floats;
mod lent;
mod lent_start;

pub use floats::{joined, part};
use flow::DIMS;
pub use lent::{Lent, LentRead, OFFSETS, Sizes};
pub use lent_start::LentStart;
use sender::{Name, Unit, Words};

// Causes of a cut. A source counts its cuts for each.
pub const CAUSES: usize = 3;

// Why a batch was cut.
#[derive(Clone, Copy)]
pub enum Cause {
    ReceiverCeiling,
    OverShare,
    RelayRate,
}

// A cause's place among the counts.
impl From<Cause> for usize {
    ghost from_gives = { λ cause i. (i ≡ causes.index_of cause) × (i < store.«CAUSES») };

    #[tactic(auto, unfolding(crate::specs::Causes::index_of))]
    fn from(cause: Cause) -> usize {
        cause as usize
    }
}

// A unit's words, its stamp and its fresh mark.
pub type UnitRow = [u64; 7];

// What the unit attempted, and its credit.
pub type UseRow = [f64; 2 * DIMS];

// A counted source: its words, and its cuts by cause.
pub type SourceRow = [u64; 5 + CAUSES];

// The unit that the row at i names by its first five words: a record's, or a counted source's.
#[tactic(auto, unfolding(crate::specs::Store::words_at))]
pub fn words_at<const N: usize>(rows: &[[u64; N]], i: usize) -> Words
    requires i_in_bounds { i < length rows.now }
    requires words_in_row { 5 ≤ N }
    ensures { result ≡ store.words_at rows.now i }
{
    let row = &rows[i];
    Words {
        kind: row[0],
        a: row[1],
        b: row[2],
        c: row[3],
        d: row[4],
    }
}

// The unit that the counted record at i reads as, by its tag and its row.
#[tactic(auto, unfolding(crate::specs::Store::unit_at))]
pub fn unit_at<const N: usize>(tags: &[u16], rows: &[[u64; N]], i: usize) -> Unit
    requires tag_in_bounds { i < length tags.now }
    requires row_in_bounds { i < length rows.now }
    requires words_in_row { 5 ≤ N }
    ensures { result ≡ store.unit_at tags.now rows.now i }
{
    Unit::from(Name {
        tag: tags[i],
        words: words_at(rows, i),
    })
}

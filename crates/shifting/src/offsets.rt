// The offsets at which the parts of a slice of entries begin. The last is the end of the last part.
ghost use Rattle.std.specs.Prelude.{◌≡◌, ℕ, ◌<◌, ◌≤◌, ◌+◌, ◌-◌, length, slice_index};
ghost use Rattle.shifting.specs.Offsets as offsets;

// Parts of the entries, one for each table.
pub const PARTS: usize = 64;

// One more from the offset at i on.
pub fn raise(starts: &mut [u32], i: usize)
    requires i_in_bounds { i ≤ length starts.old }
    requires fits { (k : ℕ) → i ≤ k → k < length starts.old → slice_index starts.old k < 4294967295 }
    ensures { starts.new ≡ offsets.from_on (λ o. o + 1) starts.old i }
{
    for k in i..starts.len() {
        starts[k] += 1;
    }
}

// Less by d from the offset at i on.
pub fn lower(starts: &mut [u32], i: usize, d: u32)
    requires i_in_bounds { i ≤ length starts.old }
    requires d_le { (k : ℕ) → i ≤ k → k < length starts.old → d ≤ slice_index starts.old k }
    ensures { starts.new ≡ offsets.from_on (λ o. o - d) starts.old i }
{
    for k in i..starts.len() {
        starts[k] -= d;
    }
}

// Whether none falls. No jump depends on a comparison.
fn rises(starts: &[u32; PARTS + 1]) -> bool
    ensures { result ≡ offsets.rising starts.now offsets.«PARTS» }
{
    let mut rises = true;
    for k in 0..PARTS {
        rises &= starts[k] <= starts[k + 1];
    }
    rises
}

// Whether the offsets begin at 0, never fall and end at n.
#[tactic(auto, unfolding(crate::specs::Offsets::is_whole))]
pub fn is_whole(starts: &[u32; PARTS + 1], n: usize) -> bool
    ensures { result ≡ offsets.is_whole starts.now n }
{
    starts[0] == 0 && starts[PARTS] as usize == n && rises(starts)
}

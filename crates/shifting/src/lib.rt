// Slices of entries of which the first n are in use, one part behind the other: an entry comes in, entries leave. The offsets at which the
// parts begin.
#![tactic(auto)]

ghost use Rattle.std.specs.Prelude.{◌≡◌, ◌<◌, ◌≤◌, ◌+◌, length};
ghost use Rattle.shifting.specs.Shifting as shifting;

mod offsets;

pub use offsets::{PARTS, is_whole, lower, raise};

// An entry comes in at p, of n; those behind go one place up, over what stood at n. One pass in ascending order, which the compiler
// makes many entries at once.
pub fn insert<T: Copy>(entries: &mut [T], p: usize, n: usize, entry: T)
    requires p_le_n { p ≤ n }
    requires n_in_bounds { n < length entries.old }
    ensures { entries.new ≡ shifting.inserted entries.old p n entry }
{
    let mut held = entry;
    for i in p..n + 1 {
        let next = entries[i];
        entries[i] = held;
        held = next;
    }
}

// The places from a to b become `zero`. Not std's `fill`, which asks that a clone cannot fail.
fn clear<T: Copy>(entries: &mut [T], a: usize, b: usize, zero: T)
    requires a_le_b { a ≤ b }
    requires b_in_bounds { b ≤ length entries.old }
    ensures { entries.new ≡ shifting.zeroed entries.old a b zero }
{
    for i in a..b {
        entries[i] = zero;
    }
}

// The entries from `to` to n go down to j; the places that are then free become `zero`.
pub fn close<T: Copy>(entries: &mut [T], j: usize, to: usize, n: usize, zero: T)
    requires j_le_to { j ≤ to }
    requires to_le_n { to ≤ n }
    requires n_in_bounds { n ≤ length entries.old }
    ensures { entries.new ≡ shifting.closed entries.old j to n zero }
{
    entries.copy_within(to..n, j);
    clear(entries, n - (to - j), n, zero);
}

// The numbers below the length, the lowest last.
pub fn count_down(numbers: &mut [u32])
    requires { length numbers.old ≤ 4294967296 }
    ensures { numbers.new ≡ shifting.down (length numbers.old) }
{
    let n = numbers.len();
    for k in 0..n {
        numbers[k] = (n - 1 - k) as u32;
    }
}

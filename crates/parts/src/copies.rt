// The copies of entries of the index that a drop makes, each counted. The count takes no bytes, and counting has no code.
ghost use Rattle.std.specs.Prelude.{◌≡◌, ◌+◌, ◌<◌, ◌≤◌, length, get_or, set};
ghost use Rattle.parts.specs.Held.{held, SameParts, SameRecords, Sized};
ghost use Rattle.parts.specs.Indexed.{SameIndex, passed};
ghost use Rattle.shifting.specs.Shifting.{closed};

use super::{Parts, drops};
use std::marker::Model;
use std::sync::ledger::{Blank, Book, Ledger, Share};

// How many entries were copied. Only `tick` changes it.
#[derive(Drop)]
pub struct Copies<L: Ledger> {
    book: Book<L>,
    share: Share<L>,
}

impl<L: Ledger> Model for Copies<L> {
    ghost use Rattle.std.specs.Prelude.{ℕ, ◌<◌};

    ghost Value = { ℕ };

    ghost view = { λ c. c.book.total };

    ghost invariant = { λ c. 0 < c.share.parts };
}

impl<L: Ledger> Copies<L> {
    pub fn new(blank: Blank) -> Copies<L>
        requires name { blank.name ≡ L.name }
        requires parts { blank.parts ≡ L.parts }
        requires some { 0 < blank.parts }
        ensures { result ≡ 0 }
    {
        let (book, share) = blank.open::<L>();
        Copies { book, share }
    }

    fn tick(&mut self, n: usize)
        ensures { self.new ≡ self.old + n }
    {
        self.book.add(&mut self.share, n as u64);
    }
}

// The two rows of the index, lent to a drop. They change by copies alone, and each copy counts.
#[derive(Drop)]
pub struct Index<'a, L: Ledger> {
    tags: &'a mut [u16],
    slots: &'a mut [u32],
    copies: &'a mut Copies<L>,
}

impl<L: Ledger> Index<'_, L> {
    pub fn slot(&self, i: usize) -> u32
        requires i_in_bounds { i < length self.now.slots.now }
        ensures { result ≡ get_or self.now.slots.now i 0 }
    {
        self.slots[i]
    }

    // The entry at i goes down to j: one copy.
    pub fn take_down(&mut self, i: usize, j: usize)
        requires j_le_i { j ≤ i }
        requires i_in_bounds { i < length self.old.tags.now }
        requires i_in_bounds_2 { i < length self.old.slots.now }
        ensures tags_after { self.new.tags.now ≡ set self.old.tags.now j (get_or self.old.tags.now i 0) }
        ensures slots_after { self.new.slots.now ≡ set self.old.slots.now j (get_or self.old.slots.now i 0) }
        ensures cost { self.new.copies.now ≡ self.old.copies.now + 1 }
        ensures slices { SameIndex self.old self.new }
    {
        self.slots[j] = self.slots[i];
        self.tags[j] = self.tags[i];
        self.copies.tick(1);
    }

    // The entries from `to` to n go down to j, a copy each; the places that are then free become 0.
    pub fn close(&mut self, j: usize, to: usize, n: usize)
        requires j_le_to { j ≤ to }
        requires to_le_n { to ≤ n }
        requires n_in_bounds { n ≤ length self.old.tags.now }
        requires n_in_bounds_2 { n ≤ length self.old.slots.now }
        ensures tags_after { self.new.tags.now ≡ closed self.old.tags.now j to n 0 }
        ensures slots_after { self.new.slots.now ≡ closed self.old.slots.now j to n 0 }
        ensures cost { self.new.copies.now + to ≡ self.old.copies.now + n }
        ensures slices { SameIndex self.old self.new }
    {
        shifting::close(self.tags, j, to, n, 0);
        shifting::close(self.slots, j, to, n, 0);
        self.copies.tick(n - to);
    }
}

impl Parts<'_> {
    // Of the first n entries those from `from` up to `to` leave whose records are stale, and their slots go to the free ones: where the
    // others of them end. Here the two rows of the index are lent as one that counts.
    pub(super) fn squeeze<L: Ledger>(
        &mut self,
        from: usize,
        to: usize,
        n: usize,
        at_ms: u64,
        copies: &mut Copies<L>,
    ) -> usize
        requires sizes { Sized (held self.old) }
        requires from_le_to { from ≤ to }
        requires to_le_n { to ≤ n }
        requires n_fits { n ≤ length self.old.units.now }
        ensures value { result ≡ (passed (held self.old) from to n at_ms).count }
        ensures tags_after { self.new.tags.now ≡ closed (passed (held self.old) from to n at_ms).tags result to n 0 }
        ensures slots_after { self.new.slots.now ≡ closed (passed (held self.old) from to n at_ms).slots result to n 0 }
        ensures free_after { self.new.free.now ≡ (passed (held self.old) from to n at_ms).free }
        ensures records { SameRecords self.old self.new }
        ensures lower_bound { from ≤ result }
        ensures upper_bound { result ≤ to }
        ensures cost { copies.new + from + to ≡ copies.old + result + n }
        ensures slices { SameParts self.old self.new }
    {
        let f = self.units.len() - n;
        let units = &mut *self.units;
        let free = &mut *self.free;
        let mut index = Index {
            tags: &mut *self.tags,
            slots: &mut *self.slots,
            copies: &mut *copies,
        };
        let j = drops::sift(&mut index, free, units, from, to, f, at_ms);
        index.close(j, to, n);
        j
    }
}

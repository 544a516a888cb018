// The cases of check_cases/specs/Cases, in its order, run.
ghost use Rattle.flow.specs.Flow.{dims};
ghost use Rattle.std.specs.Prelude.{◌<◌};
ghost use Rattle.wants.specs.Wants as wants;

use crate::says::Level;
use cut_sources::Sources;
use flow::{Bucket, DIMS, Use};
use label::Label;
use sender::{Group, Unit};
use std::io;
use wants::{BUCKETS, Histogram};

fn hashes(rt: &impl Print) -> io::Result<()> {
    for (byte, unit) in [(2, Unit::NoAddress), (3, Unit::Overflow)] {
        let hash = sender::hash_of(unit);
        println!(rt;
            "hash of byte {byte}: {hash:016x}, table {}",
            sender::table_of(unit)
        )?;
    }
    Ok(())
}

fn buckets(rt: &impl Print) -> io::Result<()> {
    for (name, want) in [
        ("1", 1.0),
        ("1.5", 1.5),
        ("2", 2.0),
        ("2^48", 281474976710656.0),
    ] {
        println!(rt; "bucket of {name}: {}", wants::bucket::bucket_of(want))?;
    }
    Ok(())
}

// The level of one dimension at rate 10, of these wants.
fn level_of(dim: usize, of: &[f64]) -> Level
    requires { dim < dims }
{
    let mut counts = [[0; BUCKETS]; DIMS];
    let mut sums = [[0.0; BUCKETS]; DIMS];
    let mut histogram = Histogram {
        counts: &mut counts,
        sums: &mut sums,
    };
    for want in of {
        histogram.add(dim, *want);
    }
    Level(histogram.level(dim, 10.0))
}

fn levels(rt: &impl Print) -> io::Result<()> {
    // By place: `level_of` takes the dimension by it.
    for d in 0..DIMS {
        println!(rt; "rate 10, level of 2, 20: {}", level_of(d, &[2.0, 20.0]))?;
        println!(rt; "rate 10, level of 2, 3: {}", level_of(d, &[2.0, 3.0]))?;
        println!(rt; "rate 10, level of none: {}", level_of(d, &[]))?;
    }
    Ok(())
}

// A counted source: a group's words, and its total as one of its counts.
fn source(group: u64, total: u64) -> [u64; 8] {
    [1, group, 0, 0, 0, total, 0, 0]
}

// Five sources with these totals, of which four may be kept: how many stay, and their totals.
fn pruned(rt: &impl Print, totals: [u64; 5]) -> io::Result<()> {
    let [a, b, c, d, e] = totals;
    let mut counted = [
        source(1, a),
        source(2, b),
        source(3, c),
        source(4, d),
        source(5, e),
    ];
    let mut tags = [0; 5];
    let mut sources = Sources {
        tags: &mut tags,
        counted: &mut counted,
    };
    let n = sources.pruned(5);
    print!(rt; "totals {a}, {b}, {c}, {d}, {e}, {n} stay:")?;
    // By place: `total_at` takes it.
    for i in 0..n {
        print!(rt; " {}", cut_sources::total_at(&counted, i))?;
    }
    rt.println("")
}

fn prefix(rt: &impl Print) -> io::Result<()> {
    for prefix in [0x2001_0000, 0, 0x0db8, 0x2001_0db8] {
        let label = Label::of(Unit::Group(Group::V6(prefix)));
        print!(rt; "prefix {prefix:08x}: ")?;
        rt.write_all(label.as_bytes())?;
        rt.println("")?;
    }
    Ok(())
}

// A fresh unit's want at its first judgement: rate and level 10, cost 20, in every dimension. The verdict on it is the first
// step.
fn fresh_want(rt: &impl Print) -> io::Result<()> {
    let rate = [10.0; DIMS];
    let cost = [20.0; DIMS];
    let tried = Use::new(1000)
        .credited(1000, flow::fills(rate, rate))
        .fade_to(1000)
        .tried(cost);
    let weight = verdict::weight_of(true, 0);
    let want = verdict::want(weight, tried.attempted, cost, rate);
    let tokens = Bucket::new(10, 0).tokens;
    print!(rt; "rate 10, fresh cost 20: tokens {tokens}, want {want}")
}

pub fn run(rt: &impl Print) -> io::Result<()> {
    hashes(rt)?;
    buckets(rt)?;
    levels(rt)?;
    for totals in [[1, 1, 2, 3, 4], [4, 1, 3, 2, 1], [7, 7, 7, 7, 7]] {
        pruned(rt, totals)?;
    }
    prefix(rt)?;
    for stamp in [0, 1_400_000] {
        println!(rt; "fade of {stamp}: {}", fade::fade(stamp))?;
    }
    fresh_want(rt)
}

//! Verdicts on small programs of ten places, a line each: the verdict, and the places of the way to the commit, or the first open place.
#![tactic(auto)]

ghost use Rattle.std.specs.Prelude.{◌<◌};

use rule_places::{CALLS, COMMITS, Coded, FURTHER, NEXT, OPENS, RETURNS, TARGET};
use rule_verdict::{Verdict, judge};
use std::io;
use word::refusal::Refusal;

/// Leaves the state as it is, stores, makes a barrier, or makes one under a condition.
const KEEPS: u32 = 9;

const STORES: u32 = 10;

const BARRIER: u32 = 5;

const MAYBE: u32 = 13;

fn number(rt: &impl Print, x: usize) -> io::Result<()> {
    print!(rt; " {x}")
}

fn places(rt: &impl Print, way: &[u32], n: usize) -> io::Result<()> {
    for &place in way.iter().take(n) {
        number(rt, place as usize)?;
    }
    Ok(())
}

fn answer(rt: &impl Print, r: Result<Verdict, Refusal>, way: &[u32]) -> io::Result<()> {
    match r {
        Err(refusal) => {
            rt.print("refused")?;
            number(rt, refusal.number() as usize)
        }
        Ok(Verdict::Violated(n)) => {
            rt.print("violated")?;
            places(rt, way, n)
        }
        Ok(Verdict::Undecided(place)) => {
            rt.print("undecided")?;
            number(rt, place)
        }
        Ok(Verdict::Holds) => rt.print("holds"),
    }
}

fn show(rt: &impl Print, flags: &[u32; 10], further: &[u32]) -> io::Result<()> {
    let mut known = [0xffff_ffff; 2];
    let mut dist = [7u16; 24];
    let mut from = [7u16; 24];
    let mut way = [7u32; 24];
    let program = Coded {
        flags,
        targets: &[6; 10],
        further,
        entries: &[0],
    };
    let r = judge(program, &mut known, &mut dist, &mut from, &mut way);
    answer(rt, r, &way)?;
    rt.print("\n")
}

/// The routine at 0 calls that at 6, passes a barrier, calls it again, and commits at 3. The routine at 6 does `first`, then `last` and returns.
fn twice(first: u32, last: u32) -> [u32; 10]
    requires { (first < 4096) × (last < 4096) }
{
    [
        KEEPS + TARGET + CALLS,
        BARRIER + NEXT,
        KEEPS + TARGET + CALLS,
        KEEPS + COMMITS + RETURNS,
        0,
        0,
        first + NEXT,
        last + RETURNS,
        0,
        0,
    ]
}

fn main(rt: HostRuntime) -> io::Result<()> {
    let none = [0u32; 0];
    // The routine stores nothing: it returns clean where it was called clean, and dirty to the other call alone.
    show(&rt, &twice(KEEPS, KEEPS), &none)?;
    // It stores.
    show(&rt, &twice(STORES, KEEPS), &none)?;
    // It stores, may call itself, and passes a barrier before it returns.
    show(&rt, &twice(STORES + TARGET + CALLS, BARRIER), &none)?;
    // The same with the barrier under a condition.
    show(&rt, &twice(STORES + TARGET + CALLS, MAYBE), &none)?;
    // Its end is open.
    show(&rt, &twice(KEEPS, KEEPS + OPENS), &none)?;
    // A switch at 6: to its end, and to a place that commits.
    let switch = [6u32, 7, 6, 3];
    show(&rt, &twice(KEEPS + FURTHER, KEEPS), &switch)?;
    // A pair that names a place outside.
    let outside = [6u32, 10];
    show(&rt, &twice(KEEPS, KEEPS), &outside)?;
    // The barrier is in the routine.
    let mut inner = twice(KEEPS, KEEPS);
    inner[1] = KEEPS + NEXT;
    inner[6] = BARRIER + NEXT;
    show(&rt, &inner, &none)?;
    // And both calls are under a condition.
    inner[0] = KEEPS + NEXT + TARGET + CALLS;
    inner[2] = KEEPS + NEXT + TARGET + CALLS;
    show(&rt, &inner, &none)
}

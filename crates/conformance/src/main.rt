#![tactic(auto)]

mod case;
mod collect;
mod compare;
mod generate;
mod random;
mod tally;
mod worked;

use compare::{expected, same};
use generate::Size;
use random::Random;
use std::alloc::{AllocError, Global};
use tally::Tally;

// Works cases that are generated from a seed through the library and through the second expander.
fn generated(
    heap: Global,
    seed: u64,
    cases: u32,
    size: Size,
    damaged: u64,
) -> Result<Tally, AllocError> {
    let mut random = Random::new(seed);
    let mut tally = Tally::default();
    for _ in 0..cases {
        let case = generate::case(heap, &mut random, size, damaged)?;
        let expanded = expected(heap, &case);
        let agreed = same(heap, &case, &expanded)?;
        tally.add(&expanded, agreed);
    }
    Ok(tally)
}

fn say(rt: &HostRuntime, what: &str, holds: bool) -> anyhow::Result<()> {
    let word = if holds { "yes" } else { "NO" };
    println!(rt; "{what}: {word}")?;
    Ok(())
}

fn tell(rt: &HostRuntime, what: &str, tally: Tally) -> anyhow::Result<()> {
    println!(rt; "{what}: {tally}")?;
    Ok(())
}

// Each is told before the next is worked: where memory ends, what was found before it has been printed.
fn worked_cases(rt: &HostRuntime, heap: Global) -> anyhow::Result<()> {
    say(
        rt,
        "a value of 64 bytes is read",
        worked::value_is_read(heap, 64)?,
    )?;
    say(
        rt,
        "a value of 65 bytes is refused",
        worked::value_is_refused(heap, 65)?,
    )?;
    say(
        rt,
        "scope descendants is cause 43",
        worked::small_letters_are_no_scope(heap)?,
    )?;
    say(
        rt,
        "rows Permit and NotApplicable: verdict Deny",
        worked::mixed_rows_are_denied(heap)?,
    )?;
    say(
        rt,
        "caught: a bad reference that silences the good ones",
        worked::catches_silence(heap)?,
    )?;
    say(
        rt,
        "caught: descent by a common beginning of paths",
        worked::catches_beginnings(heap)?,
    )?;
    say(
        rt,
        "caught: a rule that stops at an Indeterminate condition",
        worked::catches_stopping(heap)?,
    )
}

fn main(rt: HostRuntime) -> anyhow::Result<()> {
    let heap = rt.alloc();
    worked_cases(&rt, heap)?;
    let small = Size {
        elements: 5,
        nodes: 9,
    };
    tell(
        &rt,
        "small and whole",
        generated(heap, 1, 4000, small, 1_000_000)?,
    )?;
    tell(
        &rt,
        "small and damaged",
        generated(heap, 2, 4000, small, 2)?,
    )?;
    let large = Size {
        elements: 14,
        nodes: 90,
    };
    tell(&rt, "large", generated(heap, 3, 100, large, 1_000_000)?)
}

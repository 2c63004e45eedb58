// The proved crates against the naive second text of the same rules, on drawn cases.
#![tactic(auto)]

mod arguments;
mod case;
mod ends;
mod examples;
mod figures;
mod kinds;
mod looks;
mod papers;
mod stacks;
mod talks;
mod trials;

use anyhow::anyhow;
use case::{Case, Clerk, Kind, Subject};
use draws::chance::Chance;
use examples::EXAMPLES;
use kinds::{CALLS, LOOKS, PAPERS, RUNS, TALKS, TESTS, WRITINGS};
use std::fmt::Debug;

// How the cases of a run went so far.
#[derive(Drop)]
struct Tally {
    clerk: Clerk,
    // How many kinds were checked.
    kinds: u64,
    // How many cases disagree.
    disagreed: u32,
}

impl Tally {
    // Asks both texts; the first case that disagrees is printed with its input.
    fn judge<C: Case + Debug>(
        &mut self,
        rt: &HostRuntime,
        name: &str,
        number: u32,
        case: &C,
    ) -> anyhow::Result<bool> {
        if case.agrees(&mut self.clerk)? {
            return Ok(true);
        }
        if self.disagreed == 0 {
            println!(rt; "first that disagrees: {name}, case {number}: {case:?}")?;
        }
        self.disagreed = self.disagreed.saturating_add(1);
        Ok(false)
    }

    // Ends a kind and prints how many of its cases agree.
    fn end_kind(
        &mut self,
        rt: &HostRuntime,
        name: &str,
        agreed: u32,
        cases: u32,
    ) -> anyhow::Result<()> {
        self.kinds = self.kinds.saturating_add(1);
        println!(rt; "{name}: {agreed} of {cases} agree")?;
        Ok(())
    }

    // Checks the worked examples.
    fn check_examples(&mut self, rt: &HostRuntime) -> anyhow::Result<()> {
        let name = "worked examples";
        let mut agreed = 0u32;
        for (number, example) in (0..).zip(&EXAMPLES) {
            if self.judge(rt, name, number, example)? {
                agreed = agreed.saturating_add(1);
            }
        }
        self.end_kind(rt, name, agreed, EXAMPLES.len() as u32)
    }

    // Checks all cases of a kind, which have a chance of their own.
    fn check_kind<S: Subject>(&mut self, rt: &HostRuntime, kind: &Kind<S>) -> anyhow::Result<()> {
        let mut chance = Chance::new(self.kinds);
        let mut agreed = 0u32;
        for number in 0..kind.cases {
            let last = chance.between(kind.last.0, kind.last.1);
            let case = kind.about.draw(rt.alloc(), &mut chance, last)?;
            if self.judge(rt, kind.name, number, &case)? {
                agreed = agreed.saturating_add(1);
            }
        }
        self.end_kind(rt, kind.name, agreed, kind.cases)
    }

    // Checks some kinds.
    fn check_kinds<S: Subject>(
        &mut self,
        rt: &HostRuntime,
        kinds: &[Kind<S>],
    ) -> anyhow::Result<()> {
        for kind in kinds {
            self.check_kind(rt, kind)?;
        }
        Ok(())
    }

    // Prints how often each number of a call, a record or a certificate was answered.
    fn print_met(&self, rt: &HostRuntime) -> anyhow::Result<()> {
        for number in 0..22 {
            let count = self.clerk.count(number);
            println!(rt; "answered {number}: {count}")?;
        }
        Ok(())
    }
}

// Checks every kind.
fn run(rt: &HostRuntime) -> anyhow::Result<()> {
    let mut tally = Tally {
        clerk: Clerk::new(rt.alloc()),
        kinds: 0,
        disagreed: 0,
    };
    tally.check_examples(rt)?;
    tally.check_kinds(rt, &LOOKS)?;
    tally.check_kinds(rt, &CALLS)?;
    tally.check_kinds(rt, &RUNS)?;
    tally.check_kinds(rt, &TESTS)?;
    tally.check_kinds(rt, &PAPERS)?;
    tally.check_kinds(rt, &WRITINGS)?;
    tally.check_kinds(rt, &TALKS)?;
    tally.print_met(rt)?;
    if tally.disagreed > 0 {
        return Err(anyhow!("some cases disagree"));
    }
    Ok(())
}

fn main(rt: HostRuntime) -> anyhow::Result<()> {
    run(&rt)
}

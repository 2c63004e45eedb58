// The pass over the touches against the naive way over all positions and all touches, on tables drawn by chance.
#![tactic(auto)]

mod compare;
mod naive_way;
mod tables;

use draws::chance::Chance;
use tables::{Heights, Kind, Table};
use terms::limits::{LAST_MAX, SLACK_MAX, SLOPE_MAX};

const LAST: u16 = LAST_MAX as u16;

const SLOPE: u16 = SLOPE_MAX as u16;

const SLACK: u16 = SLACK_MAX as u16;

const KINDS: [Kind; 6] = [
    Kind {
        name: "short beds",
        tables: 2_000,
        last: (1, 30),
        slope: (1, 9),
        slack: (0, 9),
        draws: (0, 12),
        heights: Heights::Lawful,
    },
    Kind {
        name: "full beds",
        tables: 500,
        last: (1, 8),
        slope: (1, 4),
        slack: (0, 4),
        draws: (30, 60),
        heights: Heights::Lawful,
    },
    Kind {
        name: "long slopes",
        tables: 500,
        last: (100, 400),
        slope: (1, 300),
        slack: (0, SLACK),
        draws: (1, 40),
        heights: Heights::Lawful,
    },
    Kind {
        name: "unlawful heights",
        tables: 1_000,
        last: (1, 60),
        slope: (1, 2_000),
        slack: (0, 2_000),
        draws: (1, 20),
        heights: Heights::Free,
    },
    Kind {
        name: "steepest lines",
        tables: 200,
        last: (3_990, LAST),
        slope: (39_990, SLOPE),
        slack: (39_990, SLACK),
        draws: (1, 6),
        heights: Heights::Free,
    },
    Kind {
        name: "largest tables",
        tables: 12,
        last: (LAST, LAST),
        slope: (1, 60),
        slack: (0, 60),
        draws: (300, 600),
        heights: Heights::Lawful,
    },
];

// How the tables of a run went so far. The tally of `crosscases` is apart: it prints other words, counts refusals and knows cases of other types.
#[derive(Drop)]
struct Tally {
    disagreed: u32,
}

impl Tally {
    // Whether the two ways agree on a table. The first that they do not agree on is printed.
    fn judge(&mut self, rt: &HostRuntime, table: &Table) -> anyhow::Result<bool> {
        if table.do_ways_agree(rt.alloc())? {
            return Ok(true);
        }
        if self.disagreed == 0 {
            let Table {
                line,
                touches,
                tolerance,
            } = table;
            println!(rt; "first that disagrees: {line:?}, tolerance {tolerance}, {touches:?}")?;
        }
        self.disagreed = self.disagreed.saturating_add(1);
        Ok(false)
    }

    // How many tables of a kind agree.
    fn check_kind(
        &mut self,
        rt: &HostRuntime,
        kind: &Kind,
        chance: &mut Chance,
    ) -> anyhow::Result<u32> {
        let mut agreed = 0u32;
        for _ in 0..kind.tables {
            let table = kind.draw(rt.alloc(), chance)?;
            if self.judge(rt, &table)? {
                agreed = agreed.saturating_add(1);
            }
        }
        Ok(agreed)
    }
}

fn run(rt: &HostRuntime) -> anyhow::Result<()> {
    let mut chance = Chance::new(1);
    let mut tally = Tally { disagreed: 0 };
    for kind in &KINDS {
        let agreed = tally.check_kind(rt, kind, &mut chance)?;
        let name = kind.name;
        let tables = kind.tables;
        println!(rt; "{name}: {agreed} of {tables} tables agree")?;
    }
    Ok(())
}

fn main(rt: HostRuntime) -> anyhow::Result<()> {
    run(&rt)
}

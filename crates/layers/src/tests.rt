ghost use Rattle.std.specs.Prelude.{◌≡◌, Ok, Err};
ghost use Rattle.terms.specs.declared.refusal.Refusal.TheVariants.{GaugeFault};
ghost use Rattle.layers.specs.Layers.{flip_meaning, higher_meaning};

use crate::coarse::Coarse;
use crate::flip::Flip;
use crate::higher::Higher;
use crate::step::Step;
use crate::sum::Sum;
use gauges::gauge::Gauge;
use gauges::table::Table;
use gauges::tent::Tent;
use std::test::Fail;
use terms::fault::{Cause, Fault, LAYER};
use terms::limits::UNREAD;
use terms::refusal::Refusal;

// Code over any gauge: a fault rises to the refusal 16.
fn touched<G: Gauge>(gauge: &G, position: u32) -> Result<i32, Refusal>
    ensures { elim ((G.Gauge.meaning gauge.now).reading position) [ Ok h ↦ result ≡ Ok h | Err f ↦ result ≡ Err (GaugeFault f) ] }
{
    Ok(gauge.read(position)?)
}

// Code over a stack of any two gauges, proved once against the trait.
fn flipped_higher<A: Gauge + Drop, B: Gauge + Drop>(
    first: A,
    second: B,
    position: u32,
) -> Result<i32, Fault>
    ensures { result ≡ (flip_meaning (higher_meaning (A.Gauge.meaning first) (B.Gauge.meaning second))).reading position }
{
    let stack = Flip::over(Higher::of(first, second));
    stack.read(position)
}

// A fault of the gauge of that name that came up through so many layers.
fn risen(cause: Cause, position: u32, gauge: u8, layers: u8) -> Fault {
    Fault {
        cause,
        position,
        gauge,
        layers,
    }
}

#[test]
fn flip_over_higher_of_table_and_tent(rt: HostRuntime) -> Result<(), Fail> {
    let heights = [0, 5, UNREAD, -15];
    Table::check(&heights, 5, 10, 2)?;
    let stack = Flip::over(Higher::of(Table::new(&heights, 5, 10, 2), Tent::new(10, 9, 1, 0, 7)?));
    assert_eq!(rt; stack.last(), 3);
    assert_eq!(rt; stack.slope(), 9);
    assert_eq!(rt; stack.slack(), 10);
    assert_eq!(rt; touched(&stack, 1), Ok(-5));
    assert_eq!(rt; touched(&stack, 3), Ok(15));
    let hole = touched(&stack, 2);
    assert_eq!(rt;
        hole,
        Err(Refusal::GaugeFault(risen(Cause::Unread, 2, 2, 2)))
    );
    assert_eq!(rt; stack.read(4), Err(risen(Cause::Beyond, 4, LAYER, 1)));
    Ok(())
}

#[test]
fn lasts_differ(rt: HostRuntime) -> Result<(), Fail> {
    let low = Tent::new(10, 5, 3, 10, 7)?;
    let long = Tent::new(20, 1, 0, 0, 8)?;
    assert_eq!(rt;
        Flip::over(low).read(11),
        Err(risen(Cause::Beyond, 11, 7, 1))
    );
    assert_eq!(rt;
        Coarse::over(low, Step::new(10)?).read(11),
        Err(risen(Cause::Beyond, 11, 7, 1))
    );
    assert_eq!(rt;
        Higher::of(long, low).read(11),
        Err(Fault::beyond(11, LAYER))
    );
    assert_eq!(rt; Sum::of(low, long).read(11), Err(Fault::beyond(11, LAYER)));
    assert_eq!(rt; Higher::of(long, Sum::of(low, long)).last(), 10);
    Ok(())
}

#[test]
fn fault_of_the_first_ends_the_reading(rt: HostRuntime) -> Result<(), Fail> {
    let heights = [0, UNREAD];
    Table::check(&heights, 1, 0, 2)?;
    Table::check(&heights, 1, 0, 3)?;
    let two = Table::new(&heights, 1, 0, 2);
    let three = Table::new(&heights, 1, 0, 3);
    assert_eq!(rt;
        Sum::of(two, three).read(1),
        Err(risen(Cause::Unread, 1, 2, 1))
    );
    assert_eq!(rt;
        Higher::of(three, two).read(1),
        Err(risen(Cause::Unread, 1, 3, 1))
    );
    Ok(())
}

#[test]
fn coarse_rounds_down(rt: HostRuntime) -> Result<(), Fail> {
    let heights = [-1, 19, -20_000];
    Table::check(&heights, 40_000, 39_995, 1)?;
    let table = Table::new(&heights, 40_000, 39_995, 1);
    let tens = Coarse::over(table, Step::new(10)?);
    assert_eq!(rt; tens.read(0), Ok(-10));
    assert_eq!(rt; tens.read(1), Ok(10));
    assert_eq!(rt; tens.slack(), 40_000);
    assert_eq!(rt; Coarse::over(table, Step::new(7)?).read(2), Ok(-20_000));
    assert_eq!(rt; Step::new(0).err(), Some(Refusal::StepOutOfRange));
    assert_eq!(rt; Step::new(1_001).err(), Some(Refusal::StepOutOfRange));
    Ok(())
}

#[test]
fn sum_stays_in_range(rt: HostRuntime) -> Result<(), Fail> {
    let sum = Sum::of(
        Tent::new(5, 30_000, 0, 15_000, 1)?,
        Tent::new(5, 20_000, 0, 9_000, 2)?,
    );
    assert_eq!(rt; sum.read(0), Ok(20_000));
    assert_eq!(rt; sum.read(1), Ok(-20_000));
    assert_eq!(rt; sum.slope(), 40_000);
    assert_eq!(rt; flipped_higher(sum, Tent::new(5, 1, 5, -10, 3)?, 4), Ok(11));
    Ok(())
}

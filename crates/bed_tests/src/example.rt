use bed::survey::Survey;
use caps::Touch;
use gauges::table::Table;
use logs::setting::Setting;
use std::test::Fail;
use surveys::answers::Report;
use terms::refusal::Refusal;

// Last 10, slope 5, slack 0.
pub(crate) const SHEET: [i32; 11] = [0, 4, 8, 10, 9, 5, 6, 9, 7, 3, 0];

fn touched(position: u16, height: i16) -> Result<Touch, Refusal> {
    Ok(Touch { position, height })
}

// At tolerance 3 high touches 0, 10, 5, 3, 7.
#[test]
fn high_touches_where_the_cap_is_largest(rt: HostRuntime) -> Result<(), Fail> {
    Table::check(&SHEET, 5, 0, 1)?;
    let mut survey = Survey::open(Table::new(&SHEET, 5, 0, 1), Setting::new(3, 256)?);
    assert_eq!(rt; survey.high(), touched(0, 0));
    assert_eq!(rt; survey.ask()?.ceiling, 50);
    assert_eq!(rt; survey.high(), touched(10, 0));
    assert_eq!(rt; survey.ask()?.ceiling, 25);
    assert_eq!(rt; survey.high(), touched(5, 5));
    assert_eq!(rt; survey.ask()?.ceiling, 15);
    assert_eq!(rt; survey.high(), touched(3, 10));
    assert_eq!(rt; survey.ask()?.ceiling, 15);
    assert_eq!(rt; survey.high(), touched(7, 9));
    let report = Report {
        floor: Touch {
            position: 3,
            height: 10,
        },
        ceiling: 10,
        touches: 5,
        settled: true,
    };
    assert_eq!(rt; survey.ask(), Ok(report));
    Ok(())
}

// After 0, 10, 5, 3 left touches 7: the gaps 1 to 2 and 4 are not open.
#[test]
fn left_touches_in_the_lowest_open_gap(rt: HostRuntime) -> Result<(), Fail> {
    Table::check(&SHEET, 5, 0, 1)?;
    let mut survey = Survey::open(Table::new(&SHEET, 5, 0, 1), Setting::new(3, 256)?);
    assert_eq!(rt; survey.at(0), touched(0, 0));
    assert_eq!(rt; survey.at(10), touched(10, 0));
    assert_eq!(rt; survey.at(5), touched(5, 5));
    assert_eq!(rt; survey.at(3), touched(3, 10));
    assert_eq!(rt; survey.left(), touched(7, 9));
    Ok(())
}

// The first touch of left is position 0.
#[test]
fn left_begins_at_zero(rt: HostRuntime) -> Result<(), Fail> {
    Table::check(&SHEET, 5, 0, 1)?;
    let mut survey = Survey::open(Table::new(&SHEET, 5, 0, 1), Setting::new(3, 256)?);
    assert_eq!(rt; survey.left(), touched(0, 0));
    assert_eq!(rt; survey.left(), touched(10, 0));
    Ok(())
}

// After one touch the sheet is settled at tolerance 50, and not at 49.
#[test]
fn settled_by_the_tolerance(rt: HostRuntime) -> Result<(), Fail> {
    Table::check(&SHEET, 5, 0, 1)?;
    let mut survey = Survey::open(Table::new(&SHEET, 5, 0, 1), Setting::new(49, 256)?);
    assert_eq!(rt; survey.high(), touched(0, 0));
    assert!(rt; !survey.ask()?.settled);
    survey.tol(50)?;
    assert!(rt; survey.ask()?.settled);
    Ok(())
}

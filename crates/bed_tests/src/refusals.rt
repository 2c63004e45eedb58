use bed::survey::Survey;
use caps::Touch;
use gauges::table::Table;
use logs::setting::Setting;
use std::test::Fail;
use terms::fault::Fault;
use terms::limits::UNREAD;
use terms::refusal::Refusal;

// Slope 5, slack 0; no reading at 0 and 2.
const HOLED: [i32; 3] = [UNREAD, 1, UNREAD];

// Slope 5, slack 0.
const FLAT: [i32; 3] = [0, 0, 0];

fn refused(refusal: Refusal) -> Result<Touch, Refusal> {
    Err(refusal)
}

// 17 is tested before 18.
#[test]
fn opening_refuses_in_order(rt: HostRuntime) {
    assert!(rt; Setting::new(40_000, 256).is_ok());
    assert!(rt; Setting::new(0, 1).is_ok());
    assert_eq!(rt;
        Setting::new(40_001, 0).err(),
        Some(Refusal::ToleranceOutOfRange)
    );
    assert_eq!(rt; Setting::new(0, 0).err(), Some(Refusal::LimitOutOfRange));
    assert_eq!(rt; Setting::new(0, 257).err(), Some(Refusal::LimitOutOfRange));
}

// Settled is tested before the limit, and a refusal changes nothing.
#[test]
fn high_and_left_refuse_in_order(rt: HostRuntime) -> Result<(), Fail> {
    Table::check(&FLAT, 5, 0, 1)?;
    let mut survey = Survey::open(Table::new(&FLAT, 5, 0, 1), Setting::new(0, 1)?);
    assert!(rt; survey.high().is_ok());
    let before = survey.log().notes;
    assert_eq!(rt; survey.high(), refused(Refusal::LimitReached));
    assert_eq!(rt; survey.left(), refused(Refusal::LimitReached));
    assert!(rt; survey.log().notes == before);
    survey.tol(10)?;
    let settled = survey.log().notes;
    assert_eq!(rt; survey.high(), refused(Refusal::AlreadySettled));
    assert_eq!(rt; survey.left(), refused(Refusal::AlreadySettled));
    assert!(rt; survey.log().notes == settled);
    Ok(())
}

// A fault is passed on whole, and changes nothing.
#[test]
fn a_fault_is_passed_on_whole(rt: HostRuntime) -> Result<(), Fail> {
    Table::check(&HOLED, 5, 0, 9)?;
    let mut survey = Survey::open(Table::new(&HOLED, 5, 0, 9), Setting::new(0, 256)?);
    let before = survey.log().notes;
    assert_eq!(rt;
        survey.high(),
        refused(Refusal::GaugeFault(Fault::unread(0, 9)))
    );
    assert_eq!(rt;
        survey.left(),
        refused(Refusal::GaugeFault(Fault::unread(0, 9)))
    );
    assert_eq!(rt;
        survey.at(2),
        refused(Refusal::GaugeFault(Fault::unread(2, 9)))
    );
    assert!(rt; survey.log().notes == before);
    Ok(())
}

// 11, 12, 14 in this order; a settled survey takes at too.
#[test]
fn at_refuses_in_order(rt: HostRuntime) -> Result<(), Fail> {
    Table::check(&FLAT, 5, 0, 1)?;
    let mut survey = Survey::open(Table::new(&FLAT, 5, 0, 1), Setting::new(40_000, 2)?);
    assert!(rt; survey.at(1).is_ok());
    assert!(rt; survey.ask()?.settled);
    assert!(rt; survey.at(2).is_ok());
    let before = survey.log().notes;
    assert_eq!(rt; survey.at(3), refused(Refusal::PositionBeyondLast));
    assert_eq!(rt; survey.at(99_999), refused(Refusal::PositionBeyondLast));
    assert_eq!(rt; survey.at(1), refused(Refusal::AlreadyTouched));
    assert_eq!(rt; survey.at(0), refused(Refusal::LimitReached));
    assert!(rt; survey.log().notes == before);
    Ok(())
}

// 17 and 19.
#[test]
fn tol_and_ask_refuse(rt: HostRuntime) -> Result<(), Fail> {
    Table::check(&FLAT, 5, 0, 1)?;
    let mut survey = Survey::open(Table::new(&FLAT, 5, 0, 1), Setting::new(7, 256)?);
    let before = survey.log().notes;
    assert_eq!(rt; survey.ask(), Err(Refusal::NothingTouched));
    assert_eq!(rt; survey.tol(40_001), Err(Refusal::ToleranceOutOfRange));
    assert!(rt; survey.log().notes == before);
    survey.tol(40_000)?;
    assert_eq!(rt; survey.log().notes.tolerance, 40_000);
    Ok(())
}

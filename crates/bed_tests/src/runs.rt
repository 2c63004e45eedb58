use crate::example::SHEET;
use bed::survey::Survey;
use bed::work::work_through;
use caps::Touch;
use gauges::table::Table;
use gauges::tent::Tent;
use layers::flip::Flip;
use layers::higher::Higher;
use logs::setting::Setting;
use std::test::Fail;
use surveys::answers::{Answer, Course, Stop};
use surveys::calls::Call;
use terms::fault::Fault;
use terms::limits::UNREAD;
use terms::refusal::Refusal;

// Slope 5, slack 0; no reading at 2.
const HOLED: [i32; 3] = [0, 1, UNREAD];

fn course(made: u32, stop: Stop) -> Course {
    Course { made, stop }
}

// 13: the run makes the four touches that are left, and then none.
#[test]
fn a_run_settles(rt: HostRuntime) -> Result<(), Fail> {
    Table::check(&SHEET, 5, 0, 1)?;
    let mut survey = Survey::open(Table::new(&SHEET, 5, 0, 1), Setting::new(3, 256)?);
    assert!(rt; survey.high().is_ok());
    assert_eq!(rt; survey.run(9), course(4, Stop::Settled));
    assert_eq!(rt; survey.run(9), course(0, Stop::Settled));
    assert_eq!(rt; survey.ask()?.touches, 5);
    Ok(())
}

// 15 and 14; the limit is tested before the budget.
#[test]
fn a_run_spends_its_budget_and_reaches_the_limit(rt: HostRuntime) -> Result<(), Fail> {
    Table::check(&SHEET, 5, 0, 1)?;
    let mut survey = Survey::open(Table::new(&SHEET, 5, 0, 1), Setting::new(3, 2)?);
    assert_eq!(rt; survey.run(0), course(0, Stop::BudgetSpent));
    assert_eq!(rt; survey.run(1), course(1, Stop::BudgetSpent));
    assert_eq!(rt; survey.run(9), course(1, Stop::LimitReached));
    assert_eq!(rt; survey.run(0), course(0, Stop::LimitReached));
    Ok(())
}

// 16: the touch before the fault stays.
#[test]
fn a_run_hands_on_the_fault(rt: HostRuntime) -> Result<(), Fail> {
    Table::check(&HOLED, 5, 0, 4)?;
    let mut survey = Survey::open(Table::new(&HOLED, 5, 0, 4), Setting::new(0, 256)?);
    assert_eq!(rt;
        survey.run(9),
        course(1, Stop::GaugeFault(Fault::unread(2, 4)))
    );
    assert_eq!(rt; survey.ask()?.touches, 1);
    Ok(())
}

// A list of calls over a stack of gauges: answers in the front of the buffer, the rest of it as it was.
#[test]
fn a_list_of_calls_over_a_stack(rt: HostRuntime) -> Result<(), Fail> {
    Table::check(&SHEET, 5, 0, 1)?;
    let stack = Flip::over(Higher::of(Table::new(&SHEET, 5, 0, 1), Tent::new(10, 5, 3, 10, 2)?));
    let calls = [Call::Tol(3), Call::At(3), Call::Ask, Call::At(3)];
    let mut answers = [Answer::Set(Err(Refusal::NotACommand)); 5];
    let survey = work_through(stack, Setting::new(0, 256)?, &calls, &mut answers);
    let touch = Touch {
        position: 3,
        height: -10,
    };
    assert_eq!(rt; answers[0], Answer::Set(Ok(())));
    assert_eq!(rt; answers[1], Answer::Touched(Ok(touch)));
    assert_eq!(rt; answers[2].number(), 0);
    assert_eq!(rt; answers[3], Answer::Touched(Err(Refusal::AlreadyTouched)));
    assert_eq!(rt; answers[4], Answer::Set(Err(Refusal::NotACommand)));
    assert_eq!(rt; survey.ask()?.touches, 1);
    Ok(())
}

use crate::gauge::Gauge;
use crate::table::Table;
use crate::tent::Tent;
use std::test::Fail;
use terms::fault::Fault;
use terms::limits::UNREAD;
use terms::refusal::Refusal;

#[test]
fn tent_falls_from_its_crown(rt: HostRuntime) -> Result<(), Fail> {
    let tent = Tent::new(10, 5, 3, 10, 7)?;
    assert_eq!(rt; tent.slack(), 0);
    assert_eq!(rt; tent.read(3), Ok(10));
    assert_eq!(rt; tent.read(0), Ok(-5));
    assert_eq!(rt; tent.read(10), Ok(-25));
    assert_eq!(rt; tent.read(11), Err(Fault::beyond(11, 7)));
    assert_eq!(rt;
        Tent::new(4_000, 40_000, 0, 20_000, 255)?.read(2),
        Ok(-20_000)
    );
    Ok(())
}

#[test]
fn tent_refuses_in_order(rt: HostRuntime) {
    assert_eq!(rt;
        Tent::new(0, 0, 1, UNREAD, 0).err(),
        Some(Refusal::LastOutOfRange)
    );
    assert_eq!(rt;
        Tent::new(9, 40_001, 10, UNREAD, 0).err(),
        Some(Refusal::SlopeOutOfRange)
    );
    assert_eq!(rt;
        Tent::new(9, 1, 10, UNREAD, 0).err(),
        Some(Refusal::HeightOutOfRange { position: None })
    );
    assert_eq!(rt;
        Tent::new(9, 1, 10, -20_000, 0).err(),
        Some(Refusal::NameZero)
    );
    assert_eq!(rt;
        Tent::new(9, 1, 10, -20_000, 1).err(),
        Some(Refusal::PositionBeyondLast)
    );
    assert_eq!(rt; Tent::new(9, 1, 9, -20_000, 1).err(), None);
}

#[test]
fn table_reads_its_list(rt: HostRuntime) -> Result<(), Fail> {
    let heights = [0, 5, UNREAD, -15];
    Table::check(&heights, 5, 10, 2)?;
    let table = Table::new(&heights, 5, 10, 2);
    assert_eq!(rt; table.last(), 3);
    assert_eq!(rt; table.read(1), Ok(5));
    assert_eq!(rt; table.read(2), Err(Fault::unread(2, 2)));
    assert_eq!(rt; table.read(3), Ok(-15));
    assert_eq!(rt; table.read(4), Err(Fault::beyond(4, 2)));
    Ok(())
}

#[test]
fn table_refuses_in_order(rt: HostRuntime) {
    assert_eq!(rt;
        Table::check(&[], 0, 40_001, 0),
        Err(Refusal::LastOutOfRange)
    );
    assert_eq!(rt;
        Table::check(&[0, 20_001], 0, 40_001, 0),
        Err(Refusal::SlopeOutOfRange)
    );
    assert_eq!(rt;
        Table::check(&[0, 20_001], 1, 40_001, 0),
        Err(Refusal::SlackOutOfRange)
    );
    assert_eq!(rt;
        Table::check(&[0, 20_001], 1, 4, 0),
        Err(Refusal::HeightOutOfRange { position: Some(1) })
    );
    // Neighbours keep the law, the first and the last do not.
    assert_eq!(rt;
        Table::check(&[0, 5, 10], 1, 4, 0),
        Err(Refusal::LawBroken {
            later: 2,
            earlier: 0,
        })
    );
    assert_eq!(rt;
        Table::check(&[0, 5, UNREAD], 1, 4, 0),
        Err(Refusal::NameZero)
    );
}

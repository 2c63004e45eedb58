// Certificates that are refused, and the shortest and the longest that are written.
#![tactic(auto)]

#[cfg(test)]
mod tests {
    use bed::survey::Survey;
    use certificates::writer::certify;
    use gauges::table::Table;
    use logs::setting::Setting;
    use std::test::Fail;
    use terms::refusal::Refusal;

    // The heights 0, 5, 0 with slope 5: nothing touched, then not settled, then settled at tolerance 5.
    #[test]
    fn refused_in_order(rt: HostRuntime) -> Result<(), Fail> {
        let heights = [0, 5, 0];
        Table::check(&heights, 5, 0, 1)?;
        let mut survey = Survey::open(Table::new(&heights, 5, 0, 1), Setting::new(4, 256)?);
        let mut buf = [0xaa; 17];
        assert_eq!(rt;
            certify(survey.log(), &mut buf),
            Err(Refusal::NothingTouched)
        );
        assert!(rt; survey.at(0).is_ok());
        assert_eq!(rt; certify(survey.log(), &mut buf), Err(Refusal::NotSettled));
        assert!(rt; survey.at(2).is_ok());
        assert!(rt; survey.tol(5).is_ok());
        assert_eq!(rt; buf, [0xaa; 17]);
        // 98 + 2 x 28 bits are 20 bytes
        assert_eq!(rt;
            certify(survey.log(), &mut buf),
            Err(Refusal::BufferTooShort)
        );
        assert_eq!(rt; buf, [0xaa; 17]);
        let mut enough = [0xaa; 21];
        assert_eq!(rt; certify(survey.log(), &mut enough), Ok(20));
        assert_eq!(rt; enough[20], 0xaa);
        Ok(())
    }

    // The certificate of the worked example, worked out from the layout field by field.
    const WORKED: [u8; 30] = [
        0x00, 0xa0, 0x00, 0x50, 0x00, 0x00, 0x00, 0x30, 0x28, 0x01, 0x80, 0x02, 0x80, 0x00, 0x00,
        0x00, 0x00, 0xc0, 0x02, 0x80, 0x14, 0x00, 0x14, 0x01, 0xc0, 0x02, 0x40, 0x28, 0x00, 0x00,
    ];

    // The heights 0 4 8 10 9 5 6 9 7 3 0 with slope 5, settled at tolerance 3 with the touches 0, 3, 5, 7, 10.
    #[test]
    fn worked_example(rt: HostRuntime) -> Result<(), Fail> {
        let heights = [0, 4, 8, 10, 9, 5, 6, 9, 7, 3, 0];
        Table::check(&heights, 5, 0, 1)?;
        let mut survey = Survey::open(Table::new(&heights, 5, 0, 1), Setting::new(3, 256)?);
        let _ = survey.run(9);
        let mut short = [0; 29];
        assert_eq!(rt;
            certify(survey.log(), &mut short),
            Err(Refusal::BufferTooShort)
        );
        let mut exact = [0; 30];
        assert_eq!(rt; certify(survey.log(), &mut exact), Ok(30));
        assert_eq!(rt; exact, WORKED);
        Ok(())
    }

    // 256 touches on a flat sheet of last position 4,000.
    #[test]
    fn longest(rt: HostRuntime) -> Result<(), Fail> {
        let heights = Vec::from_elem(rt.alloc(), 7i32, 4001)?;
        Table::check(&heights, 1, 0, 1)?;
        let mut survey = Survey::open(Table::new(&heights, 1, 0, 1), Setting::new(40_000, 256)?);
        for k in 0..256u32 {
            assert!(rt; survey.at(4000 - k * 15).is_ok());
        }
        let mut short = Vec::from_elem(rt.alloc(), 0xaau8, 908)?;
        assert_eq!(rt;
            certify(survey.log(), &mut short),
            Err(Refusal::BufferTooShort)
        );
        let mut exact = Vec::from_elem(rt.alloc(), 0xaau8, 909)?;
        assert_eq!(rt; certify(survey.log(), &mut exact), Ok(909));
        Ok(())
    }
}

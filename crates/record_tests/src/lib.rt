// Records that just meet each number of refusal, and records that just do not.
#![tactic(auto)]

#[cfg(test)]
mod tests {
    use gauges::gauge::Gauge;
    use records::record::{Record, check as tested};
    use records::writer::write;
    use std::test::Fail;
    use terms::fault::{Cause, Fault};
    use terms::refusal::Refusal;

    // The low eight bits.
    fn low(x: u32) -> u8 {
        (x & 0xff) as u8
    }

    // The ten bytes of a record with two heights, put together by hand; heights are given as their 16 bits.
    fn ten(last: u32, slope: u32, slack: u32, first: u32, second: u32, pad: u32) -> [u8; 10] {
        [
            low(last >> 4),
            low(last << 4 | slope >> 12),
            low(slope >> 4),
            low(slope << 4 | slack >> 12),
            low(slack >> 4),
            low(slack << 4 | first >> 12),
            low(first >> 4),
            low(first << 4 | second >> 12),
            low(second >> 4),
            low(second << 4 | pad),
        ]
    }

    // The number that a record is refused with, 0 where it is accepted.
    fn answer(bytes: &[u8], name: u8) -> u8 {
        tested(bytes, name)
            .err()
            .map_or(0, |refusal| refusal.number())
    }

    #[test]
    fn lengths_and_lines(rt: HostRuntime) {
        assert_eq!(rt; answer(&[0, 0, 0, 0, 0], 1), 1);
        assert_eq!(rt; answer(&[0, 0, 0, 0, 0, 0], 1), 2);
        assert_eq!(rt; answer(&ten(0, 5, 0, 3, 3, 0), 1), 2);
        assert_eq!(rt; answer(&ten(4001, 5, 0, 3, 3, 0), 1), 2);
        assert_eq!(rt; answer(&ten(4000, 5, 0, 3, 3, 0), 1), 5);
        assert_eq!(rt; answer(&ten(1, 0, 0, 3, 3, 0), 1), 3);
        assert_eq!(rt; answer(&ten(1, 40001, 0, 3, 3, 0), 1), 3);
        assert_eq!(rt; answer(&ten(1, 40000, 0, 3, 3, 0), 1), 0);
        assert_eq!(rt; answer(&ten(1, 1, 40001, 3, 3, 0), 1), 4);
        assert_eq!(rt; answer(&ten(1, 1, 40000, 3, 3, 0), 1), 0);
    }

    #[test]
    fn shapes_heights_and_names(rt: HostRuntime) {
        let good = ten(1, 5, 0, 3, 0xfffe, 0);
        assert_eq!(rt; answer(&good, 1), 0);
        assert_eq!(rt; answer(&good[0..9], 1), 5);
        assert_eq!(rt; answer(&ten(2, 5, 0, 3, 3, 0), 1), 5);
        assert_eq!(rt; answer(&ten(1, 5, 0, 3, 0xfffe, 1), 1), 6);
        assert_eq!(rt; answer(&ten(1, 5, 0, 3, 0xfffe, 8), 1), 6);
        assert_eq!(rt; answer(&good, 0), 9);
        assert_eq!(rt; answer(&ten(1, 5, 0, 0x8000, 3, 0), 255), 0);
        let out = Refusal::HeightOutOfRange { position: Some(1) };
        assert_eq!(rt; tested(&ten(1, 40000, 40000, 20000, 20001, 0), 1), Err(out));
        assert_eq!(rt; answer(&ten(1, 40000, 40000, 20000, 20000, 0), 1), 0);
        assert_eq!(rt; answer(&ten(1, 5, 40000, 0xb1e0, 0xb1df, 0), 1), 7);
        assert_eq!(rt; answer(&ten(1, 5, 40000, 0xb1e0, 0xb1e0, 0), 1), 0);
        let broken = Refusal::LawBroken {
            later: 1,
            earlier: 0,
        };
        assert_eq!(rt; tested(&ten(1, 5, 0, 3, 0xfffd, 0), 1), Err(broken));
    }

    #[test]
    fn far_pairs_and_room(rt: HostRuntime) {
        let mut long = [0xaa; 13];
        let mut short = [0xaa; 11];
        let mut exact = [0xaa; 12];
        let broken = Refusal::LawBroken {
            later: 2,
            earlier: 0,
        };
        assert_eq!(rt; write(&mut long, 1, 4, &[0, 5, 10]), Err(broken));
        assert_eq!(rt; write(&mut long, 1, 4, &[]), Err(Refusal::LastOutOfRange));
        assert_eq!(rt; long, [0xaa; 13]);
        assert_eq!(rt;
            write(&mut short, 1, 4, &[0, 5, 6]),
            Err(Refusal::BufferTooShort)
        );
        assert_eq!(rt; short, [0xaa; 11]);
        assert_eq!(rt; write(&mut long, 1, 4, &[0, 5, 6]), Ok(12));
        assert_eq!(rt; long[12], 0xaa);
        assert_eq!(rt; write(&mut exact, 1, 4, &[0, 5, 6]), Ok(12));
        assert_eq!(rt; answer(&exact, 1), 0);
    }

    // Last position 4,000, alternating between the heights of a steep roof and marks.
    #[test]
    fn largest_sheet(rt: HostRuntime) -> Result<(), Fail> {
        let heights: Vec<i32> = (0..4001u32)
            .map(|p| if p % 7 == 2 {
                -32768
            } else {
                (p * 10) as i32 - 20000
            })
            .collect(rt.alloc())?;
        let mut bytes = Vec::from_elem(rt.alloc(), 0u8, 8008)?;
        assert_eq!(rt; write(&mut bytes, 10, 0, &heights), Ok(8008));
        tested(&bytes, 9)?;
        let record = Record::new(&bytes, 9);
        assert_eq!(rt; record.last(), 4000);
        assert_eq!(rt; record.read(4000), Ok(20000));
        assert_eq!(rt; record.read(0), Ok(-20000));
        let unread = Fault {
            cause: Cause::Unread,
            position: 2,
            gauge: 9,
            layers: 0,
        };
        assert_eq!(rt; record.read(2), Err(unread));
        let beyond = Fault {
            cause: Cause::Beyond,
            position: 4001,
            gauge: 9,
            layers: 0,
        };
        assert_eq!(rt; record.read(4001), Err(beyond));
        Ok(())
    }
}

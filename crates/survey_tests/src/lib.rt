// Inputs at the edges of what is a command, and what they print.
#![tactic(auto)]

#[cfg(test)]
mod tests {
    use std::alloc::Global;
    use std::process::Abort;
    use std::test::Fail;
    use transcripts::print::print;

    // Last position 10, slope 5, slack 0, heights 0 4 8 10 9 5 6 9 7 3 0.
    const SHEET: [u8; 28] = [
        0x00, 0xa0, 0x00, 0x50, 0x00, 0x00, 0x00, 0x00, 0x00, 0x40, 0x00, 0x80, 0x00, 0xa0, 0x00,
        0x90, 0x00, 0x50, 0x00, 0x60, 0x00, 0x90, 0x00, 0x70, 0x00, 0x30, 0x00, 0x00,
    ];

    // Two heights that break the law.
    const BROKEN: [u8; 10] = [0x00, 0x10, 0x00, 0x50, 0x00, 0x00, 0x00, 0x3f, 0xff, 0xd0];

    // Checks what is printed for an input over that sheet. The runtime and the heap come apart: a function below a test has the right to stop by `Abort` alone.
    fn prints(rt: &impl Abort, heap: Global, input: &[u8], text: &str) -> Result<(), Fail> {
        let out = print(heap, &SHEET, input)?;
        assert_eq!(rt; out.as_str(), text);
        Ok(())
    }

    #[test]
    fn worked_example(rt: HostRuntime) -> Result<(), Fail> {
        prints(
            &rt,
            rt.alloc(),
            b"tol 3\nhigh\nrun 9\nhigh",
            "tol 0 0 - - -\nhigh 0 1 0 0 50\nrun 13 5 3 10 10\nhigh 13 5 3 10 10\n",
        )
    }

    #[test]
    fn empty_lines_print_nothing(rt: HostRuntime) -> Result<(), Fail> {
        prints(&rt, rt.alloc(), b"", "")?;
        prints(&rt, rt.alloc(), b"\n\n", "")?;
        prints(&rt, rt.alloc(), b"\n\nask\n\n", "ask 19 0 - - -\n")
    }

    #[test]
    fn numbers(rt: HostRuntime) -> Result<(), Fail> {
        prints(&rt, rt.alloc(), b"at 00003", "at 0 1 3 10 45\n")?;
        prints(&rt, rt.alloc(), b"at 000003", "? 22 0 - - -\n")?;
        prints(&rt, rt.alloc(), b"at 99999", "at 11 0 - - -\n")?;
        prints(&rt, rt.alloc(), b"at 3a", "? 22 0 - - -\n")?;
        prints(&rt, rt.alloc(), b"at +3", "? 22 0 - - -\n")?;
        prints(&rt, rt.alloc(), b"at", "? 22 0 - - -\n")?;
        prints(&rt, rt.alloc(), b"at ", "? 22 0 - - -\n")
    }

    #[test]
    fn spaces(rt: HostRuntime) -> Result<(), Fail> {
        prints(&rt, rt.alloc(), b"at  3", "? 22 0 - - -\n")?;
        prints(&rt, rt.alloc(), b"at 3 ", "? 22 0 - - -\n")?;
        prints(&rt, rt.alloc(), b"at\t3", "? 22 0 - - -\n")?;
        prints(&rt, rt.alloc(), b"high ", "? 22 0 - - -\n")?;
        prints(&rt, rt.alloc(), b" high", "? 22 0 - - -\n")?;
        prints(&rt, rt.alloc(), b" ", "? 22 0 - - -\n")
    }

    #[test]
    fn other_bytes(rt: HostRuntime) -> Result<(), Fail> {
        prints(
            &rt,
            rt.alloc(),
            b"high\r\nhigh",
            "? 22 0 - - -\nhigh 0 1 0 0 50\n",
        )?;
        prints(
            &rt,
            rt.alloc(),
            b"HIGH\nhigh 1",
            "? 22 0 - - -\n? 22 0 - - -\n",
        )?;
        prints(
            &rt,
            rt.alloc(),
            &[0xff, 0x80, 0x0a, 0x00],
            "? 22 0 - - -\n? 22 0 - - -\n",
        )
    }

    #[test]
    fn tests_of_each_call(rt: HostRuntime) -> Result<(), Fail> {
        prints(
            &rt,
            rt.alloc(),
            b"tol 40000\ntol 40001",
            "tol 0 0 - - -\ntol 17 0 - - -\n",
        )?;
        prints(
            &rt,
            rt.alloc(),
            b"at 3\nat 3\nat 11\nrun 0\nask",
            "at 0 1 3 10 45\nat 12 1 3 10 45\nat 11 1 3 10 45\nrun 15 1 3 10 45\nask 0 1 3 10 45\n",
        )
    }

    // 4,096 bytes are carried out, and one more is too long.
    #[test]
    fn longest_input(rt: HostRuntime) -> Result<(), Fail> {
        let mut input = [b'\n'; 4_097];
        input[0] = b'x';
        prints(&rt, rt.alloc(), &input[..4_096], "? 22 0 - - -\n")?;
        prints(&rt, rt.alloc(), &input, "long\n")
    }

    // A refused record comes before an input that is too long.
    #[test]
    fn refused_records(rt: HostRuntime) -> Result<(), Fail> {
        let long = [b'\n'; 4_097];
        assert_eq!(rt; print(rt.alloc(), &[], b"high")?.as_str(), "sheet 1\n");
        assert_eq!(rt; print(rt.alloc(), &BROKEN, &long)?.as_str(), "sheet 8\n");
        Ok(())
    }
}

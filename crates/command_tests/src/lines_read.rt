// Lines that are understood.
use crate::showing::{assert_told, told};
use std::test::Fail;

#[test]
fn nothing_to_do(rt: HostRuntime) -> Result<(), Fail> {
    for line in [
        "", " ", "\t \t", "\r", "  \r", "#", "# reset", "  #reset", "\t# ; ;", "#é",
    ] {
        assert_eq!(rt; told(rt.alloc(), line)?.as_str(), "nothing", "{}", line);
    }
    Ok(())
}

#[test]
fn plain_calls(rt: HostRuntime) -> Result<(), Fail> {
    assert_told(
        &rt,
        rt.alloc(),
        &[
            ("reset", "Reset"),
            (" \treset\t ", "Reset"),
            ("reset\r", "Reset"),
            (
                "open 8 200 50",
                "Open { functions: 8, numbers: 200, instructions: 50 }",
            ),
            (
                "open\t0\t18446744073709551615 007\r",
                "Open { functions: 0, numbers: 18446744073709551615, instructions: 7 }",
            ),
            ("arith house", "House"),
            ("ask 1 2 -3.5", "Ask { code: 1, x: 2.0, y: -3.5 }"),
            (
                "ask 7 0x3f800000 0x80000000",
                "Ask { code: 7, x: 1.0, y: -0.0 }",
            ),
            ("eval 0 3", "Evaluate { index: 0, room: 3, inputs: [] }"),
            (
                "eval 12 1 0.25 NaN",
                "Evaluate { index: 12, room: 1, inputs: [0.25, NaN] }",
            ),
        ],
    )
}

#[test]
fn exponential_fields(rt: HostRuntime) -> Result<(), Fail> {
    assert_told(
        &rt,
        rt.alloc(),
        &[
            (
                "exponential n 2",
                "Exponential(ExponentialLine { domain: [], range: [], c0: None, c1: None, n: 2.0 })",
            ),
            (
                "exponential domain 0 1 ; n 2 ; c0 0 ; c1 1 ; range 0 1",
                "Exponential(ExponentialLine { domain: [(0.0, 1.0)], range: [(0.0, 1.0)], c0: Some([0.0]), c1: Some([1.0]), n: 2.0 })",
            ),
            (
                "exponential domain 0 1;n 2;c1 1 2 3",
                "Exponential(ExponentialLine { domain: [(0.0, 1.0)], range: [], c0: None, c1: Some([1.0, 2.0, 3.0]), n: 2.0 })",
            ),
            (
                "exponential\trange -1 1 0 0.5;\tc0;n\t-1;domain\r",
                "Exponential(ExponentialLine { domain: [], range: [(-1.0, 1.0), (0.0, 0.5)], c0: Some([]), c1: None, n: -1.0 })",
            ),
            (
                "exponential; ;;n 1; ;",
                "Exponential(ExponentialLine { domain: [], range: [], c0: None, c1: None, n: 1.0 })",
            ),
        ],
    )
}

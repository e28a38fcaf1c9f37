// Lines that are not understood, and what is said of each.
use crate::showing::assert_told;
use std::test::Fail;

#[test]
fn unknown_words(rt: HostRuntime) -> Result<(), Fail> {
    assert_told(
        &rt,
        rt.alloc(),
        &[
            ("evaluat 0 1", "unknown command 'evaluat'"),
            ("Reset", "unknown command 'Reset'"),
            ("sampled domain 0 1", "unknown command 'sampled'"),
            ("stitched n 1", "unknown command 'stitched'"),
            ("vet 0", "unknown command 'vet'"),
            ("; n 1", "unknown command ';'"),
            ("été", "unknown command 'été'"),
            ("arith recorded", "unknown arithmetic 'recorded'"),
            ("arith ;", "unknown arithmetic ';'"),
            ("exponential n 1; c2 1", "unknown field 'c2'"),
            ("exponential 1 2; n 1", "unknown field '1'"),
        ],
    )
}

#[test]
fn too_few_or_too_many(rt: HostRuntime) -> Result<(), Fail> {
    assert_told(
        &rt,
        rt.alloc(),
        &[
            ("arith", "a word is missing after 'arith'"),
            ("open", "a number is missing after 'open'"),
            ("open 1 2", "a number is missing after '2'"),
            ("open 1 ; 2 3", "a number is missing after '1'"),
            ("ask 1 2", "a number is missing after '2'"),
            ("eval 5", "a number is missing after '5'"),
            ("exponential n; c0 1", "a number is missing after 'n'"),
            ("exponential n", "a number is missing after 'n'"),
            ("reset 7", "'7' is too much"),
            ("reset;", "';' is too much"),
            ("open 1 2 3 4", "'4' is too much"),
            ("arith house now", "'now' is too much"),
            ("ask 1 2 3 # sum", "'#' is too much"),
            ("eval 0 1 2; 3", "';' is too much"),
            ("exponential n 1 2", "'2' is too much"),
        ],
    )
}

#[test]
fn bad_fields(rt: HostRuntime) -> Result<(), Fail> {
    assert_told(
        &rt,
        rt.alloc(),
        &[
            ("exponential n 1; n 1", "field 'n' stands twice"),
            (
                "exponential n 1; domain; domain 0 1",
                "field 'domain' stands twice",
            ),
            (
                "exponential range 0 1; n 1; range 0 1",
                "field 'range' stands twice",
            ),
            ("exponential c0 1; c0; n 1", "field 'c0' stands twice"),
            ("exponential c1; n 1; c1 2", "field 'c1' stands twice"),
            ("exponential", "field 'n' is missing"),
            ("exponential domain 0 1; c0 1", "field 'n' is missing"),
            (
                "exponential domain 0 1 2; n 1",
                "'domain' takes an even count of numbers",
            ),
            (
                "exponential n 1; range 0",
                "'range' takes an even count of numbers",
            ),
        ],
    )
}

#[test]
fn bad_numbers(rt: HostRuntime) -> Result<(), Fail> {
    assert_told(
        &rt,
        rt.alloc(),
        &[
            ("eval 0 1 abc", "'abc' is no number"),
            ("exponential n 1; c0 1 2x 3", "'2x' is no number"),
            ("exponential domain 0 é; n 1", "'é' is no number"),
            ("exponential n one", "'one' is no number"),
            ("ask 1 2 0x", "'0x' is no number"),
            ("open x7 1 1", "'x7' is no whole number"),
            ("open -1 1 1", "'-1' is no whole number"),
            ("open 1 1.0 1", "'1.0' is no whole number"),
            ("open 1 0x10 1", "'0x10' is no whole number"),
            (
                "eval 18446744073709551616 1",
                "'18446744073709551616' is too large",
            ),
            ("ask 0 1 1", "'0' is no code from 1 to 7"),
            ("ask 8 1 1", "'8' is no code from 1 to 7"),
            ("ask 257 1 1", "'257' is no code from 1 to 7"),
            ("ask +5.5 1 1", "'+5.5' is no whole number"),
        ],
    )
}

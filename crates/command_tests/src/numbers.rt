// Numbers read and written.
use command::{Command, read_line};
use numerals::{Bits, Shown};
use std::alloc::Global;
use std::num::f32_from_bits_with_nan;
use std::process::Abort;
use std::test::Fail;

// The bits of the number that a word is read as, or `none`.
fn bits_read(rt: &impl Abort, heap: Global, word: &str) -> Result<String, Fail> {
    let line = format!(in heap; "eval 0 0 {word}")?;
    match read_line(heap, line.as_str()) {
        Ok(Some(Command::Evaluate { inputs, .. })) => {
            assert!(rt; inputs.len() == 1);
            Ok(Bits(inputs[0]).to_string(heap)?)
        }
        _ => Ok(String::from_str(heap, "none")?),
    }
}

// Each word is read as the bits beside it. Not one with assert_told: over a closure that reads, the proof of the loop did not close.
fn assert_read(rt: &impl Abort, heap: Global, words: &[(&str, &str)]) -> Result<(), Fail> {
    for &(word, bits) in words {
        assert_eq!(rt; bits_read(rt, heap, word)?.as_str(), bits, "{}", word);
    }
    Ok(())
}

#[test]
fn decimals_read(rt: HostRuntime) -> Result<(), Fail> {
    assert_read(
        &rt,
        rt.alloc(),
        &[
            ("0", "00000000"),
            ("-0", "80000000"),
            ("+1", "3f800000"),
            ("1e5", "47c35000"),
            ("1E+5", "47c35000"),
            ("25e-2", "3e800000"),
            (".5", "3f000000"),
            ("5.", "40a00000"),
            ("-.5e1", "c0a00000"),
            ("0.1", "3dcccccd"),
            ("16777217", "4b800000"),
            ("3.4028235e38", "7f7fffff"),
            ("3.4028236e38", "7f800000"),
            ("1e39", "7f800000"),
            ("1e-45", "00000001"),
            ("1e-46", "00000000"),
            ("NaN", "nan"),
            ("nan", "nan"),
            ("-NaN", "nan"),
            ("inf", "7f800000"),
            ("-inf", "ff800000"),
            ("+Infinity", "7f800000"),
        ],
    )
}

#[test]
fn bits_in_hex_read(rt: HostRuntime) -> Result<(), Fail> {
    assert_read(
        &rt,
        rt.alloc(),
        &[
            ("0x0", "00000000"),
            ("0x3f800000", "3f800000"),
            ("0x3F8ABCDE", "3f8abcde"),
            ("0xff7fffff", "ff7fffff"),
            ("0x1", "00000001"),
            ("0x00000001", "00000001"),
            ("0x7f800000", "7f800000"),
            ("0x7f800001", "nan"),
            ("0xffffffff", "nan"),
        ],
    )
}

#[test]
fn no_numbers(rt: HostRuntime) -> Result<(), Fail> {
    for word in [
        "0x",
        "0x000000001",
        "0x123456789",
        "0x+1",
        "0x-1",
        "0x1.0",
        "0xg",
        "0X1",
        "-0x1",
        "1_000",
        ".",
        "e5",
        "1e",
        "1e+",
        "--1",
        "+",
        "-",
        "1,5",
        "0x é",
        "infinit",
        "1f",
        "٣",
    ] {
        assert_eq!(rt;
            bits_read(&rt, rt.alloc(), word)?.as_str(),
            "none",
            "{}",
            word
        );
    }
    Ok(())
}

#[test]
fn numbers_for_a_person(rt: HostRuntime) -> Result<(), Fail> {
    for (bits, text) in [
        (0x3e80_0000, "0.25"),
        (0x3f80_0000, "1"),
        (0x8000_0000, "-0"),
        (0x7fc0_0000, "nan"),
        (0xffff_ffff, "nan"),
        (0x7f80_0000, "inf"),
        (0xff80_0000, "-inf"),
        (0x3dcc_cccd, "0.1"),
        (0x4b80_0000, "16777216"),
        (
            0x0000_0001,
            "0.000000000000000000000000000000000000000000001",
        ),
    ] {
        let written = Shown(f32_from_bits_with_nan(bits)).to_string(rt.alloc())?;
        assert_eq!(rt; written.as_str(), text, "{}", text);
    }
    Ok(())
}

// The codes there and back.
use std::test::Fail;
use units::{Question, UnknownCode};

#[test]
fn codes_there_and_back(rt: HostRuntime) -> Result<(), Fail> {
    for code in 1..8u8 {
        let question = Question::try_from(code)?;
        assert_eq!(rt; u8::from(question), code);
    }
    Ok(())
}

#[test]
fn no_other_code(rt: HostRuntime) {
    assert!(rt; Question::try_from(0u8) == Err(UnknownCode(0)));
    assert!(rt; Question::try_from(8u8) == Err(UnknownCode(8)));
    assert!(rt; Question::try_from(255u8) == Err(UnknownCode(255)));
    assert!(rt; Question::try_from(7u8) == Ok(Question::Atan));
}

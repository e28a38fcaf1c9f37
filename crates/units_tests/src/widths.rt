// The seven widths.
use units::Width;

#[test]
fn widths_there_and_back(rt: HostRuntime) {
    // Bit n stands for a width of n bits.
    let mut known = 0;
    for bits in 0..70u32 {
        if let Ok(width) = Width::try_from(bits) {
            assert_eq!(rt; u32::from(width), bits);
            known |= 1u64 << (bits % 64);
        }
    }
    assert_eq!(rt; known, 0x1_0101_0116);
}

#[test]
fn largest_samples(rt: HostRuntime) {
    assert_eq!(rt; Width::One.largest(), 1);
    assert_eq!(rt; Width::Four.largest(), 15);
    assert_eq!(rt; Width::TwentyFour.largest(), 0xff_ffff);
    assert_eq!(rt; Width::ThirtyTwo.largest(), 0xffff_ffff);
    assert!(rt; Width::try_from(16u32) == Ok(Width::Sixteen));
}

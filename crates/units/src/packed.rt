// The sample unit whose tables lie in a list of bytes, one sample after the other, the highest bit first.
ghost use Rattle.std.specs.Prelude.{◌≡◌, ◌-◌, ◌*◌, ◌/◌, ◌^◌, ◌<◌, ◌≤◌, min, true, length, None, Some, MatchOption};
ghost use Rattle.std.specs.List.{slice_get};
ghost use Rattle.units.specs.Packed.{bits_in, number_of, packed_samples};
ghost use Rattle.units.specs.Samples.{bits_of};

use crate::entry::Entry;
use crate::samples::Width;
use crate::unit::SampleUnit;

// The unit over bytes.
pub type Packed<'a> = SampleUnit<'a, u8>;

impl Entry for u8 {
    ghost can_hold = { λ _ _. true };

    ghost samples = { λ width bytes. packed_samples (bits_of width) bytes };

    // Bytes spell samples, whatever they are.
    fn first_misfit(_bytes: &[u8], _width: Width) -> Option<usize> {
        None
    }

    #[tactic(auto, using(crate::proofs::Bits::some_bits))]
    fn count(bytes: &[u8], width: Width) -> usize {
        // 8 * length / bits, without that product.
        let length = bytes.len();
        let bits = u32::from(width) as usize;
        (length / bits)
            .saturating_mul(8)
            .saturating_add(length % bits * 8 / bits)
    }

    // Inlined for the same loop, which then knows the width.
    #[inline(always)]
    fn sample(bytes: &[u8], width: Width, index: usize) -> Option<u32> {
        match width {
            Width::One => sample_in_byte(bytes, 1, index),
            Width::Two => sample_in_byte(bytes, 2, index),
            Width::Four => sample_in_byte(bytes, 4, index),
            Width::Eight => {
                let [byte] = bytes_at::<1>(bytes, index)?;
                Some(u32::from(byte))
            }
            Width::Sixteen => {
                let spelt = bytes_at::<2>(bytes, index)?;
                Some(u32::from(u16::from_be_bytes(spelt)))
            }
            Width::TwentyFour => {
                let [high, middle, low] = bytes_at::<3>(bytes, index)?;
                Some(u32::from_be_bytes([0, high, middle, low]))
            }
            Width::ThirtyTwo => {
                let spelt = bytes_at::<4>(bytes, index)?;
                Some(u32::from_be_bytes(spelt))
            }
        }
    }
}

// Below 8 bits a sample lies in one byte. The bits are a number here, since the place is computed with them.
#[tactic(auto, using(crate::proofs::Bits::byte_room))]
fn sample_in_byte(bytes: &[u8], bits: usize, index: usize) -> Option<u32>
    requires { (bits * (8 / bits) ≡ 8) × (bits < 8) }
    ensures { result ≡ slice_get (packed_samples bits bytes.now) index }
{
    let per_byte = 8 / bits;
    let byte = bytes.get(index / per_byte)?;
    let shift = 8 - bits * (index % per_byte + 1);
    Some((u32::from(*byte) >> shift) & ((1 << bits) - 1))
}

// From 8 bits on a sample is whole bytes, the highest first.
fn bytes_at<const N: usize>(bytes: &[u8], index: usize) -> Option<[u8; N]>
    requires { 0 < N }
    ensures { MatchOption result (None ≡ slice_get (packed_samples (N * 8) bytes.now) index) (λ spelt. Some (number_of (bits_in spelt)) ≡ slice_get (packed_samples (N * 8) bytes.now) index) }
{
    let (chunks, _) = bytes.as_chunks::<N>();
    let chunk = chunks.get(index)?;
    Some(*chunk)
}

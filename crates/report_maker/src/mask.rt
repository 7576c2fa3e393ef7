//! The mask that orders inputs.

ghost use Rattle.std.specs.Prelude.{◌≡◌, ◌<◌, All, IfOk, length, replicate};
ghost use Rattle.input_laws.specs.Inputs.{IsInput};
ghost use Rattle.report_laws.specs.Mask.{mask};

use crate::Bytes;
use no_memory::NoMemory;
use rand_core::{Rng, SeedableRng};
use rand_pcg::Lcg64Xsh32;
use std::alloc::Global;

/// The mask of a seed for inputs of `n` bytes: the first `n` bytes of the seed's generator, or zero
/// bytes for seed 0. Of two inputs that one comes first whose byte xor the mask's is less, at the
/// first place at which they differ.
pub fn order_mask(alloc: Global, seed: u64, n: u32) -> Result<Bytes, NoMemory>
    ensures bytes { IfOk result (λ bytes. bytes ≡ mask seed n) }
    ensures input { IfOk result (λ bytes. IsInput n bytes) }
{
    let mut bytes = vec![in alloc; 0u8; n as usize]?;
    write_mask(seed, bytes.as_mut_slice());
    Ok(Bytes::from_vec(bytes))
}

/// Writes the mask of a seed over zero bytes.
#[tactic(auto, unfolding(report_laws::specs::Mask::mask))]
fn write_mask(seed: u64, bytes: &mut [u8])
    requires { bytes.old ≡ replicate (length bytes.old) 0 }
    ensures mask { bytes.new ≡ mask seed (length bytes.old) }
    ensures length { length bytes.new ≡ length bytes.old }
    ensures in_range { All (λ byte. byte < 256) bytes.new }
{
    if seed == 0 {
        return;
    }
    let mut generator = Lcg64Xsh32::seed_from_u64(seed);
    generator.fill_bytes(bytes);
}

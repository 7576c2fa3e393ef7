//! What loads give, and how many bytes loads and stores move.

ghost use Rattle.std.specs.Prelude.{◌≡◌, ◌≤◌};
ghost use Rattle.memory_map.specs.Cells.{read, byte_at, first_without, ok_unless};
ghost use Rattle.rv_machine.specs.Effects.{loaded, size_of};

use memory_map::Memory;
use rv_decode::Width;
use rv_decode::fields::sign_extended;

/// How many bytes a load or a store moves.
pub fn size_of(width: Width) -> usize
    ensures size { result ≡ size_of width }
    ensures most { result ≤ 4 }
{
    match width {
        Width::B | Width::Bu => 1,
        Width::H | Width::Hu => 2,
        Width::W => 4,
    }
}

/// The byte at an address, or the address where it may not be read.
#[tactic(auto, unfolding(memory_map::specs::Cells::first_without))]
fn byte(memory: &Memory, address: u32) -> Result<u8, u32>
    ensures { result ≡ ok_unless (first_without read memory.now.map address 1) (byte_at memory.now.map address) }
{
    memory.load(address).ok_or(address)
}

/// The value of a load, or the address of the first byte that may not be read.
pub fn loaded(memory: &Memory, width: Width, address: u32) -> Result<u32, u32>
    ensures { result
        ≡ ok_unless (first_without read memory.now.map address (size_of width)) (loaded memory.now.map width address) }
{
    match width {
        Width::B => Ok(sign_extended(8, u32::from(byte(memory, address)?)).cast_unsigned()),
        Width::Bu => Ok(u32::from(byte(memory, address)?)),
        Width::H => Ok(sign_extended(16, u32::from(memory.load_half(address)?)).cast_unsigned()),
        Width::Hu => Ok(u32::from(memory.load_half(address)?)),
        Width::W => memory.load_word(address),
    }
}

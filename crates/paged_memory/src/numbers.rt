// The numbers that bytes spell.
ghost use Rattle.std.specs.Prelude.{◌≡◌, IsTrue, length};
ghost use Rattle.byte_numbers.specs.Numbers.{little_number};
ghost use Rattle.paged_memory.specs.PageMap.{is_width};

use byteorder::{ByteOrder, LittleEndian};

/// The number that `width` bytes spell, the lowest first.
#[inline(always)]
pub fn number_of(bytes: &[u8], width: u8) -> u64
    requires size { IsTrue (is_width width) }
    requires room { length bytes.now ≡ width }
    ensures { result ≡ little_number bytes.now }
{
    match width {
        1 => u64::from(bytes[0]),
        2 => u64::from(LittleEndian::read_u16(bytes)),
        4 => u64::from(LittleEndian::read_u32(bytes)),
        _ => LittleEndian::read_u64(bytes),
    }
}

// Bytes, immediates and registers of the code.
ghost use Rattle.std.specs.Prelude.{◌≡◌, ◌<◌, ◌≤◌, ◌+◌, ◌-◌, ◌*◌, ◌/◌, ◌%◌, ◌^◌, length, take, drop};
ghost use Rattle.byte_numbers.specs.Numbers.{number_at};
ghost use Rattle.byte_numbers.specs.Signs.{extended_bytes};
ghost use Rattle.pvm_isa.specs.Arguments.{imm, offset, code_byte, register};

/// The byte of the code at a place. Past the code it is 0.
#[inline]
pub fn byte_at(code: &[u8], place: u64) -> u8
    ensures { result ≡ code_byte code.now place }
{
    code.get(place as usize).copied().unwrap_or(0)
}

/// The number in eight bytes of the code, in one load.
#[inline]
pub fn eight_at(code: &[u8], from: usize) -> u64
    requires { from + 8 ≤ length code.now }
    ensures { result ≡ number_at code.now from 8 }
{
    u64::from_le_bytes([
        code[from],
        code[from + 1],
        code[from + 2],
        code[from + 3],
        code[from + 4],
        code[from + 5],
        code[from + 6],
        code[from + 7],
    ])
}

// The number in the eight bytes of the code at a place, each read alone. Past the code they are 0.
fn eight_one_by_one(code: &[u8], place: u64) -> u64
    requires { place < 2 ^ 63 + 2 ^ 32 }
    ensures { result ≡ number_at code.now place 8 }
{
    u64::from_le_bytes([
        byte_at(code, place),
        byte_at(code, place + 1),
        byte_at(code, place + 2),
        byte_at(code, place + 3),
        byte_at(code, place + 4),
        byte_at(code, place + 5),
        byte_at(code, place + 6),
        byte_at(code, place + 7),
    ])
}

// The same where the code ends before the eighth: of its last eight bytes, those before the place are shifted out.
#[cold]
#[inline(never)]
fn eight_near_end(code: &[u8], place: u64) -> u64
    requires near { length code.now < place + 8 }
    requires within { place < 2 ^ 63 + 2 ^ 32 }
    ensures { result ≡ number_at code.now place 8 }
{
    let size = code.len() as u64;
    if place >= size || size < 8 {
        return eight_one_by_one(code, place);
    }
    eight_at(code, code.len() - 8) >> (8 * (place + 8 - size))
}

/// The number in the eight bytes of the code at a place, the least significant first. Past the
/// code they are 0.
#[inline]
pub fn eight_bytes(code: &[u8], place: u64) -> u64
    requires { place < 2 ^ 63 + 2 ^ 32 }
    ensures { result ≡ number_at code.now place 8 }
{
    let from = place as usize;
    if from + 8 <= code.len() {
        return eight_at(code, from);
    }
    eight_near_end(code, place)
}

/// The number of the lowest bytes of a number, with their sign.
#[inline]
pub fn with_sign(number: u64, size: u8) -> u64
    requires { size ≤ 4 }
    ensures { result ≡ extended_bytes size (number % 2 ^ (8 * size)) }
{
    if size == 0 {
        return 0;
    }
    let unused = 64 - 8 * u32::from(size);
    ((number << unused).cast_signed() >> unused).cast_unsigned()
}

/// The immediate in so many bytes of the code at a place.
#[inline]
pub fn immediate(code: &[u8], place: u64, size: u8) -> u64
    requires within { place < 2 ^ 63 + 2 ^ 32 }
    requires short { size ≤ 4 }
    ensures { result ≡ imm code.now place size }
{
    with_sign(eight_bytes(code, place), size)
}

/// The place at a signed distance, if it is not below 0.
#[inline]
pub fn at_distance(place: u64, distance: u64) -> Option<u64>
    requires { place < 2 ^ 63 }
    ensures { result ≡ offset place distance }
{
    if distance < 1 << 63 {
        Some(place + distance)
    } else {
        place.checked_sub(distance.wrapping_neg())
    }
}

/// The register of a number: one above 12 is cut to 12.
#[inline]
pub fn register(number: u8) -> u8
    ensures value { result ≡ register number }
    ensures bound { result < 13 }
{
    number.min(12)
}

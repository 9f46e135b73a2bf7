// Addresses, which are modulo 2^32.
ghost use Rattle.std.specs.Prelude.{◌≡◌, ◌+◌};
ghost use Rattle.pvm_step.specs.Effect.{address};

#[inline(always)]
pub fn address(sum: u64) -> u32
    ensures { result ≡ address sum }
{
    (sum % (1 << 32)) as u32
}

/// The address at an offset.
#[inline(always)]
pub fn address_from(base: u64, offset: u64) -> u32
    ensures { result ≡ address (base + offset) }
{
    address(base.wrapping_add(offset))
}

//! Numbers of items, and of the models that they place.
ghost use Rattle.std.specs.Prelude.{◌≡◌, ◌<◌, ◌^◌, ◌↔◌, slice_get, option_and_then, IfOk, IsOk};

use std::alloc::AllocError;

/// The number as one of 32 bits. A number of 2 ^ 32 or more counts things for which there is no room, so it is answered
/// with want of memory.
pub fn in_32_bits(number: usize) -> Result<u32, AllocError>
    ensures same { IfOk result (λ same. same ≡ number) }
    ensures comes { IsOk result ↔ number < 2 ^ 32 }
{
    if number >= 1 << 32 {
        return Err(AllocError);
    }
    Ok(number as u32)
}

/// The number of the model that stands at the place behind so many places.
pub fn target_behind(targets: &[Option<u32>], before: usize) -> Option<u32>
    ensures { result ≡ option_and_then (λ target. target) (slice_get targets.now before) }
{
    targets.get(before).copied().flatten()
}

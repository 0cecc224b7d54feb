ghost use Rattle.std.specs.Prelude.{◌≡◌, ◌≤◌, ◌<◌, ◌+◌, ◌-◌, length, None, Some, OnOk, IfErr};
ghost use Rattle.tink_streaming_segment.specs.Sizes.{sizes_fault};

use tink_io::{Kind, TinkError};

/// Whether a nonce has room for its prefix, and the first segment for some text. Sizes are in bytes.
///
/// # Errors
/// `NonceTooShort` if a nonce has not five bytes more than its prefix. `OffsetTooBig` if the offset is beyond the
/// segment. `SegmentTooSmall` if the first segment has no room for text.
pub fn check_sizes(
    nonce_size: usize,
    prefix: &[u8],
    size: u32,
    offset: u32,
    overhead: usize,
) -> Result<(), TinkError>
    ensures ok { OnOk result (sizes_fault nonce_size (length prefix.now) size offset overhead ≡ None) }
    ensures nonce { OnOk result (length prefix.now + 5 ≤ nonce_size) }
    ensures first { OnOk result (overhead < size - offset) }
    ensures refused { IfErr result (λ e. sizes_fault nonce_size
        (length prefix.now) size offset overhead ≡ Some e.kind) }
{
    if nonce_size < prefix.len() + 5 {
        return Err(TinkError::new(Kind::NonceTooShort));
    }
    if size < offset {
        return Err(TinkError::new(Kind::OffsetTooBig));
    }
    if (size - offset) as usize <= overhead {
        return Err(TinkError::new(Kind::SegmentTooSmall));
    }
    Ok(())
}

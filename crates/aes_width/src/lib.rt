//! The width of AES: whether sixteen blocks go together by vectors of 32 bytes.
#![tactic(auto)]

/// Whether sixteen blocks go together, and not twice eight. No clause says which, so a caller is proved for both
/// answers. A program for processors with vectors of 32 bytes is linked with a copy of this crate that answers `true`.
#[inline(always)]
pub fn is_wide() -> bool {
    false
}

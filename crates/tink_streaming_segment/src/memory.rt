//! Vectors that keep the memory that they have.

ghost use Rattle.std.specs.Prelude.{◌≡◌, ◌≤◌, length, vec_len, vec_capacity};

/// Gives `bytes` a length of `n` bytes. The clauses do not say which bytes they are.
pub fn set_length(bytes: &mut Vec<u8>, n: usize)
    requires { n ≤ vec_capacity bytes.old }
    ensures len { vec_len bytes.new ≡ n }
    ensures capacity { vec_capacity bytes.new ≡ vec_capacity bytes.old }
{
    bytes.truncate(n);
    while bytes.len() < n {
        bytes.push_reserved(0);
    }
}

/// Puts bytes in the place of those that are there, in the same memory.
pub fn refill(bytes: &mut Vec<u8>, from: &[u8])
    requires { length from.now ≤ vec_capacity bytes.old }
    ensures items { bytes.new.items ≡ from.now }
    ensures capacity { vec_capacity bytes.new ≡ vec_capacity bytes.old }
{
    set_length(bytes, from.len());
    bytes.copy_from_slice(from);
}

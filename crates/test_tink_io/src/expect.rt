//! Comparing: a test function with many `assert_eq!` takes long to prove.

use std::fmt::Debug;
use std::process::Abort;

pub fn expect<T>(rt: &impl Abort, got: T, want: T, label: &str)
where
    T: PartialEq + Debug + Drop,
{
    assert_eq!(rt; got, want, "{label}");
}

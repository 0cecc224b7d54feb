ghost use Rattle.std.specs.Prelude.{◌≡◌, ◌≤◌, ◌<◌, ◌+◌, ◌^◌, length, take, drop, IfSome, OnOk};
ghost use Rattle.tink_range.specs.Objects.{ReadsObject};

use crate::read_at::ReadAt;
use tink_io::Failed;

/// Fills `buf` with the bytes of an object from byte `at` on.
///
/// # Errors
/// `Failed` if the object failed.
pub fn fill_at<A: ReadAt>(object: &mut A, at: u64, buf: &mut [u8]) -> Result<(), Failed>
    requires within { at + length buf.old ≤ A.length_of object.old }
    requires fits { at + length buf.old < 2 ^ 64 }
    ensures given { OnOk result (IfSome (A.bytes object.old)
        (λ S. buf.new ≡ take (length buf.old) (drop at S))) }
    ensures taken { A.taken object.new ≤ A.taken object.old + length buf.old }
    ensures read { ReadsObject A.length_of A.bytes A.faults A.same object.old object.new result }
{
    let mut done = 0;
    while done < buf.len() {
        match object.read_at(at + done as u64, &mut buf[done..]) {
            Ok(count) => done += count,
            Err(e) => return Err(e),
        }
    }
    Ok(())
}

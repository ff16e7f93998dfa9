// Bytes copied to the front of others.
#![tactic(auto)]

ghost use Rattle.std.specs.Prelude.{◌≡◌, ◌≤◌, ◌++◌, length, take, drop};

// Copies all of src to the front of dst, and answers how many bytes that is.
pub fn copy(src: &[u8], dst: &mut [u8]) -> usize
    requires { length src.now ≤ length dst.old }
    ensures count { result ≡ length src.now }
    ensures front { dst.new ≡ take (length src.now) src.now ++ drop (length src.now) dst.old }
{
    let count = src.len();
    dst[..count].copy_from_slice(src);
    count
}

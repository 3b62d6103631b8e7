ghost use Rattle.std.specs.Prelude.{◌≡◌, ◌≤◌, length};
ghost use Rattle.mh_outside.specs.Contents.{ReadsFrom};

/// Copies the bytes from a place on, as far as there is room, and says how many they were. Files in
/// memory are read in this way.
pub fn copy_from(bytes: &[u8], at: u64, buf: &mut [u8]) -> usize
    ensures count { result ≤ length buf.new }
    ensures bytes { ReadsFrom bytes.now at result buf.new }
{
    let at = at as usize;
    if at >= bytes.len() {
        return 0;
    }
    let rest = &bytes[at..];
    let count = rest.len().min(buf.len());
    buf[..count].copy_from_slice(&rest[..count]);
    count
}

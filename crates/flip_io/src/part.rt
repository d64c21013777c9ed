//! Copying bytes into a buffer that is there already, for the forms in memory.
ghost use Rattle.std.specs.Prelude.{◌≡◌, ◌≤◌, ◌<◌, ◌+◌, ◌-◌, ◌++◌, min, length, take, drop};
ghost use Rattle.std.specs.Prelude.{vec_len, vec_capacity};

/// Copies bytes of a file from the place `at` on, as many as there are and fit, and no more than
/// `most`.
pub(crate) fn copy_part(file: &[u8], at: u64, buf: &mut [u8], most: usize) -> usize
    ensures count { result ≡ min (min most (length buf.new)) (length file.now - at) }
    ensures bytes { take result buf.new ≡ take result (drop at file.now) }
{
    let start = at as usize;
    if start >= file.len() {
        return 0;
    }
    let rest = &file[start..];
    let n = most.min(buf.len()).min(rest.len());
    buf[..n].copy_from_slice(&rest[..n]);
    n
}

/// Appends bytes for which the buffer has room. It takes no memory: the capacity stays.
pub(crate) fn append(buffer: &mut Vec<u8>, bytes: &[u8])
    requires room { vec_len buffer.old + length bytes.now ≤ vec_capacity buffer.old }
    ensures items { buffer.new.items ≡ buffer.old.items ++ bytes.now }
    ensures capacity { vec_capacity buffer.new ≡ vec_capacity buffer.old }
{
    for byte in bytes {
        buffer.push_reserved(*byte);
    }
}

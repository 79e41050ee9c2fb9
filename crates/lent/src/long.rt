// Copies of many bytes.
//
// Each part goes through a local array of fixed length: the compiler makes one memmove of the copy into it and the copy out of it, and the
// array goes away. A loop that copies from slice to slice has to test first whether the two lie over each other.
ghost use Rattle.std.specs.Prelude.{◌≡◌, ◌≤◌, length};

// dst, at most 4096 bytes, becomes src.
fn copy_part(dst: &mut [u8], src: &[u8])
    requires dst_len { length dst.old ≡ length src.now }
    requires dst_len_bound { length dst.old ≤ 4096 }
    ensures { dst.new ≡ src.now }
{
    let mut t = [0u8; 4096];
    let n = src.len();
    crate::copy_front(&mut t, src, n);
    crate::copy_front(dst, &t, n);
}

// dst becomes src, as by `copy`. For rows, which are short, `copy` is faster.
pub fn copy(dst: &mut [u8], src: &[u8])
    requires { length dst.old ≡ length src.now }
    ensures { dst.new ≡ src.now }
{
    let n = src.len();
    for k in (0..n).step_by(4096) {
        let end = k + (n - k).min(4096);
        copy_part(&mut dst[k..end], &src[k..end]);
    }
}

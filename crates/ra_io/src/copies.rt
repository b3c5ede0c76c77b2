ghost use Rattle.std.specs.Prelude.{◌≡◌, ◌≤◌, ◌-◌, length, min};
ghost use Rattle.ra_io.specs.Files.{ReadsAt};

/// Copies the bytes at a place, as many as there are and as there is room for, and says how many.
pub fn copy_at(bytes: &[u8], at: u64, buf: &mut [u8]) -> usize
    ensures amount { result ≡ min (length buf.old) (length bytes.now - at) }
    ensures read { ReadsAt bytes.now at result buf.new }
{
    let Ok(start) = usize::try_from(at) else {
        return 0;
    };
    if bytes.len() <= start {
        return 0;
    }
    let rest = bytes.split_at(start).1;
    let n = rest.len().min(buf.len());
    buf[..n].copy_from_slice(rest.split_at(n).0);
    n
}

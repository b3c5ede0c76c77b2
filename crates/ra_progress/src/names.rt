ghost use Rattle.std.specs.Prelude.{◌≡◌, ◌+◌, ◌≤◌, length};
ghost use Rattle.ra_progress.specs.Layout as spec;

/// The name at a place, counted in bytes: docs/DEFINITIONS.md, "Progress file".
pub fn name_at(bytes: &[u8], at: u64) -> [u8; 16]
    requires { at + 16 ≤ length bytes.now }
    ensures { result ≡ spec.name_at bytes.now at }
{
    let at = at as usize;
    let mut name = [0; 16];
    name.copy_from_slice(&bytes[at..at + 16]);
    name
}

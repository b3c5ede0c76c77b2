//! What a file has from its line `P` on: docs/DEFINITIONS.md, "Normal text".

ghost use Rattle.std.specs.Prelude.{◌≡◌, true};
ghost use Rattle.ra_normal.specs.Text.{begins_script, script_from};

// The bytes of a file from its line `P` on.
pub(crate) fn script_bytes(bytes: &[u8]) -> &[u8]
    ensures { result.now ≡ script_from true bytes.now }
{
    let mut starts = true;
    let mut left = bytes;
    'bytes: while let Some((first, others)) = left.split_first() {
        if starts && begins_script(left) {
            return left;
        }
        starts = *first == b'\n';
        left = others;
    }
    left
}

// The bytes begin with a line `P`.
fn begins_script(text: &[u8]) -> bool
    ensures { result ≡ begins_script text.now }
{
    text.starts_with(b"P\n") || text.starts_with(b"P\r\n") || text == b"P".as_slice()
}

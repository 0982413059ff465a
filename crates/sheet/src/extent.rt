//! How far a sheet reaches in bytes that go on behind it.
ghost use Rattle.std.specs.Prelude.{◌≡◌, ◌≤◌, length};
ghost use Rattle.sheet.specs.Extents.{extent};

use crate::record::Kind;
use records::record_at;

/// How many bytes a sheet takes up at the front of these: through its first end record, by kinds and lengths alone, or all of them
/// where no such record comes.
pub fn extent(bytes: &[u8]) -> usize
    ensures reach { result ≡ extent bytes.now }
    ensures inside { result ≤ length bytes.now }
{
    let mut left = bytes;
    while let Ok((kind, body)) = record_at::<Kind>(left, 0) {
        left = &left[1 + body.len()..];
        if kind == Kind::End {
            return bytes.len() - left.len();
        }
    }
    bytes.len()
}

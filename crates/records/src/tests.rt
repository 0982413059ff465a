//! Records of a format whose kinds are 0 to 9, each with a body of so many bytes.
ghost use Rattle.std.specs.Prelude.{◌≡◌, Some, None, nat_lt, if◌then◌else◌};
ghost use Rattle.std.specs.Option.{ok_or};

use crate::{NoSuchKind, RecordFault, RecordKind, record_at};

#[derive(Clone, Copy, PartialEq, Debug)]
struct Length(u8);

impl TryFrom<u8> for Length {
    type Error = NoSuchKind;

    ghost try_from_gives = { λ byte r. r ≡ ok_or (if nat_lt byte 10 then Some (record { 0 = byte }) else None) (record {}) };

    fn try_from(byte: u8) -> Result<Length, NoSuchKind> {
        if byte < 10 {
            Ok(Length(byte))
        } else {
            Err(NoSuchKind)
        }
    }
}

impl RecordKind for Length {
    ghost kind_of = { λ byte. if nat_lt byte 10 then Some (record { 0 = byte }) else None };

    ghost length_of = { λ kind. kind.0 };

    ghost read_from_byte = { λ byte r e. e };

    fn body_length(self) -> usize {
        usize::from(self.0)
    }
}

const BYTES: [u8; 6] = [2, 31, 32, 0, 10, 1];

#[test]
fn a_body_is_a_part_of_the_bytes(rt: HostRuntime) {
    assert_eq!(rt; record_at(&BYTES, 0), Ok((Length(2), &BYTES[1..3])));
    assert_eq!(rt; record_at(&BYTES, 3), Ok((Length(0), &BYTES[4..4])));
}

#[test]
fn faults_have_the_place_of_the_kind(rt: HostRuntime) {
    let unknown = record_at::<Length>(&BYTES, 4).err();
    assert_eq!(rt; unknown, Some(RecordFault::UnknownKind { at: 4 }));
    for at in 5..8 {
        let cut = record_at::<Length>(&BYTES, at).err();
        assert_eq!(rt; cut, Some(RecordFault::CutShort { at }));
    }
}

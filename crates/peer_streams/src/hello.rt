ghost use Rattle.std.specs.Prelude.{◌≡◌, ◌∷◌, ◌≤◌, ℕ, [], length, Some, None, OnOk, IfErr};
ghost use Rattle.frames.specs.Bytes.{u64_bytes};
ghost use Rattle.peer_streams.specs.Judging.{padded, field_differs, hello_differs, IsOfPeer};

use crate::error::PartyError;
use byteorder::{BigEndian, ByteOrder};
use frames::Hello;
use mot_base::Party;

/// The greatest number of bytes of a Hello's field.
const FIELD_LENGTH: usize = 32;

/// Whether a Hello is the one that is expected of its peer.
pub(crate) fn check_hello(expected: &Hello, found: &Hello) -> Result<(), PartyError>
    ensures ok { OnOk result (hello_differs expected.now found.now ≡ None) }
    ensures err { IfErr result (λ cause. hello_differs expected.now found.now ≡ Some cause) }
    ensures kind { IfErr result (IsOfPeer expected.now.from) }
{
    let peer = expected.from;
    check_field(peer, 0, &[expected.version], &[found.version])?;
    check_field(peer, 1, &[expected.parties], &[found.parties])?;
    check_field(peer, 2, &[expected.from.0], &[found.from.0])?;
    check_field(peer, 3, &[expected.to.0], &[found.to.0])?;
    check_field(peer, 4, &id_bytes(expected.id), &id_bytes(found.id))?;
    check_field(peer, 5, &expected.circuit, &found.circuit)
}

/// Whether a field of a Hello has the value that is expected.
fn check_field(peer: Party, field: u8, ours: &[u8], theirs: &[u8]) -> Result<(), PartyError>
    requires ours { length ours.now ≤ FIELD_LENGTH }
    requires theirs { length theirs.now ≤ FIELD_LENGTH }
    ensures ok { OnOk result (field_differs peer field ours.now theirs.now ≡ None) }
    ensures err { IfErr result (λ cause. field_differs peer field ours.now theirs.now ≡ Some cause) }
    ensures kind { IfErr result (IsOfPeer peer) }
{
    if ours == theirs {
        return Ok(());
    }
    Err(PartyError::HelloDiffers {
        peer,
        field,
        ours: padded(ours),
        theirs: padded(theirs),
    })
}

/// The bytes of a field, with zeros in front.
fn padded(bytes: &[u8]) -> [u8; FIELD_LENGTH]
    requires { length bytes.now ≤ FIELD_LENGTH }
    ensures { result ≡ padded bytes.now }
{
    let mut field = [0; FIELD_LENGTH];
    field[FIELD_LENGTH - bytes.len()..].copy_from_slice(bytes);
    field
}

/// The bytes of the number of a deal.
#[tactic(auto, unfolding(frames::specs::Bytes::u64_bytes))]
fn id_bytes(id: u64) -> [u8; 8]
    ensures { result ≡ u64_bytes id }
{
    let mut bytes = [0; 8];
    BigEndian::write_u64(&mut bytes, id);
    bytes
}

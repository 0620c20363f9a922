//! Words and vectors as the bytes of messages.

ghost use Rattle.std.specs.Prelude.{◌≡◌, ◌≤◌, ◌<◌, ◌+◌, ◌*◌, ◌++◌, ◌^◌, length, OnOk, IfOk, IfSome, IsSome};
ghost use Rattle.std.specs.List.{flat_map};
ghost use Rattle.mot_base.specs.Limits.{most_width};
ghost use Rattle.byteorder.specs.Endian.{big_bytes};
ghost use Rattle.message_demux.specs.Slots.{vector_bytes};
ghost use Rattle.joint_run.specs.Payload.{word_bytes, word_in, bytes_of_vector, vector_in};

use byteorder::{BigEndian, ByteOrder};
use mot_base::{NoMemory, Payload};
use share_types::Bits;
use std::alloc::{AllocError, Global};

/// The payload of words, each in 8 bytes, the high byte first.
pub fn word_payload(alloc: Global, words: &[u64]) -> Result<Payload, NoMemory>
    ensures { IfOk result (λ payload. payload ≡ word_bytes words.now) }
{
    let mut bytes = vec![in alloc; 0; 8 * words.len()]?;
    BigEndian::write_u64_into(words, &mut bytes);
    Ok(Payload::new(bytes))
}

/// The word at a place of a payload of words.
pub fn word_in(payload: &Payload, at: usize) -> u64
    requires { 8 * at + 8 ≤ length payload.now }
    ensures { result ≡ word_in payload.now at }
{
    BigEndian::read_u64(&payload.bytes()[8 * at..])
}

/// The payload of vectors, each as its number in as many bytes as its width asks for, the high byte first.
pub fn vector_payload(alloc: Global, vectors: &[Bits]) -> Result<Payload, NoMemory>
    ensures { IfOk result (λ payload. payload ≡ flat_map bytes_of_vector vectors.now) }
{
    let mut bytes = Vec::with_capacity(alloc, vectors.len())?;
    put_vectors(&mut bytes, vectors)?;
    Ok(Payload::new(bytes))
}

/// The vector at a place of a payload of vectors of a width, if no bit stands at or above its width there.
pub fn vector_in(payload: &Payload, width: u8, at: usize) -> Option<Bits>
    requires some { 1 ≤ width }
    requires most { width ≤ most_width }
    requires inside { vector_bytes width * at + vector_bytes width ≤ length payload.now }
    ensures word { IfSome result (λ vector. vector.word ≡ vector_in width payload.now at) }
    ensures width { IfSome result (λ vector. vector.width ≡ width) }
    ensures found { vector_in width payload.now at < 2 ^ width → IsSome result }
{
    let size = byte_count(width);
    Bits::new(
        BigEndian::read_uint(&payload.bytes()[size * at..], size),
        width,
    )
}

fn put_vectors(out: &mut Vec<u8>, vectors: &[Bits]) -> Result<(), AllocError>
    ensures { OnOk result (out.new.items ≡ out.old.items ++ flat_map bytes_of_vector vectors.now) }
{
    for vector in vectors {
        put_vector(out, *vector)?;
    }
    Ok(())
}

/// Writes the number of a vector in as many bytes as its width asks for.
fn put_vector(out: &mut Vec<u8>, vector: Bits) -> Result<(), AllocError>
    ensures { OnOk result (out.new.items ≡ out.old.items ++ bytes_of_vector vector) }
{
    let size = byte_count(vector.width);
    let mut bytes = [0; 8];
    BigEndian::write_uint(&mut bytes, vector.word, size);
    out.extend_from_slice(&bytes[..size])
}

/// How many bytes a vector of a width has.
fn byte_count(width: u8) -> usize
    requires { width ≤ most_width }
    ensures { result ≡ vector_bytes width }
{
    usize::from(width).div_ceil(8)
}

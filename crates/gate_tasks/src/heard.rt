//! What a stage makes of the payloads for which it waited.

ghost use Rattle.std.specs.Prelude.{◌≡◌, ◌<◌, ◌≤◌, ◌+◌, ◌*◌, ◌^◌, All, length, slice_index_or, []};
ghost use Rattle.message_demux.specs.Slots.{vector_bytes};
ghost use Rattle.mot_base.specs.Limits.{most_width};
ghost use Rattle.joint_run.specs.Payload.{vector_in};
ghost use Rattle.gate_tasks.specs.ByValue.{opened_words, opened_vectors};

use joint_run::{vector_in, word_in};
use mot_base::Payload;
use share_types::Bits;

/// What the own part and the words at a place of all payloads sum to.
pub(crate) fn opened_word(part: u64, payloads: &[Payload], at: usize) -> u64
    requires { All (λ payload. 8 * at + 8 ≤ length payload) payloads.now }
    ensures { result ≡ opened_words part at payloads.now }
{
    let mut opened = part;
    for payload in payloads {
        opened = opened.wrapping_add(word_in(payload, at));
    }
    opened
}

/// What the own part and the vectors at a place of all payloads XOR to.
pub(crate) fn opened_vector(part: Bits, payloads: &[Payload], at: usize) -> Bits
    requires inside { All
        (λ payload. vector_bytes part.width * at + vector_bytes part.width ≤ length payload) payloads.now }
    requires small { All (λ payload. vector_in part.width payload at < 2 ^ part.width) payloads.now }
    ensures word { result.word ≡ opened_vectors part.width part.word at payloads.now }
    ensures width { result.width ≡ part.width }
{
    let mut opened = part;
    for payload in payloads {
        opened = opened.xor(vector_heard(payload, part.width, at));
    }
    opened
}

/// The vector at a place of a payload that has no bit at or above the width there.
pub(crate) fn vector_heard(payload: &Payload, width: u8, at: usize) -> Bits
    requires some { 1 ≤ width }
    requires most { width ≤ most_width }
    requires inside { vector_bytes width * at + vector_bytes width ≤ length payload.now }
    requires small { vector_in width payload.now at < 2 ^ width }
    ensures word { result.word ≡ vector_in width payload.now at }
    ensures width { result.width ≡ width }
{
    match vector_in(payload, width, at) {
        Some(vector) => vector,
        None => unreachable!(),
    }
}

ghost use Rattle.std.specs.Prelude.{◌≡◌, ◌≤◌, ◌*◌, IsTrue, length, map, Option, Some, None};
ghost use Rattle.std.specs.List.Sorted.{IsStrictlySortedBy};
ghost use Rattle.message_demux.specs.Slots.{slot_cmp, slot_of, listed, vector_bytes, overflows, has_high_bits, IsShapeOf, IsPlaceOf};

use byteorder::{BigEndian, ByteOrder};
use mot_base::{MAX_WIDTH, Party};

/// Where a message stands among those to one party: who sends it, for which gate, in which of the
/// gate's rounds.
#[derive(Clone, Copy, Debug, PartialEq, Eq, PartialOrd, Ord)]
pub struct Slot {
    pub from: Party,
    pub gate: u32,
    pub round: u8,
}

/// How the bytes of a payload are to be read.
#[derive(Clone, Copy, Debug, PartialEq, Eq)]
pub enum Shape {
    /// Words and keys, of which each number of their bytes is one.
    Words,
    /// `count` vectors of `width` bits, each as its number in `ceil(width / 8)` bytes, big-endian.
    Vectors { count: u8, width: u8 },
}

/// A message that is expected: its slot, and the length in bytes and the shape of its payload.
#[derive(Clone, Copy, Debug, PartialEq, Eq)]
pub struct SlotSpec {
    pub from: Party,
    pub gate: u32,
    pub round: u8,
    pub len: u32,
    pub shape: Shape,
}

impl SlotSpec {
    /// Its slot.
    pub fn slot(&self) -> Slot
        ensures { result ≡ slot_of self.now }
    {
        Slot {
            from: self.from,
            gate: self.gate,
            round: self.round,
        }
    }
}

/// The place of a slot among expected messages.
pub fn place_of(specs: &[SlotSpec], slot: Slot) -> Option<usize>
    requires { IsStrictlySortedBy slot_cmp (map slot_of specs.now) }
    ensures { IsPlaceOf specs.now slot result }
{
    specs.binary_search_by_key(&slot, |spec| spec.slot()).ok()
}

/// Whether a vector of a payload of that shape has a bit at or above its width.
pub fn has_high_bits(shape: Shape, payload: &[u8]) -> bool
    requires { IsShapeOf shape (length payload.now) }
    ensures { result ≡ has_high_bits shape payload.now }
{
    let Shape::Vectors { count, width } = shape else {
        return false;
    };
    let size = usize::from(width).div_ceil(8);
    let mut rest = payload;
    for _ in 0..count {
        let (vector, behind) = rest.split_at(size);
        if overflows(vector, width) {
            return true;
        }
        rest = behind;
    }
    false
}

fn overflows(vector: &[u8], width: u8) -> bool
    requires least { 1 ≤ width }
    requires most { width ≤ MAX_WIDTH }
    requires length { length vector.now ≡ vector_bytes width }
    ensures { result ≡ overflows width vector.now }
{
    let number = BigEndian::read_uint(vector, vector.len());
    width < MAX_WIDTH && number >> width != 0
}

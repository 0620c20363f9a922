ghost use Rattle.std.specs.Prelude.{◌≡◌, [], Some, None, option_map};
ghost use Rattle.mot_base.specs.Limits.{most_width};
ghost use Rattle.mixed_language.specs.declared.language.Operation.TheVariants.{ConstBits};
ghost use Rattle.mixed_language.specs.Circuit as spec;
ghost use Rattle.mixed_language.specs.Circuit.{shape_of};
ghost use Rattle.share_types.specs.Wires.{party_told};
ghost use Rattle.mixed_circuit.specs.Rows.{row_shape};

use circuit_tables::Receiver;
use mixed_language::{Form, Operation};
use mot_base::{MAX_WIDTH, Party};
use share_types::{Bits, Sharing};

/// What a form is made of, whatever the form: its operation, the sharing of its value, the places of its
/// operands, of which as many count as the operation has, its party, and its numbers.
#[derive(Clone, Copy)]
pub struct Row {
    pub operation: Operation,
    pub sharing: Option<Sharing>,
    pub x: u32,
    pub y: u32,
    pub party: Option<Party>,
    pub width: u8,
    pub place: u8,
    pub constant: u64,
}

/// The row of an operation on these operands that states nothing else.
fn bare(operation: Operation, sharing: Sharing, x: u32, y: u32) -> Row
    ensures { result ≡ record {
      operation = operation;
      sharing = Some sharing;
      x = x;
      y = y;
      party =
          None;
      width = most_width;
      place = 0;
      constant = 0;
    } }
{
    Row {
        operation,
        sharing: Some(sharing),
        x,
        y,
        party: None,
        width: MAX_WIDTH,
        place: 0,
        constant: 0,
    }
}

/// What a form is made of.
pub fn row_of(form: Form) -> Row
    ensures { row_shape result ≡ shape_of form }
{
    match form {
        Form::InputA { party } => Row {
            party: Some(party),
            ..bare(Operation::InputWord, Sharing::A, 0, 0)
        },
        Form::InputB { party, width } => Row {
            party: Some(party),
            width,
            ..bare(Operation::InputBits, Sharing::B, 0, 0)
        },
        Form::InputY { party, width } => Row {
            party: Some(party),
            width,
            ..bare(Operation::InputBits, Sharing::Y, 0, 0)
        },
        Form::ConstA { c } => Row {
            constant: c,
            ..bare(Operation::ConstWord, Sharing::A, 0, 0)
        },
        Form::ConstB { c } => vector(Sharing::B, c),
        Form::ConstY { c } => vector(Sharing::Y, c),
        Form::AddA { x, y } => bare(Operation::Add, Sharing::A, x, y),
        Form::SubA { x, y } => bare(Operation::Sub, Sharing::A, x, y),
        Form::MulA { x, y } => bare(Operation::Mul, Sharing::A, x, y),
        Form::AddConstA { x, c } => Row {
            constant: c,
            ..bare(Operation::AddConst, Sharing::A, x, 0)
        },
        Form::MulConstA { x, c } => Row {
            constant: c,
            ..bare(Operation::MulConst, Sharing::A, x, 0)
        },
        Form::XorB { x, y } => bare(Operation::Xor, Sharing::B, x, y),
        Form::XorY { x, y } => bare(Operation::Xor, Sharing::Y, x, y),
        Form::AndB { x, y } => bare(Operation::And, Sharing::B, x, y),
        Form::AndY { x, y } => bare(Operation::And, Sharing::Y, x, y),
        Form::NotB { x } => bare(Operation::Not, Sharing::B, x, 0),
        Form::NotY { x } => bare(Operation::Not, Sharing::Y, x, 0),
        Form::SliceB { x, at, width } => Row {
            place: at,
            width,
            ..bare(Operation::Slice, Sharing::B, x, 0)
        },
        Form::SliceY { x, at, width } => Row {
            place: at,
            width,
            ..bare(Operation::Slice, Sharing::Y, x, 0)
        },
        Form::JoinB { x, y } => bare(Operation::Join, Sharing::B, x, y),
        Form::JoinY { x, y } => bare(Operation::Join, Sharing::Y, x, y),
        Form::A2Y { x } => bare(Operation::A2Y, Sharing::Y, x, 0),
        Form::A2B { x } => bare(Operation::A2B, Sharing::B, x, 0),
        Form::B2Y { x } => bare(Operation::B2Y, Sharing::Y, x, 0),
        Form::Y2B { x } => bare(Operation::Y2B, Sharing::B, x, 0),
        Form::B2A { x } => bare(Operation::B2A, Sharing::A, x, 0),
        Form::Y2A { x } => bare(Operation::Y2A, Sharing::A, x, 0),
        Form::Output { x, to } => Row {
            sharing: None,
            party: party_of(to),
            ..bare(Operation::Output, Sharing::A, x, 0)
        },
    }
}

/// The row of a constant vector.
fn vector(sharing: Sharing, c: Bits) -> Row
    ensures { row_shape result ≡ record (spec.bare ConstBits (Some sharing) []) {
      width = c.width;
      constant = c.word;
    } }
{
    Row {
        width: c.width,
        constant: c.word,
        ..bare(Operation::ConstBits, sharing, 0, 0)
    }
}

/// The party that is told, if it is one.
fn party_of(to: Receiver) -> Option<Party>
    ensures { option_map (λ party. party.0) result ≡ party_told to }
{
    match to {
        Receiver::One(party) => Some(party),
        Receiver::All => None,
    }
}

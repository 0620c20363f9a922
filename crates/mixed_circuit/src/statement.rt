ghost use Rattle.std.specs.Prelude.{◌≡◌, ◌<◌, true, [], ◌∷◌, length, map, Some, IfSome, IsSome, slice_index};
ghost use Rattle.mot_base.specs.Limits.{most_parties};
ghost use Rattle.mixed_language.specs.Language.{domain_of, is_in, arity_of};
ghost use Rattle.mixed_language.specs.declared.language.Domain.TheVariants.{Vectors};
ghost use Rattle.mixed_language.specs.declared.language.Operation.TheVariants.{InputBits, ConstBits, Xor, And, Not, Slice, Join};
ghost use Rattle.mixed_language.specs.Circuit.{shape_of, bare};
ghost use Rattle.share_types.specs.Wires.{party_told, wire_type};
ghost use Rattle.mixed_circuit.specs.Line.{statement_of};
ghost use Rattle.mixed_circuit.specs.Stated.{stated, AreWhole, shape_stated};

use crate::raw::Raw;
use circuit_tables::Receiver;
use mixed_language::{Form, NewStatement, Operand, Operation};
use mot_base::Party;
use share_types::{Bits, Sharing, WireType};
use text_lines::name_text;

/// The form of what a line states, where its operands are the values at `x` and `y`, as many as it has.
pub fn form_of(raw: &Raw, sharing: Sharing, x: u32, y: u32) -> Form
    requires whole { AreWhole (stated raw.now) }
    requires sharing { is_in (domain_of raw.now.operation) sharing ≡ true }
    requires party { IfSome raw.now.party (λ party. party < most_parties) }
    ensures { shape_of result ≡ shape_stated (stated raw.now) sharing x y }
{
    let c = raw.constant;
    let (at, width) = (raw.place, raw.width);
    match raw.operation {
        Operation::InputWord => Form::InputA { party: owner(raw) },
        Operation::InputBits => input_form(sharing, owner(raw), width),
        Operation::ConstWord => Form::ConstA { c },
        Operation::ConstBits => const_form(sharing, bits_of(raw)),
        Operation::Add => Form::AddA { x, y },
        Operation::Sub => Form::SubA { x, y },
        Operation::Mul => Form::MulA { x, y },
        Operation::AddConst => Form::AddConstA { x, c },
        Operation::MulConst => Form::MulConstA { x, c },
        Operation::Xor => xor_form(sharing, x, y),
        Operation::And => and_form(sharing, x, y),
        Operation::Not => not_form(sharing, x),
        Operation::Slice => slice_form(sharing, x, at, width),
        Operation::Join => join_form(sharing, x, y),
        Operation::A2Y => Form::A2Y { x },
        Operation::A2B => Form::A2B { x },
        Operation::B2Y => Form::B2Y { x },
        Operation::Y2B => Form::Y2B { x },
        Operation::B2A => Form::B2A { x },
        Operation::Y2A => Form::Y2A { x },
        Operation::Output => Form::Output {
            x,
            to: receiver(raw),
        },
    }
}

fn input_form(sharing: Sharing, party: Party, width: u8) -> Form
    requires { is_in Vectors sharing ≡ true }
    ensures { shape_of result ≡ record (bare InputBits (Some sharing) []) {
      party = Some party.0;
      width =
          width;
    } }
{
    match sharing {
        Sharing::B => Form::InputB { party, width },
        Sharing::Y => Form::InputY { party, width },
        Sharing::A => unreachable!(),
    }
}

fn const_form(sharing: Sharing, c: Bits) -> Form
    requires { is_in Vectors sharing ≡ true }
    ensures { shape_of result ≡ record (bare ConstBits (Some sharing) []) {
      width = c.width;
      constant =
          c.word;
    } }
{
    match sharing {
        Sharing::B => Form::ConstB { c },
        Sharing::Y => Form::ConstY { c },
        Sharing::A => unreachable!(),
    }
}

fn xor_form(sharing: Sharing, x: u32, y: u32) -> Form
    requires { is_in Vectors sharing ≡ true }
    ensures { shape_of result ≡ bare Xor (Some sharing) (x ∷ y ∷ []) }
{
    match sharing {
        Sharing::B => Form::XorB { x, y },
        Sharing::Y => Form::XorY { x, y },
        Sharing::A => unreachable!(),
    }
}

fn and_form(sharing: Sharing, x: u32, y: u32) -> Form
    requires { is_in Vectors sharing ≡ true }
    ensures { shape_of result ≡ bare And (Some sharing) (x ∷ y ∷ []) }
{
    match sharing {
        Sharing::B => Form::AndB { x, y },
        Sharing::Y => Form::AndY { x, y },
        Sharing::A => unreachable!(),
    }
}

fn not_form(sharing: Sharing, x: u32) -> Form
    requires { is_in Vectors sharing ≡ true }
    ensures { shape_of result ≡ bare Not (Some sharing) (x ∷ []) }
{
    match sharing {
        Sharing::B => Form::NotB { x },
        Sharing::Y => Form::NotY { x },
        Sharing::A => unreachable!(),
    }
}

fn slice_form(sharing: Sharing, x: u32, at: u8, width: u8) -> Form
    requires { is_in Vectors sharing ≡ true }
    ensures { shape_of result ≡ record (bare Slice (Some sharing) (x ∷ [])) { width = width; place = at } }
{
    match sharing {
        Sharing::B => Form::SliceB { x, at, width },
        Sharing::Y => Form::SliceY { x, at, width },
        Sharing::A => unreachable!(),
    }
}

fn join_form(sharing: Sharing, x: u32, y: u32) -> Form
    requires { is_in Vectors sharing ≡ true }
    ensures { shape_of result ≡ bare Join (Some sharing) (x ∷ y ∷ []) }
{
    match sharing {
        Sharing::B => Form::JoinB { x, y },
        Sharing::Y => Form::JoinY { x, y },
        Sharing::A => unreachable!(),
    }
}

/// The party whose input a line says.
fn owner(raw: &Raw) -> Party
    requires there { IsSome raw.now.party }
    requires party { IfSome raw.now.party (λ party. party < most_parties) }
    ensures { raw.now.party ≡ Some result.0 }
{
    match raw.party {
        Some(party) => Party(party as u8),
        None => unreachable!(),
    }
}

/// Who is told, as a line says.
fn receiver(raw: &Raw) -> Receiver
    requires { IfSome raw.now.party (λ party. party < most_parties) }
    ensures { party_told result ≡ raw.now.party }
{
    match raw.party {
        Some(party) => Receiver::One(Party(party as u8)),
        None => Receiver::All,
    }
}

/// The vector that a line states.
fn bits_of(raw: &Raw) -> Bits
    requires { AreWhole (stated raw.now) }
    ensures word { result.word ≡ raw.now.constant }
    ensures width { result.width ≡ raw.now.width }
{
    Bits {
        word: raw.constant,
        width: raw.width,
    }
}

/// The statement of what a line states, with its operands, their sharing, and the width of its value.
pub fn statement_said<'a>(
    raw: &Raw<'a>,
    operands: &[Operand],
    sharing: Sharing,
    width: u8,
) -> NewStatement<'a>
    requires whole { AreWhole (stated raw.now) }
    requires sharing { is_in (domain_of raw.now.operation) sharing ≡ true }
    requires party { IfSome raw.now.party (λ party. party < most_parties) }
    requires arity { length operands.now ≡ arity_of raw.now.operation }
    ensures { result ≡ statement_of (stated raw.now) operands.now sharing width }
{
    let form = form_of(raw, sharing, place_at(operands, 0), place_at(operands, 1));
    match raw.name {
        Some(name) => NewStatement {
            name: name_text(name),
            wire: Some(wire_of(raw.operation.gives(sharing), width)),
            form,
        },
        None => NewStatement {
            name: "",
            wire: None,
            form,
        },
    }
}

/// The place of an operand, or 0 where there is none.
fn place_at(operands: &[Operand], i: usize) -> u32
    ensures { result ≡ slice_index (map (λ x. x.at) operands.now) i }
{
    operands.get(i).map_or(0, |x| x.at)
}

/// A value of so many bits that is shared so. A word has 64.
fn wire_of(sharing: Sharing, width: u8) -> WireType
    ensures { result ≡ wire_type sharing width }
{
    match sharing {
        Sharing::A => WireType::A,
        Sharing::B => WireType::B(width),
        Sharing::Y => WireType::Y(width),
    }
}

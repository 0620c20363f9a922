ghost use Rattle.std.specs.Prelude.{◌≡◌, ◌==◌, ◌+◌, nat_le, slice_get, true, Some, None, IfSome, if◌then◌else◌};
ghost use Rattle.std.specs.List.{list_all};
ghost use Rattle.mot_base.specs.Limits.{most_width};
ghost use Rattle.share_types.specs.Wires.{sharing_of, width_of, is_shared};
ghost use Rattle.mixed_circuit.specs.Line.{sharing_given, width_given};
ghost use Rattle.mixed_language.specs.Operands.{alike_width};
ghost use Rattle.mixed_language.specs.Language.{domain_of, is_in};
ghost use Rattle.mixed_circuit.specs.Stated.{stated, AreWhole};

use crate::raw::Raw;
use mixed_language::{Domain, Operand, Widths};
use mot_base::MAX_WIDTH;
use share_types::{Sharing, WireType};

/// The sharing of a line's letter, or that of the first operand, where the operation takes it and all
/// operands have it.
pub fn sharing_of_all(raw: &Raw, operands: &[Operand]) -> Option<Sharing>
    requires { AreWhole (stated raw.now) }
    ensures value { result ≡ sharing_given (domain_of raw.now.operation) raw.now.letter operands.now }
    ensures taken { IfSome result (λ sharing. is_in (domain_of raw.now.operation) sharing ≡ true) }
{
    match raw.letter {
        Some(sharing) => Some(sharing),
        None => sharing_in_domain(raw.operation.domain(), operands),
    }
}

fn sharing_in_domain(domain: Domain, operands: &[Operand]) -> Option<Sharing>
    ensures value { result ≡ sharing_given domain None operands.now }
    ensures taken { IfSome result (λ sharing. is_in domain sharing ≡ true) }
{
    let first = first_of(operands)?;
    let sharing = first.wire.sharing();
    if domain.has(sharing) && are_shared_alike(first, operands) {
        Some(sharing)
    } else {
        None
    }
}

fn first_of(operands: &[Operand]) -> Option<Operand>
    ensures { result ≡ slice_get operands.now 0 }
{
    operands.first().copied()
}

fn are_shared_alike(first: Operand, operands: &[Operand]) -> bool
    ensures { result ≡ list_all (λ x. is_shared (sharing_of first.wire) x.wire) operands.now }
{
    operands.iter().all(|x| is_shared_alike(first, *x))
}

fn is_shared_alike(first: Operand, x: Operand) -> bool
    ensures { result ≡ is_shared (sharing_of first.wire) x.wire }
{
    match first.wire {
        WireType::A => matches!(x.wire, WireType::A),
        WireType::B(_) => matches!(x.wire, WireType::B(_)),
        WireType::Y(_) => matches!(x.wire, WireType::Y(_)),
    }
}

/// How wide the value of an operation is, where the widths of its operands fit.
pub fn width_of_all(widths: Widths, raw: &Raw, operands: &[Operand]) -> Option<u8>
    ensures { result ≡ width_given widths (stated raw.now) operands.now }
{
    match widths {
        Widths::Whole => Some(MAX_WIDTH),
        Widths::Stated => Some(raw.width),
        Widths::Alike => width_alike(operands),
        Widths::Cut => match operands {
            [x] if width_fits(raw.place, raw.width, x.wire) => Some(raw.width),
            _ => None,
        },
        Widths::Joined => match operands {
            [x, y] => width_joined(x.wire, y.wire),
            _ => None,
        },
    }
}

/// Whether a value has so many bits from a place on.
fn width_fits(place: u8, width: u8, wire: WireType) -> bool
    ensures { result ≡ nat_le (place + width) (width_of wire) }
{
    u16::from(place) + u16::from(width) <= u16::from(wire.width())
}

/// The width of two values joined, which is at most that of a vector.
fn width_joined(x: WireType, y: WireType) -> Option<u8>
    ensures { result ≡ (if nat_le (width_of x + width_of y) most_width
        then Some (width_of x + width_of y) else None) }
{
    let width = u16::from(x.width()) + u16::from(y.width());
    if width <= u16::from(MAX_WIDTH) {
        Some(width as u8)
    } else {
        None
    }
}

fn width_alike(operands: &[Operand]) -> Option<u8>
    ensures { result ≡ alike_width operands.now }
{
    let first = first_of(operands)?;
    if are_alike_wide(first, operands) {
        Some(first.wire.width())
    } else {
        None
    }
}

fn are_alike_wide(first: Operand, operands: &[Operand]) -> bool
    ensures { result ≡ list_all (λ x. width_of x.wire == width_of first.wire) operands.now }
{
    operands
        .iter()
        .all(|x| x.wire.width() == first.wire.width())
}

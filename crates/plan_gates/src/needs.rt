ghost use Rattle.std.specs.Prelude.{◌≡◌};
ghost use Rattle.share_types.specs.Needs.{no_needs};
ghost use Rattle.plan_gates.specs.Gate.{kind_of};
ghost use Rattle.plan_gates.specs.Needs.{needs_of};

use crate::draft::Sizes;
use crate::gate::GateKind;
use share_types::Needs;

/// What a gate needs.
pub fn needs_of(kind: GateKind, sizes: Sizes) -> Needs
    ensures { result ≡ needs_of (kind_of kind) sizes }
{
    match kind {
        GateKind::MulA { .. } => Needs {
            mult: 1,
            ..Needs::none()
        },
        GateKind::AndB { .. } => Needs {
            bit: u32::from(sizes.width),
            ..Needs::none()
        },
        GateKind::KeyMask { .. } => Needs {
            key: u32::from(sizes.width),
            ..Needs::none()
        },
        GateKind::Garble { .. } => table_needs(sizes),
        GateKind::BToA { .. } => Needs {
            shared: u32::from(sizes.low),
            ..Needs::none()
        },
        _ => Needs::none(),
    }
}

/// What a garbled table needs.
fn table_needs(sizes: Sizes) -> Needs
    ensures { result ≡ record no_needs { bit = sizes.width; key = sizes.width } }
{
    let bits = u32::from(sizes.width);
    Needs {
        bit: bits,
        key: bits,
        ..Needs::none()
    }
}

//! Sending what a stage gave.

ghost use Rattle.std.specs.Prelude.{◌≡◌, ◌≤◌, Some, OnOk, OnErr, IfErr, IsErrOf};
ghost use Rattle.std.specs.List.{All};
ghost use Rattle.mot_base.specs.Faults.{Rose};
ghost use Rattle.mot_base.specs.Links.{IsKept, IsSame};
ghost use Rattle.peer_streams.specs.Sending.{AreSent, AreBegun, IsOfLinks};
ghost use Rattle.party_engine.specs.Saying.{bytes_of, CanSend};

use gate_tasks::Out;
use mot_base::{Links, Place};
use peer_streams::{PartyError, send_message};
use std::alloc::Global;

/// Sends messages, each to its receiver.
pub(crate) fn send_outs<L: Links>(
    alloc: Global,
    links: &mut L,
    place: Place,
    outs: &[Out],
) -> Result<(), PartyError>
    requires place { L.place links.old ≡ Some place }
    requires can { All (CanSend place) outs.now }
    ensures all { OnOk result (AreSent (L.sent links.old) (L.sent links.new) (bytes_of outs.now)) }
    ensures some { OnErr result
        (AreBegun (L.sent links.old) (L.sent links.new) (bytes_of outs.now)) }
    ensures kind { IfErr result IsOfLinks }
    ensures fault { IsErrOf result PartyError.LinkFault →
        Rose (L.faults links.old) (L.faults links.new) }
    ensures left { IsKept (L.left links.old) (L.left links.new) }
    ensures closed { IsSame (L.closed links.old) (L.closed links.new) }
    ensures place { L.place links.new ≡ L.place links.old }
    ensures never_falls { L.faults links.old ≤ L.faults links.new }
{
    for out in outs {
        match send_message(alloc, links, out.to, out.gate, out.round, &out.payload) {
            Ok(()) => {}
            Err(cause) => return Err(cause),
        }
    }
    Ok(())
}

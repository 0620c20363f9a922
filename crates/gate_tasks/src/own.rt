//! What a party brings to a gate.

use crate::value::Value;
use crate::wires::Wires;
use dealer_files::DealerPart;
use joint_run::Own;
use message_demux::Inbox;
use plan_gates::Plan;

/// A party's place at a gate of a plan.
#[derive(Clone, Copy)]
pub struct StageEnv<'a> {
    pub plan: &'a Plan,
    pub own: &'a Own,
    pub part: &'a DealerPart,
    pub gate: u32,
}

/// What a party has to run the gates of a plan: its own data, its values so far, and the messages that came.
#[derive(Clone, Copy)]
pub struct Env<'a> {
    pub plan: &'a Plan,
    pub own: &'a Own,
    pub part: &'a DealerPart,
    pub wires: &'a Wires<Value>,
    pub inbox: &'a Inbox,
}

//! What the owner of an input does: it gives out shares, and keeps what they leave.

ghost use Rattle.std.specs.Prelude.{◌≡◌, ◌<◌, ◌≤◌, ◌+◌, [], ◌∷◌, length, get_or, IfOk};
ghost use Rattle.mot_base.specs.Limits.{most_width};
ghost use Rattle.plan_gates.specs.Gate.{width_at};
ghost use Rattle.plan_gates.specs.Plan.{IsPlan};
ghost use Rattle.joint_run.specs.Party.{kept_word, kept_vector, given_word, given_vector, width};
ghost use Rattle.joint_run.specs.Payload.{word_bytes, vectors_bytes};
ghost use Rattle.gate_tasks.specs.Stage.{Serves};
ghost use Rattle.gate_tasks.specs.ByValue.{stand};
ghost use Rattle.gate_tasks.specs.Sending.{outs_by};

use crate::outgoing::Outs;
use crate::own::StageEnv;
use crate::sending::{ToSend, outs};
use crate::value::Value;
use mot_base::{MAX_WIDTH, NoMemory};
use share_types::Bits;
use std::alloc::Global;

/// The owner's share of its input `k`, a word, and the messages with the shares of the others.
pub(crate) fn give_word(alloc: Global, env: &StageEnv, k: u32) -> Result<(u64, Outs), NoMemory>
    requires plan { IsPlan env.now.plan.now }
    requires serves { Serves env.now.plan.now env.now.own.now env.now.part.now env.now.gate }
    requires me { env.now.own.now.me.0 < env.now.plan.now.parties }
    requires input { most_width ≤ length (get_or env.now.own.now.inputs k []) }
    ensures kept { IfOk result (λ given. given.0 ≡ kept_word (stand env.now) k) }
    ensures sent { IfOk result (λ given. given.1
        ≡ outs_by env.now 0 (λ to. word_bytes (given_word (stand env.now) to ∷ []))) }
{
    let own = env.own;
    let x = own.inputs.bits(k, 0, MAX_WIDTH).word;
    let shares = arithmetic_gmw::share_out(
        alloc,
        x,
        &own.seed,
        own.session,
        env.gate,
        own.me,
        env.plan.parties(),
    )?;
    let share = shares[usize::from(own.me.0)];
    let outs = outs(alloc, env, 0, &ToSend::Words(shares))?;
    Ok((share, outs))
}

/// The owner's share of the gate's bits of its input `k` from bit `at` on, and the messages with the shares of the others.
pub(crate) fn give_vector(
    alloc: Global,
    env: &StageEnv,
    k: u32,
    at: u32,
) -> Result<(Bits, Outs), NoMemory>
    requires plan { IsPlan env.now.plan.now }
    requires serves { Serves env.now.plan.now env.now.own.now env.now.part.now env.now.gate }
    requires me { env.now.own.now.me.0 < env.now.plan.now.parties }
    requires input { at + width (stand env.now) ≤ length (get_or env.now.own.now.inputs k []) }
    ensures kept { IfOk result (λ given. given.0.word ≡ kept_vector (stand env.now) k at) }
    ensures width { IfOk result (λ given. given.0.width ≡ width (stand env.now)) }
    ensures sent { IfOk result (λ given. given.1
        ≡ outs_by env.now 0
        (λ to. vectors_bytes (width (stand env.now)) (given_vector (stand env.now) to ∷ []))) }
{
    let own = env.own;
    let x = own.inputs.bits(k, at, env.plan.width(env.gate));
    let shares = boolean_gmw::share_out(
        alloc,
        x,
        &own.seed,
        own.session,
        env.gate,
        own.me,
        env.plan.parties(),
    )?;
    let kept = shares[usize::from(own.me.0)];
    let outs = outs(alloc, env, 0, &ToSend::Vectors(shares))?;
    Ok((kept, outs))
}

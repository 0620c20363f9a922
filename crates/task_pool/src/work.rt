ghost use Rattle.std.specs.Prelude.{ℕ, ◌<◌, IfOk};
ghost use Rattle.turn_core.specs.Graph.{Graph, incoming, outgoing};
ghost use Rattle.task_pool.specs.Meanings.{AreMeanings};

use mot_base::NoMemory;
use std::alloc::Global;

/// What each item of a graph does with the values on its edges. The work tells its graph, and what the value on an edge
/// means.
pub trait Work {
    /// A value on an edge.
    type Edge: Drop;

    ghost graph: { Self → Graph };

    ghost means: { Self → ℕ → Self.Edge → Type 0 };

    /// Makes of the values on the edges that end at an item those on the edges that start there. Both stand in the order
    /// of the edges. The values may be taken out of `inputs`; those that are left there are let go.
    fn run(
        &self,
        alloc: Global,
        item: u32,
        inputs: &mut Vec<Self::Edge>,
    ) -> Result<Vec<Self::Edge>, NoMemory>
        requires is_item { item < (graph self.now).items }
        requires inputs { AreMeanings (means self.now) (incoming (graph self.now) item) inputs.old.items }
        ensures { IfOk result (λ outputs.
            AreMeanings (means self.now) (outgoing (graph self.now) item) outputs.items) };
}

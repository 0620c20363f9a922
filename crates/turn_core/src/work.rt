ghost use Rattle.std.specs.Prelude.{◌≡◌, ℕ, ◌+◌, ◌<◌};
ghost use Rattle.turn_core.specs.Graph.{Graph};
ghost use Rattle.turn_core.specs.Core.{Flags, IsOut, with_one, HasInputs};

/// What `Turns::drain` runs: it turns each item once, after the items that lead to it. It tells the graph
/// whose items it turns, what it was made with, which items it has turned, and how often it has turned one.
pub trait DrainWork {
    /// What the work was made with.
    type Made;

    ghost graph: { Self → Graph };

    ghost made: { Self → Self.Made };

    ghost turned: { Self → Flags };

    ghost count: { Self → ℕ };

    /// Turns an item, to which edges come from outside and from items that were turned alone.
    fn turn(&mut self, item: u32)
        requires is_item { item < (graph self.old).items }
        requires is_new { IsOut (turned self.old) item }
        requires inputs { HasInputs (graph self.old) (turned self.old) item }
        ensures graph { graph self.new ≡ graph self.old }
        ensures made { made self.new ≡ made self.old }
        ensures turned { turned self.new ≡ with_one (turned self.old) item }
        ensures count { count self.new ≡ count self.old + 1 };
}

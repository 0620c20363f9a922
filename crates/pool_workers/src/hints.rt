ghost use Rattle.std.specs.Prelude.{◌≡◌, ℕ, ◌<◌, IfSome};

/// Numbers of items that may be ready: a worker puts those that it made ready, and takes one to try next. A
/// number is a hint: nothing is said of which come, how often, or whether they come at all.
pub(crate) trait Hints {
    ghost bound: { Self → ℕ };

    fn put(&mut self, item: u32)
        requires { item < bound self.old }
        ensures { bound self.new ≡ bound self.old };

    fn next(&mut self) -> Option<u32>
        ensures same { bound self.new ≡ bound self.old }
        ensures item { IfSome result (λ item. item < bound self.old) };
}

/// Forgets what is put.
#[derive(Drop)]
pub(crate) struct NoHints;

impl Hints for NoHints {
    ghost bound = { λ s. 4294967296 };

    fn put(&mut self, _item: u32) {}

    fn next(&mut self) -> Option<u32> {
        None
    }
}

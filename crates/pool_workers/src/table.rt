ghost use Rattle.std.specs.Prelude.{◌≡◌, ℕ, ◌+◌, ◌<◌, ◌≤◌, min, [], ◌∷◌, List, IfOk, length};
ghost use Rattle.atomic_table.specs.Table.{rest};
ghost use Rattle.turn_core.specs.declared.edge.Edge.{Edge};
ghost use Rattle.pool_workers.specs.Sums.{IsForward, times, target_at};
ghost use Rattle.pool_workers.specs.Words.{AreAtStart, view, with_edge, less_one_part, together};
ghost use Rattle.pool_workers.specs.Steps.{Taking, IsTop, MayGive};

use crate::view::View;
use atomic_table::{Join, Play, Seat, Split, Table, TableRule};
use mot_base::NoMemory;
use std::alloc::Global;
use std::marker::{Brand, PhantomData};

/// The graph of a run and the meaning of each edge. No value is made: the caller's proof picks them.
pub(crate) trait Meaning<E> {
    ghost items: { ℕ };

    ghost edges: { List Edge };

    ghost means: { ℕ → E → Type 0 };
}

impl<E> Meaning<E> for Brand {
    ghost items = { 0 };

    ghost edges = { [] };

    ghost means = { λ e x. Unit {0} };
}

/// The rule of the table of a pool.
pub(crate) struct Rule<M> {
    of: PhantomData<M>,
}

impl<E, M: Meaning<E>> TableRule<Option<E>, View, ()> for Rule<M> {
    ghost use Rattle.std.specs.Prelude.{[]};
    ghost use Rattle.pool_workers.specs.Slots.{Kept};
    ghost use Rattle.pool_workers.specs.Words.{view};

    ghost holds = { λ key. Kept M.items M.edges M.means };

    ghost first = { λ key. view 1024 [] [] };
}

/// The step that takes an item.
struct Taken<M> {
    of: PhantomData<M>,
}

impl<E, M: Meaning<E>> Play<Option<E>, View> for Taken<M> {
    ghost use Rattle.pool_workers.specs.Steps.{Taking};

    ghost then = { λ st me n after. Taking M.edges M.means st.word me n after };
}

/// The step that gives an edge.
struct Given;

impl<E> Play<Option<E>, View> for Given {
    ghost use Rattle.pool_workers.specs.Steps.{Giving};

    ghost then = { λ st me n after. Giving me after };
}

/// The step that gives an emptied slot back.
struct Returned;

impl<E> Play<Option<E>, View> for Returned {
    ghost use Rattle.pool_workers.specs.Steps.{Returning};

    ghost then = { λ st me n after. Returning me after };
}

/// How a part is cut off for a new worker, and how a worker's view is taken in.
struct Parting;

impl Split<View> for Parting {
    ghost use Rattle.pool_workers.specs.Words.{less_one_part, one_part};

    ghost left = { less_one_part };

    ghost right = { one_part };
}

impl Join<View> for Parting {
    ghost use Rattle.pool_workers.specs.Words.{together, spent};

    ghost both = { together };

    ghost spent = { spent };
}

/// A word for each item and one for the end, and a slot for each edge.
pub(crate) type Pool<E, M> = Table<Option<E>, View, (), Rule<M>, Global>;

/// One worker's seat at the table.
pub(crate) type Worker<E> = Seat<Option<E>, View>;

/// The table at the start, with a worker that has every part.
pub(crate) fn open<E: Drop, M: Meaning<E>>(
    alloc: Global,
    words: &[u64],
    edges: usize,
) -> Result<(Pool<E, M>, Worker<E>), NoMemory>
    requires dag { IsForward M.items M.edges }
    requires words { AreAtStart M.items M.edges words.now }
    requires edges { edges ≡ length M.edges }
    ensures table { IfOk result (λ t. (t.1.table_id ≡ t.0.shared.table_id) ×
        (t.0.shared.table_id.words ≡ M.items + 1) × (t.0.shared.table_id.slots ≡ length M.edges)) }
    ensures seat { IfOk result (λ t. t.1.me ≡ (view 1024 [] [], [])) }
{
    let opened = Table::vacant(alloc, words, edges, &())?;
    Ok(opened)
}

/// Takes an item, where its word is 0, with all its slots. What the word was comes back.
pub(crate) fn take<E: Drop, M: Meaning<E>>(
    pool: &Pool<E, M>,
    worker: &mut Worker<E>,
    item: u32,
) -> u64
    requires dag { IsForward M.items M.edges }
    requires table { (worker.old.table_id ≡ pool.now.shared.table_id) ×
        (pool.now.shared.table_id.words ≡ M.items + 1) }
    requires item { item < M.items }
    requires some_part { 0 < worker.old.me.0.parts }
    ensures table { (worker.new.table_id ≡ worker.old.table_id) × (worker.new.id ≡ worker.old.id) }
    ensures told { Taking M.edges M.means item worker.old.me result worker.new.me }
{
    pool.shared
        .compare_exchange::<Taken<M>>(worker, item as usize, 0, u64::MAX)
}

/// Puts the value of an edge into its slot, and lowers the word of what it leads to. What the word was comes
/// back.
pub(crate) fn give<E: Drop, M: Meaning<E>>(
    pool: &Pool<E, M>,
    worker: &mut Worker<E>,
    edge: u32,
    word: u32,
    value: E,
) -> u64
    requires table { (worker.old.table_id ≡ pool.now.shared.table_id) ×
        (pool.now.shared.table_id.words ≡ M.items + 1) }
    requires may { MayGive M.items M.edges worker.old.me.0 edge }
    requires word { word ≡ min M.items (target_at M.edges edge) }
    requires top { IsTop edge worker.old.me.1 }
    requires means { M.means edge value }
    ensures table { (worker.new.table_id ≡ worker.old.table_id) × (worker.new.id ≡ worker.old.id) }
    ensures gave { worker.new.me ≡ (with_edge worker.old.me.0 edge, rest worker.old.me.1) }
{
    pool.shared.exchange(worker, edge as usize, Some(value));
    pool.shared.fetch_sub::<Given>(worker, word as usize, 1)
}

/// Takes the value of an edge out of its slot, and gives the slot back.
pub(crate) fn take_input<E: Drop, M: Meaning<E>>(
    pool: &Pool<E, M>,
    worker: &mut Worker<E>,
    edge: u32,
    item: u32,
) -> Option<E>
    requires table { (worker.old.table_id ≡ pool.now.shared.table_id) ×
        (pool.now.shared.table_id.words ≡ M.items + 1) }
    requires item { item < M.items }
    requires edge { (edge < length M.edges) × (target_at M.edges edge ≡ item) }
    requires took { 1 ≤ times item worker.old.me.0.took }
    requires top { IsTop edge worker.old.me.1 }
    ensures table { (worker.new.table_id ≡ worker.old.table_id) × (worker.new.id ≡ worker.old.id) }
    ensures value { worker.old.me.1 ≡ (edge, result) ∷ rest worker.old.me.1 }
    ensures returned { worker.new.me ≡ (worker.old.me.0, rest worker.old.me.1) }
{
    let value = pool.shared.exchange(worker, edge as usize, None);
    pool.shared.load::<Returned>(worker, item as usize);
    value
}

/// A new worker, with one part.
pub(crate) fn hire<E: Drop, M: Meaning<E>>(pool: &Pool<E, M>, worker: &mut Worker<E>) -> Worker<E>
    requires table { (worker.old.table_id ≡ pool.now.shared.table_id) ×
        (pool.now.shared.table_id.words ≡ M.items + 1) }
    requires more { 1 < worker.old.me.0.parts }
    ensures table { (worker.new.table_id ≡ worker.old.table_id) × (worker.new.id ≡ worker.old.id) }
    ensures left { worker.new.me ≡ (less_one_part worker.old.me.0, worker.old.me.1) }
    ensures hired { (result.table_id ≡ worker.old.table_id) × (result.me ≡ (view 1 [] [], [])) }
{
    pool.shared.split_seat::<Parting>(worker)
}

/// Takes in a worker that has ended.
pub(crate) fn take_in<E: Drop, M: Meaning<E>>(
    pool: &Pool<E, M>,
    worker: &mut Worker<E>,
    other: Worker<E>,
)
    requires table { (worker.old.table_id ≡ pool.now.shared.table_id) ×
        (pool.now.shared.table_id.words ≡ M.items + 1) × (other.table_id ≡ pool.now.shared.table_id) }
    requires some_part { 0 < worker.old.me.0.parts }
    requires free { other.me.1 ≡ [] }
    ensures table { (worker.new.table_id ≡ worker.old.table_id) × (worker.new.id ≡ worker.old.id) }
    ensures both { worker.new.me ≡ (together worker.old.me.0 other.me.0, worker.old.me.1) }
{
    pool.shared.join_seat::<Parting>(worker, other)
}

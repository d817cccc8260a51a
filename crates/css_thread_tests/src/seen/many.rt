// Any number of threads, each with a pass of its own, which it carries.
ghost use Rattle.std.specs.Prelude.{◌≡◌, ◌+◌, ◌<◌, ◌∷◌, ℕ, [], IfOk, vec_len, slice_index_or};
ghost use Rattle.std.specs.Arc.{arc_value};
ghost use Rattle.css_seen.specs.Entries.{entries_of, AllMade};
ghost use Rattle.css_seen.specs.Accounts.{HasMade, numbered};

use crate::checks::check;
use crate::seen::board::Board;
use css_seen::{Pass, SeenLock};
use std::alloc::{AllocError, Global};
use std::snapshot::Snapshot;
use std::sync::{Arc, Wait};
use std::test::Fail;
use std::thread;
use std::thread::{Promise, PromisedHandle, Threads};

// That the pass comes back, and has claimed the cell once.
#[derive(Drop)]
struct Claims {
    start: Snapshot<Pass<Board>>,
    cell: u64,
}

impl Promise<Result<Pass<Board>, AllocError>> for Claims {
    ghost kept_by = { λ p r. IfOk r (HasMade p.start.value.lock p.start.value.number ((p.start.value.number, p.cell) ∷ [])) };
}

fn claim<R: Wait>(
    rt: &R,
    lock: &SeenLock<Board>,
    pass: Pass<Board>,
    me: u64,
    cell: u64,
) -> Result<Pass<Board>, AllocError>
    requires { HasMade lock.now me [] pass }
    ensures { IfOk result (HasMade lock.now me ((me, cell) ∷ [])) }
{
    let mut mine = pass;
    let mut board = lock.enter(rt, &mut mine);
    let done = board.claim(me, cell);
    lock.leave(&mut mine, board);
    done?;
    Ok(mine)
}

// Starts a thread that carries the pass.
fn begin<R: Threads + Wait + Copy + Send + 'static>(
    rt: R,
    lock: Arc<SeenLock<Board>, Global>,
    pass: Pass<Board>,
    me: u64,
    cell: u64,
) -> Result<PromisedHandle<Result<Pass<Board>, AllocError>, Claims>, AllocError>
    requires { HasMade (arc_value lock) me [] pass }
    ensures { IfOk result (λ h. (h.promise.start.value ≡ pass) × (h.promise.cell ≡ cell)) }
{
    let promise = Claims {
        start: Snapshot::of(&pass),
        cell,
    };
    let child = thread::spawn_with(
        &rt,
        promise,
        move || -> Result<Pass<Board>, AllocError>
            requires { HasMade (arc_value lock) me [] pass }
            ensures { IfOk result (HasMade (arc_value lock) me ((me, cell) ∷ [])) }
        { claim(&rt, &lock, pass, me, cell) },
    )?;
    Ok(child)
}

// Starts n threads.
fn begin_all<R: Threads + Wait + Copy + Send + 'static>(
    rt: R,
    alloc: Global,
    lock: &Arc<SeenLock<Board>, Global>,
    pass: &mut Pass<Board>,
    n: u64,
    cell: u64,
) -> Result<Vec<PromisedHandle<Result<Pass<Board>, AllocError>, Claims>>, AllocError>
    requires fresh { HasMade (arc_value lock.now) 0 [] pass.old }
    requires first { pass.old.splits ≡ 0 }
    ensures pass { IfOk result (λ v. HasMade (arc_value lock.now) 0 [] pass.new × (pass.new.splits ≡ n) × (pass.new.fixed ≡ pass.old.fixed)) }
    ensures len { IfOk result (λ v. vec_len v ≡ n) }
    ensures each { IfOk result (λ v. (k : ℕ) (d : _) → k < n → HasMade (arc_value lock.now) (k + 1) [] (slice_index_or v.items k d).promise.start.value × ((slice_index_or v.items k d).promise.cell ≡ cell)) }
{
    let mut children = Vec::new(alloc);
    for i in 0..n {
        let mine = lock.split(pass);
        children.push(begin(rt, Arc::try_clone(lock)?, mine, i + 1, cell)?)?;
    }
    Ok(children)
}

// Takes in the passes, in order.
fn join_all(
    lock: &SeenLock<Board>,
    pass: &mut Pass<Board>,
    passes: Vec<Result<Pass<Board>, AllocError>>,
    _cell: u64,
) -> Result<(), AllocError>
    requires fresh { HasMade lock.now 0 [] pass.old }
    requires each { (k : ℕ) (d : _) → k < vec_len passes → IfOk (slice_index_or passes.items k d) (HasMade lock.now (k + 1) ((k + 1, _cell) ∷ [])) }
    ensures joined { IfOk result (λ _. pass.new ≡ record pass.old { seen = pass.new.seen; joined = numbered (vec_len passes) (λ k. (k, _cell) ∷ []) }) }
{
    for p in passes {
        lock.join(pass, p?);
    }
    Ok(())
}

// Each of n threads claims the cell once, under its number. The history has those claims and no others.
fn claimed_by_many<R: Threads + Wait + Copy + Send + 'static>(
    rt: R,
    alloc: Global,
    board: Board,
    n: u64,
    cell: u64,
) -> Result<Board, AllocError>
    requires empty { board.1 ≡ [] }
    ensures plan { IfOk result (λ b. b.0 ≡ board.0) }
    ensures each { IfOk result (λ b. AllMade (λ (e : ℕ × ℕ). e.0) b.1 (numbered n (λ k. (k, cell) ∷ []))) }
    ensures main { IfOk result (λ b. entries_of (λ (e : ℕ × ℕ). e.0) 0 b.1 ≡ []) }
    ensures others { IfOk result (λ b. (k : ℕ) → n < k → entries_of (λ (e : ℕ × ℕ). e.0) k b.1 ≡ []) }
{
    let Ok((lock, mut pass)) = SeenLock::new(alloc, board) else {
        return Err(AllocError);
    };
    let shared = Arc::new(alloc, lock)?;
    let children = begin_all(rt, alloc, &shared, &mut pass, n, cell)?;
    let passes = thread::join_promised(&rt, children)?;
    join_all(&shared, &mut pass, passes, cell)?;
    Ok(shared.enter(&rt, &mut pass))
}

#[test]
fn eight_threads_claim_and_the_board_is_dropped(rt: HostRuntime) -> Result<(), Fail> {
    let alive = Arc::new(rt.alloc(), 0)?;
    let plan = vec![in rt.alloc(); 7; 5]?;
    let board = Board::new(rt.alloc(), plan, Arc::try_clone(&alive)?);
    let board = claimed_by_many(rt, rt.alloc(), board, 8, 5)?;
    check(&rt, "claims", board.claims() == 8);
    drop(board);
    check(&rt, "dropped", Arc::into_inner(alive).is_some());
    Ok(())
}

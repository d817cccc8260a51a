// Two threads add to one tally.
ghost use Rattle.std.specs.Prelude.{◌≡◌, ◌∷◌, ℕ, ◌<◌, [], IfOk};
ghost use Rattle.css_seen.specs.Entries.{entries_of, AllMade};
ghost use Rattle.css_seen.specs.Accounts.{HasMade};

use crate::checks::check;
use crate::seen::tally::Tally;
use css_seen::{Pass, SeenLock};
use std::alloc::{AllocError, Global};
use std::sync::Wait;
use std::thread;
use std::thread::Threads;

// Adds once, under the number of the pass.
fn add<R: Wait>(
    rt: &R,
    lock: &SeenLock<Tally>,
    pass: Pass<Tally>,
    me: u64,
    amount: u64,
) -> Result<Pass<Tally>, AllocError>
    requires { HasMade lock.now me [] pass }
    ensures { IfOk result (HasMade lock.now me ((me, amount) ∷ [])) }
{
    let mut mine = pass;
    let mut tally = lock.enter(rt, &mut mine);
    let done = tally.add(me, amount);
    lock.leave(&mut mine, tally);
    done?;
    Ok(mine)
}

// The history has of the two threads what each added, and nothing of any other pass.
fn added_by_two<R: Threads + Wait + Sync>(
    rt: &R,
    alloc: Global,
    limit: u64,
    first: u64,
    second: u64,
) -> Result<Tally, AllocError>
    ensures limit { IfOk result (λ t. t.limit ≡ limit) }
    ensures each { IfOk result (λ t. AllMade (λ (e : ℕ × ℕ). e.0) t.log.items ((1, (1, first) ∷ []) ∷ (2, (2, second) ∷ []) ∷ [])) }
    ensures main { IfOk result (λ t. entries_of (λ (e : ℕ × ℕ). e.0) 0 t.log.items ≡ []) }
    ensures others { IfOk result (λ t. (n : ℕ) → 2 < n → entries_of (λ (e : ℕ × ℕ). e.0) n t.log.items ≡ []) }
{
    let Ok((lock, mut pass)) = SeenLock::new(alloc, Tally::new(alloc, limit)) else {
        return Err(AllocError);
    };
    let one = lock.split(&mut pass);
    let two = lock.split(&mut pass);
    let shared = &lock;
    let (one, two) = thread::join(
        rt,
        || -> Result<Pass<Tally>, AllocError>
            requires { HasMade shared.now 1 [] one }
            ensures { IfOk result (HasMade shared.entry.now 1 ((1, first) ∷ [])) }
        { add(rt, shared, one, 1, first) },
        || -> Result<Pass<Tally>, AllocError>
            requires { HasMade shared.now 2 [] two }
            ensures { IfOk result (HasMade shared.entry.now 2 ((2, second) ∷ [])) }
        { add(rt, shared, two, 2, second) },
    );
    let one = one?;
    let two = two?;
    lock.join(&mut pass, one);
    lock.join(&mut pass, two);
    Ok(lock.enter(rt, &mut pass))
}

// Whether it has two amounts, which are 7 together, of two passes.
fn has_both(tally: &Tally) -> bool {
    tally.total == 7
        && tally.limit == 10
        && tally.log.len() == 2
        && tally.log[0].0 != tally.log[1].0
}

#[test]
fn two_threads_add(rt: HostRuntime) -> Result<(), AllocError> {
    let tally = added_by_two(&rt, rt.alloc(), 10, 3, 4)?;
    check(&rt, "added", has_both(&tally));
    check(
        &rt,
        "over the limit",
        added_by_two(&rt, rt.alloc(), 6, 3, 4).is_err(),
    );
    Ok(())
}

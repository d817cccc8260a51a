// Threads that take turns, and sleep in between. A wake that is lost would leave one asleep for ever.
ghost use Rattle.std.specs.Prelude.{◌≡◌, ◌∷◌, ◌++◌, ◌⊎◌, [], false};

use crate::checks::check;
use crate::seen::relay::Relay;
use css_seen::{Pass, SeenLock};
use std::alloc::Global;
use std::sync::Wait;
use std::test::Fail;
use std::thread;
use std::thread::Threads;

// Visits where it is the turn of this thread.
fn try_visit(relay: &mut Relay, me: u64, next: u64, is_turn: bool) -> bool
    ensures { (relay.new.visits.items ≡ relay.old.visits.items) ⊎ (relay.new.visits.items ≡ relay.old.visits.items ++ me ∷ []) }
{
    is_turn && relay.visit(me, next)
}

// Visits so many times, each time in its turn.
fn take_turns<R: Wait>(
    rt: &R,
    lock: &SeenLock<Relay>,
    mut pass: Pass<Relay>,
    me: u64,
    next: u64,
    rounds: u64,
) -> Pass<Relay>
    requires lock { pass.lock ≡ lock.now }
    requires outside { pass.inside ≡ false }
    requires me { pass.number ≡ me }
    ensures lock { result.lock ≡ lock.now }
    ensures outside { result.inside ≡ false }
    ensures number { result.number ≡ me }
{
    let mut left = rounds;
    for _ in rt.forever() {
        if left == 0 {
            break;
        }
        let mut relay = lock.enter(rt, &mut pass);
        let is_turn = relay.turn == me;
        let done = try_visit(&mut relay, me, next, is_turn);
        let is_others_turn = relay.turn != me;
        lock.leave(&mut pass, relay);
        if done {
            left -= 1;
        }
        // In its own turn it goes on at once: nothing new would end the sleep.
        if left > 0 && is_others_turn {
            lock.wait(rt, &mut pass);
        }
    }
    pass
}

// Two threads visit so many times each. The first hands its turn to the second, and the second to `next`. A third pass is dropped.
fn relay_of_two<R: Threads + Wait + Sync>(
    rt: &R,
    alloc: Global,
    first: u64,
    second: u64,
    next: u64,
) -> Option<Relay> {
    let Ok((lock, mut pass)) = SeenLock::new(alloc, Relay::new(alloc)) else {
        return None;
    };
    let one = lock.split(&mut pass);
    let two = lock.split(&mut pass);
    drop(lock.split(&mut pass));
    let shared = &lock;
    let (one, two) = thread::join(
        rt,
        || -> Pass<Relay>
            requires { (one.lock ≡ shared.now) × (one.inside ≡ false) × (one.number ≡ 1) }
            ensures { (result.lock ≡ shared.entry.now) × (result.inside ≡ false) × (result.number ≡ 1) }
        { take_turns(rt, shared, one, 1, 2, first) },
        || -> Pass<Relay>
            requires { (two.lock ≡ shared.now) × (two.inside ≡ false) × (two.number ≡ 2) }
            ensures { (result.lock ≡ shared.entry.now) × (result.inside ≡ false) × (result.number ≡ 2) }
        { take_turns(rt, shared, two, 2, next, second) },
    );
    lock.join(&mut pass, one);
    lock.join(&mut pass, two);
    Some(lock.enter(rt, &mut pass))
}

// Whether the two pass the turn to and fro, 10,000 times each.
fn are_in_turn(visits: &[u64]) -> bool {
    let mut right = visits.len() == 20_000;
    for (i, visitor) in visits.iter().enumerate() {
        right = right && *visitor == i as u64 % 2 + 1;
    }
    right
}

// Whether the second goes on by itself behind the first's one visit.
fn goes_on(visits: &[u64]) -> bool {
    let mut right = visits.len() == 1_001;
    for (i, visitor) in visits.iter().enumerate() {
        right = right && *visitor == if i == 0 { 1 } else { 2 };
    }
    right
}

#[test]
fn two_threads_take_turns(rt: HostRuntime) -> Result<(), Fail> {
    let relay = relay_of_two(&rt, rt.alloc(), 10_000, 10_000, 1).ok_or("memory")?;
    check(&rt, "in turn", are_in_turn(relay.visits.as_slice()));
    Ok(())
}

#[test]
fn a_pass_ends_before_the_other(rt: HostRuntime) -> Result<(), Fail> {
    let relay = relay_of_two(&rt, rt.alloc(), 1, 1_000, 2).ok_or("memory")?;
    check(&rt, "goes on", goes_on(relay.visits.as_slice()));
    Ok(())
}

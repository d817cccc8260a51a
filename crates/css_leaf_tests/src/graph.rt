//! Random histories against a plain program of the definitions.
ghost use Rattle.std.specs.Prelude.{◌≡◌, ◌<◌};
ghost use Rattle.std.specs.List.{list_all};
ghost use Rattle.css_graph.specs.Tasks.{is_number_out};

use crate::checks::check_row;
use css_base::NoMemory;
use css_graph::{Chosen, Graph, TaskState};
use std::alloc::Global;

/// A task of the plain program.
#[derive(Drop)]
struct PlainTask {
    number: u64,
    producers: Vec<u64>,
    high: bool,
    state: TaskState,
}

/// Whether the task of a number is in a state.
fn has_state(tasks: &[PlainTask], number: u64, state: TaskState) -> bool {
    tasks
        .iter()
        .any(|task| task.number == number && task.state == state)
}

/// Whether a number stands below every stopped number.
fn is_below_stops(tasks: &[PlainTask], number: u64) -> bool {
    tasks.iter().all(|task| task.state != TaskState::Stopped || number < task.number)
}

/// Whether a task may be taken.
fn may_be_taken(tasks: &[PlainTask], task: &PlainTask) -> bool {
    task.state == TaskState::Waiting
        && is_below_stops(tasks, task.number)
        && task.producers.iter().all(|producer| has_state(tasks, *producer, TaskState::Finished))
}

/// Whether a task goes on after a bundle.
fn goes_on(tasks: &[PlainTask], bundle: &[u64], task: &PlainTask) -> bool {
    let within = task.producers.iter().all(|producer| {
        has_state(tasks, *producer, TaskState::Finished) || bundle.contains(producer)
    });
    let joins = task
        .producers
        .iter()
        .any(|producer| bundle.contains(producer));
    task.state == TaskState::Waiting
        && !bundle.contains(&task.number)
        && is_below_stops(tasks, task.number)
        && within
        && joins
}

/// What a bundle begins with.
fn beginning(
    alloc: Global,
    tasks: &[PlainTask],
    workers: usize,
    most: usize,
) -> Result<Vec<u64>, NoMemory>
    requires { 0 < workers }
{
    let mut numbers = Vec::new(alloc);
    for high in [true, false] {
        for task in tasks {
            if task.high == high && may_be_taken(tasks, task) {
                numbers.push(task.number)?;
            }
        }
    }
    let share = numbers.len().div_ceil(workers).min(most);
    numbers.truncate(share);
    Ok(numbers)
}

/// The first task that goes on after a bundle.
fn next(tasks: &[PlainTask], bundle: &[u64]) -> Option<u64> {
    for task in tasks {
        if goes_on(tasks, bundle, task) {
            return Some(task.number);
        }
    }
    None
}

/// The bundle of at most so many tasks.
fn plain_bundle(
    alloc: Global,
    tasks: &[PlainTask],
    workers: usize,
    most: usize,
) -> Result<Vec<u64>, NoMemory>
    requires { 0 < workers }
{
    let mut bundle = beginning(alloc, tasks, workers, most)?;
    for _ in bundle.len()..most {
        match next(tasks, &bundle) {
            Some(number) => bundle.push(number)?,
            None => break,
        }
    }
    Ok(bundle)
}

/// Brings tasks of the plain program to a state.
fn set_states(tasks: &mut [PlainTask], numbers: &[u64], state: TaskState) {
    for task in tasks.iter_mut() {
        if numbers.contains(&task.number) {
            task.state = state;
        }
    }
}

/// Numbers by a linear congruence.
#[derive(Drop)]
struct Random {
    state: u64,
}

impl Random {
    /// A number below another.
    fn below(&mut self, bound: u64) -> u64
        requires { 0 < bound }
        ensures { result < bound }
    {
        self.state = self
            .state
            .wrapping_mul(6_364_136_223_846_793_005)
            .wrapping_add(1_442_695_040_888_963_407);
        (self.state >> 33) % bound
    }
}

/// Whether the tasks of these numbers are out.
fn are_out(graph: &Graph, numbers: &[u64]) -> bool
    ensures { result ≡ list_all (is_number_out graph.now.tasks) numbers.now }
{
    numbers.iter().all(|number| graph.is_out(*number))
}

/// The numbers of some of the tasks.
fn some_numbers(
    alloc: Global,
    random: &mut Random,
    tasks: &[PlainTask],
) -> Result<Vec<u64>, NoMemory> {
    let mut numbers = Vec::new(alloc);
    for task in tasks {
        if random.below(4) == 0 {
            numbers.push(task.number)?;
        }
    }
    Ok(numbers)
}

/// Adds a task with some of the tasks that are there as its producers, and says whether that is as it should be.
fn add_one(
    alloc: Global,
    random: &mut Random,
    graph: &mut Graph,
    tasks: &mut Vec<PlainTask>,
) -> Result<bool, NoMemory> {
    let last = tasks.last().map_or(0, |task| task.number);
    let number = last.saturating_add(1 + random.below(3));
    let producers = some_numbers(alloc, random, tasks)?;
    let high = random.below(3) == 0;
    if !graph.may_add(number, &producers) {
        return Ok(false);
    }
    graph.add(alloc, number, &producers, high)?;
    tasks.push(PlainTask {
        number,
        producers,
        high,
        state: TaskState::Waiting,
    })?;
    Ok(true)
}

/// Chooses a bundle, and says whether it is the plain program's.
fn choose_one(
    alloc: Global,
    random: &mut Random,
    workers: u32,
    graph: &mut Graph,
    tasks: &mut [PlainTask],
) -> Result<bool, NoMemory>
    requires { 0 < workers }
{
    let most = 1 + random.below(5) as u32;
    let expected = plain_bundle(alloc, tasks, workers as usize, most as usize)?;
    let may = graph.may_choose();
    match graph.choose_bundle(alloc, most)? {
        Chosen::Bundle(numbers) => {
            set_states(tasks, &numbers, TaskState::Out);
            Ok(may && !expected.is_empty() && numbers.as_slice() == expected.as_slice())
        }
        Chosen::Nothing => Ok(!may && expected.is_empty()),
    }
}

/// Ends a task that is out, or gives it back.
fn end_one(random: &mut Random, graph: &mut Graph, tasks: &mut [PlainTask]) {
    let Some(last) = tasks.last() else {
        return;
    };
    let number = random.below(last.number.saturating_add(1).max(1));
    let how = random.below(12);
    if !graph.is_out(number) {
        return;
    }
    if how == 0 {
        graph.stopped(number);
        set_states(tasks, &[number], TaskState::Stopped);
    } else if how < 3 && are_out(graph, &[number]) {
        graph.back(&[number]);
        set_states(tasks, &[number], TaskState::Waiting);
    } else {
        graph.done(number);
        set_states(tasks, &[number], TaskState::Finished);
    }
}

/// Adds, chooses or ends, and says whether that is as it should be.
fn play_one(
    alloc: Global,
    random: &mut Random,
    workers: u32,
    graph: &mut Graph,
    tasks: &mut Vec<PlainTask>,
) -> Result<bool, NoMemory>
    requires { 0 < workers }
{
    match random.below(8) {
        0 | 1 => add_one(alloc, random, graph, tasks),
        2 => choose_one(alloc, random, workers, graph, tasks),
        _ => {
            end_one(random, graph, tasks);
            Ok(true)
        }
    }
}

/// Plays a history, and says whether each bundle is the plain program's.
fn play(alloc: Global, seed: u64, steps: u32) -> Result<bool, NoMemory> {
    let mut random = Random { state: seed };
    let workers = 1 + random.below(4) as u32;
    let mut graph = Graph::new(alloc, workers);
    let mut tasks = Vec::new(alloc);
    let mut right = true;
    for _ in 0..steps {
        right = play_one(alloc, &mut random, workers, &mut graph, &mut tasks)? && right;
    }
    Ok(right)
}

#[test]
fn random_histories(rt: HostRuntime) -> Result<(), NoMemory> {
    for seed in 0..2000 {
        check_row(&rt, seed, play(rt.alloc(), seed as u64, 60)?);
    }
    Ok(())
}

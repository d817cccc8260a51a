//! What the board has at hand of each worker.
ghost use Rattle.std.specs.Prelude.{◌≡◌, ◌<◌, ◌++◌, ◌^◌, false, true, All, [], length, IfOk, slice_get, slice_set, Some};
ghost use Rattle.css_board.specs.declared.post.Post.{Post as Desk};
ghost use Rattle.css_board.specs.Posts.{coming, coming_of, has_held};
ghost use Rattle.css_history.specs.Histories.{without};

use css_base::NoMemory;
use std::alloc::Global;
use std::mem;

/// What a worker holds, in the order in which it took it, and whether it had no memory.
#[derive(Drop)]
pub(crate) struct Post {
    pub held: Vec<u64>,
    pub starved: bool,
}

/// The posts of so many workers, who hold nothing.
pub(crate) fn posts_of(alloc: Global, workers: u32) -> Result<Vec<Post>, NoMemory>
    ensures length { IfOk result (λ v. length v.items ≡ workers) }
    ensures each { IfOk result (λ v. All (λ (p : Desk). (p.held.items ≡ []) × (p.starved ≡ false)) v.items) }
    ensures coming { IfOk result (λ v. coming v.items ≡ workers) }
{
    let mut posts = Vec::with_capacity(alloc, workers as usize)?;
    for _ in 0..workers {
        posts.push_reserved(Post {
            held: Vec::new(alloc),
            starved: false,
        });
    }
    Ok(posts)
}

/// How many entries the workers are still to make at most, besides takes.
pub(crate) fn coming(posts: &[Post]) -> usize
    requires { coming posts.now < 2 ^ 62 }
    ensures { result ≡ coming posts.now }
{
    let mut sum = 0;
    for post in posts {
        sum += entries_of(post);
    }
    sum
}

/// How many entries a worker is still to make at most, besides takes.
fn entries_of(post: &Post) -> usize
    requires { coming_of post.now < 2 ^ 62 }
    ensures { result ≡ coming_of post.now }
{
    if post.starved {
        post.held.len()
    } else {
        post.held.len() + 1
    }
}

/// What a worker holds.
pub(crate) fn held_by(posts: &[Post], worker: u32) -> &[u64]
    requires { worker < length posts.now }
    ensures { (p : Desk) × (slice_get posts.now worker ≡ Some p) × (result.now ≡ p.held.items) }
{
    let post = &posts[worker as usize];
    post.held.as_slice()
}

/// What a worker holds, and these behind it.
pub(crate) fn held_with(
    alloc: Global,
    posts: &[Post],
    worker: u32,
    numbers: &[u64],
) -> Result<Vec<u64>, NoMemory>
    requires { worker < length posts.now }
    ensures { IfOk result (λ v. (p : Desk) × (slice_get posts.now worker ≡ Some p) × (v.items ≡ p.held.items ++ numbers.now)) }
{
    let post = &posts[worker as usize];
    let mut held = Vec::from_slice(alloc, post.held.as_slice())?;
    held.extend_from_slice(numbers)?;
    Ok(held)
}

/// Puts other tasks in the place of those that a worker holds, and gives these.
pub(crate) fn replace_held(posts: &mut Vec<Post>, worker: u32, held: Vec<u64>) -> Vec<u64>
    requires { worker < length posts.old.items }
    ensures { (p : Desk) × (slice_get posts.old.items worker ≡ Some p) × (result ≡ p.held) × (posts.new.items ≡ slice_set posts.old.items worker (has_held p held)) }
{
    mem::replace(&mut posts[worker as usize].held, held)
}

/// Takes a task away from those that a worker holds.
pub(crate) fn let_go(posts: &mut Vec<Post>, worker: u32, number: u64)
    requires { worker < length posts.old.items }
    ensures { (p : Desk) × (q : Desk) × (slice_get posts.old.items worker ≡ Some p) × (q.held.items ≡ without number p.held.items) × (q.starved ≡ p.starved) × (posts.new.items ≡ slice_set posts.old.items worker q) }
{
    let post = &mut posts[worker as usize];
    post.held.retain(|m| !(*m == number));
}

/// Writes down that a worker had no memory.
pub(crate) fn set_starved(posts: &mut Vec<Post>, worker: u32)
    requires { worker < length posts.old.items }
    ensures { (p : Desk) × (slice_get posts.old.items worker ≡ Some p) × (posts.new.items ≡ slice_set posts.old.items worker (record p { starved = true })) }
{
    posts[worker as usize].starved = true;
}

//! Threads that take the items of a list one by one.
ghost use Rattle.std.specs.Prelude.{IfOk};
ghost use Rattle.std.specs.Fn.{FnReturnsAt};
ghost use Rattle.block_threads.specs.Items.{Accepts};
ghost use Rattle.block_threads.specs.Inner.Shares.{AreDone, AreShares};

use std::alloc::{AllocError, Global};
use std::sync::atomic::{AtomicUsize, Ordering};
use std::thread;
use std::thread::Threads;

/// The numbers of items, from 0, each with what came of it.
pub type Done<X> = Vec<(usize, X)>;

/// What came of the items that a thread took, unless memory ran out.
pub type Share<X> = Result<Done<X>, AllocError>;

/// What comes of an item.
pub fn ask<T, X, F: Fn(&T) -> X>(item: &T, f: &F) -> X
    requires { Accepts F.Fn f.now }
    ensures { FnReturnsAt F.Fn f.now item.now result }
{
    f(item)
}

/// Calls `f` at the items that no other thread has taken, as long as there are some.
fn share<T, X: Drop, F: Fn(&T) -> X>(
    alloc: Global,
    next: &AtomicUsize,
    items: &[T],
    f: &F,
) -> Share<X>
    requires { Accepts F.Fn f.now }
    ensures { IfOk result (λ done. AreDone (FnReturnsAt F.Fn f.now) items.now done.items) }
{
    let mut done = Vec::new(alloc);
    for _ in 0..items.len() {
        let number = next.fetch_add(1, Ordering::SeqCst);
        if number >= items.len() {
            break;
        }
        done.push((number, ask(&items[number], f)))?;
    }
    Ok(done)
}

/// Calls `f` at items in so many threads, which take them one by one.
pub fn share_all<R: Threads + Sync, T: Sync, X: Send + Drop, F: Fn(&T) -> X + Sync>(
    rt: &R,
    alloc: Global,
    items: &[T],
    f: &F,
    threads: usize,
) -> Result<Vec<Share<X>>, AllocError>
    requires { Accepts F.Fn f.now }
    ensures { IfOk result (λ shares. AreShares (FnReturnsAt F.Fn f.now) items.now shares.items) }
{
    let next = AtomicUsize::new(0);
    thread::map_indices(
        rt,
        alloc,
        threads,
        &|_: usize| -> Share<X>
            requires { Accepts F.Fn f.now }
            ensures { IfOk result (λ done. AreDone (FnReturnsAt F.Fn f.entry.now) items.entry.now done.items) }
        { share(alloc, &next, items, f) },
    )
}

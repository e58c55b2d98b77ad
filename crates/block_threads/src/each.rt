//! What is asked of each item of a list.
ghost use Rattle.std.specs.Prelude.{◌≡◌, ◌<◌, length, None, All, IfOk, OnOk, IfSome};
ghost use Rattle.std.specs.Fn.{FnReturnsAt};
ghost use Rattle.block_threads.specs.Items.{Accepts, Beside};
ghost use Rattle.block_threads.specs.Inner.Shares.{IsDone, AreDone, AreShares, AreCells};

use crate::shares::{Done, Share, ask, share_all};
use std::alloc::{AllocError, Global};
use std::thread;
use std::thread::Threads;

/// How many threads take so many items: one for each processor.
fn threads_for<R: Threads>(rt: &R, items: usize) -> usize {
    let processors = match thread::available_parallelism(rt) {
        Ok(count) => count.get(),
        Err(_) => 1,
    };
    processors.min(items)
}

/// A place for what comes of each of so many items, with nothing in it.
fn empty_cells<X: Drop>(alloc: Global, count: usize) -> Result<Vec<Option<X>>, AllocError>
    ensures count { IfOk result (λ cells. length cells.items ≡ count) }
    ensures empty { IfOk result (λ cells. All (λ cell. cell ≡ None) cells.items) }
{
    let mut cells = Vec::with_capacity(alloc, count)?;
    for _ in 0..count {
        cells.push_reserved(None);
    }
    Ok(cells)
}

/// Puts what came of an item into its place.
fn put_one<T, X: Drop, F: Fn(&T) -> X>(
    _items: &[T],
    _f: &F,
    cells: &mut [Option<X>],
    number: usize,
    x: X,
)
    requires inside { number < length cells.old }
    requires cells { AreCells (FnReturnsAt F.Fn _f.now) _items.now cells.old }
    requires done { IsDone (FnReturnsAt F.Fn _f.now) _items.now (number, x) }
    ensures { AreCells (FnReturnsAt F.Fn _f.now) _items.now cells.new }
{
    cells[number] = Some(x);
}

/// Puts what came of items into their places.
fn put_done<T, X: Drop, F: Fn(&T) -> X>(items: &[T], f: &F, cells: &mut [Option<X>], done: Done<X>)
    requires cells { AreCells (FnReturnsAt F.Fn f.now) items.now cells.old }
    requires done { AreDone (FnReturnsAt F.Fn f.now) items.now done.items }
    ensures { AreCells (FnReturnsAt F.Fn f.now) items.now cells.new }
{
    for (number, x) in done {
        put_one(items, f, cells, number, x);
    }
}

/// The same of what came of items in threads.
fn put_shares<T, X: Drop, F: Fn(&T) -> X>(
    items: &[T],
    f: &F,
    cells: &mut [Option<X>],
    shares: Vec<Share<X>>,
) -> Result<(), AllocError>
    requires cells { AreCells (FnReturnsAt F.Fn f.now) items.now cells.old }
    requires shares { AreShares (FnReturnsAt F.Fn f.now) items.now shares.items }
    ensures { OnOk result (AreCells (FnReturnsAt F.Fn f.now) items.now cells.new) }
{
    for share in shares {
        put_done(items, f, cells, share?);
    }
    Ok(())
}

/// What stands in a place, or what comes of its item.
fn found<T, X: Drop, F: Fn(&T) -> X>(cell: Option<X>, item: &T, f: &F) -> X
    requires accepts { Accepts F.Fn f.now }
    requires cell { IfSome cell (FnReturnsAt F.Fn f.now item.now) }
    ensures { FnReturnsAt F.Fn f.now item.now result }
{
    match cell {
        Some(x) => x,
        None => ask(item, f),
    }
}

/// What came of each item. Of one whose place is empty it is asked here.
fn in_order<T, X: Drop, F: Fn(&T) -> X>(
    alloc: Global,
    items: &[T],
    cells: Vec<Option<X>>,
    f: &F,
) -> Result<Vec<X>, AllocError>
    requires accepts { Accepts F.Fn f.now }
    requires cells { AreCells (FnReturnsAt F.Fn f.now) items.now cells.items }
    ensures { IfOk result (λ v. Beside (FnReturnsAt F.Fn f.now) items.now v.items) }
{
    let mut all = Vec::with_capacity(alloc, cells.len())?;
    let mut rest = items;
    for cell in cells {
        let Some((item, behind)) = rest.split_first() else {
            unreachable!()
        };
        let x = found(cell, item, f);
        all.push_reserved(x);
        rest = behind;
    }
    Ok(all)
}

/// Calls `f` at each item, and gives the results in their order. A thread for each processor takes the items one by one as it comes to them, so that one that begins late,
/// or waits for its processor, holds up no more than the item it has.
pub fn map_each<R: Threads + Sync, T: Sync, X: Send + Drop, F: Fn(&T) -> X + Sync>(
    rt: &R,
    alloc: Global,
    items: &[T],
    f: &F,
) -> Result<Vec<X>, AllocError>
    requires { Accepts F.Fn f.now }
    ensures { IfOk result (λ v. Beside (FnReturnsAt F.Fn f.now) items.now v.items) }
{
    let threads = threads_for(rt, items.len());
    let shares = share_all(rt, alloc, items, f, threads)?;
    let mut cells = empty_cells(alloc, items.len())?;
    put_shares(items, f, cells.as_mut_slice(), shares)?;
    in_order(alloc, items, cells, f)
}

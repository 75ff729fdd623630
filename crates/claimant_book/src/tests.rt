ghost use Rattle.std.specs.Prelude.{◌≡◌, ◌+◌, ◌<◌, ◌≤◌, ◌%◌, true};
ghost use Rattle.claimant_book.specs.Stages.{final_stage};
ghost use Rattle.claimant_book.specs.Views.{counting_out, first_keeper, seen_by, share_of, HoldsNothing};

use super::*;
use std::alloc::Global;
use std::marker::Brand;
use std::process::Abort;
use std::sync::Wait;
use std::test::Fail;
use std::thread::{Threads, join};

#[test]
fn threads_leave_the_counts_as_they_were(rt: HostRuntime) -> Result<(), Fail> {
    let alloc = rt.alloc();
    shared_by::<Brand, _>(&rt, alloc, Opened::new(alloc, 3)?);
    Ok(())
}

fn shared_by<B: BookName + Send + Sync, R: Threads + Wait + Abort + Sync>(
    rt: &R,
    alloc: Global,
    opened: Opened,
)
    requires { (opened ≡ B.table) × (B.table.words ≡ 3) }
{
    let (book, mut keeper) = opened.named::<B>();
    begins(&book, &mut keeper);
    let one = seen_share(rt, alloc, &book, &mut keeper);
    let two = seen_share(rt, alloc, &book, &mut keeper);
    let (mut one, (two, mut keeper)) = side_by_side(rt, &book, one, two, keeper);
    book.meet(&mut one, &mut keeper, 1);
    assert!(rt; book.stage(&keeper, 0) == Stage::Live(1));
    assert!(rt; book.stage(&keeper, 1) == Stage::Retired(100));
    assert_eq!(rt; book.count(&mut keeper, 0), 1);
    assert_eq!(rt; book.count(&mut keeper, 1), 0);
    shares_run_out(rt, alloc, &book, &mut keeper);
    drop(one);
    drop(two);
}

fn side_by_side<B: BookName + Send + Sync, R: Threads + Wait + Sync>(
    rt: &R,
    book: &Book<B>,
    one: Share<B>,
    two: Share<B>,
    keeper: Keeper<B>,
) -> (Share<B>, (Share<B>, Keeper<B>))
    requires one { (1 < B.table.words) × (1 ≤ seen_by one 0) × HoldsNothing one }
    requires two { (1 < B.table.words) × (1 ≤ seen_by two 0) × HoldsNothing two }
{
    join(
        rt,
        move ||
            requires { (1 < B.table.words) × (1 ≤ seen_by one 0) × HoldsNothing one }
        { visits(rt, book, one) },
        move ||
            requires { (1 < B.table.words) × (1 ≤ seen_by two 0) × HoldsNothing two }
        { works(rt, book, two, keeper) },
    )
}

fn begins<B: BookName>(book: &Book<B>, keeper: &mut Keeper<B>)
    requires { (0 < B.table.words) × (keeper.old ≡ first_keeper) }
    ensures { (seen_by keeper.new 0 ≡ 1) × (seen_by keeper.new 1 ≡ 0) }
{
    book.begin(keeper, 0);
    book.more(keeper, 0);
    book.less(keeper, 0);
}

fn share_out<B: BookName>(
    rt: &impl Abort,
    alloc: Global,
    book: &Book<B>,
    keeper: &mut Keeper<B>,
) -> Share<B>
    ensures { (keeper.new ≡ counting_out keeper.old (keeper.old.out + 1)) × (result ≡ share_of keeper.old) }
{
    match book.share(alloc, keeper) {
        Ok(share) => share,
        Err(_) => panic!(rt; "no share was left"),
    }
}

fn seen_share<B: BookName>(
    rt: &impl Abort,
    alloc: Global,
    book: &Book<B>,
    keeper: &mut Keeper<B>,
) -> Share<B>
    requires { seen_by keeper.old 0 ≡ 1 }
    ensures { (1 ≤ seen_by result 0) × HoldsNothing result × (seen_by keeper.new 0 ≡ 1) }
{
    share_out(rt, alloc, book, keeper)
}

fn visits<B: BookName, R: Wait>(rt: &R, book: &Book<B>, mut share: Share<B>) -> Share<B>
    requires { (1 < B.table.words) × (1 ≤ seen_by share 0) × HoldsNothing share }
{
    for _ in 0..1000 {
        visit(rt, book, &mut share);
    }
    share
}

fn visit<B: BookName, R: Wait>(rt: &R, book: &Book<B>, share: &mut Share<B>)
    requires { (1 < B.table.words) × (1 ≤ seen_by share.old 0) × HoldsNothing share.old }
    ensures { (1 ≤ seen_by share.new 0) × HoldsNothing share.new }
{
    book.take(rt, share, 0, 1);
    if book.held(share, 0) == 0 {
        return;
    }
    book.give(share, 0);
}

// Between its visits it begins and retires the slot 1.
fn works<B: BookName, R: Wait>(
    rt: &R,
    book: &Book<B>,
    mut share: Share<B>,
    mut keeper: Keeper<B>,
) -> (Share<B>, Keeper<B>)
    requires { (1 < B.table.words) × (1 ≤ seen_by share 0) × HoldsNothing share }
{
    for _ in 0..100 {
        visit(rt, book, &mut share);
        if is_idle(book, &keeper) {
            renew(book, &mut keeper);
        }
    }
    (share, keeper)
}

fn is_idle<B: BookName>(book: &Book<B>, keeper: &Keeper<B>) -> bool
    requires { 1 < B.table.words }
    ensures { result ≡ true → (seen_by keeper.now 1 % 2 ≡ 0) × (seen_by keeper.now 1 < final_stage) }
{
    match book.stage(keeper, 1) {
        Stage::Unused => true,
        Stage::Live(_) => false,
        Stage::Retired(generation) => generation < 1000,
    }
}

fn renew<B: BookName>(book: &Book<B>, keeper: &mut Keeper<B>)
    requires { (1 < B.table.words) × (seen_by keeper.old 1 % 2 ≡ 0) × (seen_by keeper.old 1 < final_stage) }
{
    book.begin(keeper, 1);
    book.retire(keeper, 1);
}

fn shares_run_out<B: BookName>(
    rt: &impl Abort,
    alloc: Global,
    book: &Book<B>,
    keeper: &mut Keeper<B>,
) {
    let first = share_out(rt, alloc, book, keeper);
    for out in 3..SHARES_MAX {
        match book.share(alloc, keeper) {
            Ok(share) => drop(share),
            Err(_) => panic!(rt; "only {out} shares were out"),
        }
    }
    assert!(rt; is_too_many(book.share(alloc, keeper)));
    book.join(first, keeper);
    assert!(rt; book.share(alloc, keeper).is_ok());
    assert!(rt; is_too_many(book.share(alloc, keeper)));
}

fn is_too_many<B: BookName>(share: Result<Share<B>, ShareError>) -> bool {
    match share {
        Ok(_) => false,
        Err(error) => error == ShareError::TooMany,
    }
}

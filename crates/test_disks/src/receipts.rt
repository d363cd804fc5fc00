// Receipts for what a clerk counts. What is known of the counts stands in the clauses.
ghost use Rattle.std.specs.Prelude.{◌≡◌, ◌≤◌, ◌<◌, ◌+◌, IfOk, IfSome};
ghost use Rattle.room_ports.specs.Counts.{counted};

use append_receipts::{Clerk, MOST_KEPT, Receipts};
use room_ports::Memory;
use std::alloc::Global;

// Counts two records and a failed append, with a receipt before each and one after them, which comes back first.
fn count_between(receipts: &Receipts, clerk: &mut Clerk)
    requires table { clerk.old.table ≡ receipts.now }
    requires room { clerk.old.kept + 1 < 100000 }
    ensures kept { clerk.new.kept ≡ clerk.old.kept + 2 }
    ensures failed { clerk.new.failed ≡ counted clerk.old.failed }
    ensures table { clerk.new.table ≡ clerk.old.table }
{
    let first = receipts.give(clerk);
    receipts.kept(clerk);
    let second = receipts.give(clerk);
    receipts.failed(clerk);
    let third = receipts.give(clerk);
    receipts.kept(clerk);
    let fourth = receipts.give(clerk);
    receipts.settle(clerk, fourth);
    receipts.settle(clerk, first);
    receipts.settle(clerk, third);
    receipts.settle(clerk, second);
}

// Whether a clerk begins with so many records and counts two more.
fn counts_two(alloc: Global, kept: u32) -> Result<bool, Memory> {
    if kept > MOST_KEPT - 2 {
        return Ok(false);
    }
    let (receipts, mut clerk) = Receipts::open(alloc, kept)?;
    count_between(&receipts, &mut clerk);
    Ok(true)
}

#[test]
fn receipts_come_back_in_any_order(rt: HostRuntime) -> Result<(), Memory> {
    for (kept, is) in [(0, true), (7, true), (99_998, true), (99_999, false)] {
        assert!(rt; counts_two(rt.alloc(), kept)? == is, "{kept}");
    }
    Ok(())
}

// Counts records up to the most, from so many on: how many were counted. `None` where there are more already.
fn filled(alloc: Global, kept: u32) -> Result<Option<u32>, Memory> {
    if kept > MOST_KEPT {
        return Ok(None);
    }
    let (receipts, mut clerk) = Receipts::open(alloc, kept)?;
    let mut now = kept;
    while now < MOST_KEPT {
        receipts.kept(&mut clerk);
        now += 1;
    }
    let receipt = receipts.give(&mut clerk);
    receipts.settle(&mut clerk, receipt);
    Ok(Some(now - kept))
}

#[test]
fn a_clerk_counts_100000_records(rt: HostRuntime) -> Result<(), Memory> {
    for (kept, count) in [
        (0, Some(100_000)),
        (99_999, Some(1)),
        (100_000, Some(0)),
        (100_001, None),
        (u32::MAX, None),
    ] {
        assert_eq!(rt; filled(rt.alloc(), kept)?, count, "{kept}");
    }
    Ok(())
}

// Counts so many failed appends, with a receipt that is there all the while and one for each.
fn fail(receipts: &Receipts, clerk: &mut Clerk, failures: u32)
    requires { clerk.old.table ≡ receipts.now }
    ensures kept { clerk.new.kept ≡ clerk.old.kept }
    ensures table { clerk.new.table ≡ clerk.old.table }
{
    let first = receipts.give(clerk);
    for _ in 0..failures {
        let before = receipts.give(clerk);
        receipts.failed(clerk);
        receipts.settle(clerk, before);
    }
    receipts.settle(clerk, first);
}

#[test]
fn failed_appends_are_counted_beside_records(rt: HostRuntime) -> Result<(), Memory> {
    let (receipts, mut clerk) = Receipts::open(rt.alloc(), MOST_KEPT)?;
    for failures in [0, 1, 1000] {
        fail(&receipts, &mut clerk, failures);
    }
    let receipt = receipts.give(&mut clerk);
    receipts.settle(&mut clerk, receipt);
    Ok(())
}

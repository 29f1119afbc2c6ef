ghost use Rattle.std.specs.Prelude.{◌≡◌, IfOk};

use crate::*;
use mz_base::NoMemory;
use std::alloc::Global;
use std::process::Abort;
use std::sync::{Arc, Wait};
use std::test::Fail;
use std::thread;
use std::thread::Threads;

// A registry of numbers with one reader.
fn alone<R: Wait>(
    rt: &R,
    alloc: Global,
    start: u64,
) -> Result<(Publisher<u64, u64>, Reader<u64, u64>), Fail>
    ensures { IfOk result (λ made. made.1.prefix ≡ made.0) }
{
    let (publisher, mut readers) = registry(rt, alloc, Arc::new(alloc, start)?, 1)?;
    let reader = readers.pop().ok_or("one reader")?;
    Ok((publisher, reader))
}

// Publishes. What a refusal hands back is published once more.
fn publish<R: Wait>(
    rt: &R,
    alloc: Global,
    publisher: &mut Publisher<u64, u64>,
    value: u64,
    entry: u64,
) -> Result<Receipt<u64, u64>, NoMemory>
    ensures publisher { publisher.new.registry ≡ publisher.old.registry }
    ensures receipt { IfOk result (λ receipt. receipt.registry ≡ publisher.old.registry) }
{
    let shared = Arc::new(alloc, value)?;
    match publisher.publish(rt, shared, entry) {
        Ok(receipt) => Ok(receipt),
        Err((shared, entry, _)) => publisher
            .publish(rt, shared, entry)
            .map_err(|(_, _, refused)| refused),
    }
}

// What a reader takes: the number, and how many operations led to it.
fn taken(reader: &mut Reader<u64, u64>) -> Result<(u64, u64), NoMemory>
    ensures { reader.new.prefix.registry ≡ reader.old.prefix.registry }
{
    let (value, place) = reader.take()?;
    Ok((*value, place))
}

#[test]
fn a_reader_takes_what_it_was_told_and_what_is_shown(rt: HostRuntime) -> Result<(), Fail> {
    let alloc = rt.alloc();
    let (mut publisher, mut reader) = alone(&rt, alloc, 10)?;
    assert_eq!(rt; taken(&mut reader), Ok((10, 0)));
    let receipt = publish(&rt, alloc, &mut publisher, 11, 1)?;
    assert_eq!(rt; receipt.place(), 1);
    reader.learn(receipt);
    assert_eq!(rt; taken(&mut reader), Ok((11, 1)));
    publish(&rt, alloc, &mut publisher, 12, 2)?;
    assert_eq!(rt; taken(&mut reader), Ok((12, 2)));
    assert_eq!(rt; publisher.entries(), [1, 2].as_slice());
    assert_eq!(rt; publisher.into_entries(&rt).as_slice(), [1, 2].as_slice());
    Ok(())
}

#[test]
fn an_older_receipt_is_counted_and_changes_nothing(rt: HostRuntime) -> Result<(), Fail> {
    let alloc = rt.alloc();
    let (mut publisher, mut reader) = alone(&rt, alloc, 10)?;
    let older = publish(&rt, alloc, &mut publisher, 11, 1)?;
    let newer = publish(&rt, alloc, &mut publisher, 12, 2)?;
    let same = publisher.tell()?;
    assert_eq!(rt; (older.place(), newer.place(), same.place()), (1, 2, 2));
    reader.learn(newer);
    assert_eq!(rt; (reader.seen(), reader.unmet()), (2, 1));
    reader.learn(older);
    assert_eq!(rt; (reader.seen(), reader.unmet()), (2, 2));
    reader.learn(same);
    assert_eq!(rt; (reader.seen(), reader.unmet()), (2, 3));
    assert_eq!(rt; taken(&mut reader), Ok((12, 2)));
    assert_eq!(rt; reader.unmet(), 0);
    Ok(())
}

#[test]
fn a_new_registry_tells_of_no_operation(rt: HostRuntime) -> Result<(), Fail> {
    let (mut publisher, mut reader) = alone(&rt, rt.alloc(), 10)?;
    let receipt = publisher.tell()?;
    assert_eq!(rt; receipt.place(), 0);
    assert_eq!(rt; publisher.entries().len(), 0);
    reader.learn(receipt);
    assert_eq!(rt; (reader.seen(), reader.unmet()), (0, 1));
    Ok(())
}

#[test]
fn a_reader_may_go_between_two_operations(rt: HostRuntime) -> Result<(), Fail> {
    let alloc = rt.alloc();
    let start = Arc::new(alloc, 10)?;
    let (mut publisher, mut readers) = registry::<u64, u64, _>(&rt, alloc, start, 2)?;
    let mut stays = readers.pop().ok_or("a reader")?;
    let mut goes = readers.pop().ok_or("another reader")?;
    publish(&rt, alloc, &mut publisher, 11, 1)?;
    assert_eq!(rt;
        (taken(&mut goes), taken(&mut stays)),
        (Ok((11, 1)), Ok((11, 1)))
    );
    drop(goes);
    publish(&rt, alloc, &mut publisher, 12, 2)?;
    assert_eq!(rt; taken(&mut stays), Ok((12, 2)));
    Ok(())
}

#[test]
fn seventeen_readers_take_the_same(rt: HostRuntime) -> Result<(), Fail> {
    let alloc = rt.alloc();
    let start = Arc::new(alloc, 10)?;
    let (mut publisher, mut readers) = registry::<u64, u64, _>(&rt, alloc, start, 17)?;
    assert_eq!(rt; readers.len(), 17);
    publish(&rt, alloc, &mut publisher, 11, 1)?;
    for reader in readers.iter_mut() {
        assert_eq!(rt; taken(reader), Ok((11, 1)));
    }
    Ok(())
}

// Who still has a value is counted by the value's owners.
#[test]
fn a_reader_goes_on_with_what_it_keeps(rt: HostRuntime) -> Result<(), Fail> {
    let alloc = rt.alloc();
    let first = Arc::new(alloc, 11)?;
    let second = Arc::new(alloc, 12)?;
    let (mut publisher, mut reader) = alone(&rt, alloc, 10)?;
    publisher
        .publish(&rt, Arc::try_clone(&first)?, 1)
        .map_err(|back| back.2)?;
    assert_eq!(rt; taken(&mut reader), Ok((11, 1)));
    publisher
        .publish(&rt, Arc::try_clone(&second)?, 2)
        .map_err(|back| back.2)?;
    reader.learn(publisher.tell()?);
    reader.learn(publisher.tell()?);
    assert_eq!(rt; publisher.into_entries(&rt).as_slice(), [1, 2].as_slice());
    assert_eq!(rt; taken(&mut reader), Ok((12, 2)));
    assert_eq!(rt; (reader.seen(), reader.unmet()), (2, 2));
    assert_eq!(rt;
        (Arc::strong_count(&first), Arc::strong_count(&second)),
        (1, 2)
    );
    drop(reader);
    assert_eq!(rt; Arc::strong_count(&second), 1);
    Ok(())
}

#[test]
fn a_publisher_that_is_dropped_stops_nobody(rt: HostRuntime) -> Result<(), Fail> {
    let alloc = rt.alloc();
    let (mut publisher, mut reader) = alone(&rt, alloc, 10)?;
    publish(&rt, alloc, &mut publisher, 11, 1)?;
    drop(publisher);
    assert_eq!(rt; taken(&mut reader), Ok((11, 1)));
    Ok(())
}

const OPERATIONS: u64 = 1000;

// Publishes numbers that are their own places.
fn publish_all<R: Wait>(
    rt: &R,
    alloc: Global,
    mut publisher: Publisher<u64, u64>,
) -> (Publisher<u64, u64>, bool)
    ensures { result.0.registry ≡ publisher.registry }
{
    for place in 1..=OPERATIONS {
        match publish(rt, alloc, &mut publisher, place, place) {
            Ok(receipt) => {
                if receipt.place() != place {
                    return (publisher, false);
                }
            }
            Err(_) => return (publisher, false),
        }
        thread::yield_now();
    }
    (publisher, true)
}

// Takes until it has the last number or has taken often. True if no place was below an earlier one and each number was
// its place.
fn take_all(mut reader: Reader<u64, u64>) -> (Reader<u64, u64>, bool)
    ensures { result.0.prefix.registry ≡ reader.prefix.registry }
{
    let mut last = 0;
    for _ in 0..100_000 {
        match taken(&mut reader) {
            Ok((number, place)) => {
                if place < last || number != place {
                    return (reader, false);
                }
                last = place;
            }
            Err(_) => return (reader, false),
        }
        if last == OPERATIONS {
            break;
        }
        thread::yield_now();
    }
    (reader, true)
}

fn two_take_while_one_publishes<R: Threads + Wait + Abort + Sync>(
    rt: &R,
    alloc: Global,
) -> Result<(), Fail> {
    let start = Arc::new(alloc, 0)?;
    let (publisher, mut readers) = registry::<u64, u64, _>(rt, alloc, start, 2)?;
    let one = readers.pop().ok_or("a reader")?;
    let other = readers.pop().ok_or("another reader")?;
    let ((mut publisher, published), (one, other)) = thread::join(
        rt,
        || publish_all(rt, alloc, publisher),
        || thread::join(rt, || take_all(one), || take_all(other)),
    );
    assert!(rt; published);
    let (mut one, one_rose) = one;
    let (mut other, other_rose) = other;
    assert!(rt; one_rose && other_rose);
    one.learn(publisher.tell()?);
    other.learn(publisher.tell()?);
    assert_eq!(rt;
        (taken(&mut one), taken(&mut other)),
        (Ok((1000, 1000)), Ok((1000, 1000)))
    );
    let entries = publisher.into_entries(rt);
    assert!(rt; entries.iter().copied().eq(1..=OPERATIONS));
    Ok(())
}

#[test]
fn takes_of_two_threads_never_go_back(rt: HostRuntime) -> Result<(), Fail> {
    two_take_while_one_publishes(&rt, rt.alloc())
}

ghost use Rattle.std.specs.Prelude.{◌≡◌, ◌≤◌, ◌<◌};
ghost use Rattle.worker_crew.specs.Takers.{IsTakerOf};

use crate::adders::{Adder, Feeder};
use crate::sum::Sum;
use history_lock::Hall;
use std::alloc::Global;
use std::sync::Wait;
use std::test::Fail;
use std::thread::{Threads, join};
use worker_crew::{GaveUp, JobPass, Jobs, Lobby, News, with_workers};

#[test]
fn one_place(rt: HostRuntime) -> Result<(), Fail> {
    let (jobs, mut pass) = Jobs::<u32>::new(rt.alloc(), 1)?;
    assert!(&rt; jobs.offer(&rt, &mut pass, 5) == Ok(()));
    assert!(&rt; jobs.offer(&rt, &mut pass, 7) == Err(7));
    assert!(&rt; jobs.take(&rt, &mut pass) == Some(5));
    assert!(&rt; jobs.take(&rt, &mut pass) == None);
    Ok(())
}

// Offers so many numbers from `first` on, and takes an item behind each. The sum of what it took, if each take took one.
fn trade<R: Wait>(
    rt: &R,
    jobs: &Jobs<u32>,
    mut pass: JobPass<u32>,
    first: u32,
) -> (JobPass<u32>, Option<u64>)
    requires { IsTakerOf jobs.now pass × (first < 65536) }
    ensures { IsTakerOf jobs.now result.0 }
{
    let mut sum = Some(0u64);
    for i in 0..10_000 {
        let _ = jobs.offer(rt, &mut pass, first + i);
        sum = match (sum, jobs.take(rt, &mut pass)) {
            (Some(sum), Some(item)) => sum.checked_add(u64::from(item)),
            _ => None,
        };
    }
    (pass, sum)
}

// Lets two threads offer and take 10,000 items each.
fn both<R: Threads + Wait + Sync>(
    rt: &R,
    jobs: &Jobs<u32>,
    a: JobPass<u32>,
    b: JobPass<u32>,
) -> (Option<u64>, Option<u64>)
    requires { IsTakerOf jobs.now a × IsTakerOf jobs.now b }
{
    let ((_a, first), (_b, second)) = join(
        rt,
        move || -> (JobPass<u32>, Option<u64>)
            requires { IsTakerOf jobs.now a }
        { trade(rt, jobs, a, 0) },
        move || -> (JobPass<u32>, Option<u64>)
            requires { IsTakerOf jobs.now b }
        { trade(rt, jobs, b, 10_000) },
    );
    (first, second)
}

#[test]
fn two_threads_take(rt: HostRuntime) -> Result<(), Fail> {
    let (jobs, mut a) = Jobs::<u32>::new(rt.alloc(), 4)?;
    let b = jobs.split(&mut a);
    let (first, second) = both(&rt, &jobs, a, b);
    let sum = first.ok_or("a take")?.checked_add(second.ok_or("a take")?);
    assert!(&rt; sum == Some(199_990_000));
    Ok(())
}

#[test]
fn the_lobby_wakes(rt: HostRuntime) -> Result<(), Fail> {
    let lobby = Lobby::new();
    let first = lobby.news(&rt);
    lobby.offer(&rt);
    let offered = lobby.wait_for_work(&rt, first.offers);
    assert!(&rt; offered.offers == 1 && offered.moves == 0);
    lobby.announce(&rt);
    lobby.tell(&rt);
    let moved = lobby.wait_past(&rt, first.moves);
    assert!(&rt;
        moved
            == News {
                offers: 1,
                moves: 2,
                workers: 1,
                closed: false,
                broken: None
            }
    );
    lobby.give_up(&rt, GaveUp::NoMemory);
    lobby.give_up(&rt, GaveUp::Worn);
    let broken = lobby.news(&rt);
    assert!(&rt; lobby.wait_past(&rt, broken.moves) == broken);
    assert!(&rt; broken.broken == Some(GaveUp::NoMemory));
    lobby.close(&rt);
    let closed = lobby.news(&rt);
    assert!(&rt; closed.closed);
    assert!(&rt; lobby.wait_for_work(&rt, closed.offers) == closed);
    Ok(())
}

// How so many workers ended, and the sum at the end, if there was memory.
fn run<R: Threads + Wait + Sync>(
    rt: &R,
    alloc: Global,
    feeder: Feeder,
    adder: Adder,
    workers: u32,
) -> Option<(Result<(), GaveUp>, u64)>
    requires { workers ≤ 8 }
{
    let Ok((jobs, taker)) = Jobs::<u32>::new(alloc, 16) else {
        return None;
    };
    let Ok((hall, pass)) = Hall::open(alloc, Sum { total: 0 }) else {
        return None;
    };
    let lobby = Lobby::new();
    let (pass, _taker, ended, _feeder) = with_workers(
        rt, &hall, pass, &jobs, taker, &lobby, &adder, feeder, workers,
    );
    Some((ended, hall.close(pass).total))
}

#[test]
fn crews(rt: HostRuntime) -> Result<(), Fail> {
    let feeder = Feeder {
        items: 1000,
        drains: true,
    };
    let adder = Adder { refused: 0 };
    assert!(&rt; run(&rt, rt.alloc(), feeder, adder, 0) == Some((Ok(()), 500_500)));
    assert!(&rt; run(&rt, rt.alloc(), feeder, adder, 1) == Some((Ok(()), 500_500)));
    assert!(&rt; run(&rt, rt.alloc(), feeder, adder, 4) == Some((Ok(()), 500_500)));
    Ok(())
}

#[test]
fn a_worker_finds_no_memory(rt: HostRuntime) -> Result<(), Fail> {
    let feeder = Feeder {
        items: 1,
        drains: false,
    };
    let adder = Adder { refused: 1 };
    assert!(&rt; run(&rt, rt.alloc(), feeder, adder, 1) == Some((Err(GaveUp::NoMemory), 0)));
    Ok(())
}

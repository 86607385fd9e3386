// Threads add events to a list, and read what is told of it.
ghost use Rattle.std.specs.Prelude.{◌≡◌};
ghost use Rattle.event_log.specs.Lists.{nothing_of};

use event_log::{EventLog, Machine, Told, open};
use std::marker::{Brand, Model, PhantomData};
use std::process::Abort;
use std::sync::{Mutex, Wait};
use std::test::Fail;
use std::thread::{Threads, join};

const EVENTS: u64 = 100_000;

// A sum of numbers below 10.
struct Sum(u64);

impl Machine<u64> for Sum {
    ghost use Rattle.std.specs.Prelude.{◌+◌, ◌<◌};

    ghost start = { record { 0 = 0 } };

    ghost applied = { λ s n. record { 0 = s.0 + n } };

    ghost may = { λ s n. n < 10 };
}

// Which list it is.
trait Naming {
    ghost use Rattle.event_log.specs.Lists.{ListName};

    ghost list: { ListName };
}

impl Naming for Brand {
    ghost use Rattle.event_log.specs.Lists.{no_list};

    ghost list = { no_list };
}

// What was told last, under the lock.
#[derive(Drop)]
struct Latest<J: Naming> {
    told: Told<u64, Sum>,
    of: PhantomData<J>,
    ghost named: { told.list ≡ J.list },
}

impl<J: Naming> Latest<J> {
    fn get(&self) -> Told<u64, Sum>
        ensures { result.list ≡ J.list }
    {
        self.told.again()
    }

    fn set(&mut self, told: &Told<u64, Sum>)
        requires { told.now.list ≡ J.list }
    {
        self.told = told.again();
    }

    fn add<R: Wait>(&mut self, rt: &R, log: &EventLog<u64, Sum>, number: u64) -> bool
        requires { log.now ≡ J.list }
    {
        add(rt, log, &mut self.told, number)
    }
}

// Adds an event, if there is room for one, and says whether it did.
fn add<R: Wait>(rt: &R, log: &EventLog<u64, Sum>, told: &mut Told<u64, Sum>, number: u64) -> bool
    requires { told.old.list ≡ log.now }
    ensures { told.new.list ≡ log.now }
{
    if told.len() == u64::MAX {
        return false;
    }
    told.add(rt, log, &(number % 10));
    true
}

// Adds events and tells each; how many were added.
fn write<J: Naming, R: Wait>(
    rt: &R,
    log: &EventLog<u64, Sum>,
    latest: &Mutex<Latest<J>>,
    told: Told<u64, Sum>,
) -> (Told<u64, Sum>, u64)
    requires { (told.list ≡ log.now) × (log.now ≡ J.list) }
    ensures { result.0.list ≡ log.now }
{
    let mut told = told;
    let mut added = 0;
    for number in 0..EVENTS {
        if add(rt, log, &mut told, number) {
            added += 1;
        }
        latest.lock(rt).set(&told);
    }
    (told, added)
}

// Reads what is told; whether nothing that was told was shorter than what was told before.
fn read<J: Naming, R: Wait>(
    rt: &R,
    latest: &Mutex<Latest<J>>,
    told: Told<u64, Sum>,
) -> (Told<u64, Sum>, bool)
    requires { told.list ≡ J.list }
    ensures { result.0.list ≡ J.list }
{
    let mut told = told;
    let mut grows = true;
    for _ in 0..EVENTS {
        let next = latest.lock(rt).get();
        grows = grows && told.begins(&next);
        told.learn(&next);
    }
    (told, grows)
}

fn read_by_two<J: Naming + Send + Sync, R: Threads + Wait + Sync>(
    rt: &R,
    latest: &Mutex<Latest<J>>,
    one: Told<u64, Sum>,
    two: Told<u64, Sum>,
) -> (Told<u64, Sum>, bool)
    requires { (one.list ≡ J.list) × (two.list ≡ J.list) }
    ensures { result.0.list ≡ J.list }
{
    let ((mut told, a), (other, b)) = join(
        rt,
        move || -> (Told<u64, Sum>, bool)
            requires { one.list ≡ J.list }
            ensures { result.0.list ≡ J.list }
        { read(rt, latest, one) },
        move || -> (Told<u64, Sum>, bool)
            requires { two.list ≡ J.list }
            ensures { result.0.list ≡ J.list }
        { read(rt, latest, two) },
    );
    told.learn(&other);
    (told, a && b)
}

fn write_beside_readers<J: Naming + Send + Sync, R: Threads + Wait + Abort + Sync>(
    rt: &R,
    log: EventLog<u64, Sum>,
    first: Told<u64, Sum>,
)
    requires log { log ≡ J.list }
    requires first { first.list ≡ J.list }
{
    let (one, two, mut last) = (first.again(), first.again(), first.again());
    let latest = Mutex::new(Latest::<J> {
        told: first.again(),
        of: PhantomData,
    });
    let ((written, added), (read, grows)) = join(
        rt,
        || -> (Told<u64, Sum>, u64)
            requires { (first.list ≡ J.list) × (log ≡ J.list) }
            ensures { result.0.list ≡ J.list }
        { write(rt, &log, &latest, first) },
        || -> (Told<u64, Sum>, bool)
            requires { (one.list ≡ J.list) × (two.list ≡ J.list) }
            ensures { result.0.list ≡ J.list }
        { read_by_two(rt, &latest, one, two) },
    );
    assert!(rt; added == EVENTS && written.len() == EVENTS);
    assert!(rt; grows && read.begins(&written));
    last.learn(&written);
    assert!(rt; last.len() == EVENTS);
}

// Adds events to what is under the lock; how many were added.
fn write_under_lock<J: Naming, R: Wait>(
    rt: &R,
    log: &EventLog<u64, Sum>,
    latest: &Mutex<Latest<J>>,
) -> u64
    requires { log.now ≡ J.list }
{
    let mut added = 0;
    for number in 0..EVENTS {
        if latest.lock(rt).add(rt, log, number) {
            added += 1;
        }
    }
    added
}

// Two add to the list under one lock. Each event that one added is an event more of the list, and no other.
fn write_by_two<J: Naming + Send + Sync, R: Threads + Wait + Abort + Sync>(
    rt: &R,
    log: EventLog<u64, Sum>,
    first: Told<u64, Sum>,
)
    requires log { log ≡ J.list }
    requires first { first.list ≡ J.list }
{
    let latest = Mutex::new(Latest::<J> {
        told: first,
        of: PhantomData,
    });
    let (a, b) = join(
        rt,
        || -> u64
            requires { log ≡ J.list }
        { write_under_lock(rt, &log, &latest) },
        || -> u64
            requires { log ≡ J.list }
        { write_under_lock(rt, &log, &latest) },
    );
    let told = latest.lock(rt).get();
    assert!(rt; a == EVENTS && b == EVENTS && told.len() == a + b);
}

#[test]
fn readers_see_a_list_that_grows(rt: HostRuntime) -> Result<(), Fail> {
    let (log, told) = open::<u64, Sum>();
    write_beside_readers::<Brand, _>(&rt, log, told);
    Ok(())
}

#[test]
fn each_event_is_added_once(rt: HostRuntime) -> Result<(), Fail> {
    let (log, told) = open::<u64, Sum>();
    write_by_two::<Brand, _>(&rt, log, told);
    Ok(())
}

//! Who runs at the same time, and when a gate is entered.

use crate::gate::{Counting, Hold};
use crate::programs::{AMPLE, HANDED_ON, TWO_COUNTS, config, instances, network_of, reported};
use kahn_pool::{Flow, Held, Verdict};
use kahn_streams::Input;
use std::test::Fail;

// A body of 14 events.
static SHORT: &str = "integer I; while I < 6 do begin I := I + 1; print I end; print 7";

// A body of 4,000 events.
static LONG: &str = "integer I; while I < 1999 do begin I := I + 1; print I end; print 7";

// Once for each of 16 instances.
const EACH: u64 = 0x1111_1111_1111_1111;

#[test]
fn two_at_once(rt: HostRuntime) -> Result<(), Fail> {
    let gate = Counting::of(Hold::Each, false);
    reported(&rt, rt.alloc(), TWO_COUNTS, (2, 1, AMPLE), &gate)?;
    assert_eq!(rt; (gate.came(), gate.late()), (0x77, 0));
    Ok(())
}

// While one process is held, the other does all its quanta. One that waits for a value comes to its second quantum only once
// the value has come, and that is sent after the gate.
#[test]
fn one_is_held(rt: HostRuntime) -> Result<(), Fail> {
    let rows = [
        (
            (TWO_COUNTS, 0, 7, 8, 0),
            "V:\nW: 0 1 2\nend 1 count: wants more after 1\nend 2 count: ended after 7\nstopped by bound 8\n",
        ),
        (
            (TWO_COUNTS, 1, 7, 8, 0),
            "V: 0 1 2\nW:\nend 1 count: ended after 7\nend 2 count: wants more after 1\nstopped by bound 8\n",
        ),
        (
            (HANDED_ON, 0, 2, AMPLE, 1),
            "print 2 c: 1\nend 1 s: ended after 1\nend 2 c: ended after 2\nfinished 3\n",
        ),
    ];
    for ((program, held, until, bound, late), report) in rows {
        let gate = Counting::of(Hold::First(held, until), false);
        let written = reported(&rt, rt.alloc(), program, (2, 1, bound), &gate)?;
        assert_eq!(rt; (written.as_str(), gate.late()), (report, late));
    }
    Ok(())
}

// One worker enters the gate for each quantum of each process in turn.
#[test]
fn one_worker_takes_turns(rt: HostRuntime) -> Result<(), Fail> {
    let rows = [
        (TWO_COUNTS, 1, 0b01_10_01_10_01_10_01_10_01_10_01_10_01_10),
        (TWO_COUNTS, 2, 0b01_10_01_10_01_10_01_10),
        (TWO_COUNTS, 7, 0b01_10),
        (TWO_COUNTS, 1000, 0b01_10),
        (HANDED_ON, 1, 0b01_10_10),
        (HANDED_ON, 1000, 0b01_10),
    ];
    for (program, quantum, order) in rows {
        let gate = Counting::of(Hold::Inside(0), false);
        reported(&rt, rt.alloc(), program, (1, quantum, AMPLE), &gate)?;
        assert_eq!(rt; gate.order(), order);
    }
    Ok(())
}

// So does a run that is fed as it goes.
#[test]
fn a_flow_takes_turns(rt: HostRuntime) -> Result<(), Fail> {
    let alloc = rt.alloc();
    let network = network_of(&rt, alloc, TWO_COUNTS)?;
    let input = Input::none(alloc, &network)?;
    let mut flow = Flow::start(alloc, &network, input, config(1, 2, AMPLE))?;
    let gate = Counting::of(Hold::Inside(0), false);
    assert_eq!(rt; flow.resume(0, &gate), Ok(Verdict::Finished));
    assert_eq!(rt; gate.order(), 0b01_10_01_10_01_10_01_10);
    Ok(())
}

// As many workers as are asked for are there at the same time and never more, and one comes to each quantum of each process.
#[test]
fn workers_at_once(rt: HostRuntime) -> Result<(), Fail> {
    let rows = [
        (SHORT, 1, 14),
        (SHORT, 2, 7),
        (SHORT, 7, 2),
        (LONG, 2000, 2),
    ];
    for (body, quantum, times) in rows {
        let program = instances(rt.alloc(), 16, body)?;
        for workers in 1..17u64 {
            let gate = Counting::of(Hold::Inside(workers), false);
            let numbers = (workers, quantum, AMPLE);
            reported(&rt, rt.alloc(), program.as_str(), numbers, &gate)?;
            let told = (gate.came(), gate.most(), gate.late());
            let wanted = (EACH.wrapping_mul(times), workers, 0);
            assert_eq!(rt; told, wanted, "{workers} {quantum}");
        }
    }
    Ok(())
}

// Each part of a held run has the workers, the quantum and the gate that it was given: 64 quanta are done in each.
#[test]
fn workers_at_once_in_parts(rt: HostRuntime) -> Result<(), Fail> {
    let alloc = rt.alloc();
    let network = network_of(
        &rt,
        alloc,
        instances(alloc, 16, "repeat begin end")?.as_str(),
    )?;
    for workers in 1..17u64 {
        for (quantum, bound) in [(1, 64), (2, 128), (7, 448), (2000, 128_000)] {
            let input = Input::none(alloc, &network)?;
            let mut held = Held::start(alloc, &network, input, config(workers, quantum, 0))?;
            for _ in 0..2u64 {
                let gate = Counting::of(Hold::Inside(workers), false);
                assert_eq!(rt; held.resume(&rt, bound, &gate), Ok(Verdict::Bound));
                let told = (gate.entries(), gate.most(), gate.late());
                assert_eq!(rt; told, (64, workers, 0), "{workers} {quantum}");
                assert_eq!(rt; held.budget(), 0);
            }
        }
    }
    Ok(())
}

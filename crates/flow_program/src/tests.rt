//! The devices that no run of the program uses yet, and a gate.
use std::alloc::{AllocError, Global};
use std::sync::atomic::{AtomicU64, Ordering};
use std::test::Fail;
use std::thread::Threads;
use std::{env, fs, process, thread};
use world_io::{Clock, Gate, Sink, Source, TurnGate};
use world_real::{FileSource, MachineClock, OutputSink};

#[test]
fn a_source_a_sink_and_a_clock_do_as_the_machine_does(rt: HostRuntime) -> Result<(), Fail> {
    let folder = env::temp_dir(&rt)?;
    let process = process::id(rt.process());
    let path = format!(in rt.alloc(); "{}/world_real-{process}", folder.as_str())?;
    fs::write(&rt, path.as_str(), b"abc".as_slice())?;
    let mut source = FileSource::new(&rt, path.as_str());
    let mut piece = [0; 2];
    for count in [2, 1, 0] {
        assert_eq!(rt; source.read(&mut piece), Ok(count));
    }
    assert_eq!(rt; piece, *b"cb");
    fs::remove_file(&rt, path.as_str())?;

    let mut sink = OutputSink::new(&rt, rt.alloc());
    assert_eq!(rt; sink.write(b"a\n"), Ok(2));
    assert_eq!(rt; sink.finish(), Ok(()));

    let mut clock = MachineClock::new(&rt);
    let start = clock.now();
    clock.wait(start.saturating_add(5));
    assert!(rt; clock.now() >= start.saturating_add(5));
    Ok(())
}

// How many sessions had come when each of two was let in.
fn let_in<R: Threads + Sync>(
    rt: &R,
    alloc: Global,
    gate: &TurnGate,
) -> Result<Vec<u64>, AllocError> {
    let come = AtomicU64::new(0);
    thread::map_indices(
        rt,
        alloc,
        2,
        &|session| {
            come.fetch_add(1, Ordering::SeqCst);
            gate.enter(session as u64);
            let let_in_at = come.load(Ordering::SeqCst);
            gate.leave(session as u64);
            let_in_at
        },
    )
}

#[test]
fn a_turn_gate_holds_a_session_until_a_second_one_is_inside(rt: HostRuntime) -> Result<(), Fail> {
    let gate = TurnGate::new(1_000_000_000);
    let counts = let_in(&rt, rt.alloc(), &gate)?;
    assert_eq!(rt; counts.as_slice(), [2, 2].as_slice());
    // One that looks no times holds nobody.
    TurnGate::new(0).enter(1);
    Ok(())
}

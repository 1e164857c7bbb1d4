// Workers at a board, and their gate.
use crate::batches::{SINGLE_AND_CLIPPED, answered, many_jobs};
use meeting_gate::MeetingGate;
use std::test::Fail;
use worked_systems::CountingGate;

#[test]
fn each_worker_comes_once(rt: HostRuntime) -> Result<(), Fail> {
    for workers in [1u32, 2, 5, 16] {
        let gate = CountingGate::make();
        let _text = answered(&rt, rt.alloc(), SINGLE_AND_CLIPPED, workers, &gate)?;
        assert!(rt; gate.saw_each_once(workers));
    }
    Ok(())
}

#[test]
fn workers_run_side_by_side(rt: HostRuntime) -> Result<(), Fail> {
    let gate = MeetingGate::make(1);
    let text = many_jobs(rt.alloc(), 64)?;
    let answers = answered(&rt, rt.alloc(), text.as_str(), 2, &gate)?;
    assert!(rt; gate.is_met());
    assert!(rt; answers.as_slice().ends_with(b"done 64 yes 64\n"));
    Ok(())
}

// Writes that fail beside workers.
use crate::running::{Outcome, run};
use maple_top::Status;
use packet_workers::Open;
use std::test::Fail;

const INPUT: &str =
    "policy { if pkt.tp_dst is 22 { drop; } out 2; }\n%%\nplug 1\nsettle\npacket 1 1 tp_dst=80\nsettle\npacket 1 1 tp_dst=80\n";

// Behind the settles this is all that can be reported.
const REPORT: &str =
    "open c1\nstate 1 pruned 0\nready c1 s1\nsettled 5\nmiss c1 1 0\nanswer s1 1 out 2 learned\nsettled 5\nhit c1 1 out 2\nend\n";

// Each line of the script has a write, and the last line of the report.
const WRITES: u64 = 6;

// Whether it ended at a write that failed, and what was written is the report up to there.
fn is_cut(came: &Outcome) -> bool {
    let text = came.text();
    came.status == Status::WriteFault && text != REPORT && REPORT.starts_with(text)
}

#[test]
fn each_write_may_fail(rt: HostRuntime) -> Result<(), Fail> {
    for turn in 0..20 {
        for write in 1..=WRITES {
            let came = run(&rt, rt.alloc(), "sim --workers 2", INPUT, &Open, &[write])?;
            assert!(rt; is_cut(&came), "write {write}, run {turn}");
        }
    }
    let came = run(
        &rt,
        rt.alloc(),
        "sim --workers 2",
        INPUT,
        &Open,
        &[WRITES.saturating_add(1)],
    )?;
    assert_eq!(&rt; came.status, Status::Done);
    assert_eq!(&rt; came.text(), REPORT);
    Ok(())
}

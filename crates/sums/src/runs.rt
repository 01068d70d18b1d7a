// Runs: a report out of turn, and records of a run that are not coherent.
use super::print;
use entries::{Entry, Kind, Standing};
use executive::{Report, Run};
use plan::Plan;
use std::io;

fn plan_a() -> Plan {
    plan_text::reader::read_plan(
        b"slots=8\njobs=2\nlevel=HI\nrelease=0\ndeadline=8\nlo=2\nhi=4\nlevel=LO\nrelease=0\ndeadline=4\nlo=2\nhi=2\nslot=2\nslot=1\nslot=2\nslot=1\nslot=0\nslot=0\nslot=0\nslot=0\n",
    ).plan
}

// The report's answer, and the run handed back.
fn stepped(rt: &impl Print, name: &str, r: Run, slot: u16, kind: Kind) -> io::Result<Run> {
    let done = r.step(Report { slot, kind });
    print::answer(rt, name, done.answer)?;
    Ok(done.run)
}

// A report for slot 2 at t = 1 is refused 12 at 1, and slot 1 can still be reported.
pub(crate) fn out_of_turn(rt: &impl Print) -> io::Result<()> {
    let started = executive::start(plan_a());
    print::answer(rt, "start A", started.answer)?;
    let mut r = started.run;
    for (name, slot, kind) in [
        ("slot 0 more", 0, Kind::More),
        ("slot 2 at t = 1", 2, Kind::More),
        ("none for a slot with a job", 1, Kind::None),
        ("slot 1 more", 1, Kind::More),
        ("slot 2 end", 2, Kind::End),
    ] {
        r = stepped(rt, name, r, slot, kind)?;
    }
    Ok(())
}

pub(crate) fn incoherent(rt: &impl Print) -> io::Result<()> {
    let r = executive::start(plan_a()).run;
    stepped(rt, "t above N", Run { t: 9, ..r }, 9, Kind::More)?;
    let mut row = r;
    row.hi[0] = 3;
    stepped(rt, "HI spare off by one", row, 0, Kind::More)?;
    let mut low = r;
    low.lo[1] = 3;
    stepped(rt, "LO spare off by one", low, 0, Kind::More)?;
    let mut given = r;
    given.entry[0] = Entry {
        standing: Standing::Waiting,
        given: 4,
    };
    stepped(rt, "live with its whole budget", given, 0, Kind::More)?;
    let mut ended = r;
    ended.entry[1] = Entry {
        standing: Standing::Finished(1),
        given: 1,
    };
    stepped(rt, "ended after t", ended, 0, Kind::More)?;
    let mut windows = r;
    windows.plan.job[0].deadline = 9;
    stepped(rt, "a plan that breaks 4", windows, 0, Kind::More)?;
    let over = Run {
        t: 1,
        ..executive::blank_run()
    };
    stepped(rt, "the blank run", over, 0, Kind::None)?;
    stepped(rt, "the run itself", r, 0, Kind::End)?;
    Ok(())
}

// Plan records that no text has, written: limits, numbers above 9999, and lent buffers that are short by a byte or just fit.
use super::print;
use plan::{Job, Level, Plan};
use std::io;

// One HI job over N slots, its table slot the first.
fn small(slots: u16) -> Plan {
    let mut p = plan::blank_plan();
    p.slots = slots;
    p.jobs = 1;
    p.job[0] = Job {
        level: Level::Hi,
        release: 0,
        deadline: 1,
        lo: 1,
        hi: 1,
    };
    p.table[0] = 1;
    p
}

// How the record is written into `out`, and whether the first byte was touched.
fn written(rt: &impl Print, name: &str, p: Plan, out: &mut [u8]) -> io::Result<()> {
    print::answer(rt, name, plan_text::writer::write_plan(p, out))?;
    match out.first() {
        Some(b'.') => println!(rt; "  output as it was"),
        Some(_) => println!(rt; "  output written"),
        None => Ok(()),
    }
}

pub(crate) fn limits(rt: &impl Print) -> io::Result<()> {
    let mut out = [b'.'; 100];
    written(rt, "write N = 0", small(0), &mut out)?;
    written(rt, "write N = 513", small(513), &mut out)?;
    let p = small(2);
    written(rt, "write n = 0", Plan { jobs: 0, ..p }, &mut out)?;
    written(rt, "write n = 33", Plan { jobs: 33, ..p }, &mut out)
}

pub(crate) fn large_numbers(rt: &impl Print) -> io::Result<()> {
    let mut out = [b'.'; 100];
    let mut p = small(2);
    p.job[0].hi = 10000;
    written(rt, "write hi = 10000", p, &mut out)?;
    p.job[0].release = 65535;
    written(rt, "write release = 65535", p, &mut out)?;
    let mut q = small(2);
    q.table[1] = 10000;
    written(rt, "write slot 1 = 10000", q, &mut out)
}

// The text of the small plan with two slots has 69 bytes.
pub(crate) fn room(rt: &impl Print) -> io::Result<()> {
    written(rt, "write into 0 bytes", small(2), &mut [])?;
    written(rt, "write into 68 bytes", small(2), &mut [b'.'; 68])?;
    written(rt, "write into 69 bytes", small(2), &mut [b'.'; 69])?;
    let mut more = [b'.'; 70];
    written(rt, "write into 70 bytes", small(2), &mut more)?;
    if more[69] == b'.' {
        println!(rt; "  byte past the text as it was")?;
    }
    Ok(())
}

// The check program: all that it reads to all that it prints. Reading and writing are in check_plan.
ghost use Rattle.std.specs.Prelude.{◌≡◌, ◌*◌, take};
ghost use Rattle.intervals.specs.Intervals.{max_intervals};
ghost use Rattle.console.specs.Check.{interval_lines, analysis_lines};
ghost use Rattle.console.specs.Pieces.{Piece, longest, CountsIn};
ghost use Rattle.console.specs.Sheet.{Puts};
ghost use Rattle.console.specs.Lists.{check_room, check_written, check_length};

use crate::print::{Sheet, put_refusal};
use acceptance::Analysis;
use intervals::INTERVALS;

// The room that a whole output needs at most: a line of each interval and one more.
pub const CHECK_ROOM: usize = 8448;

// A line for each interval, in order.
fn put_interval_lines(sheet: &mut Sheet<'_>, a: Analysis)
    ensures { Puts (max_intervals * longest) (interval_lines (take a.count a.interval) a.hi a.lo) sheet.old sheet.new }
{
    for i in 0..INTERVALS.min(usize::from(a.count)) {
        sheet.interval_line(a.interval[i], a.hi[i], a.lo[i]);
    }
}

// The intervals and the answer; a refusal prints only its line.
fn put_analysis(out: &mut [u8; CHECK_ROOM], a: Analysis) -> usize
    ensures { Piece check_room 0 (analysis_lines a) out.old result out.new }
{
    match a.answer {
        Err(refusal) => put_refusal(out, refusal),
        Ok(()) => {
            let mut sheet = Sheet { out, at: 0 };
            put_interval_lines(&mut sheet, a);
            sheet.key(b"answer=0\n");
            sheet.at
        }
    }
}

// All that the check program prints for this text, at the start of the output. An output with less than CHECK_ROOM is left as it is.
pub fn check_output(text: &[u8], out: &mut [u8]) -> usize
    ensures value { result ≡ check_length text.now out.old }
    ensures out_after { out.new ≡ check_written text.now out.old }
    ensures counts_in { CountsIn result out.new }
{
    let Some(out) = out.first_chunk_mut::<CHECK_ROOM>() else {
        return 0;
    };
    let read = plan_text::reader::read_plan(text);
    match read.answer {
        Err(refusal) => put_refusal(out, refusal),
        Ok(()) => put_analysis(out, acceptance::analysis_of(read.plan)),
    }
}

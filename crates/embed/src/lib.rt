// The product for a host program: each function starts from a text and keeps nothing between calls.
// embed_c exports them to C under the same names.
#![tactic(auto)]

ghost use Rattle.std.specs.Prelude.{◌≡◌, length};
ghost use Rattle.answers.specs.Answer.{number_of};
ghost use Rattle.plan_text.specs.Read.{read_plan};
ghost use Rattle.plan_text.specs.Write.{write_answer, write_out};
ghost use Rattle.embed.specs.Embed.{both_places, bytes_written, analysed, kind_of, walk_from, walked};
ghost use Rattle.lines.specs.Writing.{put_fit, place_after};
ghost use Rattle.console.specs.Lists.{check_length, check_written};
ghost use Rattle.console.specs.Run.{run_output};

use answers::Answer;
use entries::Kind;
use executive::{Report, Run};

mod run;

// An answer for the host: its number, and its places in `places`, 0 for one that it does not have.
fn told(answer: Answer, places: &mut [usize; 2]) -> u16
    ensures value { result ≡ number_of answer }
    ensures places_after { places.new ≡ both_places answer }
{
    *places = [answers::first_place(answer), answers::second_place(answer)];
    answers::number_of(answer)
}

// The reader's answer: 0, 1, 2 or 3, and its places.
pub fn embed_read(text: &[u8], places: &mut [usize; 2]) -> u16
    ensures value { result ≡ number_of (read_plan text.now).answer }
    ensures places_after { places.new ≡ both_places (read_plan text.now).answer }
{
    told(plan_text::reader::read_plan(text).answer, places)
}

// Reads a plan and writes it at the start of `out`: the bytes written. A refused text has the blank plan, which the
// writer refuses; a refusal answers 0 and leaves the output as it was.
#[tactic(auto, unfolding(crate::specs::Embed::bytes_written))]
pub fn embed_write(text: &[u8], out: &mut [u8]) -> usize
    ensures value { result ≡ bytes_written (write_answer (read_plan text.now).plan (length out.old)) }
    ensures out_after { out.new ≡ write_out (read_plan text.now).plan out.old }
{
    let plan = plan_text::reader::read_plan(text).plan;
    plan_text::writer::write_plan(plan, out).unwrap_or(0)
}

#[tactic(auto, using(crate::specs::EmbedLaws::analysis_unread, crate::specs::EmbedLaws::analysis_made))]
fn analysed(text: &[u8]) -> Answer
    ensures { result ≡ analysed text.now }
{
    let read = plan_text::reader::read_plan(text);
    read.answer?;
    acceptance::analysis_of(read.plan).answer
}

// Reads a plan and analyses it: the first refusal's number and places, 0 where both accept.
pub fn embed_analyse(text: &[u8], places: &mut [usize; 2]) -> u16
    ensures value { result ≡ number_of (analysed text.now) }
    ensures places_after { places.new ≡ both_places (analysed text.now) }
{
    told(analysed(text), places)
}

#[tactic(auto, unfolding(crate::specs::Embed::kind_of))]
fn kind_of(byte: u8) -> Kind
    ensures { result ≡ kind_of byte }
{
    match byte {
        0 => Kind::None,
        1 => Kind::End,
        _ => Kind::More,
    }
}

// The first refusal of a report of each kind in turn, each for slot t.
#[tactic(auto, using(crate::specs::EmbedLaws::walk_on, crate::specs::EmbedLaws::walk_refused, crate::specs::EmbedLaws::walk_end))]
fn walk_from(run: Run, kinds: &[u8]) -> Answer
    ensures { result ≡ walk_from run kinds.now }
{
    let mut here = run;
    for byte in kinds {
        let stepped = here.step(Report {
            slot: here.t,
            kind: kind_of(*byte),
        });
        stepped.answer?;
        here = stepped.run;
    }
    Ok(())
}

#[tactic(auto, using(crate::specs::EmbedLaws::walk_unread, crate::specs::EmbedLaws::walk_unstarted, crate::specs::EmbedLaws::walk_started))]
fn walked(text: &[u8], kinds: &[u8]) -> Answer
    ensures { result ≡ walked text.now kinds.now }
{
    let read = plan_text::reader::read_plan(text);
    read.answer?;
    let started = executive::start(read.plan);
    started.answer?;
    walk_from(started.run, kinds)
}

// Reads a plan, starts it, and reports once for each kind, for slot t: the first refusal's number and places, else 0.
pub fn embed_walk(text: &[u8], kinds: &[u8], places: &mut [usize; 2]) -> u16
    ensures value { result ≡ number_of (walked text.now kinds.now) }
    ensures places_after { places.new ≡ both_places (walked text.now kinds.now) }
{
    told(walked(text, kinds), places)
}

// The check program's whole output for this input, at the start of `out`: its length. An output with less than
// console::check::CHECK_ROOM is left as it was, and the answer is 0.
pub fn embed_check(text: &[u8], out: &mut [u8]) -> usize
    ensures value { result ≡ check_length text.now out.old }
    ensures out_after { out.new ≡ check_written text.now out.old }
{
    console::check::check_output(text, out)
}

// The run program's whole output for this input, at the start of `out`: its length. An output that it does not fit is
// left as it was, and the answer is 0.
pub fn embed_run(text: &[u8], out: &mut [u8]) -> usize
    ensures value { result ≡ place_after 0 (run_output text.now) out.old }
    ensures out_after { out.new ≡ put_fit 0 (run_output text.now) out.old }
{
    if !run::fits(text, out.len()) {
        return 0;
    }
    run::put_output(text, out)
}

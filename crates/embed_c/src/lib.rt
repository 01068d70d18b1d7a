// The C side of embed: one export for each of its functions, with its clauses. include/coater.h declares them.
#![tactic(auto)]

ghost use Rattle.std.specs.Prelude.{◌≡◌, length};
ghost use Rattle.answers.specs.Answer.{number_of};
ghost use Rattle.plan_text.specs.Read.{read_plan};
ghost use Rattle.plan_text.specs.Write.{write_answer, write_out};
ghost use Rattle.embed.specs.Embed.{both_places, bytes_written, analysed, walked};
ghost use Rattle.lines.specs.Writing.{put_fit, place_after};
ghost use Rattle.console.specs.Lists.{check_length, check_written};
ghost use Rattle.console.specs.Run.{run_output};

// The reader's answer: 0, 1, 2 or 3, and its places.
#[unsafe(no_mangle)]
pub extern "C" fn embed_read(text: &[u8], places: &mut [usize; 2]) -> u16
    ensures value { result ≡ number_of (read_plan text.now).answer }
    ensures places_after { places.new ≡ both_places (read_plan text.now).answer }
{
    embed::embed_read(text, places)
}

// Reads a plan and writes it at the start of `out`: the bytes written. A refused text has the blank plan, which the
// writer refuses; a refusal answers 0 and leaves the output as it was.
#[unsafe(no_mangle)]
pub extern "C" fn embed_write(text: &[u8], out: &mut [u8]) -> usize
    ensures value { result ≡ bytes_written (write_answer (read_plan text.now).plan (length out.old)) }
    ensures out_after { out.new ≡ write_out (read_plan text.now).plan out.old }
{
    embed::embed_write(text, out)
}

// Reads a plan and analyses it: the first refusal's number and places, 0 where both accept.
#[unsafe(no_mangle)]
pub extern "C" fn embed_analyse(text: &[u8], places: &mut [usize; 2]) -> u16
    ensures value { result ≡ number_of (analysed text.now) }
    ensures places_after { places.new ≡ both_places (analysed text.now) }
{
    embed::embed_analyse(text, places)
}

// Reads a plan, starts it, and reports once for each kind, for slot t: the first refusal's number and places, else 0.
#[unsafe(no_mangle)]
pub extern "C" fn embed_walk(text: &[u8], kinds: &[u8], places: &mut [usize; 2]) -> u16
    ensures value { result ≡ number_of (walked text.now kinds.now) }
    ensures places_after { places.new ≡ both_places (walked text.now kinds.now) }
{
    embed::embed_walk(text, kinds, places)
}

// The check program's whole output for this input, at the start of `out`: its length. An output with less than
// console::check::CHECK_ROOM is left as it was, and the answer is 0.
#[unsafe(no_mangle)]
pub extern "C" fn embed_check(text: &[u8], out: &mut [u8]) -> usize
    ensures value { result ≡ check_length text.now out.old }
    ensures out_after { out.new ≡ check_written text.now out.old }
{
    embed::embed_check(text, out)
}

// The run program's whole output for this input, at the start of `out`: its length. An output that it does not fit is
// left as it was, and the answer is 0.
#[unsafe(no_mangle)]
pub extern "C" fn embed_run(text: &[u8], out: &mut [u8]) -> usize
    ensures value { result ≡ place_after 0 (run_output text.now) out.old }
    ensures out_after { out.new ≡ put_fit 0 (run_output text.now) out.old }
{
    embed::embed_run(text, out)
}

// The run program on a whole text: one pass counts its output against the room, one writes it. The console is in console::run.
ghost use Rattle.std.specs.Prelude.{◌≡◌, ◌≤◌, length};
ghost use Rattle.words.specs.Words.{◌≤?◌};
ghost use Rattle.lines.specs.Writing.{put};
ghost use Rattle.console.specs.Run.{run_output};

use console::run::RUN_ROOM;

// The whole output has at most `room` bytes.
pub(crate) fn fits(text: &[u8], room: usize) -> bool
    ensures { result ≡ (length (run_output text.now) ≤? room) }
{
    let mut printed = [0u8; RUN_ROOM];
    let mut c = console::run::fresh_console();
    let mut rest = text;
    let mut left = room;
    while let Some(turn) = c.next(rest, &mut printed) {
        if left < turn.printed {
            return false;
        }
        left -= turn.printed;
        rest = &rest[turn.used..];
        c = turn.console;
    }
    c.end(rest, &mut printed) <= left
}

// The whole output at the start of `out`, which has room for it: its length.
pub(crate) fn put_output(text: &[u8], out: &mut [u8]) -> usize
    requires { length (run_output text.now) ≤ length out.old }
    ensures value { result ≡ length (run_output text.now) }
    ensures out_after { out.new ≡ put 0 (run_output text.now) out.old }
{
    let mut printed = [0u8; RUN_ROOM];
    let mut c = console::run::fresh_console();
    let mut rest = text;
    let mut place = 0;
    while let Some(turn) = c.next(rest, &mut printed) {
        place = lines::writing::put_bytes(out, place, &printed[..turn.printed]);
        rest = &rest[turn.used..];
        c = turn.console;
    }
    let count = c.end(rest, &mut printed);
    lines::writing::put_bytes(out, place, &printed[..count])
}

// The check program: reads a plan on standard input and prints its intervals and spares, or one refused line.
// Where the input cannot be read it prints nothing.
#![tactic(auto)]

use console::check::{CHECK_ROOM, check_output};

// A plan's text is shorter.
const HELD: usize = 65536;

// Prints what the check says of the text.
fn checked(rt: &HostRuntime, text: &[u8]) {
    let mut out = [0u8; CHECK_ROOM];
    let printed = check_output(text, &mut out);
    streams::write_out(rt, &mut rt.stdout(), &out[..printed]);
}

// What follows the first HELD bytes does not matter: a plan's text is shorter, so these decide the output (check_stays in console).
fn main(rt: HostRuntime) {
    let mut text = [0u8; HELD];
    if let Ok(n) = streams::read_full(&rt, &mut rt.stdin(), &mut text) {
        checked(&rt, &text[..n]);
    }
}

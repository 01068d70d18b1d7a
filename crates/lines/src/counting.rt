// Lines counted: whether so many lines of a text are complete. What is on them is read in reading.
ghost use Rattle.std.specs.Prelude.{◌≡◌, ◌==◌, length, take, filter};
ghost use Rattle.words.specs.Words.{◌≤?◌};
ghost use Rattle.lines.specs.Lines.{lines_in};

// How many lines are complete, `most` at the most: one pass, which ends with the last of them.
fn lines_up_to(text: &[u8], most: usize) -> usize
    ensures { result ≡ length (take most (filter (λ b. b == 10) text.now)) }
{
    text.iter().filter(|&&b| b == b'\n').take(most).count()
}

// At least `count` lines are complete.
#[tactic(auto, using(crate::specs::TextLaws::lines_enough))]
pub fn has_lines(text: &[u8], count: usize) -> bool
    ensures { result ≡ (count ≤? lines_in text.now) }
{
    lines_up_to(text, count) == count
}

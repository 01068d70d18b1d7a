// Printing of a case.
use answers::{Accepting, Refusal};
use std::io;

// The case's name, the answer's number and its first place.
pub(crate) fn answer<T: Accepting>(
    rt: &impl Print,
    name: &str,
    a: Result<T, Refusal>,
) -> io::Result<()> {
    println!(rt;
        "{name}: {},{}",
        answers::number_of(a),
        answers::first_place(a)
    )
}

// The answers: `Ok` where a call was accepted, and one enum of refusals for every call of the product.
// specs/Answer.antt has the number and the places of each.
#![tactic(auto)]

ghost use Rattle.std.specs.Prelude.{◌≡◌, ℕ, get_or};
ghost use Rattle.answers.specs.Answer.{number_by, places_by};

// What a refusal holds is its place: a line, a job, a slot, a border, a count of bytes.
#[derive(Clone, Copy, PartialEq, Eq)]
pub enum Refusal {
    Form(u16),
    SlotLimit,
    JobLimit,
    Window(u16),
    Budget(u16),
    TableSlot(u16),
    TableCount(u16),
    Overfull(u16, u16),
    Overdrawn(u16),
    Incoherent,
    Over(u16),
    OtherSlot(u16),
    WrongKind(u16),
    NoRoom(usize),
    Chopped(u16),
}

// The answer of a check: accepted, or the refusal.
pub type Answer = Result<(), Refusal>;

// What an accepted answer holds, and the place that it has for it: a check's nothing and 0, the writer's its bytes.
pub trait Accepting: Copy {
    ghost place: { Self → ℕ };

    fn place(&self) -> usize
        ensures { result ≡ place self.now };
}

impl Accepting for () {
    ghost place = { λ nothing. 0 };

    fn place(&self) -> usize {
        0
    }
}

impl Accepting for usize {
    ghost place = { λ bytes. bytes };

    fn place(&self) -> usize {
        *self
    }
}

// The number of an answer, as the table of refusals has it; 0 is accepted.
pub fn number_of<T: Accepting>(answer: Result<T, Refusal>) -> u16
    ensures { result ≡ number_by answer }
{
    match answer {
        Ok(_) => 0,
        Err(Refusal::Form(_)) => 1,
        Err(Refusal::SlotLimit) => 2,
        Err(Refusal::JobLimit) => 3,
        Err(Refusal::Window(_)) => 4,
        Err(Refusal::Budget(_)) => 5,
        Err(Refusal::TableSlot(_)) => 6,
        Err(Refusal::TableCount(_)) => 7,
        Err(Refusal::Overfull(_, _)) => 8,
        Err(Refusal::Overdrawn(_)) => 9,
        Err(Refusal::Incoherent) => 10,
        Err(Refusal::Over(_)) => 11,
        Err(Refusal::OtherSlot(_)) => 12,
        Err(Refusal::WrongKind(_)) => 13,
        Err(Refusal::NoRoom(_)) => 14,
        Err(Refusal::Chopped(_)) => 17,
    }
}

// The place of an answer, the first of two; of an accepted one 0, of the writer's the bytes written.
pub fn first_place<T: Accepting>(answer: Result<T, Refusal>) -> usize
    ensures { result ≡ get_or (places_by T.place answer) 0 0 }
{
    match answer {
        Ok(accepted) => accepted.place(),
        Err(Refusal::Incoherent) => 0,
        Err(Refusal::SlotLimit) => 1,
        Err(Refusal::JobLimit) => 2,
        Err(Refusal::NoRoom(bytes)) => bytes,
        Err(Refusal::Form(place))
        | Err(Refusal::Window(place))
        | Err(Refusal::Budget(place))
        | Err(Refusal::TableSlot(place))
        | Err(Refusal::TableCount(place))
        | Err(Refusal::Overfull(place, _))
        | Err(Refusal::Overdrawn(place))
        | Err(Refusal::Over(place))
        | Err(Refusal::OtherSlot(place))
        | Err(Refusal::WrongKind(place))
        | Err(Refusal::Chopped(place)) => usize::from(place),
    }
}

// The second place, which only 8 has; 0 for the others.
pub fn second_place<T: Accepting>(answer: Result<T, Refusal>) -> usize
    ensures { result ≡ get_or (places_by T.place answer) 1 0 }
{
    match answer {
        Err(Refusal::Overfull(_, b)) => usize::from(b),
        _ => 0,
    }
}

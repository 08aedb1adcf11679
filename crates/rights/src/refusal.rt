// Why a call is refused, and the number that a user sees.
ghost use Rattle.std.specs.Prelude.{◌≡◌};
ghost use Rattle.rights.specs.Refusals.{refusal_number};

#[derive(Clone, Copy, PartialEq, Eq, Debug)]
pub enum Refusal {
    // A text is longer than a text may be.
    TextTooLong,
    // A byte stands nowhere in a text.
    BadByte,
    // A line cannot go on with this byte, or the text ends inside it.
    LineBroken,
    // A list is opened inside as many lists as may be open.
    TooDeep,
    // A word goes on past its last byte.
    WordTooLong,
    // A form has an unknown head, or a wrong count or kind of items.
    WrongForm,
    // No entry of this kind has the name.
    NoSuchName,
    // A name, an owner or a creation pair is declared already, or a right stands twice in a list.
    Repeated,
    // The need of a row has no right.
    EmptyNeed,
    // A number is not declared, or not in the table, or above the largest of its kind.
    OutOfRange,
    // Giver and receiver are one subject.
    SameSubject,
    // There are already as many as there may be.
    LimitReached,
    // The rule book does not permit the step.
    NotPermitted,
    // The subject does not hold the right that marks an owner.
    NotOwner,
    // The right to be taken is not held.
    NotHeld,
    // The run list that the caller brings has too few places.
    TooShort,
}

impl Refusal {
    pub fn number(self) -> usize
        ensures { result ≡ refusal_number self }
    {
        match self {
            Refusal::TextTooLong => 1,
            Refusal::BadByte => 2,
            Refusal::LineBroken => 3,
            Refusal::TooDeep => 4,
            Refusal::WordTooLong => 5,
            Refusal::WrongForm => 6,
            Refusal::NoSuchName => 7,
            Refusal::Repeated => 8,
            Refusal::EmptyNeed => 9,
            Refusal::OutOfRange => 10,
            Refusal::SameSubject => 11,
            Refusal::LimitReached => 20,
            Refusal::NotPermitted => 21,
            Refusal::NotOwner => 22,
            Refusal::NotHeld => 23,
            Refusal::TooShort => 24,
        }
    }
}

ghost use Rattle.std.specs.Prelude.{◌≡◌};
ghost use Rattle.rules.specs.Entries.{pre_state, final_state};
ghost use Rattle.rules.specs.Letters.{letter_of, state_of, read_state, LettersBack, LettersOnly};

// Where a site stands. The last two are decided, and final.
#[derive(Clone, Copy, PartialEq, Eq)]
pub enum State {
    Initial,
    Waiting,
    PreCommitted,
    PreAborted,
    Committed,
    Aborted,
}

// What is attempted or decided.
#[derive(Clone, Copy)]
pub enum Outcome {
    Commit,
    Abort,
}

impl Outcome {
    // The state of a site in an attempt.
    pub fn pre_state(self) -> State
        ensures { result ≡ pre_state self }
    {
        match self {
            Outcome::Commit => State::PreCommitted,
            Outcome::Abort => State::PreAborted,
        }
    }

    // The state of a site after the decision.
    pub fn final_state(self) -> State
        ensures { result ≡ final_state self }
    {
        match self {
            Outcome::Commit => State::Committed,
            Outcome::Abort => State::Aborted,
        }
    }
}

// The letter that a state is written by.
impl From<State> for char {
    fn from(state: State) -> char
        ensures { result ≡ letter_of state }
    {
        match state {
            State::Initial => 'q',
            State::Waiting => 'w',
            State::PreCommitted => 'p',
            State::PreAborted => 'n',
            State::Committed => 'c',
            State::Aborted => 'a',
        }
    }
}

// A letter that no state is written by.
#[derive(Clone, Copy, PartialEq, Eq, Debug)]
pub struct UnknownLetter(pub char);

// The state that a letter stands for. The two laws say that letters and states are inverse.
impl TryFrom<char> for State {
    type Error = UnknownLetter;

    fn try_from(letter: char) -> Result<State, UnknownLetter>
        ensures value { result ≡ read_state letter }
        ensures back { LettersBack }
        ensures only { LettersOnly }
    {
        match letter {
            'q' => Ok(State::Initial),
            'w' => Ok(State::Waiting),
            'p' => Ok(State::PreCommitted),
            'n' => Ok(State::PreAborted),
            'c' => Ok(State::Committed),
            'a' => Ok(State::Aborted),
            _ => Err(UnknownLetter(letter)),
        }
    }
}

// The five states, the seven causes, and where each cause leads from each state.
ghost use Rattle.std.specs.Prelude.{◌≡◌};
ghost use Rattle.process.specs.States.{next_of};

// Document 01's INACT, READY, WM, WE and WR.
#[derive(Clone, Copy, PartialEq, Eq)]
pub enum State {
    Inactive,
    Ready,
    WaitingForMessage,
    WaitingForEvent,
    WaitingForSemaphore,
}

#[derive(Clone, Copy)]
pub enum Cause {
    Start,
    WaitForMessage,
    Message,
    WaitForEvent,
    Event,
    WaitForSemaphore,
    Handover,
}

// The entries, so that a row of the table fits a line.
const NONE: Option<State> = None;

const READY: Option<State> = Some(State::Ready);

const MESSAGE: Option<State> = Some(State::WaitingForMessage);

const EVENT: Option<State> = Some(State::WaitingForEvent);

const SEMAPHORE: Option<State> = Some(State::WaitingForSemaphore);

// A row for each state, an entry for each cause, in the order above: exactly seven lead anywhere.
const MOVES: [[Option<State>; 7]; 5] = [
    [READY, NONE, NONE, NONE, NONE, NONE, NONE],
    [NONE, MESSAGE, NONE, EVENT, NONE, SEMAPHORE, NONE],
    [NONE, NONE, READY, NONE, NONE, NONE, NONE],
    [NONE, NONE, NONE, NONE, READY, NONE, NONE],
    [NONE, NONE, NONE, NONE, NONE, NONE, READY],
];

impl State {
    // The state that the cause leads to, if it leads anywhere.
    pub fn next(self, cause: Cause) -> Option<State>
        ensures { result ≡ next_of self cause }
    {
        MOVES[self as usize][cause as usize]
    }
}

//! The pairs of a state and what it meets: those of the tables of homes and caches.

ghost use Rattle.std.specs.Prelude.{◌≡◌, ◌<◌};
ghost use Rattle.sci_cache.specs.Held.{state_of};
ghost use Rattle.sci_statistics.specs.Transitions.{accepts as accepts_of, asks as asks_of, is_of_tables, kind_at_cache, is_home as is_home_of, kind_at_home, kind_name};
ghost use Rattle.sci_statistics.specs.Transitions.{met_place, performs as performs_of, serves as serves_of, state_place, transition_place};

use crate::kind::Access;
use sci_cache::Held;
use sci_home::HomeState;
use sci_packets::Command;
use sci_words::AskKind;

/// The state of a line of memory, without what it carries: first the states in a cache, then those at the line's home.
#[derive(Clone, Copy, PartialEq, Eq)]
pub enum StateKind {
    Out,
    Asking,
    Joining,
    FreshJoining,
    Head,
    FreshHead,
    Below,
    Purging,
    Claiming,
    Clearing,
    Returning,
    Rolling,
    Telling,
    Fading,
    Home,
    Fresh,
    Gone,
}

/// What a line meets in a state.
#[derive(Clone, Copy, PartialEq, Eq)]
pub enum Met {
    /// The cache asks.
    Ask(AskKind),
    /// A request is served.
    Serve(Command),
    /// An answer is accepted.
    Accept(Command),
    /// An operation is performed.
    Perform(Access),
}

/// A state, and what it meets.
#[derive(Clone, Copy, PartialEq, Eq)]
pub struct Transition {
    /// The state before.
    pub state: StateKind,
    /// What the line meets in it.
    pub met: Met,
}

impl StateKind {
    /// How many there are.
    pub const COUNT: usize = 17;

    /// All of them, in order.
    pub const ALL: [StateKind; StateKind::COUNT] = [
        StateKind::Out,
        StateKind::Asking,
        StateKind::Joining,
        StateKind::FreshJoining,
        StateKind::Head,
        StateKind::FreshHead,
        StateKind::Below,
        StateKind::Purging,
        StateKind::Claiming,
        StateKind::Clearing,
        StateKind::Returning,
        StateKind::Rolling,
        StateKind::Telling,
        StateKind::Fading,
        StateKind::Home,
        StateKind::Fresh,
        StateKind::Gone,
    ];

    /// The kind of a state in a cache.
    pub fn at_cache(held: &Held) -> StateKind
        ensures { result ≡ kind_at_cache (state_of held.now) }
    {
        match held {
            Held::Out(_) => StateKind::Out,
            Held::Asking(_) => StateKind::Asking,
            Held::Joining(_) => StateKind::Joining,
            Held::FreshJoining(_) => StateKind::FreshJoining,
            Held::Head(_) => StateKind::Head,
            Held::FreshHead(_) => StateKind::FreshHead,
            Held::Below(_) => StateKind::Below,
            Held::Purging(_) => StateKind::Purging,
            Held::Claiming(_) => StateKind::Claiming,
            Held::Clearing(_) => StateKind::Clearing,
            Held::Returning(_) => StateKind::Returning,
            Held::Rolling(_) => StateKind::Rolling,
            Held::Telling(_) => StateKind::Telling,
            Held::Fading(_) => StateKind::Fading,
        }
    }

    /// The kind of a state at a home.
    pub fn at_home(state: &HomeState) -> StateKind
        ensures { result ≡ kind_at_home state.now }
    {
        match state {
            HomeState::Home(_) => StateKind::Home,
            HomeState::Fresh { .. } => StateKind::Fresh,
            HomeState::Gone { .. } => StateKind::Gone,
        }
    }

    /// The name of the state, as its table has it.
    #[tactic(auto, unfolding(crate::specs::Transitions::kind_name))]
    pub fn name(self) -> &'static str
        ensures { result.now ≡ kind_name self }
    {
        match self {
            StateKind::Out => "Out",
            StateKind::Asking => "Asking",
            StateKind::Joining => "Joining",
            StateKind::FreshJoining => "FreshJoining",
            StateKind::Head => "Head",
            StateKind::FreshHead => "FreshHead",
            StateKind::Below => "Below",
            StateKind::Purging => "Purging",
            StateKind::Claiming => "Claiming",
            StateKind::Clearing => "Clearing",
            StateKind::Returning => "Returning",
            StateKind::Rolling => "Rolling",
            StateKind::Telling => "Telling",
            StateKind::Fading => "Fading",
            StateKind::Home => "HOME",
            StateKind::Fresh => "FRESH",
            StateKind::Gone => "GONE",
        }
    }

    /// Whether it is a state at a home.
    pub fn is_home(self) -> bool
        ensures { result ≡ is_home_of self }
    {
        matches!(self, StateKind::Home | StateKind::Fresh | StateKind::Gone)
    }

    /// Whether a cache asks this in the state.
    fn asks(self, kind: AskKind) -> bool
        ensures { result ≡ asks_of self kind }
    {
        match kind {
            AskKind::Mread | AskKind::Fread => matches!(self, StateKind::Out),
            AskKind::Cread => matches!(self, StateKind::Joining | StateKind::FreshJoining),
            AskKind::Claim | AskKind::Clear => matches!(self, StateKind::FreshHead),
            AskKind::Purge | AskKind::Wback => matches!(self, StateKind::Head),
            AskKind::Roll => matches!(self, StateKind::Below),
            AskKind::Setback => matches!(self, StateKind::Telling),
        }
    }

    /// Whether the table serves this request in the state.
    fn serves(self, request: Command) -> bool
        ensures { result ≡ serves_of self request }
    {
        match request {
            Command::Mread | Command::Fread | Command::Claim | Command::Clear | Command::Wback =>
                self.is_home(),
            Command::Cread | Command::Purge | Command::Roll | Command::Setback => !self.is_home(),
            _ => false,
        }
    }

    /// Whether the table accepts this answer in the state.
    fn accepts(self, answer: Command) -> bool
        ensures { result ≡ accepts_of self answer }
    {
        match answer {
            Command::Mdata | Command::Mgone | Command::Fdata => matches!(self, StateKind::Asking),
            Command::Cdata => matches!(self, StateKind::Joining | StateKind::FreshJoining),
            Command::Purged => matches!(self, StateKind::Purging),
            Command::Rolled => matches!(self, StateKind::Rolling),
            Command::Wbok | Command::Wbno => matches!(
                self,
                StateKind::Claiming | StateKind::Clearing | StateKind::Returning
            ),
            Command::Told => matches!(self, StateKind::Telling),
            Command::Busy => matches!(
                self,
                StateKind::Asking
                    | StateKind::Joining
                    | StateKind::FreshJoining
                    | StateKind::Purging
                    | StateKind::Claiming
                    | StateKind::Clearing
                    | StateKind::Returning
                    | StateKind::Rolling
                    | StateKind::Fading
            ),
            _ => false,
        }
    }

    /// Whether an operation that does this is performed in the state.
    fn performs(self, access: Access) -> bool
        ensures { result ≡ performs_of self access }
    {
        match access {
            Access::Load => matches!(
                self,
                StateKind::Head | StateKind::FreshHead | StateKind::Below
            ),
            Access::Maker => matches!(self, StateKind::Head),
        }
    }
}

impl Met {
    /// All that a state can meet, in the order in which lists show it.
    pub const ALL: [Met; 30] = [
        Met::Ask(AskKind::Mread),
        Met::Ask(AskKind::Fread),
        Met::Ask(AskKind::Cread),
        Met::Ask(AskKind::Claim),
        Met::Ask(AskKind::Clear),
        Met::Ask(AskKind::Purge),
        Met::Ask(AskKind::Roll),
        Met::Ask(AskKind::Wback),
        Met::Ask(AskKind::Setback),
        Met::Serve(Command::Mread),
        Met::Serve(Command::Fread),
        Met::Serve(Command::Cread),
        Met::Serve(Command::Claim),
        Met::Serve(Command::Clear),
        Met::Serve(Command::Purge),
        Met::Serve(Command::Roll),
        Met::Serve(Command::Wback),
        Met::Serve(Command::Setback),
        Met::Accept(Command::Mdata),
        Met::Accept(Command::Mgone),
        Met::Accept(Command::Fdata),
        Met::Accept(Command::Cdata),
        Met::Accept(Command::Purged),
        Met::Accept(Command::Rolled),
        Met::Accept(Command::Wbok),
        Met::Accept(Command::Wbno),
        Met::Accept(Command::Told),
        Met::Accept(Command::Busy),
        Met::Perform(Access::Load),
        Met::Perform(Access::Maker),
    ];

    /// Where it stands among all that can be said, 0 to 48.
    fn place(self) -> usize
        ensures place { result ≡ met_place self }
        ensures few { result < 49 }
    {
        match self {
            Met::Ask(kind) => kind as usize,
            Met::Serve(request) => 9 + request as usize,
            Met::Accept(answer) => 28 + answer as usize,
            Met::Perform(access) => 47 + access as usize,
        }
    }
}

/// How many places transitions have.
pub const PLACES: usize = 833;

impl Transition {
    /// Where it stands among all that can be said, 0 to 832.
    pub fn place(self) -> usize
        ensures place { result ≡ transition_place self }
        ensures few { result < PLACES }
    {
        self.met.place() * StateKind::COUNT + self.state as usize
    }

    /// Whether it is one of the tables of homes and caches.
    pub fn is_of_tables(self) -> bool
        ensures { result ≡ is_of_tables self }
    {
        match self.met {
            Met::Ask(kind) => self.state.asks(kind),
            Met::Serve(request) => self.state.serves(request),
            Met::Accept(answer) => self.state.accepts(answer),
            Met::Perform(access) => self.state.performs(access),
        }
    }
}

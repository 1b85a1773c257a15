// What the operations answer: a `Result`, whose error is a refusal. `specs/Told.antt` gives an answer's number,
// place and arrival, and every contract speaks of an answer through that definition.
#![tactic(auto)]

ghost use Rattle.std.specs.Prelude.{◌≡◌};
ghost use Rattle.replies.specs.Told.{refused_at, told_refusal, told, told_done, told_count, told_timed, told_planned};

use seconds::Clock;

// Why an operation refuses, with the place: in the order of the refusals' numbers, from 1.
// A place may be any length of a lent slice.
#[derive(Clone, Copy, PartialEq, Eq)]
pub enum Refusal {
    ShortMap(usize),
    StrangeMap,
    Oversize(usize),
    Misfit(usize),
    BadJunction(usize),
    BadRoad(usize),
    BrokenChain(usize),
    BadLettering(usize),
    BadOrder(usize),
    BadRules(usize),
    BadTrip(usize),
    Full(usize),
    NoRoad(usize),
    ShortSheet(usize),
    TornSheet(usize),
    ForeignMove(usize),
    Overrun(usize),
    FalseFigure(usize),
    Stray(usize),
    UnknownName(usize),
    TornTrace(usize),
    OddRecord(usize),
    PastLimit(usize),
    UnknownRoad(usize),
    BadBans(usize),
}

// What retiming and audit tell of a sheet.
#[derive(Clone, Copy)]
pub struct Timed {
    pub moves: u32,
    pub arrival: Clock,
}

// What planning and the preview tell of a plan.
#[derive(Clone, Copy)]
pub struct Plan {
    pub labels: u32,
    pub arrival: Clock,
}

// An answer as its three numbers; the arrival is in clock seconds.
#[derive(Clone, Copy)]
pub struct Reply {
    pub number: u32,
    pub place: usize,
    pub arrival: u32,
}

impl Reply {
    fn refused_at(number: u32, place: usize) -> Reply
        ensures { result ≡ refused_at number place }
    {
        Reply {
            number,
            place,
            arrival: 0,
        }
    }
}

impl From<Refusal> for Reply {
    ghost from_gives = { λ why reply. reply ≡ told_refusal why };

    fn from(why: Refusal) -> Reply {
        match why {
            Refusal::ShortMap(place) => Reply::refused_at(1, place),
            Refusal::StrangeMap => Reply::refused_at(2, 0),
            Refusal::Oversize(place) => Reply::refused_at(3, place),
            Refusal::Misfit(place) => Reply::refused_at(4, place),
            Refusal::BadJunction(place) => Reply::refused_at(5, place),
            Refusal::BadRoad(place) => Reply::refused_at(6, place),
            Refusal::BrokenChain(place) => Reply::refused_at(7, place),
            Refusal::BadLettering(place) => Reply::refused_at(8, place),
            Refusal::BadOrder(place) => Reply::refused_at(9, place),
            Refusal::BadRules(place) => Reply::refused_at(10, place),
            Refusal::BadTrip(place) => Reply::refused_at(11, place),
            Refusal::Full(place) => Reply::refused_at(12, place),
            Refusal::NoRoad(place) => Reply::refused_at(13, place),
            Refusal::ShortSheet(place) => Reply::refused_at(14, place),
            Refusal::TornSheet(place) => Reply::refused_at(15, place),
            Refusal::ForeignMove(place) => Reply::refused_at(16, place),
            Refusal::Overrun(place) => Reply::refused_at(17, place),
            Refusal::FalseFigure(place) => Reply::refused_at(18, place),
            Refusal::Stray(place) => Reply::refused_at(19, place),
            Refusal::UnknownName(place) => Reply::refused_at(20, place),
            Refusal::TornTrace(place) => Reply::refused_at(21, place),
            Refusal::OddRecord(place) => Reply::refused_at(22, place),
            Refusal::PastLimit(place) => Reply::refused_at(23, place),
            Refusal::UnknownRoad(place) => Reply::refused_at(24, place),
            Refusal::BadBans(place) => Reply::refused_at(25, place),
        }
    }
}

// What an operation answers where it does not refuse: number 0, and the place and the arrival that `told` gives it.
pub trait Success {
    ghost use Rattle.replies.specs.declared.Reply.{Reply};

    ghost told: { Self → Reply };

    fn reply(self) -> Reply
        ensures { result ≡ told self };
}

// A map is checked, chained or struck, an order is checked.
impl Success for () {
    ghost told = { told_done };

    fn reply(self) -> Reply {
        Reply {
            number: 0,
            place: 0,
            arrival: 0,
        }
    }
}

// The length of a name, the records of a trace.
impl Success for usize {
    ghost told = { told_count };

    fn reply(self) -> Reply {
        Reply {
            number: 0,
            place: self,
            arrival: 0,
        }
    }
}

impl Success for Timed {
    ghost told = { told_timed };

    fn reply(self) -> Reply {
        Reply {
            number: 0,
            place: self.moves as usize,
            arrival: self.arrival.0,
        }
    }
}

impl Success for Plan {
    ghost told = { told_planned };

    fn reply(self) -> Reply {
        Reply {
            number: 0,
            place: self.labels as usize,
            arrival: self.arrival.0,
        }
    }
}

// The answer of any operation as its three numbers.
impl<T: Success> From<Result<T, Refusal>> for Reply {
    ghost from_gives = { λ answer reply. reply ≡ told T.told answer };

    fn from(answer: Result<T, Refusal>) -> Reply {
        match answer {
            Ok(done) => done.reply(),
            Err(why) => Reply::from(why),
        }
    }
}

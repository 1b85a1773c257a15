// The two measures of time, in whole seconds, which are never taken for each other: a planner that
// adds wheel time where clock time is meant does not compile.
#![tactic(auto)]

// Clock time: a moment, or how long a pause takes.
#[derive(Clone, Copy, PartialEq, Eq, PartialOrd, Ord)]
pub struct Clock(pub u32);

// Wheel time: how long the driver has been at the wheel, or may be.
#[derive(Clone, Copy, PartialEq, Eq, PartialOrd, Ord)]
pub struct Wheel(pub u32);

// What numbers are compared by.

ghost use Rattle.std.specs.Prelude.{◌≤◌};

/// How many of the lowest bits of numbers don't count, and whether what counts has to fall.
#[derive(Clone, Copy)]
pub(crate) struct Slope {
    pub(crate) shift: u32,
    pub(crate) falls: bool,
    ghost few: { shift ≤ 63 },
}

/// The slopes of both players at one priority.
#[derive(Clone, Copy)]
pub(crate) struct Slopes {
    pub(crate) even: Slope,
    pub(crate) odd: Slope,
}

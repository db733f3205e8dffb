// What holds of all runs of the core, and of all texts of schedules.

ghost use Rattle.liftcore.specs.Laws.{
  ScheduleIsDecided,
  FewRaise,
  NeverFalls,
  NoScheduleFault,
  OneScheduleFault,
  OneSchedule,
  OneStep,
  QuietIsSettled,
  SettledIsLeast,
  StaysBelow,
};

/// The table never falls.
pub fn never_falls()
    ensures { NeverFalls }
{}

/// Every value stays below, whatever the events.
pub fn stays_below()
    ensures { StaysBelow }
{}

/// Where the table is settled it is the least progress table.
pub fn settled_is_least()
    ensures { SettledIsLeast }
{}

/// A quiet core is settled: a vertex that its lift would raise is pending, or owed, or held by a worker that read no old value.
pub fn quiet_is_settled()
    ensures { QuietIsSettled }
{}

/// An event comes to one state only, and isn't both done and skipped.
pub fn one_step()
    ensures { OneStep }
{}

/// At most as many events raise the table as top's rank times the vertices.
pub fn few_raise()
    ensures { FewRaise }
{}

/// A text spells at most one schedule for so many workers and vertices.
pub fn one_schedule()
    ensures { OneSchedule }
{}

/// A text that spells a schedule has no deciding fault.
pub fn no_schedule_fault()
    ensures { NoScheduleFault }
{}

/// A text has at most one deciding fault, at one line.
pub fn one_schedule_fault()
    ensures { OneScheduleFault }
{}

/// A text spells a schedule, or a fault decides: with the laws above, one of the two and just one of its kind.
pub fn schedule_is_decided()
    ensures { ScheduleIsDecided }
{}

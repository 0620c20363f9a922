ghost use Rattle.plan_gates.specs.Needs.{RecordsNeverMeet};

/// The records of a gate end where those of any later gate begin, or before.
pub fn records_never_meet()
    ensures { RecordsNeverMeet }
{}

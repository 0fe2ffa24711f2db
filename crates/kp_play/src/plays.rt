ghost use Rattle.kp_play.specs.Worked.{ScriptsAreAsWorked};

/// What may be played: scripts of three members, and what they print.
pub fn scripts_of_three()
    ensures { ScriptsAreAsWorked }
{}

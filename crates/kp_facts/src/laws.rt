//! What the words tell of the facts that are made for them.
ghost use Rattle.kp_facts.specs.Asked.{AskedTell};

/// The facts that are made for a word tell what all facts of the node tell.
pub fn asked_tell()
    ensures { AskedTell }
{}

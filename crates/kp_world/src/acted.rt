//! What one list of entries does to the tree of whoever applies it.

ghost use Rattle.kp_world.specs.Acted.{WritesAreCounted, OthersChangeNothing};

/// However often its entry comes, a write acts at most once: of each session and epoch, the writes of one list of
/// entries that act carry the numbers 1, 2, 3 and so on, each once.
///
/// `counted`: so it is of every list that is taken on the empty tree, in order. `others`: a write that doesn't act
/// changes nothing but the applied index.
pub fn writes_act_once()
    ensures counted { WritesAreCounted }
    ensures others { OthersChangeNothing }
{}

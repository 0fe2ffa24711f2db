ghost use Rattle.std.specs.Prelude.{◌≡◌};
ghost use Rattle.kp_words.specs.Answers.{known_word};

/// A question to a node.
#[derive(Clone, Copy, Drop)]
pub enum Word {
    /// `ruok`: whether it runs.
    Runs,
    /// `isro`: whether it takes writes.
    Writes,
    /// `srvr`: what it is and how much it has.
    Server,
    /// `cons`: its connections.
    Connections,
    /// `stat`: its connections, and what `srvr` says.
    Stat,
    /// `mntr`: numbers to watch over, by their names.
    Monitor,
    /// `wchs`: how many watches there are.
    WatchSums,
    /// `wchc`: the watches by connection.
    WatchesByConnection,
    /// `wchp`: the watches by path.
    WatchesByPath,
    /// `dump`: the sessions, and the nodes that they own.
    Dump,
    /// `lgif`: where its log begins and ends.
    Log,
    /// `csnp`: makes an image of the tree and says up to which index.
    Snapshot,
}

impl Word {
    /// The word that these bytes are, or None.
    #[tactic(auto, unfolding(crate::specs::Answers::known_word))]
    pub fn of(word: [u8; 4]) -> Option<Word>
        ensures { result ≡ known_word word }
    {
        match &word {
            b"ruok" => Some(Word::Runs),
            b"isro" => Some(Word::Writes),
            b"srvr" => Some(Word::Server),
            b"cons" => Some(Word::Connections),
            b"stat" => Some(Word::Stat),
            b"mntr" => Some(Word::Monitor),
            b"wchs" => Some(Word::WatchSums),
            b"wchc" => Some(Word::WatchesByConnection),
            b"wchp" => Some(Word::WatchesByPath),
            b"dump" => Some(Word::Dump),
            b"lgif" => Some(Word::Log),
            b"csnp" => Some(Word::Snapshot),
            _ => None,
        }
    }
}

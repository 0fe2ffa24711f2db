ghost use Rattle.std.specs.Prelude.{ℕ, Bool, List, ◌≡◌, ◌∷◌, [], ◌&&◌, not};
ghost use Rattle.kp_worker.specs.declared.heard.Heard.{Heard};
ghost use Rattle.kp_worker.specs.declared.heard.Heard.TheVariants.{End};
ghost use Rattle.kp_worker.specs.Outside.{HeardWithin};
ghost use Rattle.kp_lines.specs.Ports.{Flows};

use kp_worker::Heard;

/// One connection outside, from which bytes come and to which bytes go.
pub trait Port: Drop {
    /// Whether connections of this kind tell what they answered and what was handed to them.
    ghost tells: { Bool };

    /// What it answered so far.
    ghost told: { Self → List Heard };

    /// All bytes that were handed to it so far.
    ghost handed: { Self → List ℕ };

    /// Whether nothing is kept that has yet to go out.
    ghost free: { Self → Bool };

    /// Takes a piece, which has at least one byte and at most 65,536.
    fn take(&mut self) -> Heard
        ensures bound { HeardWithin result }
        ensures flows { Flows tells (told self.old) (told self.new) (handed self.old) (handed self.new) (result ∷ []) [] };

    /// Tells it that End is answered for it, and it isn't asked.
    fn answer_end(&mut self)
        ensures { Flows tells (told self.old) (told self.new) (handed self.old) (handed self.new) (End ∷ []) [] };

    /// Hands bytes out. What can't go out now is kept.
    fn hand(&mut self, bytes: &[u8])
        ensures { Flows tells (told self.old) (told self.new) (handed self.old) (handed self.new) [] bytes.now };

    /// Whether nothing is kept that has yet to go out.
    fn is_free(&self) -> bool
        ensures { result ≡ free self.now };

    /// Lets go out what is kept and can go out now. The answer is whether something was kept, and nothing is any more.
    fn flow(&mut self) -> bool
        ensures flows { Flows tells (told self.old) (told self.new) (handed self.old) (handed self.new) [] [] }
        ensures free { result ≡ (not (free self.old) && free self.new) };
}

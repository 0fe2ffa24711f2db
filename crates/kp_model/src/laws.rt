//! Laws of the definitions. The contract of each function is a law; the function does nothing.
ghost use Rattle.std.specs.Prelude.{◌≡◌, ◌<◌, ◌≤◌, ◌+◌, ◌&&◌, not, ℕ, Bool, List, length, IsTrue, IsSome};
ghost use Rattle.std.specs.List.{list_all};
ghost use Rattle.std.specs.FinMap as map;
ghost use Rattle.kp_model.specs.LogEntry.{LogEntry};
ghost use Rattle.kp_model.specs.declared.command.Op.{Op};
ghost use Rattle.kp_model.specs.Grammar.{is_number, is_entry, fits_op};
ghost use Rattle.kp_model.specs.Majority.{is_majority, IsMajority};
ghost use Rattle.kp_model.specs.State.{State, empty};
ghost use Rattle.kp_model.specs.Step.{apply, act_on};
ghost use Rattle.kp_model.specs.Store.{after};
ghost use Rattle.kp_model.specs.Taken.{would_take, is_noop, is_late};
ghost use Rattle.kp_model.specs.Good.{HasDistinctHolders, IsGood, IsSound};

/// Each entry raises the applied index by one, also where its command fails, and so a replay raises it by the number
/// of its entries.
pub fn entries_raise_the_index()
    ensures one { (s : State) (e : LogEntry) → (apply s e).state.applied ≡ s.applied + 1 }
    ensures all { (s : State) (es : List LogEntry) → (after s es).applied ≡ s.applied + length es }
{}

/// Each entry that can be written down keeps a good state good and the holders of its sessions distinct, as long as
/// its index stays within the limit.
pub fn entries_keep_states_sound()
    ensures good { (s : State) (e : LogEntry) → IsTrue (is_entry e) → s.applied < 4611686018427387904 → IsGood s → IsGood (apply s e).state }
    ensures holders { (s : State) (e : LogEntry) → HasDistinctHolders s.sessions → HasDistinctHolders (apply s e).state.sessions }
{}

/// Each operation of a live session that can be written down keeps a sound state sound. It is what a multi is made of.
pub fn operations_keep_states_sound()
    ensures sound { (s : State) (session : ℕ) (ids : List (List ℕ)) (t : ℕ) (o : Op) → IsTrue (is_number t) → IsTrue (fits_op o) → IsSome (map.get s.sessions session) → IsSound s → IsSound (act_on s session ids s.applied t o).state }
    ensures sessions { (s : State) (session : ℕ) (ids : List (List ℕ)) (i t : ℕ) (o : Op) → (act_on s session ids i t o).state.sessions ≡ s.sessions }
{}

/// The empty state is sound, and so is what a replay makes of a sound state.
pub fn replay_keeps_states_sound()
    ensures empty { IsSound empty }
    ensures after { (s : State) (es : List LogEntry) → IsTrue (list_all is_entry es) → s.applied + length es ≤ 4611686018427387904 → IsSound s → IsSound (after s es) }
{}

/// A leader takes those bodies whose entries won't come too late on its uncommitted state, and no others; a no-op it
/// takes from nobody.
pub fn taken_entries_are_in_time()
    ensures { (s : State) (e : LogEntry) → would_take s e.body ≡ (not (is_noop e.body) && not (is_late e.body (apply s e).reply)) }
{}

/// The test of a majority and the proposition say the same.
pub fn majorities_are_counted()
    ensures tested { (n : ℕ) (f : ℕ → Bool) → IsTrue (is_majority n f) → IsMajority n f }
    ensures found { (n : ℕ) (f : ℕ → Bool) → IsMajority n f → IsTrue (is_majority n f) }
{}

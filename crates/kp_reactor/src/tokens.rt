// The tokens of lines, and the numbers that the lines were given.
ghost use Rattle.std.specs.Prelude.{◌≡◌, ◌≤◌, ◌+◌, ℕ, Some, None, nat_eq, OnOk, OnErr};
ghost use Rattle.std.specs.HashMap.{get};
ghost use Rattle.kp_reactor.specs.Naming.{HasRoom, OthersStay, name_in, renamed};

use std::alloc::{AllocError, Global};
use std::collections::HashMap;

/// The tokens of lines, each with the number that its line was given, once it has one. No token is given twice: so what is told of
/// a line that is gone is told of nobody.
#[derive(Drop)]
pub struct Tokens {
    next: usize,
    names: HashMap<usize, Option<u64>>,
    ghost fresh: { (t : ℕ) → next ≤ t → get nat_eq names t ≡ None },
}

impl Tokens {
    /// No tokens. The first will be this one.
    pub fn new(alloc: Global, first: usize) -> Tokens
        ensures next { result.next ≡ first }
        ensures names { (t : ℕ) → get nat_eq result.names t ≡ None }
    {
        Tokens {
            next: first,
            names: HashMap::new(alloc),
        }
    }

    /// Makes the room that the next `open` uses up. Where there is no memory or no further token nothing changes.
    pub fn make_room(&mut self) -> Result<(), AllocError>
        ensures room { OnOk result (HasRoom self.new.names self.new.next) }
        ensures next { self.new.next ≡ self.old.next }
        ensures names { (t : ℕ) → get nat_eq self.new.names t ≡ get nat_eq self.old.names t }
    {
        if self.next == usize::MAX {
            return Err(AllocError);
        }
        self.names.reserve(1)
    }

    /// A token that was never given before, for a line that has no number yet. It takes no memory, since `make_room` made the room,
    /// which is used up.
    pub fn open(&mut self) -> usize
        requires { HasRoom self.old.names self.old.next }
        ensures token { result ≡ self.old.next }
        ensures fresh { get nat_eq self.old.names result ≡ None }
        ensures at { get nat_eq self.new.names result ≡ Some None }
        ensures others { OthersStay self.old.names self.new.names result }
        ensures next { self.new.next ≡ self.old.next + 1 }
    {
        let token = self.next;
        match self.names.insert(token, None) {
            Ok(_) => {
                self.next = token + 1;
                token
            }
            Err(_) => unreachable!(),
        }
    }

    /// The line of this token has this number from now on. Where the token is of no line nothing changes.
    pub fn name(&mut self, token: usize, number: u64)
        ensures at { get nat_eq self.new.names token ≡ renamed (get nat_eq self.old.names token) number }
        ensures others { OthersStay self.old.names self.new.names token }
        ensures next { self.new.next ≡ self.old.next }
    {
        if let Some(name) = self.names.get_mut(&token) {
            *name = Some(number);
        }
    }

    /// The token is of no line from now on, and its room is given back.
    pub fn close(&mut self, token: usize)
        ensures at { get nat_eq self.new.names token ≡ None }
        ensures others { OthersStay self.old.names self.new.names token }
        ensures next { self.new.next ≡ self.old.next }
    {
        self.names.remove(&token);
    }

    /// The number of the line of this token, or None where it is of no line or the line has no number yet.
    pub fn number(&self, token: usize) -> Option<u64>
        ensures { result ≡ name_in (get nat_eq self.now.names token) }
    {
        match self.names.get(&token) {
            Some(name) => *name,
            None => None,
        }
    }
}

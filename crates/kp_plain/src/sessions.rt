ghost use Rattle.std.specs.Prelude.{◌≡◌, ℕ, map as each, IfOk, OnOk, OnErr};
ghost use Rattle.kp_model.specs.declared.session.Session.{Session as NumberedSession};
ghost use Rattle.std.specs.Option.{option_copied};
ghost use Rattle.std.specs.FinMap as map;
ghost use Rattle.std.specs.List.{list_any};
ghost use Rattle.kp_model.specs.State.{is_held as held};
ghost use Rattle.kp_plain.specs.Outcomes.{has_holder};

use crate::sorted::{find_in, put_in, remove_from};
use kp_model::{NoMemory, Origin, Session};
use std::alloc::Global;
use std::marker::Model;

/// The live sessions by their numbers, which contracts see as a finite map.
#[derive(Drop)]
pub struct Sessions {
    // In the order of the numbers.
    items: Vec<(u64, Session)>,
}

impl Model for Sessions {
    ghost use Rattle.std.specs.Prelude.{IsTrue};
    ghost use Rattle.std.specs.FinMap as map;
    ghost use Rattle.std.specs.Ordering.{nat_cmp};
    ghost use Rattle.kp_model.specs.State.{Sessions as NumberMap};
    ghost use Rattle.kp_model.specs.Codes.{sessions_code};

    ghost Value = { NumberMap };

    ghost coded = { sessions_code };

    ghost view = { λ n. map.from_sorted n.items.items };

    ghost invariant = { λ n. IsTrue (map.is_sorted nat_cmp n.items.items) };
}

impl Sessions {
    /// No sessions. Takes no memory.
    pub fn new(alloc: Global) -> Sessions
        ensures { result ≡ map.empty }
    {
        Sessions {
            items: Vec::new(alloc),
        }
    }

    /// Lends the session of a number; None exactly where there is none.
    pub fn get(&self, number: u64) -> Option<&Session>
        ensures { option_copied result ≡ map.get self.now number }
    {
        find_in(self.items.as_slice(), &number)
    }

    /// Sets the session of a number. Without memory the sessions stay as they were.
    pub fn put(&mut self, number: u64, session: Session) -> Result<(), NoMemory>
        ensures ok { OnOk result (self.new ≡ map.insert self.old number session) }
        ensures err { OnErr result (self.new ≡ self.old) }
    {
        put_in(&mut self.items, number, session)?;
        Ok(())
    }

    /// Removes the session of a number, where there is one. Takes no memory.
    pub fn remove(&mut self, number: u64)
        ensures { self.new ≡ map.remove self.old number }
    {
        remove_from(&mut self.items, &number);
    }

    /// How many sessions there are.
    pub fn len(&self) -> u64
        ensures { result ≡ map.len self.now }
    {
        self.items.as_slice().len() as u64
    }

    /// The numbers of the sessions, ascending.
    pub fn numbers(&self, alloc: Global) -> Result<Vec<u64>, NoMemory>
        ensures { IfOk result (λ numbers. numbers.items ≡ map.keys self.now) }
    {
        numbers_of(alloc, self.items.as_slice())
    }

    /// Whether one of the sessions is held by this origin.
    pub fn is_held(&self, origin: &Origin) -> bool
        ensures { result ≡ held self.now origin.now }
    {
        is_holder(self.items.as_slice(), origin)
    }

    /// An equal value with memory of its own.
    pub fn copy(&self, alloc: Global) -> Result<Sessions, NoMemory>
        ensures { IfOk result (λ made. made ≡ self.now) }
    {
        Ok(Sessions {
            items: copies(alloc, self.items.as_slice())?,
        })
    }
}

fn copies(alloc: Global, from: &[(u64, Session)]) -> Result<Vec<(u64, Session)>, NoMemory>
    ensures { IfOk result (λ made. made.items ≡ from.now) }
{
    let mut items = Vec::new(alloc);
    for (number, session) in from {
        items.push((*number, session.copy(alloc)?))?;
    }
    Ok(items)
}

// The numbers of entries.
fn numbers_of(alloc: Global, from: &[(u64, Session)]) -> Result<Vec<u64>, NoMemory>
    ensures { IfOk result (λ numbers. numbers.items ≡ each (λ (e : ℕ × NumberedSession). e.0) from.now) }
{
    let mut numbers = Vec::new(alloc);
    for (number, _) in from {
        numbers.push(*number)?;
    }
    Ok(numbers)
}

fn is_holder(sessions: &[(u64, Session)], origin: &Origin) -> bool
    ensures { result ≡ list_any (has_holder origin.now) sessions.now }
{
    sessions.iter().any(|x| {
        x.1.holder.node == origin.node
            && (x.1.holder.boot == origin.boot && x.1.holder.conn == origin.conn)
    })
}

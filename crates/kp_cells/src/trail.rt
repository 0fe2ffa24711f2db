//! The numbers of the paths that each layer wrote.
ghost use Rattle.std.specs.Prelude.{◌≡◌, ℕ, ◌≤◌, ◌<◌, List, [], ◌∷◌, ◌++◌, ◌-◌, ◌||◌, length, take, drop, nat_eq, Some, None, IsSome, OnOk, OnErr};
ghost use Rattle.std.specs.List.{list_any};
ghost use Rattle.std.specs.Vec.{vec_len, vec_capacity};
ghost use Rattle.kp_layers.specs.Layering.{first_layer, begun};
ghost use Rattle.kp_layers.specs.Used.{last_layer};
ghost use Rattle.kp_cells.specs.Traced.{no_trace, latest_in, is_in};

use crate::pair::begin_three;
use kp_layers::{GroupedLayers, Grouping, Layers};
use kp_model::NoMemory;
use std::alloc::Global;
use std::collections::VecDeque;
use std::marker::Model;

/// For each layer the numbers of the paths that it wrote. When the layer goes, they are looked
/// through for paths that are no longer in use.
#[derive(Drop)]
pub struct Trail {
    alloc: Global,
    sealed: VecDeque<Vec<u64>>,
    staged: Option<Vec<u64>>,
}

impl Model for Trail {
    ghost use Rattle.std.specs.Prelude.{◌-◌, ◌≤◌, IsSome, map};
    ghost use Rattle.std.specs.Option.{option_map, option_map_or};
    ghost use Rattle.std.specs.Vec.{vec_len, vec_capacity};
    ghost use Rattle.std.specs.VecDeque.{deque_len, deque_capacity};
    ghost use Rattle.kp_cells.specs.Traced.{Trace, trace_code};

    ghost Value = { Trace };

    ghost coded = { trace_code };

    ghost view = { λ t. record { layers = map (λ ns. ns.items) t.sealed.items; staged = option_map (λ ns. ns.items) t.staged; room = option_map_or (λ ns. vec_capacity ns - vec_len ns) t.staged 0 } };

    ghost invariant = { λ t. IsSome t.staged → 1 ≤ deque_capacity t.sealed - deque_len t.sealed };
}

// Puts the number behind the others, unless it is the last one. There is room for it.
fn note(numbers: &mut Vec<u64>, number: u64)
    requires { vec_len numbers.old < vec_capacity numbers.old }
    ensures { (n : ℕ) → list_any (nat_eq n) numbers.new.items ≡ (list_any (nat_eq n) numbers.old.items || nat_eq n number) }
{
    if numbers.last() != Some(&number) {
        numbers.push_reserved(number);
    }
}

impl Trail {
    /// No layers.
    pub fn new(alloc: Global) -> Trail
        ensures { result ≡ no_trace }
    {
        Trail {
            alloc,
            sealed: VecDeque::new(alloc),
            staged: None,
        }
    }

    /// Opens a layer without numbers, and makes the room for its sealing. After an error nothing
    /// has changed.
    pub fn begin(&mut self) -> Result<(), NoMemory>
        requires { self.old.staged ≡ None }
        ensures ok { OnOk result (self.new ≡ record { layers = self.old.layers; staged = Some []; room = 0 }) }
        ensures err { OnErr result (self.new ≡ self.old) }
    {
        self.sealed.reserve(1)?;
        self.staged = Some(Vec::new(self.alloc));
        Ok(())
    }

    /// Makes room for one more number in the open layer.
    pub fn make_room(&mut self) -> Result<(), NoMemory>
        requires { IsSome self.old.staged }
        ensures layers { self.new.layers ≡ self.old.layers }
        ensures staged { self.new.staged ≡ self.old.staged }
        ensures room { OnOk result (1 ≤ self.new.room) }
    {
        match &mut self.staged {
            Some(numbers) => numbers.reserve(1)?,
            None => {}
        }
        Ok(())
    }

    /// Adds the number to the open layer. There is room for it.
    pub fn push(&mut self, number: u64)
        requires staged { IsSome self.old.staged }
        requires room { 1 ≤ self.old.room }
        ensures layers { self.new.layers ≡ self.old.layers }
        ensures staged { IsSome self.new.staged }
        ensures numbers { (n : ℕ) → is_in n (latest_in self.new) ≡ (is_in n (latest_in self.old) || nat_eq n number) }
    {
        if let Some(numbers) = &mut self.staged {
            note(numbers, number);
        }
    }

    /// The numbers of the open layer.
    pub fn staged(&self) -> &[u64]
        requires { IsSome self.now.staged }
        ensures { result.now ≡ latest_in self.now }
    {
        match &self.staged {
            Some(numbers) => numbers.as_slice(),
            None => &[],
        }
    }

    /// Closes the open layer behind the sealed ones.
    pub fn seal(&mut self)
        requires { IsSome self.old.staged }
        ensures layers { self.new.layers ≡ self.old.layers ++ latest_in self.old ∷ [] }
        ensures staged { self.new.staged ≡ None }
    {
        if let Some(numbers) = self.staged.take() {
            self.sealed.push_back_reserved(numbers);
        }
    }

    /// Takes the open layer away, and gives its numbers.
    pub fn take_staged(&mut self) -> Vec<u64>
        requires { IsSome self.old.staged }
        ensures numbers { result.items ≡ latest_in self.old }
        ensures layers { self.new.layers ≡ self.old.layers }
        ensures staged { self.new.staged ≡ None }
    {
        match self.staged.take() {
            Some(numbers) => numbers,
            None => Vec::new(self.alloc),
        }
    }

    /// Takes the first sealed layer away, and gives its numbers: none where no layer is sealed.
    pub fn take_front(&mut self) -> Vec<u64>
        ensures numbers { result.items ≡ first_layer self.old.layers }
        ensures layers { self.new.layers ≡ drop 1 self.old.layers }
        ensures staged { self.new.staged ≡ self.old.staged }
    {
        match self.sealed.pop_front() {
            Some(numbers) => numbers,
            None => Vec::new(self.alloc),
        }
    }

    /// Takes the last sealed layer away, and gives its numbers: none where no layer is sealed.
    pub fn take_back(&mut self) -> Vec<u64>
        ensures numbers { result.items ≡ last_layer self.old.layers }
        ensures layers { self.new.layers ≡ take (length self.old.layers - 1) self.old.layers }
        ensures staged { self.new.staged ≡ self.old.staged }
    {
        if let Some(numbers) = self.sealed.pop_back() {
            return numbers;
        }
        Vec::new(self.alloc)
    }
}

/// Opens a layer in all three parts and in the trail, or in none of them.
pub fn begin_rest<V: Drop, W: Drop, X: Drop, S: Grouping<V>, T: Grouping<W>>(
    one: &mut GroupedLayers<V, S>,
    other: &mut GroupedLayers<W, T>,
    third: &mut Layers<X>,
    trail: &mut Trail,
) -> Result<(), NoMemory>
    requires one { one.old.staged ≡ None }
    requires other { other.old.staged ≡ None }
    requires third { third.old.staged ≡ None }
    requires trail { trail.old.staged ≡ None }
    ensures one { OnOk result (one.new ≡ begun one.old) }
    ensures other { OnOk result (other.new ≡ begun other.old) }
    ensures third { OnOk result (third.new ≡ begun third.old) }
    ensures trail { OnOk result (trail.new ≡ record { layers = trail.old.layers; staged = Some []; room = 0 }) }
    ensures one_err { OnErr result (one.new ≡ one.old) }
    ensures other_err { OnErr result (other.new ≡ other.old) }
    ensures third_err { OnErr result (third.new ≡ third.old) }
    ensures trail_err { OnErr result (trail.new.layers ≡ trail.old.layers) }
    ensures open_err { OnErr result (trail.new.staged ≡ trail.old.staged) }
{
    trail.begin()?;
    if begin_three(one, other, third).is_err() {
        drop(trail.take_staged());
        return Err(NoMemory);
    }
    Ok(())
}

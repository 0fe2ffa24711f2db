//! Numbers of paths.
ghost use Rattle.std.specs.Prelude.{◌≡◌, ℕ, ◌≤◌, false, List, Some, None, cond, nat_eq, string_bytes, IfOk, OnOk, OnErr, option_copied, option_map, IfNone};
ghost use Rattle.std.specs.List.{list_any};
ghost use Rattle.std.specs.Option.{option_map_or};
ghost use Rattle.std.specs.Str.{bytes_eq};
ghost use Rattle.std.specs.HashMap.{spare};
ghost use Rattle.std.specs.FinMap as map;
ghost use Rattle.kp_model.specs.State.{is_child};
ghost use Rattle.kp_cells.specs.Naming.{IsNaming, Grows, no_names, numbers_in, texts_in, without};

use crate::kin::{Kin, children, join_parent, leave_parent};
use kp_model::NoMemory;
use std::alloc::Global;
use std::collections::HashMap;
use std::marker::Model;

/// The paths in use, each with a number of its own. Numbers are counted up and never come back, so
/// that one can be taken from its path without touching another.
///
/// Beside them stand the numbers of the children of each path, so that a listing costs the children
/// alone, and a path more or less costs the same whatever the number of its siblings.
#[derive(Drop)]
pub struct Names {
    alloc: Global,
    numbers: HashMap<String, u64>,
    texts: HashMap<u64, String>,
    kin: Kin,
    // above every number that was given
    next: u64,
}

impl Model for Names {
    ghost use Rattle.kp_cells.specs.Naming.{Naming, naming_code};

    ghost Value = { Naming };

    ghost coded = { naming_code };

    ghost use Rattle.kp_cells.specs.Naming.{numbers_in, texts_in};
    ghost use Rattle.kp_cells.specs.Kin.{AreInStep};

    ghost view = { λ n. record { numbers = numbers_in n.numbers.entries; texts = texts_in n.texts.entries } };

    ghost invariant = { λ n. AreInStep n.next n.kin.entries (record { numbers = numbers_in n.numbers.entries; texts = texts_in n.texts.entries }) };
}

// Makes room for one more path.
fn make_room(texts: &mut HashMap<u64, String>) -> Result<(), NoMemory>
    ensures same { texts_in texts.new.entries ≡ texts_in texts.old.entries }
    ensures room { OnOk result (1 ≤ spare texts.new) }
{
    texts.reserve(1)?;
    Ok(())
}

// Gives the path the number.
fn add_number(numbers: &mut HashMap<String, u64>, path: String, number: u64) -> Result<(), NoMemory>
    ensures ok { OnOk result ((p : List ℕ) → map.get (numbers_in numbers.new.entries) p ≡ cond (bytes_eq (string_bytes path) p) (Some number) (map.get (numbers_in numbers.old.entries) p)) }
    ensures err { OnErr result (numbers_in numbers.new.entries ≡ numbers_in numbers.old.entries) }
{
    numbers.insert(path, number)?;
    Ok(())
}

// Takes the number from the path.
fn remove_number(numbers: &mut HashMap<String, u64>, path: &str)
    ensures { (p : List ℕ) → map.get (numbers_in numbers.new.entries) p ≡ cond (bytes_eq path.now p) None (map.get (numbers_in numbers.old.entries) p) }
{
    let _ = numbers.remove(path);
}

// Gives the number the path. There is room for it.
fn add_text(texts: &mut HashMap<u64, String>, number: u64, path: String)
    requires { 1 ≤ spare texts.old }
    ensures { (n : ℕ) → map.get (texts_in texts.new.entries) n ≡ cond (nat_eq number n) (Some (string_bytes path)) (map.get (texts_in texts.old.entries) n) }
{
    let _ = texts.insert(number, path);
}

// Takes the path from the number.
fn remove_text(texts: &mut HashMap<u64, String>, number: u64) -> Option<String>
    ensures path { option_map string_bytes result ≡ map.get (texts_in texts.old.entries) number }
    ensures unchanged { IfNone result (texts_in texts.new.entries ≡ texts_in texts.old.entries) }
    ensures change { (n : ℕ) → map.get (texts_in texts.new.entries) n ≡ cond (nat_eq number n) None (map.get (texts_in texts.old.entries) n) }
{
    texts.remove(&number)
}

impl Names {
    /// No path has a number.
    pub fn new(alloc: Global) -> Names
        ensures value { result ≡ no_names }
        ensures naming { IsNaming result }
    {
        Names {
            alloc,
            numbers: HashMap::new(alloc),
            texts: HashMap::new(alloc),
            kin: HashMap::new(alloc),
            next: 0,
        }
    }

    /// The number of the path, if it has one.
    pub fn get(&self, path: &str) -> Option<u64>
        ensures value { result ≡ map.get self.now.numbers path.now }
        ensures naming { IsNaming self.now }
    {
        match self.numbers.get(path) {
            Some(number) => Some(*number),
            None => None,
        }
    }

    /// The path of the number, if it is one's.
    pub fn text(&self, number: u64) -> Option<&str>
        ensures value { option_copied result ≡ map.get self.now.texts number }
        ensures naming { IsNaming self.now }
    {
        match self.texts.get(&number) {
            Some(text) => Some(text.as_str()),
            None => None,
        }
    }

    /// The numbers of the paths that are children of this one. Costs as many as there are.
    pub fn children(&self, alloc: Global, path: &str) -> Result<Vec<u64>, NoMemory>
        ensures value { IfOk result (λ ids. (n : ℕ) → list_any (nat_eq n) ids.items ≡ option_map_or (is_child path.now) (map.get self.now.texts n) false) }
        ensures naming { IsNaming self.now }
    {
        children(&self.kin, alloc, path)
    }

    /// The number of the path, which gets one if it has none. After an error nothing has changed.
    pub fn give(&mut self, path: &str) -> Result<u64, NoMemory>
        ensures number { IfOk result (λ n. map.get self.new.numbers path.now ≡ Some n) }
        ensures only { IfOk result (λ n. (p : List ℕ) → map.get self.new.numbers p ≡ cond (bytes_eq path.now p) (Some n) (map.get self.old.numbers p)) }
        ensures grows { Grows self.old self.new }
        ensures naming { IsNaming self.new }
        ensures err { OnErr result (self.new ≡ self.old) }
    {
        match self.get(path) {
            Some(number) => Ok(number),
            None => self.add(path),
        }
    }

    // Gives the path, which has no number, the next one.
    fn add(&mut self, path: &str) -> Result<u64, NoMemory>
        requires { map.get self.old.numbers path.now ≡ None }
        ensures number { IfOk result (λ n. map.get self.new.numbers path.now ≡ Some n) }
        ensures only { IfOk result (λ n. (p : List ℕ) → map.get self.new.numbers p ≡ cond (bytes_eq path.now p) (Some n) (map.get self.old.numbers p)) }
        ensures grows { Grows self.old self.new }
        ensures naming { IsNaming self.new }
        ensures err { OnErr result (self.new ≡ self.old) }
    {
        let number = self.next;
        if number == u64::MAX {
            return Err(NoMemory);
        }
        let key = String::from_str(self.alloc, path)?;
        let text = String::from_str(self.alloc, path)?;
        make_room(&mut self.texts)?;
        join_parent(&mut self.kin, self.alloc, path, number)?;
        if add_number(&mut self.numbers, key, number).is_err() {
            leave_parent(&mut self.kin, path, number);
            return Err(NoMemory);
        }
        add_text(&mut self.texts, number, text);
        self.next = number + 1;
        Ok(number)
    }

    /// Takes the number, if it is a path's, from its path, which then has none. Takes no memory.
    pub fn forget(&mut self, number: u64)
        ensures numbers { (p : List ℕ) → map.get self.new.numbers p ≡ without number (map.get self.old.numbers p) }
        ensures naming { IsNaming self.new }
    {
        if let Some(path) = remove_text(&mut self.texts, number) {
            remove_number(&mut self.numbers, path.as_str());
            leave_parent(&mut self.kin, path.as_str(), number);
        }
    }
}

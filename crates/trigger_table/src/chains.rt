//! What is asked of lists that are linked by index.
ghost use Rattle.std.specs.Prelude.{
  ◌≡◌,
  ◌≢◌,
  ℕ,
  ◌+◌,
  ◌*◌,
  ◌/◌,
  ◌%◌,
  ◌++◌,
  ◌∷◌,
  ◌<◌,
  ◌≤◌,
  ◌==◌,
  [],
  None,
  Some,
  OnOk,
  IfSome,
  slice_get,
  if◌then◌else◌,
};
ghost use Rattle.trigger_table.specs.Links.{without, behind};
ghost use Rattle.trigger_table.specs.Rings.{Moves, SameLists, items, key_limit, list_of};

use crate::rings::Rings;
use port_io::NoMemory;
use std::alloc::Global;

/// The key of a node, or `None` where it is a head.
fn key_at(node: usize) -> Option<usize>
    ensures { result ≡ (if node % 2 == 0 then None else Some (node / 2)) }
{
    if node % 2 == 0 { None } else { Some(node / 2) }
}

impl Rings {
    /// No key, and no room for one. It takes no memory.
    pub(crate) fn new(alloc: Global) -> Rings
        ensures lists { (list : ℕ) → items result list ≡ [] }
        ensures keys { (key : ℕ) → list_of result key ≡ None }
    {
        Rings {
            next: Vec::new(alloc),
            prev: Vec::new(alloc),
            owners: Vec::new(alloc),
        }
    }

    /// Room for one list and one key more.
    fn grow(&mut self) -> Result<(), NoMemory>
        ensures same { SameLists self.old self.new }
        ensures grows { key_limit self.old ≤ key_limit self.new }
        ensures room { OnOk result (key_limit self.new ≡ key_limit self.old + 1) }
    {
        let head = self.next.len();
        self.next.reserve(2)?;
        self.prev.reserve(2)?;
        self.owners.reserve(1)?;
        self.next.push_reserved(head);
        self.next.push_reserved(head + 1);
        self.prev.push_reserved(head);
        self.prev.push_reserved(head + 1);
        self.owners.push_reserved(None);
        Ok(())
    }

    /// Room for the list and the key of this number. Its one error is the want of memory; the lists stay as they are.
    pub(crate) fn reserve(&mut self, number: usize) -> Result<(), NoMemory>
        ensures same { SameLists self.old self.new }
        ensures grows { key_limit self.old ≤ key_limit self.new }
        ensures room { OnOk result (number < key_limit self.new) }
    {
        while self.owners.len() <= number {
            self.grow()?;
        }
        Ok(())
    }

    /// The list that a key is in.
    pub(crate) fn list_of(&self, key: usize) -> Option<usize>
        ensures { result ≡ list_of self.now key }
    {
        match self.owners.get(key) {
            Some(owner) => *owner,
            None => None,
        }
    }

    /// The first key of a list.
    pub(crate) fn front(&self, list: usize) -> Option<usize>
        ensures value { result ≡ slice_get (items self.now list) 0 }
        ensures member { IfSome result (λ key. list_of self.now key ≡ Some list) }
    {
        if list >= self.owners.len() {
            return None;
        }
        key_at(self.next[2 * list])
    }

    /// The key that stands next behind this one in its list.
    pub(crate) fn next(&self, list: usize, key: usize) -> Option<usize>
        requires { list_of self.now key ≡ Some list }
        ensures value { result ≡ behind key (items self.now list) }
        ensures member { IfSome result (λ other. list_of self.now other ≡ Some list) }
    {
        key_at(self.next[2 * key + 1])
    }

    /// Puts a key that is in no list behind the last of this one.
    pub(crate) fn push_back(&mut self, list: usize, key: usize)
        requires list_in { list < key_limit self.old }
        requires key_in { key < key_limit self.old }
        requires unlinked { list_of self.old key ≡ None }
        ensures moves { Moves self.old self.new key (Some list) }
        ensures last { items self.new list ≡ items self.old list ++ key ∷ [] }
        ensures others { (other : ℕ) → other ≢ list → items self.new other ≡ items self.old other }
    {
        let head = 2 * list;
        let node = 2 * key + 1;
        let last = self.prev[head];
        self.next[last] = node;
        self.next[node] = head;
        self.prev[node] = last;
        self.prev[head] = node;
        self.owners[key] = Some(list);
    }

    /// Takes a key out of the list that it is in, and answers which.
    pub(crate) fn unlink(&mut self, key: usize) -> Option<usize>
        ensures value { result ≡ list_of self.old key }
        ensures moves { Moves self.old self.new key None }
        ensures lists { (list : ℕ) → items self.new list ≡ without key (items self.old list) }
    {
        let list = self.list_of(key)?;
        let node = 2 * key + 1;
        let before = self.prev[node];
        let after = self.next[node];
        self.next[before] = after;
        self.next[node] = node;
        self.prev[after] = before;
        self.prev[node] = node;
        self.owners[key] = None;
        Some(list)
    }
}

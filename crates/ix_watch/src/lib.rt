//! The watches: which client, by its name, wants to know of which action.
//!
//! A watch is a pair of a name and an action, with what was last told of it and what holds now. The
//! watches stand in the order in which they were first added.
#![tactic(auto)]

ghost use Rattle.std.specs.Prelude.{◌≡◌, ◌<◌, ◌≤◌, ◌↔◌, [], ◌∷◌, ◌++◌, false, length, is_some};
ghost use Rattle.std.specs.Prelude.{slice_get, Some, IfSome, IfOk, IfErr, IsTrue, IsSomeAnd};
ghost use Rattle.std.specs.List.{position_or_len};
ghost use Rattle.ix_watch.specs.inside.Watches.{is_of, is_watched, AreDistinct, without, marked};
ghost use Rattle.ix_watch.specs.inside.Watches.{noted, told_to, changes_of};
ghost use Rattle.ix_watch.specs.inside.Added.{Adds};

mod changes;
mod pairs;

pub use changes::Changes;
use indexmap::IndexMap;
use ix_values::{Action, Name};
use pairs::Pair;
use std::alloc::Global;
use std::marker::Model;

/// The most watches that there are at once.
pub const WATCH_LIMIT: usize = 4096;

/// What was last told of a watch, and what holds now.
#[derive(Clone, Copy)]
struct Mark {
    told: bool,
    holds: bool,
}

/// The watches, in the order in which they were first added.
#[derive(Drop)]
pub struct Watches {
    marks: IndexMap<Pair, Mark>,
}

impl Model for Watches {
    ghost use Rattle.std.specs.Prelude.{List, ◌≤◌, length};
    ghost use Rattle.ix_watch.specs.inside.Watches.{PlainWatch};

    ghost Value = { List PlainWatch };

    ghost use Rattle.ix_watch.specs.inside.Kept.{watches_of};

    ghost view = { λ w. watches_of w.marks.entries };

    ghost invariant = { λ w. length w.marks.entries ≤ 4096 };
}

/// How a watch was added.
#[derive(Clone, Copy, Debug)]
pub enum Added {
    /// At the end.
    New,
    /// The pair was there, and keeps its place.
    Again,
}

/// Why a watch was not added. The watches are as before.
#[derive(Clone, Copy, Debug)]
pub enum WatchFault {
    /// There are 4,096 watches, and the pair is none of them.
    Full,
    /// Memory ran out.
    Memory,
}

impl Watches {
    ghost use Rattle.ix_watch.specs.inside.Kept.{watch_of};

    /// An empty list: no name watches an action.
    pub fn new(alloc: Global) -> Watches
        ensures { result ≡ [] }
    {
        Watches {
            marks: IndexMap::new(alloc),
        }
    }

    /// How many watches there are: at most 4,096, and no pair twice.
    pub fn len(&self) -> usize
        ensures count { result ≡ length self.now }
        ensures few { result ≤ WATCH_LIMIT }
        ensures distinct { AreDistinct self.now }
    {
        self.marks.len()
    }

    /// Whether there are no watches.
    pub fn is_empty(&self) -> bool
        ensures { IsTrue result ↔ (length self.now ≡ 0) }
    {
        self.len() == 0
    }

    fn index_of(&self, name: &Name, action: &Action) -> Option<usize>
        ensures found { is_some result ≡ is_watched name.now action.now self.now }
        ensures place { IfSome result
            (λ index. index ≡ position_or_len (is_of name.now action.now) self.now) }
        ensures within { IfSome result (λ index. index < length self.now) }
        ensures distinct { AreDistinct self.now }
    {
        let pair = Pair {
            name: *name,
            action: *action,
        };
        self.marks.get_index_of(&pair)
    }

    /// Whether the pair is watched.
    pub fn has(&self, name: &Name, action: &Action) -> bool
        ensures { result ≡ is_watched name.now action.now self.now }
    {
        self.index_of(name, action).is_some()
    }

    /// The pair at an index below `len`.
    pub fn at(&self, index: usize) -> (&Name, &Action)
        requires { index < length self.now }
        ensures { IsSomeAnd (slice_get self.now index)
            (λ watch. (result.0.now ≡ watch.name) × (result.1.now ≡ watch.action)) }
    {
        let (pair, _) = self.entry(index);
        (&pair.name, &pair.action)
    }

    /// Adds a watch of which `told` is told and holds now. A pair that is there keeps its place.
    pub fn add(&mut self, name: Name, action: Action, told: bool) -> Result<Added, WatchFault>
        ensures { Adds self.old name action told result self.new }
    {
        if let Some(index) = self.index_of(&name, &action) {
            self.mark(index, told, told);
            return Ok(Added::Again);
        }
        if self.len() >= WATCH_LIMIT {
            return Err(WatchFault::Full);
        }
        self.append(Pair { name, action }, Mark { told, holds: told })
    }

    fn append(&mut self, pair: Pair, mark: Mark) -> Result<Added, WatchFault>
        requires new { is_watched pair.name pair.action self.old ≡ false }
        requires room { length self.old < WATCH_LIMIT }
        ensures ok { IfOk result
            (λ added. (added ≡ Added.New) × (self.new ≡ self.old ++ watch_of (pair, mark) ∷ [])) }
        ensures err { IfErr result (λ fault. (fault ≡ WatchFault.Memory) × (self.new ≡ self.old)) }
    {
        match self.marks.insert(pair, mark) {
            Ok(_) => Ok(Added::New),
            Err(_) => Err(WatchFault::Memory),
        }
    }

    /// Removes the watch of the pair, and tells whether it was there. The others keep their order.
    pub fn remove(&mut self, name: &Name, action: &Action) -> bool
        ensures was_there { result ≡ is_watched name.now action.now self.old }
        ensures others { self.new ≡ without name.now action.now self.old }
    {
        let Some(index) = self.index_of(name, action) else {
            return false;
        };
        let _ = self.marks.shift_remove_index(index);
        true
    }

    /// Notes what holds now of the watch at an index.
    pub fn note(&mut self, index: usize, now: bool)
        requires { index < length self.old }
        ensures { self.new ≡ noted self.old index now }
    {
        let (_, mark) = self.entry(index);
        let told = mark.told;
        self.mark(index, told, now);
    }

    /// The actions of the name of which what holds now isn't what was told, in order,
    /// with what holds now.
    pub fn changes<'a>(&'a self, name: &'a Name) -> Changes<'a>
        ensures { result ≡ changes_of name.now self.now }
    {
        Changes {
            watches: self,
            name,
            index: 0,
        }
    }

    /// Notes of each watch of the name that what holds now was told.
    pub fn tell(&mut self, name: &Name)
        ensures { self.new ≡ told_to name.now self.old }
    {
        for index in 0..self.len() {
            let (pair, mark) = self.entry(index);
            if *name == pair.name {
                let now = mark.holds;
                self.mark(index, now, now);
            }
        }
    }

    fn entry(&self, index: usize) -> (&Pair, &Mark)
        requires { index < length self.now }
        ensures { slice_get self.now index ≡ Some (watch_of (result.0.now, result.1.now)) }
    {
        self.marks.get_index(index).unwrap()
    }

    fn mark(&mut self, index: usize, told: bool, now: bool)
        requires { index < length self.old }
        ensures { self.new ≡ marked self.old index told now }
    {
        self.marks[index] = Mark { told, holds: now };
    }
}

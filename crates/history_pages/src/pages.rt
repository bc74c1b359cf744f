ghost use Rattle.std.specs.Prelude.{◌≡◌, ◌+◌, ◌-◌, ◌<◌, ◌≤◌, ◌^◌, ◌==◌, [], ◌∷◌, ◌++◌, length, slice_get, OnOk, OnErr, IfErr, IsOk};
ghost use Rattle.std.specs.Option.{option_copied};

use std::alloc::Global;
use std::marker::Model;
use std::mem;
use taf_codes::Memory;

// How many entries a page holds.
const PAGE: usize = 1024;

/// A list in pages.
#[derive(Drop)]
pub struct Pages<T> {
    // Each has all its entries.
    full: Vec<Vec<T>>,
    // The page that is written, which may have its places or none yet.
    current: Vec<T>,
}

impl<T> Model for Pages<T> {
    ghost use Rattle.std.specs.Prelude.{◌-◌, vec_len, vec_capacity};
    ghost use Rattle.history_pages.specs.Paged.{Paged};

    ghost Value = { Paged T };

    ghost use Rattle.history_pages.specs.Layout.{entries_in, AreInPlace};

    ghost view = { λ p. record {
      entries = entries_in p;
      spare = vec_capacity p.current - vec_len p.current;
    } };

    ghost invariant = { AreInPlace };
}

impl<T> Pages<T> {
    /// No entry. Takes no memory.
    pub fn new(alloc: Global) -> Pages<T>
        ensures { result ≡ record { entries = []; spare = 0 } }
    {
        Pages {
            full: Vec::new(alloc),
            current: Vec::new(alloc),
        }
    }

    /// How many entries there are.
    pub fn len(&self) -> usize
        ensures value { result ≡ length self.now.entries }
        ensures few { result ≤ 2 ^ 62 }
    {
        self.full.len() * PAGE + self.current.len()
    }

    /// Whether there is no entry.
    pub fn is_empty(&self) -> bool
        ensures { result ≡ (length self.now.entries == 0) }
    {
        self.len() == 0
    }

    /// The entry at this index, counted from 0.
    pub fn get(&self, index: usize) -> Option<&T>
        ensures { option_copied result ≡ slice_get self.now.entries index }
    {
        let page = index / PAGE;
        if page < self.full.len() {
            entry_at(self.full[page].as_slice(), index % PAGE)
        } else {
            entry_at(self.current.as_slice(), index - self.full.len() * PAGE)
        }
    }

    /// Makes room for one entry more, where there is none.
    #[inline(always)]
    pub fn reserve(&mut self) -> Result<(), Memory>
        ensures entries { self.new.entries ≡ self.old.entries }
        ensures ok { OnOk result (0 < self.new.spare) }
        ensures succeeds { 0 < self.old.spare → IsOk result }
        ensures room { self.old.spare ≤ self.new.spare }
        ensures err { OnErr result (self.new ≡ self.old) }
    {
        if self.current.len() < self.current.capacity() {
            return Ok(());
        }
        self.begin_page()
    }

    // Begins a page, where the last one has no room.
    #[inline(never)]
    fn begin_page(&mut self) -> Result<(), Memory>
        requires { self.old.spare ≡ 0 }
        ensures entries { self.new.entries ≡ self.old.entries }
        ensures ok { OnOk result (0 < self.new.spare) }
        ensures err { OnErr result (self.new ≡ self.old) }
    {
        if self.current.capacity() == 0 {
            self.current.reserve_exact(PAGE)?;
            return Ok(());
        }
        self.full.reserve(1)?;
        let next = Vec::with_capacity(*self.current.allocator(), PAGE)?;
        let filled = mem::replace(&mut self.current, next);
        self.full.push_reserved(filled);
        Ok(())
    }

    /// Pushes an entry, for which there is room.
    pub fn push_reserved(&mut self, entry: T)
        requires room { 0 < self.old.spare }
        requires few { length self.old.entries < 2 ^ 62 }
        ensures { self.new ≡ record {
          entries = self.old.entries
              ++ entry ∷ [];
          spare = self.old.spare - 1;
        } }
    {
        self.current.push_reserved(entry);
    }

    /// Pushes an entry, or hands it back where memory was refused.
    pub fn push(&mut self, entry: T) -> Result<(), T>
        requires { length self.old.entries < 2 ^ 62 }
        ensures ok { OnOk result (self.new.entries ≡ self.old.entries ++ entry ∷ []) }
        ensures succeeds { 0 < self.old.spare → IsOk result }
        ensures room { self.old.spare ≤ self.new.spare + 1 }
        ensures handed_back { IfErr result (λ back. back ≡ entry) }
        ensures err { OnErr result (self.new ≡ self.old) }
    {
        let Ok(()) = self.reserve() else {
            return Err(entry);
        };
        self.push_reserved(entry);
        Ok(())
    }
}

fn entry_at<T>(page: &[T], index: usize) -> Option<&T>
    ensures { option_copied result ≡ slice_get page.now index }
{
    page.get(index)
}

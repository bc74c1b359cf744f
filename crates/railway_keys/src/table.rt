//! The table of keys, and the file that it is read from.
ghost use Rattle.std.specs.Prelude.{◌≡◌, [], Ok, length, MatchResult};
ghost use Rattle.railway_keys.specs.Keys.{has_railway, is_key_of};
ghost use Rattle.railway_keys.specs.KeyFiles.{IsFaultOf, Takes, entry_on, is_passed_over, lines_of, table_of, with_entry, with_line};

use crate::digest::KeyDigest;
use crate::fault::{KeyFileFault, KeyLineFault};
use std::alloc::Global;
use std::fmt;
use std::marker::Model;
use taf_codes::Railway;

/// How many railways a keys file has at most.
pub const MAX_RAILWAYS: usize = 1000;

/// A railway and the SHA-256 of its key.
#[derive(Clone, Copy, Debug)]
pub struct RailwayKey {
    pub railway: Railway,
    pub digest: KeyDigest,
}

/// The railways that may have sessions, each with the SHA-256 of its key.
#[derive(Drop)]
pub struct KeyTable {
    keys: Vec<RailwayKey>,
}

impl Model for KeyTable {
    ghost use Rattle.std.specs.Prelude.{List};
    ghost use Rattle.railway_keys.specs.declared.table.RailwayKey.{RailwayKey};

    ghost Value = { List RailwayKey };

    ghost view = { λ table. table.keys.items };
}

impl KeyTable {
    /// The table that a keys file is. Each line of it is a railway, a blank and the digest of its key; lines that are empty or begin
    /// with `#` are passed over. The first fault is reported, unless memory is refused before.
    pub fn read(alloc: Global, text: &str) -> Result<KeyTable, KeyFileFault>
        ensures { let made = table_of [] 1 (lines_of text.now) in
            MatchResult result (λ table. made ≡ Ok table) (IsFaultOf made) }
    {
        let mut table = KeyTable {
            keys: Vec::new(alloc),
        };
        match table.take_text(text) {
            Ok(()) => Ok(table),
            Err(fault) => Err(fault),
        }
    }

    // Takes the lines of a text.
    fn take_text(&mut self, text: &str) -> Result<(), KeyFileFault>
        ensures { let made = table_of self.old 1 (lines_of text.now) in
            MatchResult result (λ _. made ≡ Ok self.new) (IsFaultOf made) }
    {
        let mut number = 1;
        let mut rest = text;
        while let Some((line, others)) = rest.split_once('\n') {
            match self.take_line(number, line) {
                Ok(()) => {}
                Err(fault) => return Err(fault),
            }
            number += 1;
            rest = others;
        }
        self.take_line(number, rest)
    }

    // Takes the line of this number.
    fn take_line(&mut self, number: usize, line: &str) -> Result<(), KeyFileFault>
        ensures { Takes number (with_line self.old line.now) result self.new }
    {
        if is_passed_over(line) {
            return Ok(());
        }
        match read_entry(line) {
            Ok(entry) => self.add(number, entry),
            Err(fault) => Err(KeyFileFault::Line(number, fault)),
        }
    }

    // Adds what the line of this number says.
    fn add(&mut self, number: usize, entry: RailwayKey) -> Result<(), KeyFileFault>
        ensures { Takes number (with_entry self.old entry) result self.new }
    {
        if self.has(entry.railway) {
            return Err(KeyFileFault::Line(number, KeyLineFault::Twice));
        }
        if self.keys.len() >= MAX_RAILWAYS {
            return Err(KeyFileFault::Line(number, KeyLineFault::TooMany));
        }
        match self.keys.push(entry) {
            Ok(()) => Ok(()),
            Err(_) => Err(KeyFileFault::Memory),
        }
    }

    // Whether there is a key of this railway.
    fn has(&self, railway: Railway) -> bool
        ensures { result ≡ has_railway self.now railway }
    {
        self.keys.iter().any(|known| known.railway == railway)
    }

    /// Whether this is the key of the railway. The digest of the key is compared with each of the table, whatever the railway is.
    pub fn admits(&self, railway: Railway, key: &[u8]) -> bool
        ensures { result ≡ is_key_of self.now railway key.now }
    {
        let digest = KeyDigest::of(key);
        let mut admitted = false;
        for known in &self.keys {
            admitted |= (known.railway == railway) & known.digest.is_same(&digest);
        }
        admitted
    }

    /// How many railways it has.
    pub fn railway_count(&self) -> usize
        ensures { result ≡ length self.now }
    {
        self.keys.len()
    }
}

// Whether a line says nothing: it is empty, or begins with `#`.
fn is_passed_over(line: &str) -> bool
    ensures { result ≡ is_passed_over line.now }
{
    match line.as_bytes().first() {
        None => true,
        Some(first) => *first == b'#',
    }
}

// What a line says that is not passed over.
#[tactic(auto, unfolding(crate::specs::KeyFiles::entry_on))]
fn read_entry(line: &str) -> Result<RailwayKey, KeyLineFault>
    ensures { result ≡ entry_on line.now }
{
    let Some((code, digits)) = line.split_once(' ') else {
        return Err(KeyLineFault::NoForm);
    };
    let Ok(railway) = Railway::read(code) else {
        return Err(KeyLineFault::NoRailway);
    };
    match KeyDigest::read(digits) {
        Some(digest) => Ok(RailwayKey { railway, digest }),
        None => Err(KeyLineFault::NoDigest),
    }
}

/// Says how many railways it has, and nothing of their keys.
impl fmt::Debug for KeyTable {
    fn fmt<W: fmt::Write>(&self, f: &mut fmt::Formatter<W>) -> fmt::Result {
        let count = self.keys.len();
        write!(f, "KeyTable of {count} railways")
    }
}

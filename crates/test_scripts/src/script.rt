use crate::lines::add_line;
use std::alloc::{AllocError, Global};

/// The lines that are sent, and those that are to be said.
#[derive(Drop)]
pub struct Script {
    pub input: Vec<u8>,
    pub wanted: Vec<u8>,
}

impl Script {
    /// A script without lines. Takes no memory.
    pub fn new(alloc: Global) -> Script {
        Script {
            input: Vec::new(alloc),
            wanted: Vec::new(alloc),
        }
    }

    /// The lines of these texts.
    pub fn of(alloc: Global, texts: &[&str]) -> Result<Script, AllocError> {
        let mut script = Script::new(alloc);
        for text in texts {
            script.add(text)?;
        }
        Ok(script)
    }

    /// Adds the lines of a text.
    pub fn add(&mut self, text: &str) -> Result<(), AllocError> {
        for line in text.lines() {
            match line.strip_prefix("> ") {
                Some(said) => add_line(&mut self.wanted, said.as_bytes())?,
                None => add_line(&mut self.input, line.as_bytes())?,
            }
        }
        Ok(())
    }
}

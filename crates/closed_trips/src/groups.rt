//! Names in groups: two names are in one group if a message names both, or a chain of messages joins them.
//!
//! The groups are trees: each name has a parent in its group, and the root is its own parent. Of two trees that are joined the
//! smaller one comes below the root of the other, so a tree of a million names is at most twenty deep.
use crate::closed_names::ClosedNames;
use crate::name::Name;
use indexmap::IndexSet;
use seeded_state::SeededState;
use std::alloc::Global;
use taf_codes::Memory;

// The most steps from a name to its root, with room to spare.
const MAX_DEPTH: usize = 64;

// What is kept of a name. The size and whether it is open count at a root alone.
#[derive(Clone, Copy, Debug)]
struct Node {
    parent: usize,
    size: usize,
    is_open: bool,
}

/// The groups of all names that were added.
#[derive(Drop)]
pub(crate) struct Groups {
    names: IndexSet<Name, SeededState>,
    nodes: Vec<Node>,
}

impl Groups {
    /// No group, in a table that hashes so.
    pub(crate) fn new(alloc: Global, hasher: SeededState) -> Groups {
        Groups {
            names: IndexSet::with_hasher(alloc, hasher),
            nodes: Vec::new(alloc),
        }
    }

    /// Adds a name, in a group of its own if it is new, and gives its index.
    pub(crate) fn add(&mut self, name: Name) -> Result<usize, Memory> {
        let (index, is_new) = self.names.insert_full(name)?;
        if is_new {
            self.nodes.push(Node {
                parent: index,
                size: 1,
                is_open: false,
            })?;
        }
        Ok(index)
    }

    /// Adds a name to the group of the name at an index, and joins both groups if it had one.
    pub(crate) fn join(&mut self, index: usize, name: Name) -> Result<(), Memory> {
        let other = self.add(name)?;
        if let Some(root) = self.root_of(index) {
            if let Some(other_root) = self.root_of(other) {
                self.join_roots(root, other_root);
            }
        }
        Ok(())
    }

    // Puts the smaller of two trees below the root of the other.
    fn join_roots(&mut self, root: usize, other: usize) {
        let (Some(node), Some(other_node)) = (self.node(root), self.node(other)) else {
            return;
        };
        if root == other {
            return;
        }
        let (upper, lower) = if node.size < other_node.size {
            (other, root)
        } else {
            (root, other)
        };
        if let Some(below) = self.nodes.get_mut(lower) {
            below.parent = upper;
        }
        if let Some(above) = self.nodes.get_mut(upper) {
            above.size = node.size.saturating_add(other_node.size);
            above.is_open = node.is_open || other_node.is_open;
        }
    }

    /// Marks the group of a name as open: what it has stays.
    pub(crate) fn mark_open(&mut self, name: Name) {
        if let Some(index) = self.names.get_index_of(&name) {
            self.mark_open_at(index);
        }
    }

    // Marks the group of the name at an index as open.
    fn mark_open_at(&mut self, index: usize) {
        if let Some(root) = self.root_of(index) {
            if let Some(node) = self.nodes.get_mut(root) {
                node.is_open = true;
            }
        }
    }

    /// The names of the groups that are not open.
    pub(crate) fn closed(&self, alloc: Global, hasher: SeededState) -> Result<ClosedNames, Memory> {
        let mut closed = ClosedNames::new(alloc, hasher);
        for (index, name) in self.names.iter().enumerate() {
            if !self.is_open(index) {
                add_name(&mut closed, *name)?;
            }
        }
        Ok(closed)
    }

    // Whether the group of the name at an index is open.
    fn is_open(&self, index: usize) -> bool {
        match self.root_of(index) {
            Some(root) => self.node(root).is_some_and(|node| node.is_open),
            None => true,
        }
    }

    fn node(&self, index: usize) -> Option<Node> {
        self.nodes.get(index).copied()
    }

    // The root of the group that the name at an index is in.
    fn root_of(&self, index: usize) -> Option<usize> {
        let mut index = index;
        for _ in 0..MAX_DEPTH {
            let node = self.node(index)?;
            if node.parent == index {
                return Some(index);
            }
            index = node.parent;
        }
        None
    }
}

fn add_name(closed: &mut ClosedNames, name: Name) -> Result<(), Memory> {
    match name {
        Name::Wagon(wagon) => closed.add_wagon(wagon),
        Name::Consignment(consignment) => closed.add_consignment(consignment),
        Name::Unit(unit) => closed.add_unit(unit),
        Name::Message(by, no) => closed.add_message(by, no),
    }
}

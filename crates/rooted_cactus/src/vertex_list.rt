//! Lists of vertices.

ghost use Rattle.std.specs.Prelude.{◌≡◌, [], ◌∷◌, ◌++◌, ◌<◌, length, option_to_list, IsSome, ◌↔◌, OnOk, OnErr, IfOk, slice_get};
ghost use Rattle.rooted_cactus.specs.Entered.{name_of, renamed};

use cut_definitions::NoMemory;
use std::alloc::Global;
use std::marker::Model;
use std::slice;

/// How the vertices of a list are held. Most nodes of a large cactus have one vertex, which needs
/// no memory of its own.
#[derive(Drop)]
enum Held {
    /// One vertex, and the allocator that is used once there are more.
    One(u32, Global),
    /// Any number of vertices.
    Many(Vec<u32>),
}

/// A list of vertices; contracts see it as a list of numbers.
#[derive(Drop)]
pub struct VertexList {
    held: Held,
}

impl Model for VertexList {
    ghost use Rattle.std.specs.Prelude.{List, ℕ};

    ghost Value = { List ℕ };

    ghost use Rattle.rooted_cactus.specs.Held.{held_vertices};

    ghost view = { λ l. held_vertices l.held };
}

/// A vector of two vertices.
fn pair(alloc: Global, first: u32, second: u32) -> Result<Vec<u32>, NoMemory>
    ensures { IfOk result (λ v. v.items ≡ first ∷ second ∷ []) }
{
    let mut items = Vec::with_capacity(alloc, 2)?;
    items.push(first)?;
    items.push(second)?;
    Ok(items)
}

impl VertexList {
    /// The empty list. It takes no memory.
    pub fn new(alloc: Global) -> VertexList
        ensures { result ≡ [] }
    {
        VertexList {
            held: Held::Many(Vec::new(alloc)),
        }
    }

    /// The empty list with room for `count` vertices. For none or one it takes no memory. It fails
    /// only if it runs out of memory.
    pub fn with_capacity(alloc: Global, count: usize) -> Result<VertexList, NoMemory>
        ensures { IfOk result (λ l. l ≡ []) }
    {
        if count <= 1 {
            return Ok(VertexList::new(alloc));
        }
        let items = Vec::with_capacity(alloc, count)?;
        Ok(VertexList {
            held: Held::Many(items),
        })
    }

    /// The list of the numbers of a vector, which is taken over. It takes no memory.
    pub fn from_vec(items: Vec<u32>) -> VertexList
        ensures { result ≡ items.items }
    {
        VertexList {
            held: Held::Many(items),
        }
    }

    /// Appends a vertex. The first vertex of a list takes no memory. It fails only if it runs out
    /// of memory; the list then stays as it was.
    pub fn push(&mut self, item: u32) -> Result<(), NoMemory>
        ensures ok { OnOk result (self.new ≡ self.old ++ item ∷ []) }
        ensures err { OnErr result (self.new ≡ self.old) }
    {
        match &mut self.held {
            Held::One(first, alloc) => {
                let items = pair(*alloc, *first, item)?;
                self.held = Held::Many(items);
                Ok(())
            }
            Held::Many(items) => {
                if items.is_empty() && items.capacity() == 0 {
                    self.held = Held::One(item, *items.allocator());
                    return Ok(());
                }
                items.push(item)?;
                Ok(())
            }
        }
    }

    /// Removes and returns the last vertex, or returns `None` if the list is empty.
    pub fn pop(&mut self) -> Option<u32>
        ensures items { self.old ≡ self.new ++ option_to_list result }
        ensures some { IsSome result ↔ (0 < length self.old) }
    {
        match &mut self.held {
            Held::One(vertex, alloc) => {
                let last = *vertex;
                self.held = Held::Many(Vec::new(*alloc));
                Some(last)
            }
            Held::Many(items) => items.pop(),
        }
    }

    /// The number of vertices.
    pub fn len(&self) -> usize
        ensures { result ≡ length self.now }
    {
        match &self.held {
            Held::One(_, _) => 1,
            Held::Many(items) => items.len(),
        }
    }

    /// All vertices, lent without a copy.
    pub fn as_slice(&self) -> &[u32]
        ensures { result.now ≡ self.now }
    {
        match &self.held {
            Held::One(vertex, _) => slice::from_ref(vertex),
            Held::Many(items) => items.as_slice(),
        }
    }

    /// The vertex at a place, counted from 0.
    pub fn at(&self, i: usize) -> u32
        requires { i < length self.now }
        ensures { slice_get self.now i ≡ Some result }
    {
        self.as_slice()[i]
    }

    /// Replaces each number by the entry of the table at that place, counted from 0. A number past
    /// the end of the table stays. One step for each number.
    pub fn rename(&mut self, names: &[u32])
        ensures { self.new ≡ renamed names.now self.old }
    {
        match &mut self.held {
            Held::One(vertex, _) => {
                *vertex = new_name(names, *vertex);
            }
            Held::Many(items) => {
                rename_all(items.as_mut_slice(), names);
            }
        }
    }
}

/// Replaces each number by the entry of the table at that place, if there is one.
fn rename_all(items: &mut [u32], names: &[u32])
    ensures { items.new ≡ renamed names.now items.old }
{
    for i in 0..items.len() {
        let number = items[i];
        items[i] = new_name(names, number);
    }
}

/// The entry of the table at the place of the number, or the number itself if there is none.
fn new_name(names: &[u32], number: u32) -> u32
    ensures { result ≡ name_of names.now number }
{
    match names.get(number as usize) {
        Some(name) => *name,
        None => number,
    }
}

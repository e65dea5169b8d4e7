//! Marks on places, of which the first is found in a number of steps that grows with the logarithm of their count.
ghost use Rattle.std.specs.Prelude.{◌≡◌, ◌+◌, ◌<◌, ◌≤◌, ◌^◌, ℕ, [], true, false, length, drop, slice_set, OnOk, OnErr, IfOk, IfErr, IfSome, IfNone};
ghost use Rattle.lua_table.specs.Holes.{marked, IsTree, IsWidth};

use std::alloc::{AllocError, Global};
use std::marker::Model;

/// Places that are marked or not.
///
/// They are the leaves of a complete binary tree, which are the second half of `nodes`. A node tells whether a leaf below it
/// is marked, so a mark mends the nodes above it, and the first mark is found from the root. An unmarked place that is added
/// takes no step but where the tree is doubled.
#[derive(Drop)]
pub struct Holes {
    nodes: Vec<bool>,
    width: usize,
    alloc: Global,
}

impl Model for Holes {
    ghost use Rattle.std.specs.Prelude.{Bool, List, drop};
    ghost use Rattle.std.specs.Coded.{coded_list, coded_bool};
    ghost use Rattle.lua_table.specs.Holes.{IsTree, IsWidth};

    ghost Value = { List Bool };

    ghost view = { λ t. drop t.width t.nodes.items };

    ghost invariant = { λ t. IsTree t.nodes.items t.width × IsWidth t.width };
}

impl Holes {
    /// No places.
    pub fn new(alloc: Global) -> Holes
        ensures { result ≡ [] }
    {
        Holes {
            nodes: Vec::new(alloc),
            width: 0,
            alloc,
        }
    }

    /// Marks the place, or takes its mark away.
    pub fn put(&mut self, place: usize, mark: bool)
        requires { place < length self.old }
        ensures { self.new ≡ slice_set self.old place mark }
    {
        let leaf = self.width + place;
        if self.nodes[leaf] != mark {
            put_leaf(&mut self.nodes, self.width, leaf, mark);
        }
    }

    /// Makes the place one of them, if it is the next one. Places that are added are not marked.
    pub fn make_room(&mut self, place: usize) -> Result<(), AllocError>
        requires { place ≤ length self.old }
        ensures ok { OnOk result (place < length self.new) }
        ensures same { (k : ℕ) → marked self.new k ≡ marked self.old k }
        ensures longer { length self.old ≤ length self.new }
    {
        if place >= self.width {
            let wider = self.twice()?;
            *self = wider;
        }
        Ok(())
    }

    /// The first place that is marked.
    pub fn first(&self) -> Option<usize>
        ensures found { IfSome result (λ place. (place < length self.now) × (marked self.now place ≡ true) × ((k : ℕ) → k < place → marked self.now k ≡ false)) }
        ensures absent { IfNone result ((k : ℕ) → marked self.now k ≡ false) }
    {
        if self.width == 0 {
            return None;
        }
        if !self.nodes[1] {
            return None;
        }
        let leaf = first_leaf(&self.nodes, self.width);
        Some(leaf - self.width)
    }

    fn len(&self) -> usize
        ensures { result ≡ length self.now }
    {
        self.width
    }

    fn is_marked(&self, place: usize) -> bool
        requires { place < length self.now }
        ensures { result ≡ marked self.now place }
    {
        self.nodes[self.width + place]
    }

    /// The same marks on twice as many places, and at least one.
    fn twice(&self) -> Result<Holes, AllocError>
        ensures longer { IfOk result (λ new. length self.now < length new) }
        ensures same { IfOk result (λ new. (k : ℕ) → marked new k ≡ marked self.now k) }
    {
        let mut new = Holes::unmarked(self.alloc, wider(self.width)?)?;
        for place in 0..self.len() {
            if self.is_marked(place) {
                new.put(place, true);
            }
        }
        Ok(new)
    }

    /// So many places without marks.
    fn unmarked(alloc: Global, width: usize) -> Result<Holes, AllocError>
        requires { IsWidth width }
        ensures count { IfOk result (λ new. length new ≡ width) }
        ensures same { IfOk result (λ new. (k : ℕ) → marked new k ≡ false) }
    {
        let nodes = vec![in alloc; false; doubled(width)?]?;
        Ok(Holes {
            nodes,
            width,
            alloc,
        })
    }
}

/// The next width of a tree.
fn wider(width: usize) -> Result<usize, AllocError>
    requires { IsWidth width }
    ensures longer { IfOk result (λ wide. width < wide) }
    ensures complete { IfOk result (λ wide. IsWidth wide) }
{
    if width == 0 {
        return Ok(1);
    }
    let wide = doubled(width)?;
    Ok(wide)
}

fn doubled(count: usize) -> Result<usize, AllocError>
    ensures { IfOk result (λ twice. twice ≡ count + count) }
{
    count.checked_mul(2).ok_or(AllocError)
}

/// Gives a leaf the mark, and mends the nodes above it.
fn put_leaf(nodes: &mut Vec<bool>, width: usize, leaf: usize, mark: bool)
    requires whole { IsTree nodes.old.items width }
    requires low { width ≤ leaf }
    requires high { leaf < length nodes.old.items }
    ensures whole { IsTree nodes.new.items width }
    ensures leaves { drop width nodes.new.items ≡ drop width (slice_set nodes.old.items leaf mark) }
{
    nodes[leaf] = mark;
    let mut node = leaf;
    while node > 1 {
        node /= 2;
        nodes[node] = nodes[node + node] || nodes[node + node + 1];
    }
}

/// The first leaf that is marked, where the root tells that there is one.
fn first_leaf(nodes: &Vec<bool>, width: usize) -> usize
    requires whole { IsTree nodes.now.items width }
    requires complete { IsWidth width }
    requires some { 0 < width }
    requires root { marked nodes.now.items 1 ≡ true }
    ensures low { width ≤ result }
    ensures high { result < length nodes.now.items }
    ensures here { marked nodes.now.items result ≡ true }
    ensures first { (leaf : ℕ) → width ≤ leaf → leaf < result → marked nodes.now.items leaf ≡ false }
{
    let mut node = 1;
    while node < width {
        node = if nodes[node + node] {
            node + node
        } else {
            node + node + 1
        };
    }
    node
}

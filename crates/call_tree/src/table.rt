// Paths, and how often each came, as a tree of places.

ghost use Rattle.std.specs.Prelude.{◌≡◌, ◌+◌, ◌-◌, ◌^◌, ◌<◌, ◌≤◌, ℕ, List, [], ◌∷◌, ◌++◌, length, reverse, cond, slice_index, Some, IfOk, OnOk, OnErr};
ghost use Rattle.std.specs.Ordering.{nat_cmp};
ghost use Rattle.std.specs.List.Sorted.{IsStrictlySortedBy};
ghost use Rattle.std.specs.Map.{keys_of, values_of};
ghost use Rattle.call_tree.specs.Counts.{path_at, with_entry, path_counts, nodes_of, CountsPathsUpTo};
ghost use Rattle.call_tree.specs.Table.{Link, link, links_of, depths_of, counts_at, nexts_of, place_by, depth_from, is_link};

use crate::Node;
use std::alloc::{AllocError, Global};
use std::collections::BTreeMap;
use std::marker::Model;

/// The place of a path: the place of the path without its last function, the last function, how many functions are
/// before it, how often the path came, and the places of the paths that are one function longer, by that function.
#[derive(Drop)]
pub struct Place {
    pub from: usize,
    pub func: u32,
    pub depth: u64,
    pub count: u64,
    pub next: BTreeMap<u32, usize>,
}

/// The paths that came, in the order in which each came first, with how often each came. Place 0 is that of the empty
/// path, and place n that of the n-th path. `roots` has the places of the paths of one function.
#[derive(Drop)]
pub struct Table {
    alloc: Global,
    roots: BTreeMap<u32, usize>,
    places: Vec<Place>,
}

impl Model for Table {
    ghost use Rattle.std.specs.Prelude.{List, ℕ};
    ghost use Rattle.call_tree.specs.Table.{links_of, depths_of, counts_at, nexts_of, paths_of, tallied, IsNodeTable};

    ghost Value = { List (List ℕ × ℕ) };

    ghost view = { λ t. tallied (paths_of (links_of t.places.items)) (counts_at t.places.items) };

    ghost invariant = { λ t. IsNodeTable (links_of t.places.items) (depths_of t.places.items) (nexts_of t.roots.entries t.places.items) };
}

// How many functions are before the last one in a path that is one function longer than the path of `place`.
fn depth_from(places: &[Place], place: usize) -> u64
    requires known { place ≤ length places.now }
    requires deep { (i : ℕ) → i < length places.now → slice_index (depths_of places.now) i ≤ i }
    ensures { result ≡ depth_from (depths_of places.now) place }
{
    if place == 0 {
        0
    } else {
        places[place - 1].depth + 1
    }
}

// The place of the path that is longer by `func` than the path of `place`, if there is one.
fn next_place(
    roots: &BTreeMap<u32, usize>,
    places: &[Place],
    place: usize,
    func: u32,
) -> Option<usize>
    requires { place ≤ length places.now }
    ensures { result ≡ place_by (nexts_of roots.now.entries places.now) (link place func) }
{
    if place == 0 {
        roots.get(&func).copied()
    } else {
        places[place - 1].next.get(&func).copied()
    }
}

// Makes `fresh` the place of the path that is longer by `func` than the path of `place`. An `AllocError` if memory runs
// out; nothing has then changed.
fn put_next(
    roots: &mut BTreeMap<u32, usize>,
    places: &mut [Place],
    place: usize,
    func: u32,
    fresh: usize,
) -> Result<(), AllocError>
    requires { place ≤ length places.old }
    ensures put { OnOk result ((l : Link) → place_by (nexts_of roots.new.entries places.new) l
        ≡ cond (is_link (link place func) l) (Some fresh) (place_by (nexts_of roots.old.entries places.old) l)) }
    ensures ordered { ((p : ℕ) → IsStrictlySortedBy nat_cmp (keys_of (nexts_of roots.old.entries places.old p)))
        → (p : ℕ) → IsStrictlySortedBy nat_cmp (keys_of (nexts_of roots.new.entries places.new p)) }
    ensures kept { OnErr result (nexts_of roots.new.entries places.new ≡ nexts_of roots.old.entries places.old) }
    ensures links { links_of places.new ≡ links_of places.old }
    ensures depths { depths_of places.new ≡ depths_of places.old }
    ensures counts { counts_at places.new ≡ counts_at places.old }
{
    if place == 0 {
        roots.insert(func, fresh)?;
    } else {
        places[place - 1].next.insert(func, fresh)?;
    }
    Ok(())
}

// Appends the places in `next`, the one of the last function first.
fn put_kids(waiting: &mut Vec<usize>, next: &BTreeMap<u32, usize>) -> Result<(), AllocError>
    ensures { OnOk result (waiting.new.items ≡ waiting.old.items ++ reverse (values_of next.now.entries)) }
{
    waiting.extend(next.values().rev().copied())?;
    Ok(())
}

impl Table {
    /// A table without paths.
    pub fn new(alloc: Global) -> Self
        ensures { result ≡ [] }
    {
        Table {
            alloc,
            roots: BTreeMap::new(alloc),
            places: Vec::new(alloc),
        }
    }

    /// Counts the path that is longer by `func` than the path of `place`, and answers its place. An `AllocError` if
    /// memory for a new path runs out; nothing has then changed.
    pub fn visit(&mut self, place: usize, func: u32) -> Result<usize, AllocError>
        requires known { place ≤ length self.old }
        requires room { (n : ℕ) × (n + 1 < 2 ^ 64) × CountsPathsUpTo n self.old }
        ensures counted { OnOk result (self.new ≡ with_entry (path_at self.old place ++ func ∷ []) self.old) }
        ensures there { IfOk result (λ p. (p ≤ length self.new) × (path_at self.new p ≡ path_at self.old place ++ func ∷ [])) }
        ensures kept { OnErr result (self.new ≡ self.old) }
    {
        if let Some(found) = next_place(&self.roots, self.places.as_slice(), place, func) {
            self.places[found - 1].count += 1;
            return Ok(found);
        }
        let depth = depth_from(self.places.as_slice(), place);
        self.places.reserve(1)?;
        let fresh = self.places.len() + 1;
        put_next(
            &mut self.roots,
            self.places.as_mut_slice(),
            place,
            func,
            fresh,
        )?;
        self.places
            .push(Place {
                from: place,
                func,
                depth,
                count: 1,
                next: BTreeMap::new(self.alloc),
            })
            .unwrap();
        Ok(fresh)
    }

    /// The place of the path without its last function.
    pub fn back(&self, place: usize) -> usize
        requires { (0 < place) × (place ≤ length self.now) }
        ensures known { result ≤ length self.now }
        ensures shorter { (func : ℕ) × (path_at self.now place ≡ path_at self.now result ++ func ∷ []) }
    {
        self.places[place - 1].from
    }

    /// A node for each path: a path is before the longer ones that begin with it, and these are by rising function.
    pub fn nodes(&self) -> Result<Vec<Node>, AllocError>
        ensures { IfOk result (λ nodes. nodes.items ≡ nodes_of (path_counts self.now)) }
    {
        let mut nodes = Vec::with_capacity(self.alloc, self.places.len())?;
        let mut waiting = Vec::new(self.alloc);
        put_kids(&mut waiting, &self.roots)?;
        while let Some(place) = waiting.pop() {
            let here = &self.places[place - 1];
            nodes.push(Node {
                depth: here.depth,
                func: here.func,
                count: here.count,
            })?;
            put_kids(&mut waiting, &here.next)?;
        }
        Ok(nodes)
    }
}

// What is due for edges: the locations of their first points that gained a pair.
ghost use Rattle.std.specs.Prelude.{◌≡◌, ◌≤◌, ◌<◌, ◌+◌, ◌↔◌, ℕ, IfOk, Some, length, slice_get};
ghost use Rattle.life_core.specs.Linked.{AreAscending};
ghost use Rattle.life_core.specs.declared.stmt.Edge.{Edge};
ghost use Rattle.life_sets.specs.NumberSets.{holds};
ghost use Rattle.life_fix.specs.Solving.{set_at, AddsBetween, AreSized, IsBegin, IsFlow, IsLeaving, IsPutBack};

use crate::flow::Flow;
use life_core::Edge;
use life_sets::NumberSet;
use life_types::NoMemory;
use std::alloc::Global;

/// Which edges leave each point. Edges ascend, so those of a point stand together.
#[derive(Drop)]
pub struct Leaving {
    // for the number of each point, for 0 and for the number past the last, how many edges leave
    // points before it
    firsts: Vec<usize>,
}

impl Leaving {
    /// Those of the points of what is solved, in one pass over its edges.
    pub fn of(alloc: Global, flow: &Flow) -> Result<Leaving, NoMemory>
        requires { IsFlow flow.now }
        ensures { IfOk result (IsLeaving flow.now.edges.now) }
    {
        let past = flow.spots.len() + 2;
        let mut firsts = Vec::with_capacity(alloc, past)?;
        let mut first = 0;
        for point in 0..past {
            first = pass_before(flow.edges, first, point);
            firsts.push(first)?;
        }
        Ok(Leaving { firsts })
    }

    /// After the edge with this number was run, nothing is due for it. What its second point gained is
    /// due for each edge that leaves that point, this one among them.
    pub fn put_back(&self, edges: &[Edge], k: usize, gained: &NumberSet, dues: &mut [NumberSet])
        requires leaving { IsLeaving edges.now self.now }
        requires count { length dues.old ≡ length edges.now }
        requires k { k < length edges.now }
        requires sized { AreSized gained.now.limit dues.old }
        ensures put { (edge : Edge) → slice_get edges.now k ≡ Some edge → IsPutBack edges.now k edge.to.0 (holds gained.now) (set_at dues.old) (set_at dues.new) }
        ensures sized { AreSized gained.now.limit dues.new }
    {
        dues[k].clear();
        let point = edges[k].to.0 as usize;
        let first = self.firsts[point];
        let past = self.firsts[point + 1];
        add_between(gained, first, past, dues);
    }
}

// How many edges leave points before this one, where so many at least do.
fn pass_before(edges: &[Edge], start: usize, point: usize) -> usize
    requires ascending { AreAscending edges.now }
    requires early { (k : ℕ) (edge : Edge) → slice_get edges.now k ≡ Some edge → k < start → edge.from.0 < point }
    ensures { IsBegin edges.now point result }
{
    for k in start..edges.len() {
        if edges[k].from.0 as usize >= point {
            return k;
        }
    }
    edges.len()
}

// Adds a set to each of those between two places of a list.
fn add_between(gained: &NumberSet, first: usize, past: usize, dues: &mut [NumberSet])
    requires order { first ≤ past }
    requires past { past ≤ length dues.old }
    requires sized { AreSized gained.now.limit dues.old }
    ensures adds { AddsBetween first past (holds gained.now) (set_at dues.old) (set_at dues.new) }
    ensures sized { AreSized gained.now.limit dues.new }
    ensures count { length dues.new ≡ length dues.old }
{
    for k in first..past {
        dues[k].add_all(gained);
    }
}

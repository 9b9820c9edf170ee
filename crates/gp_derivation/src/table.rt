//! The table of the numbers of edges.

ghost use Rattle.std.specs.Prelude.{◌≡◌, ◌+◌, ◌-◌, ◌<◌, ◌≤◌, ◌++◌, All, Some, map, zip, length, vec_len, vec_capacity, option_map, OnOk, IfOk};
ghost use Rattle.gp_values.specs.Graph.{Edge, edge_at};
ghost use Rattle.gp_derivation.specs.inside.Table.{all_emptied, all_today, back_by, fresh, stepped, today, undone_of};
ghost use Rattle.gp_derivation.specs.inside.Held.{taken_of, taken_back};

use gp_graph::Graph;
use gp_memory::NoMemory;
use gp_syntax::EdgeImage;
use std::alloc::Global;
use std::marker::Model;

// An entry that a step took out of a table: the number at which it was, and the number that it was.
#[derive(Clone, Copy)]
struct Taken {
    was: u64,
    number: u64,
}

// What one step took out of a table, and how many numbers it put at its end.
#[derive(Drop)]
struct Replaced {
    taken: Vec<Taken>,
    made: u64,
}

/// At each number of the graph as it was, the number that the edge has today, where it is there. Contracts see the table,
/// and the tables before the live steps.
pub(crate) struct EdgeTable {
    today: Vec<Option<u64>>,
    replaced: Vec<Replaced>,
    alloc: Global,
}

// Written, so that a function that lets a table go calls it.
impl Drop for EdgeTable {
    fn drop(self) {
        let EdgeTable {
            today,
            replaced,
            alloc: _,
        } = self;
        drop(today);
        drop(replaced);
    }
}

impl Model for EdgeTable {
    ghost use Rattle.gp_derivation.specs.inside.Table.{Tables, tables_code};
    ghost use Rattle.gp_derivation.specs.inside.Held.{tables_of, IsSound};

    ghost Value = { Tables };

    ghost coded = { tables_code };

    ghost view = { tables_of };

    ghost invariant = { IsSound };
}

impl EdgeTable {
    /// The table of a graph whose edges have the numbers that they had, with no live steps.
    pub(crate) fn new(alloc: Global, graph: &Graph) -> Result<EdgeTable, NoMemory>
        ensures { IfOk result (λ t. t ≡ fresh graph.now.graph) }
    {
        let (_, next) = graph.next_numbers();
        let mut today = Vec::new(alloc);
        for e in 0..next {
            today.push(own_number(graph, e))?;
        }
        Ok(EdgeTable {
            today,
            replaced: Vec::new(alloc),
            alloc,
        })
    }

    /// Today's number of an edge, where it is there.
    pub(crate) fn today(&self, was: u64) -> Option<u64>
        ensures { result ≡ today self.now.now was }
    {
        match self.today.get(was as usize) {
            Some(number) => *number,
            None => None,
        }
    }

    /// Notes a step that matched these edges, as they were and as they are today, and whose right side has these today.
    pub(crate) fn step(
        &mut self,
        was: &[EdgeImage],
        now: &[EdgeImage],
        made: &[u64],
    ) -> Result<(), NoMemory>
        requires { all_today self.old.now (map (λ i. i.number) was.now) ≡ Some (map (λ i. i.number) now.now) }
        ensures { OnOk result (self.new ≡ stepped self.old (map (λ i. i.number) was.now) made.now) }
    {
        let taken = pairs(self.alloc, was, now)?;
        self.today.reserve(made.len())?;
        self.replaced.push(Replaced {
            taken,
            made: made.len() as u64,
        })?;
        take_out(&mut self.today, was);
        put(&mut self.today, made);
        Ok(())
    }

    /// Takes back the last `k` steps.
    pub(crate) fn back(&mut self, k: u64)
        requires { k ≤ length self.old.before }
        ensures { self.new ≡ back_by k self.old }
    {
        for _ in 0..k {
            self.back_one();
        }
    }

    // Takes the last step back.
    fn back_one(&mut self)
        requires { 0 < length self.old.before }
        ensures { self.new ≡ undone_of self.old.now self.old.before }
    {
        match self.replaced.pop() {
            Some(last) => put_back(&mut self.today, &last),
            None => unreachable!(),
        }
    }
}

// The number itself, where the graph has an edge of this number.
fn own_number(graph: &Graph, e: u64) -> Option<u64>
    ensures { result ≡ option_map (λ (d : Edge). e) (edge_at graph.now.graph e) }
{
    match graph.edge(e) {
        Some(_) => Some(e),
        None => None,
    }
}

// The entries of these edges, as they were and as they are today.
fn pairs(alloc: Global, was: &[EdgeImage], now: &[EdgeImage]) -> Result<Vec<Taken>, NoMemory>
    ensures { IfOk result (λ v. v.items ≡ map taken_of (zip was.now now.now)) }
{
    let taken = was
        .iter()
        .zip(now)
        .map(|(was, now)| Taken {
            was: was.number(),
            number: now.number(),
        })
        .collect(alloc)?;
    Ok(taken)
}

// Takes the entries of these edges out.
fn take_out(today: &mut Vec<Option<u64>>, was: &[EdgeImage])
    requires { All (λ i. i.number < length today.old.items) was.now }
    ensures items { today.new.items ≡ all_emptied (map (λ i. i.number) was.now) today.old.items }
    ensures len { vec_len today.new ≡ vec_len today.old }
    ensures room { vec_capacity today.new ≡ vec_capacity today.old }
{
    for image in was {
        today[image.number() as usize] = None;
    }
}

// Puts these numbers at the end, for which there is room.
fn put(today: &mut Vec<Option<u64>>, made: &[u64])
    requires { vec_len today.old + length made.now ≤ vec_capacity today.old }
    ensures { today.new.items ≡ today.old.items ++ map Some made.now }
{
    for number in made {
        match today.push(Some(*number)) {
            Ok(()) => (),
            Err(_) => unreachable!(),
        }
    }
}

// Cuts off what a step put at the end, and puts back what it took out.
fn put_back(today: &mut Vec<Option<u64>>, last: &Replaced)
    requires made { last.now.made ≤ length today.old.items }
    requires taken { All (λ p. p.was < length today.old.items - last.now.made) last.now.taken.items }
    ensures { today.new.items ≡ taken_back last.now today.old.items }
{
    today.truncate(today.len() - last.made as usize);
    for taken in &last.taken {
        today[taken.was as usize] = Some(taken.number);
    }
}

//! A small table of terms with their lanes.
//!
//! A term's operands have lower numbers. The terms that wait for an operand stand in a short stack,
//! as in the arena's own evaluation, so that each term is valued once, after its operands, for all
//! values of the byte together. Table and stack have room for 16 terms and lie in the frame of a
//! call; conditions of more terms have no lanes here.

ghost use Rattle.std.specs.Prelude.{◌≡◌, ◌<◌, ◌≤◌, [], length, slice_index, slice_index_or, IfSome};
ghost use Rattle.term_arena.specs.Trees.{tree_of};
ghost use Rattle.narrow_solve.specs.Lanes.{AreLanes};
ghost use Rattle.narrow_solve.specs.Table.{IsTable, IsReadable, IsNext};

use crate::lanes::{Lanes, of_constant, of_input, operate};
use term_arena::{Arena, Node, Term};

/// How many terms a table has room for.
const ROOM: usize = 16;

/// Terms with their lanes. The places from `count` on are not in use.
#[derive(Drop)]
pub(crate) struct Table {
    terms: [Term; ROOM],
    lanes: [Lanes; ROOM],
    count: usize,
}

/// What a walk does next at the innermost term that waits.
#[derive(Drop)]
enum Next {
    /// It opens an operand that has no lanes yet.
    Open(Term),
    /// It closes the term, which has these lanes.
    Value(Lanes),
}

impl Table {
    /// A table with no place in use, filled with any term.
    pub(crate) fn new(filler: Term) -> Table
        ensures { result.count ≡ 0 }
    {
        Table {
            terms: [filler; ROOM],
            lanes: [[0; 256]; ROOM],
            count: 0,
        }
    }

    /// The lanes at a place.
    pub(crate) fn lanes(&self, k: usize) -> &Lanes
        requires { k < 16 }
        ensures { result.now ≡ slice_index_or self.now.lanes k [] }
    {
        &self.lanes[k]
    }

    /// The place of a term.
    fn find(&self, t: Term) -> Option<usize>
        requires { self.now.count ≤ 16 }
        ensures { IfSome result (λ k. (k < self.now.count) × (slice_index self.now.terms k ≡ t)) }
    {
        for k in 0..self.count {
            if self.terms[k] == t {
                return Some(k);
            }
        }
        None
    }

    /// Puts a term with its lanes at the end. The answer is whether there was room.
    fn push(&mut self, arena: &Arena, t: Term, lanes: Lanes, input: &[u8], place: usize) -> bool
        requires table { IsTable arena.now input.now place self.old }
        requires lanes { AreLanes (tree_of arena.now t) input.now place lanes }
        ensures table { IsTable arena.now input.now place self.new }
    {
        if self.count == ROOM {
            return false;
        }
        self.terms[self.count] = t;
        self.lanes[self.count] = lanes;
        self.count += 1;
        true
    }

    /// Opens the first operand that has no lanes, or works out the term's lanes.
    fn next(&self, arena: &Arena, top: Term, input: &[u8], place: usize) -> Next
        requires table { IsTable arena.now input.now place self.now }
        requires readable { IsReadable arena.now input.now top }
        requires varied { place < length input.now }
        ensures { IsNext arena.now input.now place top result }
    {
        match arena.node(top) {
            Node::Const(value) => Next::Value(of_constant(value)),
            Node::Input(i) => Next::Value(of_input(input, i as usize, place)),
            Node::Apply(op, a, b) => {
                let Some(first) = self.find(a) else {
                    return Next::Open(a);
                };
                let Some(second) = self.find(b) else {
                    return Next::Open(b);
                };
                Next::Value(operate(op, self.lanes(first), self.lanes(second)))
            }
        }
    }

    /// The place of a term, whose lanes are worked out. None where the table has no room.
    pub(crate) fn walk(
        &mut self,
        arena: &Arena,
        t: Term,
        input: &[u8],
        place: usize,
    ) -> Option<usize>
        requires table { IsTable arena.now input.now place self.old }
        requires readable { IsReadable arena.now input.now t }
        requires varied { place < length input.now }
        ensures table { IsTable arena.now input.now place self.new }
        ensures found { IfSome result (λ k. (k < self.new.count) × (slice_index self.new.terms k ≡ t)) }
    {
        let mut opened = [t; ROOM];
        let mut depth = 1;
        for _ in 0..2 * ROOM {
            if depth == 0 {
                return self.find(t);
            }
            let top = opened[depth - 1];
            match self.next(arena, top, input, place) {
                Next::Open(operand) => {
                    if depth == ROOM {
                        return None;
                    }
                    opened[depth] = operand;
                    depth += 1;
                }
                Next::Value(lanes) => {
                    if !self.push(arena, top, lanes, input, place) {
                        return None;
                    }
                    depth -= 1;
                }
            }
        }
        None
    }
}

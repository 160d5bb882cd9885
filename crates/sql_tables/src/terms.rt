//! Compares terms, such as those of checks, by their meaning.
ghost use Rattle.std.specs.Prelude.{◌≡◌, ◌↔◌, ◌<◌, IsTrue, MatchOption, length};
ghost use Rattle.sqlite_sql.specs.Term.{lit};
ghost use Rattle.sqlite_schema.specs.Code.{op_term, term_to};
ghost use Rattle.sqlite_value.specs.declared.value.Value.TheVariants.{Null};

use crate::same::Same;
use sqlite_schema::code::{Op, Terms, lend_value};
use sqlite_sql::ops::{BinaryOp, UnaryOp};
use sqlite_value::order::is_same;
use sqlite_value::value::ValueRef;

fn same_unary(a: UnaryOp, b: UnaryOp) -> bool
    ensures { IsTrue result ↔ (a ≡ b) }
{
    a == b
}

fn same_binary(a: BinaryOp, b: BinaryOp) -> bool
    ensures { IsTrue result ↔ (a ≡ b) }
{
    a == b
}

// The nodes of a term, and the depth up to which their operands are read.
#[derive(Clone, Copy)]
struct Nodes<'a> {
    ops: &'a [Op],
    depth: usize,
}

fn all(ops: &[Op]) -> Nodes<'_>
    ensures ops { result.ops.now ≡ ops.now }
    ensures depth { result.depth ≡ length ops.now }
{
    let depth = ops.len();
    Nodes { ops, depth }
}

// Returns the node at position `at`, and the nodes for its operands. At depth 0 or after the last
// node there is no node, and the term is NULL.
fn node<'a>(nodes: &Nodes<'a>, at: usize) -> Option<(&'a Op, Nodes<'a>)>
    ensures { MatchOption result (term_to nodes.now.ops.now nodes.now.depth at ≡ lit Null)
        (λ it. (it.1.depth < nodes.now.depth) × (term_to nodes.now.ops.now nodes.now.depth at
        ≡ op_term (term_to it.1.ops.now it.1.depth) it.0.now)) }
{
    if nodes.depth == 0 || at >= nodes.ops.len() {
        None
    } else {
        let below = Nodes {
            ops: nodes.ops,
            depth: nodes.depth - 1,
        };
        Some((&nodes.ops[at], below))
    }
}

fn is_null(op: &Op) -> bool
    ensures { (below : _) → IsTrue result ↔ (op_term below op.now ≡ lit Null) }
{
    match op {
        Op::Literal(value) => is_same(lend_value(value), ValueRef::Null),
        _ => false,
    }
}

#[cycle(terms)]
fn same_at(a: &Nodes<'_>, at: usize, b: &Nodes<'_>, other: usize) -> bool
    ensures { IsTrue result
        ↔ (term_to a.now.ops.now a.now.depth at ≡ term_to b.now.ops.now b.now.depth other) }
{
    match (node(a, at), node(b, other)) {
        (None, None) => true,
        (None, Some((op, _))) | (Some((op, _)), None) => is_null(op),
        (Some((op, below)), Some((by, other_below))) => same_op(&below, op, &other_below, by),
    }
}

#[cycle(terms)]
fn same_op(a: &Nodes<'_>, op: &Op, b: &Nodes<'_>, by: &Op) -> bool
    ensures { IsTrue result ↔ (op_term (term_to a.now.ops.now a.now.depth) op.now
        ≡ op_term (term_to b.now.ops.now b.now.depth) by.now) }
{
    match (op, by) {
        (Op::Literal(v), Op::Literal(w)) => is_same(lend_value(v), lend_value(w)),
        (Op::Column(s, p), Op::Column(t, q)) => *s == *t && *p == *q,
        (Op::Unary(op, x), Op::Unary(by, u)) => same_unary(*op, *by) && same_at(a, *x, b, *u),
        (Op::Binary(op, x, y), Op::Binary(by, u, v)) => {
            same_binary(*op, *by) && same_at(a, *x, b, *u) && same_at(a, *y, b, *v)
        }
        (Op::Case(t, x, y), Op::Case(s, u, v)) => {
            same_at(a, *t, b, *s) && same_at(a, *x, b, *u) && same_at(a, *y, b, *v)
        }
        _ => false,
    }
}

impl Same for Terms {
    fn same(&self, other: &Terms) -> bool {
        let a = self.nodes.as_slice();
        let b = other.nodes.as_slice();
        let mut first = self.roots.as_slice();
        let mut second = other.roots.as_slice();
        while let [x, more @ ..] = first {
            let [y, others @ ..] = second else {
                return false;
            };
            if !same_at(&all(a), *x, &all(b), *y) {
                return false;
            }
            first = more;
            second = others;
        }
        second.is_empty()
    }
}

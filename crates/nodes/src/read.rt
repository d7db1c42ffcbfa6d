// The ask and the nodes, read from their bytes.
// The readers, the links and the trail take a table and a number, and no type that holds both: a narrower type would ask more of their callers,
// who have the bytes, as the C interface has.
ghost use Rattle.std.specs.Prelude.{◌≡◌, ◌+◌, ◌*◌, ◌≤◌, length};
ghost use Rattle.nodes.specs.Nodes as nodes;

use crate::{Ask, Node};
use tableau::Sequent;

// The bytes of the ask and of a node.
pub const ASK: usize = 12;

pub const NODE: usize = 40;

// The ask.
pub fn ask_of(ask: &[u8]) -> Ask
    requires { nodes.ask_size_lem ≤ length ask.now }
    ensures { result ≡ nodes.ask_of ask.now }
{
    Ask {
        marking: tables::u64_at(ask, 0),
        formula: tables::u16_at(ask, 8),
        places: ask[10],
        side: ask[11],
    }
}

// The sequent of node k.
pub fn sequent_at(tree: &[u8], k: usize) -> Sequent
    requires { k * nodes.node_size + nodes.node_size ≤ length tree.now }
    ensures { result ≡ nodes.sequent_at tree.now k }
{
    let at = k * NODE;
    Sequent {
        marking: tables::u64_at(tree, at),
        anchor: tables::u64_at(tree, at + 8),
        kept: tables::u64_at(tree, at + 16),
        formula: tables::u16_at(tree, at + 32),
        side: tree[at + 36],
        phase: tree[at + 37],
        round: tree[at + 38],
    }
}

// Node k.
pub fn node_at(tree: &[u8], k: usize) -> Node
    requires { k * nodes.node_size + nodes.node_size ≤ length tree.now }
    ensures { result ≡ nodes.node_at tree.now k }
{
    let at = k * NODE;
    Node {
        sequent: sequent_at(tree, k),
        parent: tables::u32_at(tree, at + 24),
        first: tables::u32_at(tree, at + 28),
        children: tree[at + 34],
        rule: tree[at + 35],
        transition: tree[at + 39],
    }
}

// Node records and the ask, put into lent room.
ghost use Rattle.std.specs.Prelude.{◌≡◌, ◌+◌, ◌*◌, ◌≤◌, length};
ghost use Rattle.std.proofs.lemmas.List.Edits.{sets};
ghost use Rattle.nodes.specs.Nodes as nodes;
ghost use Rattle.nodes.specs.Written as written;

use crate::{Ask, Node, read};

// Puts bytes into the room, from an offset on.
fn put(room: &mut [u8], at: usize, bytes: &[u8])
    requires { at + length bytes.now ≤ length room.old }
    ensures { room.new ≡ sets room.old at bytes.now }
{
    stores::copy(bytes, 0, room, at, bytes.len());
}

// Puts the record of node k.
pub fn put_node(room: &mut [u8], k: usize, n: Node)
    requires { k * nodes.node_size + nodes.node_size ≤ length room.old }
    ensures { room.new ≡ sets room.old (k * nodes.node_size) (written.node_bytes n) }
{
    let at = k * read::NODE;
    let s = n.sequent;
    put(room, at, &s.marking.to_le_bytes());
    put(room, at + 8, &s.anchor.to_le_bytes());
    put(room, at + 16, &s.kept.to_le_bytes());
    put(room, at + 24, &n.parent.to_le_bytes());
    put(room, at + 28, &n.first.to_le_bytes());
    put(room, at + 32, &s.formula.to_le_bytes());
    let codes = [n.children, n.rule, s.side, s.phase, s.round, n.transition];
    put(room, at + 34, &codes);
}

// Puts the ask.
pub fn put_ask(room: &mut [u8], a: Ask)
    requires { nodes.ask_size_lem ≤ length room.old }
    ensures { room.new ≡ sets room.old 0 (written.ask_bytes a) }
{
    put(room, 0, &a.marking.to_le_bytes());
    put(room, 8, &a.formula.to_le_bytes());
    put(room, 10, &[a.places, a.side]);
}

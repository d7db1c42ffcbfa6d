// The lines of a call of the writer.
use nodes::{Node, read};
use sample_bytes::Stayed;
use std::io;

// Prints the check's line on a tree for the ask with this side put in.
fn check(
    rt: HostRuntime,
    ask: &[u8],
    side: u32,
    net: &[u8],
    formulas: &[u8],
    tree: &[u8],
) -> io::Result<()> {
    if ask.len() != read::ASK {
        return Ok(());
    }
    if 1 < side {
        return Ok(());
    }
    let verdict = sample_written::check(ask, side as u8, net, formulas, tree);
    let mut text = [0u8; 40];
    let size = line::write_line(verdict, &mut text);
    print!(rt; ", ")?;
    rt.write_all(&text[..size])
}

// Prints a node: its claim, its rule with the transition, its links.
fn node(rt: HostRuntime, k: usize, n: Node) -> io::Result<()> {
    let s = n.sequent;
    let side = if s.side == 0 { "holds" } else { "fails" };
    print!(rt;
        "  node {k}, {side} {} at {}: rule {}",
        s.formula, s.marking, n.rule
    )?;
    print!(rt; ", transition {}, parent {}", n.transition, n.parent)?;
    println!(rt; ", first {}, children {}", n.first, n.children)
}

// Prints the first nodes of a tree, at most seven.
fn first_nodes(rt: HostRuntime, tree: &[u8]) -> io::Result<()> {
    let n = tree.len() / read::NODE;
    for k in 0..n.min(7) {
        node(rt, k, read::node_at(tree, k))?;
    }
    Ok(())
}

// Writes the tree of the asked formula into the room, and checks it.
pub(crate) fn write(
    rt: HostRuntime,
    name: &str,
    ask: &[u8],
    net: &[u8],
    formulas: &[u8],
    room: &mut [u8],
) -> io::Result<()> {
    let said = sample_written::write(ask, net, formulas, room);
    let tree = sample_written::tree(room, said.nodes);
    let rest = Stayed {
        same: sample_written::kept(room, tree.len()),
        of: room.len() - tree.len(),
    };
    print!(rt;
        "{name}: {} {} {} {}{rest}",
        said.number, said.place, said.side, said.nodes
    )?;
    if said.number != 0 {
        return println!(rt;);
    }
    check(rt, ask, said.side, net, formulas, tree)?;
    first_nodes(rt, tree)
}

// The same with the first bytes of a room.
pub(crate) fn write_in(
    rt: HostRuntime,
    name: &str,
    ask: &[u8],
    net: &[u8],
    formulas: &[u8],
    room: &mut [u8],
    size: usize,
) -> io::Result<()> {
    match room.get_mut(..size) {
        Some(room) => write(rt, name, ask, net, formulas, room),
        None => Ok(()),
    }
}

// The same with a room for seven nodes and 20 bytes more.
pub(crate) fn write_small(
    rt: HostRuntime,
    name: &str,
    ask: &[u8],
    net: &[u8],
    formulas: &[u8],
) -> io::Result<()> {
    let mut room = [0u8; 300];
    write(rt, name, ask, net, formulas, &mut room)
}

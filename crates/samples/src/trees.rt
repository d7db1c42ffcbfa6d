// The samples of the tree check: a line has what is given, and the line that the program `treecheck` writes. The base of those with something
// changed is R's tree of 23 nodes, which is accepted.
ghost use Rattle.std.specs.Prelude.{◌≡◌, ◌<◌, length};

use sample_bytes::{put_bytes, put_number};
use sample_nets::{net_optional, net_r, transition};
use sample_trees::{ask, formula, formulas_r, node, tree_fails, tree_r};
use std::{fmt, io};

// Prints the line of four tables.
fn tell(rt: HostRuntime, ask: &[u8], net: &[u8], formulas: &[u8], tree: &[u8]) -> io::Result<()> {
    let mut text = [0u8; 40];
    let size = line::check_line(ask, net, formulas, tree, &mut text);
    print!(rt; ": ")?;
    rt.write_all(&text[..size])
}

// Over R's net and formulas.
fn tell_r(rt: HostRuntime, ask: [u8; 12], tree: &[u8]) -> io::Result<()> {
    tell(rt, &ask, &net_r(), &formulas_r(), tree)
}

// R fails 2, its node 3 keeping some.
fn keeping(rt: HostRuntime, last: u64) -> io::Result<()> {
    print!(rt; "R fails 2, node 3 keeping {last}")?;
    tell_r(rt, ask(3, 2, 3, 1), &tree_fails(3, 3, last))
}

// Only place 0 and t0.
fn one_place(rt: HostRuntime) -> io::Result<()> {
    print!(rt; "only place 0 and t0")?;
    let tree = tree_fails(1, 1, 0);
    tell(
        rt,
        &ask(1, 2, 1, 1),
        &transition(1, 1, 1),
        &formulas_r(),
        &tree,
    )
}

// The starred samples.
fn starred(rt: HostRuntime) -> io::Result<()> {
    print!(rt; "R holds 2")?;
    tell_r(rt, ask(3, 2, 3, 0), &tree_r())?;
    keeping(rt, 2)?;
    keeping(rt, 0)?;
    one_place(rt)
}

// ---- 1 to 7

// R's tree under an ask.
fn asked(rt: HostRuntime, marking: u64, formula: u16, places: u8, side: u8) -> io::Result<()> {
    print!(rt; "R, ask {marking} {formula} {places} {side}")?;
    tell_r(rt, ask(marking, formula, places, side), &tree_r())
}

fn asks(rt: HostRuntime) -> io::Result<()> {
    asked(rt, 3, 2, 0, 0)?; // no places
    asked(rt, 3, 2, 65, 0)?; // too many
    asked(rt, 3, 2, 3, 2)?; // side above 1
    asked(rt, 8, 2, 3, 0)?; // marking beyond the places
    asked(rt, 3, 3, 3, 0) // formula not in the table
}

// R's tree over another net.
fn tell_net(rt: HostRuntime, net: [u8; 72]) -> io::Result<()> {
    tell(rt, &ask(3, 2, 3, 0), &net, &formulas_r(), &tree_r())
}

// R with another transition t.
fn with_transition(rt: HostRuntime, t: u8, pre: u64, post: u64, action: u16) -> io::Result<()> {
    print!(rt; "R, transition {t} {pre} {post} {action}")?;
    let mut net = net_r();
    put_bytes(
        &mut net,
        usize::from(t) * 24,
        &transition(pre, post, action),
    );
    tell_net(rt, net)
}

// R with another byte in its net.
fn with_net_byte(rt: HostRuntime, at: usize, value: u8) -> io::Result<()> {
    print!(rt; "R, net, byte {at} {value}")?;
    let mut net = net_r();
    put_bytes(&mut net, at, &[value]);
    tell_net(rt, net)
}

fn nets(rt: HostRuntime) -> io::Result<()> {
    with_transition(rt, 0, 8, 1, 1)?; // pre set beyond the places
    with_transition(rt, 2, 4, 8, 3)?; // post set beyond the places
    with_net_byte(rt, 18, 2)?; // the mark of t0, above 1
    with_net_byte(rt, 42, 255)?; // the mark of t1, above 1
    with_net_byte(rt, 19, 1)?; // the first spare byte of t0
    with_net_byte(rt, 23, 1)?; // the last spare byte of t0
    with_net_byte(rt, 47, 1) // the last spare byte of t1
}

// ---- optional transitions

// R with transition t optional, its tree, and the tree that shows "fails 2" by the loop of t0, its node 1 keeping some.
fn with_optional(rt: HostRuntime, t: u8, kept: u64, last: u64) -> io::Result<()> {
    print!(rt; "R, optional {t}")?;
    tell_net(rt, net_optional(t))?;
    print!(rt; "R, optional {t}")?;
    print!(rt; ", fails 2, keeping {kept} {last}")?;
    tell(
        rt,
        &ask(3, 2, 3, 1),
        &net_optional(t),
        &formulas_r(),
        &tree_fails(3, kept, last),
    )
}

// Puts three nodes, the first of them node k.
fn put_three(tree: &mut [u8], k: u8, a: [u8; 40], b: [u8; 40], c: [u8; 40]) {
    let at = usize::from(k) * 40;
    put_bytes(tree, at, &a);
    put_bytes(tree, at + 40, &b);
    put_bytes(tree, at + 80, &c);
}

// The tree for "R with t0 optional holds 2" over a net: as R's, but t1 alone is kept, and there is one round.
fn tree_optional(rt: HostRuntime, net: &[u8]) -> io::Result<()> {
    let mut tree = [0u8; 600];
    put_three(
        &mut tree,
        0,
        node(3, 0, 0, 0, 1, 2, 3, 6, 0, 0, 0, 0),
        node(3, 0, 0, 0, 0, 0, 0, 15, 0, 0, 0, 0),
        node(3, 0, 0, 0, 4, 2, 1, 7, 0, 0, 0, 0),
    );
    put_three(
        &mut tree,
        3,
        node(5, 0, 0, 0, 5, 2, 1, 5, 0, 0, 0, 0),
        node(3, 3, 2, 2, 6, 2, 1, 8, 0, 1, 1, 0),
        node(5, 0, 0, 3, 7, 1, 1, 2, 0, 0, 0, 2),
    );
    put_three(
        &mut tree,
        6,
        node(3, 3, 2, 4, 8, 2, 3, 9, 0, 2, 0, 0),
        node(1, 0, 0, 5, 0, 0, 0, 15, 0, 0, 0, 0),
        node(3, 0, 0, 6, 0, 0, 0, 15, 0, 0, 0, 0),
    );
    put_three(
        &mut tree,
        9,
        node(3, 3, 2, 6, 11, 2, 1, 11, 0, 2, 0, 0),
        node(5, 3, 0, 6, 12, 2, 1, 10, 0, 2, 0, 0),
        node(3, 3, 2, 9, 13, 2, 1, 14, 0, 3, 0, 0),
    );
    put_three(
        &mut tree,
        12,
        node(5, 0, 0, 10, 14, 1, 1, 2, 0, 0, 0, 2),
        node(3, 3, 2, 11, 0, 2, 0, 17, 0, 1, 0, 0),
        node(1, 0, 0, 12, 0, 0, 0, 15, 0, 0, 0, 0),
    );
    tell(rt, &ask(3, 2, 3, 0), net, &formulas_r(), &tree)
}

// The transition 1→0 with this mark at marking 1, and "fails 2" by rule 29: nothing pressed is enabled, and the right fails.
fn waiting(rt: HostRuntime, mark: u8) -> io::Result<()> {
    print!(rt; "1->0, mark {mark}")?;
    let mut net = transition(1, 0, 1);
    net[18] = mark;
    let mut tree = [0u8; 80];
    put_bytes(&mut tree, 0, &node(1, 0, 0, 0, 1, 2, 1, 29, 1, 0, 0, 0));
    put_bytes(&mut tree, 40, &node(1, 0, 0, 0, 0, 1, 0, 24, 1, 0, 0, 0));
    tell(rt, &ask(1, 2, 1, 1), &net, &formulas_r(), &tree)
}

fn optionals(rt: HostRuntime) -> io::Result<()> {
    with_optional(rt, 1, 1, 0)?;
    with_optional(rt, 1, 3, 2)?; // t1 kept too
    with_optional(rt, 0, 2, 2)?;
    print!(rt; "R, optional 0, holds 2, 15 nodes")?;
    tree_optional(rt, &net_optional(0))?;
    print!(rt; "R, holds 2, 15 nodes")?;
    tree_optional(rt, &net_r())?;
    waiting(rt, 1)?;
    waiting(rt, 0)
}

// R's tree over another table of formulas.
fn tell_formulas(rt: HostRuntime, formulas: [u8; 24]) -> io::Result<()> {
    tell(rt, &ask(3, 2, 3, 0), &net_r(), &formulas, &tree_r())
}

// R's formulas with another record f.
fn with_formula(
    rt: HostRuntime,
    f: u8,
    operator: u8,
    left: u16,
    right: u16,
    action: u16,
) -> io::Result<()> {
    print!(rt; "R, formula {f} {operator} {left} {right} {action}")?;
    let mut table = formulas_r();
    let record = formula(operator, left, right, action);
    put_bytes(&mut table, usize::from(f) * 8, &record);
    tell_formulas(rt, table)
}

// R's formulas with a byte that is 1.
fn with_formulas_byte(rt: HostRuntime, at: usize) -> io::Result<()> {
    print!(rt; "R, formulas, byte {at}")?;
    let mut table = formulas_r();
    put_bytes(&mut table, at, &[1]);
    tell_formulas(rt, table)
}

fn formulas(rt: HostRuntime) -> io::Result<()> {
    with_formula(rt, 0, 6, 0, 0, 0)?; // operator above 5
    with_formula(rt, 0, 1, 0, 0, 0)?; // "not" of record 0 in record 0
    with_formula(rt, 2, 5, 0, 2, 0)?; // an operand that is not lower
    with_formula(rt, 2, 5, 0, 1, 1)?; // an action, which operator 5 lacks
    with_formulas_byte(rt, 9) // the spare byte of record 1
}

// R's tables cut to these lengths.
fn cut(rt: HostRuntime, a: usize, n: usize, f: usize, t: usize) -> io::Result<()> {
    print!(rt; "R, bytes {a} {n} {f} {t}")?;
    let asked = ask(3, 2, 3, 0);
    let net = net_r();
    let table = formulas_r();
    let tree = tree_r();
    let Some(asked) = asked.get(..a) else {
        return Ok(());
    };
    let Some(net) = net.get(..n) else {
        return Ok(());
    };
    let Some(table) = table.get(..f) else {
        return Ok(());
    };
    let Some(tree) = tree.get(..t) else {
        return Ok(());
    };
    tell(rt, asked, net, table, tree)
}

// Lengths that are no records, and a tree without its last node.
fn sizes(rt: HostRuntime) -> io::Result<()> {
    cut(rt, 11, 72, 24, 920)?;
    cut(rt, 12, 0, 24, 920)?;
    cut(rt, 12, 71, 24, 920)?;
    cut(rt, 12, 72, 0, 920)?;
    cut(rt, 12, 72, 23, 920)?;
    cut(rt, 12, 72, 24, 0)?;
    cut(rt, 12, 72, 24, 919)?;
    cut(rt, 12, 72, 24, 880)
}

// The bytes of 65,537 nodes, all zero.
fn zeros() -> [u8; 2621480]
    ensures { 2621480 ≡ length result }
{
    [0; 2621480]
}

// More nodes than a tree may have.
fn many(rt: HostRuntime) -> io::Result<()> {
    print!(rt; "65537 nodes")?;
    let tree = zeros();
    tell_r(rt, ask(3, 2, 3, 0), &tree)
}

// A formula that is true, at the marking of place 63, with so many places.
fn edge(rt: HostRuntime, places: u8) -> io::Result<()> {
    print!(rt; "marking 63 of {places}")?;
    let tree = node(9223372036854775808, 0, 0, 0, 0, 0, 0, 15, 0, 0, 0, 0);
    let asked = ask(9223372036854775808, 0, places, 0);
    tell(
        rt,
        &asked,
        &transition(0, 0, 0),
        &formula(0, 0, 0, 0),
        &tree,
    )
}

// ---- 20 to 26

// A field of a node.
#[derive(Clone, Copy)]
enum Field {
    Marking,
    Anchor,
    Kept,
    Parent,
    First,
    Formula,
    Children,
    Rule,
    Side,
    Phase,
    Round,
    Transition,
}

impl Field {
    // Where it starts.
    fn start(self) -> usize
        ensures { result < 40 }
    {
        match self {
            Field::Marking => 0,
            Field::Anchor => 8,
            Field::Kept => 16,
            Field::Parent => 24,
            Field::First => 28,
            Field::Formula => 32,
            Field::Children => 34,
            Field::Rule => 35,
            Field::Side => 36,
            Field::Phase => 37,
            Field::Round => 38,
            Field::Transition => 39,
        }
    }

    // Its bytes.
    fn width(self) -> usize {
        match self {
            Field::Marking | Field::Anchor | Field::Kept => 8,
            Field::Parent | Field::First => 4,
            Field::Formula => 2,
            _ => 1,
        }
    }
}

impl fmt::Display for Field {
    fn fmt<W: fmt::Write>(&self, f: &mut fmt::Formatter<W>) -> fmt::Result {
        let name = match self {
            Field::Marking => "marking",
            Field::Anchor => "anchor",
            Field::Kept => "kept",
            Field::Parent => "parent",
            Field::First => "first",
            Field::Formula => "formula",
            Field::Children => "children",
            Field::Rule => "rule",
            Field::Side => "side",
            Field::Phase => "phase",
            Field::Round => "round",
            Field::Transition => "transition",
        };
        write!(f, "{name}")
    }
}

// Gives a field of node k a value, and prints both.
fn put_field(rt: HostRuntime, tree: &mut [u8], k: u8, field: Field, value: u64) -> io::Result<()> {
    put_number(
        tree,
        usize::from(k) * 40 + field.start(),
        field.width(),
        value,
    );
    print!(rt; ", {field} {value}")
}

// R's tree with a field of node k changed.
fn with(rt: HostRuntime, k: u8, field: Field, value: u64) -> io::Result<()> {
    print!(rt; "R, node {k}")?;
    let mut tree = tree_r();
    put_field(rt, &mut tree, k, field, value)?;
    tell_r(rt, ask(3, 2, 3, 0), &tree)
}

// R's tree with two fields of the root changed.
fn with_both(rt: HostRuntime, one: Field, first: u64, two: Field, second: u64) -> io::Result<()> {
    print!(rt; "R, node 0")?;
    let mut tree = tree_r();
    put_field(rt, &mut tree, 0, one, first)?;
    put_field(rt, &mut tree, 0, two, second)?;
    tell_r(rt, ask(3, 2, 3, 0), &tree)
}

// Three nodes for "true holds at 3": a leaf, a leaf with this parent, and a node with this child.
fn strays(rt: HostRuntime, parent: u32, first: u32) -> io::Result<()> {
    print!(rt; "true, parent and first {parent} {first}")?;
    let mut tree = [0u8; 120];
    put_bytes(&mut tree, 0, &node(3, 0, 0, 0, 0, 0, 0, 15, 0, 0, 0, 0));
    put_bytes(
        &mut tree,
        40,
        &node(3, 0, 0, parent, 0, 0, 0, 15, 0, 0, 0, 0),
    );
    put_bytes(
        &mut tree,
        80,
        &node(3, 0, 0, 0, first, 0, 1, 15, 0, 0, 0, 0),
    );
    tell_r(rt, ask(3, 0, 3, 0), &tree)
}

// A root alone for "true holds at 3", with this child.
fn alone(rt: HostRuntime, first: u32) -> io::Result<()> {
    print!(rt; "true, first {first}")?;
    let tree = node(3, 0, 0, 0, first, 0, 1, 15, 0, 0, 0, 0);
    tell_r(rt, ask(3, 0, 3, 0), &tree)
}

// 20
fn links(rt: HostRuntime) -> io::Result<()> {
    with(rt, 0, Field::Parent, 1)?; // the root's parent is not 0
    strays(rt, 2, 1)?; // node 1 has a parent that counts it and is not lower
    strays(rt, 0, 3)?; // node 1 has a parent that is lower and does not count it
    with(rt, 1, Field::First, 1)?; // a leaf with a first child
    with(rt, 2, Field::Parent, 1)?; // the root's children are not consecutive
    alone(rt, 0)?; // a child that names the root and is not above
    alone(rt, 1)?; // a child outside the table
    with(rt, 4, Field::Parent, 0) // the child of node 2 names another parent
}

// 21: a field out of its range. In phase 1 anchor, kept and round need not be zero; rule 4 chooses a transition.
fn ranges(rt: HostRuntime) -> io::Result<()> {
    with(rt, 0, Field::Marking, 8)?;
    with_both(rt, Field::Phase, 1, Field::Anchor, 8)?;
    with_both(rt, Field::Phase, 1, Field::Kept, 8)?;
    with_both(rt, Field::Rule, 4, Field::Transition, 3)?;
    with(rt, 0, Field::Formula, 3)?;
    with(rt, 0, Field::Side, 2)?;
    with(rt, 0, Field::Phase, 5)?;
    with_both(rt, Field::Phase, 1, Field::Round, 65)
}

// 21: a field that is not zero where it must be. Rules 6 and 15 choose no transition.
fn required(rt: HostRuntime) -> io::Result<()> {
    with(rt, 0, Field::Anchor, 1)?;
    with(rt, 0, Field::Kept, 1)?;
    with(rt, 0, Field::Round, 1)?;
    with_both(rt, Field::Phase, 4, Field::Round, 1)?;
    with(rt, 0, Field::Transition, 1)?;
    with(rt, 22, Field::Transition, 1)
}

// Fields at the end of their range: the next fault is told.
fn inside(rt: HostRuntime) -> io::Result<()> {
    with(rt, 0, Field::Marking, 7)?;
    with_both(rt, Field::Phase, 1, Field::Anchor, 7)?;
    with_both(rt, Field::Phase, 1, Field::Kept, 7)?;
    with_both(rt, Field::Phase, 1, Field::Round, 64)?;
    with(rt, 0, Field::Phase, 4)?;
    with_both(rt, Field::Rule, 2, Field::Transition, 2)
}

// 22: the root is not the ask in phase 0.
fn roots(rt: HostRuntime) -> io::Result<()> {
    with(rt, 0, Field::Marking, 1)?;
    with(rt, 0, Field::Formula, 1)?;
    with(rt, 0, Field::Side, 1)?;
    with(rt, 0, Field::Phase, 1)
}

// 23, 24 and 25: the rule and the number of children.
fn rules(rt: HostRuntime) -> io::Result<()> {
    with(rt, 0, Field::Rule, 0)?; // unknown
    with(rt, 0, Field::Rule, 19)?;
    with(rt, 0, Field::Rule, 34)?;
    with(rt, 0, Field::Rule, 31)?; // for the other side
    with(rt, 0, Field::Rule, 15)?; // for another operator
    with(rt, 0, Field::Rule, 8)?; // for another phase
    with(rt, 0, Field::Rule, 7)?; // on the trail
    with(rt, 0, Field::Children, 2)
}

// 26: a field of node 4, the child of node 2, is not the one that node 2 gives.
fn sequents(rt: HostRuntime) -> io::Result<()> {
    with(rt, 4, Field::Marking, 1)?;
    with(rt, 4, Field::Anchor, 1)?;
    with(rt, 4, Field::Kept, 2)?;
    with(rt, 4, Field::Formula, 1)?;
    with(rt, 4, Field::Side, 1)?;
    with(rt, 4, Field::Phase, 2)?;
    with(rt, 4, Field::Round, 1)
}

// ---- R's tables

// Prints a table, a line for each record: its name and its bytes.
fn records(rt: HostRuntime, name: &str, table: &[u8], size: usize) -> io::Result<()>
    requires { 0 < size }
{
    for record in table.chunks_exact(size) {
        print!(rt; "{name}")?;
        for byte in record {
            print!(rt; " {byte}")?;
        }
        println!(rt;)?;
    }
    Ok(())
}

// The tables of "R holds 2", which examples/r and the host tests have too.
fn tables(rt: HostRuntime) -> io::Result<()> {
    records(rt, "R ASK:", &ask(3, 2, 3, 0), 12)?;
    records(rt, "R NET:", &net_r(), 24)?;
    records(rt, "R FORMULA:", &formulas_r(), 8)?;
    records(rt, "R TREE:", &tree_r(), 40)
}

pub(crate) fn print_all(rt: HostRuntime) -> io::Result<()> {
    starred(rt)?;
    asks(rt)?;
    nets(rt)?;
    optionals(rt)?;
    formulas(rt)?;
    sizes(rt)?;
    many(rt)?;
    edge(rt, 64)?;
    edge(rt, 63)?;
    links(rt)?;
    ranges(rt)?;
    required(rt)?;
    inside(rt)?;
    roots(rt)?;
    rules(rt)?;
    sequents(rt)?;
    tables(rt)
}

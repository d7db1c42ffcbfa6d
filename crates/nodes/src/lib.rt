// The nodes of a tree: their records, their links and the trail of a node.
#![tactic(auto)]

pub mod links;
pub mod read;
pub mod trail;
pub mod write;

use tableau::Sequent;

// The ask: a formula of the table holds (side 0) or fails (side 1) at the marking of a net with so many places.
#[derive(Clone, Copy)]
pub struct Ask {
    pub marking: u64,
    pub formula: u16,
    pub places: u8,
    pub side: u8,
}

// A node of the tree: its sequent, its links, its rule and the transition that the rule chooses.
#[derive(Clone, Copy)]
pub struct Node {
    pub sequent: Sequent,
    pub parent: u32,
    pub first: u32,
    pub children: u8,
    pub rule: u8,
    pub transition: u8,
}

#![tactic(auto)]

pub mod kind;

// A gate record: kind 0 XOR, 1 AND, 2 NOT, then the wires on its left and its right. Any numbers can be lent.
#[derive(Clone, Copy)]
pub struct Gate {
    pub kind: u32,
    pub left: u32,
    pub right: u32,
}

ghost use Rattle.std.specs.Prelude.{◌≡◌, ◌+◌, ◌≤◌, length};
ghost use Rattle.chew_spec_image.specs.Fields.{node_at, node_bytes};

use crate::number::{u16_at, u32_at};
use std::marker::Model;

/// A node of an image: a prefix of keys.
#[derive(Clone, Copy, Debug, PartialEq, Eq)]
pub struct Node {
    /// The last code of the prefix; 0 for the empty one.
    pub code: u16,
    /// How many nodes are its children.
    pub children: u16,
    /// Where these begin among all nodes.
    pub first_child: u32,
    /// How many rows have this prefix as their key.
    pub rows: u32,
    /// Where these begin among all rows.
    pub first_row: u32,
}

impl Model for Node {
    ghost use Rattle.chew_spec_image.specs.Fields as spec;

    ghost Value = { spec.Node };

    ghost view = { λ node.
        record { code = node.code; children = node.children; first_child = node.first_child; rows = node.rows; first_row = node.first_row } };

    ghost inverse = { λ value.
        record { code = value.code; children = value.children; first_child = value.first_child; rows = value.rows; first_row = value.first_row } };
}

/// How many bytes a node has.
pub const NODE_LEN: usize = 16;

#[tactic(auto, unfolding(chew_spec_image::specs::Fields::node_at))]
/// The node in the 16 bytes from a place on.
pub fn node_at(bytes: &[u8], place: usize) -> Node
    requires { place + 16 ≤ length bytes.now }
    ensures { result ≡ node_at bytes.now place }
{
    Node {
        code: u16_at(bytes, place),
        children: u16_at(bytes, place + 2),
        first_child: u32_at(bytes, place + 4),
        rows: u32_at(bytes, place + 8),
        first_row: u32_at(bytes, place + 12),
    }
}

impl Node {
    #[tactic(auto, unfolding(chew_spec_image::specs::Fields::node_bytes))]
    /// Its 16 bytes.
    pub fn bytes(&self) -> [u8; 16]
        ensures { result ≡ node_bytes self.now }
    {
        let code = self.code.to_le_bytes();
        let children = self.children.to_le_bytes();
        let first_child = self.first_child.to_le_bytes();
        let rows = self.rows.to_le_bytes();
        let first_row = self.first_row.to_le_bytes();
        [
            code[0],
            code[1],
            children[0],
            children[1],
            first_child[0],
            first_child[1],
            first_child[2],
            first_child[3],
            rows[0],
            rows[1],
            rows[2],
            rows[3],
            first_row[0],
            first_row[1],
            first_row[2],
            first_row[3],
        ]
    }
}

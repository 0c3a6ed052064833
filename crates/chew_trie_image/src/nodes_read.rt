ghost use Rattle.std.specs.Prelude.{◌≡◌, ◌+◌, ◌<◌, ◌≤◌, ◌^◌, IfOk, IfErr, OnOk, None, Some, ◌&&◌, ◌||◌, nat_lt};
ghost use Rattle.chew_spec_syllable.specs.Syllable.{is_code};
ghost use Rattle.chew_spec_image.specs.ReadNodes.{at_root, node_fault, past_node, root_fault};

use crate::counts::{Counts, HEADER_LEN};
use crate::fault::ImageFault;
use crate::node::{NODE_LEN, Node};
use chew_syllable::{KEY_LIMIT, Syllable};
use std::marker::Model;

/// What the nodes read so far leave.
#[derive(Clone, Copy)]
pub(crate) struct NodesRead {
    /// The code of the last one.
    code: u16,
    /// 1 plus the children of all of them.
    pub(crate) next_child: u32,
    /// Their rows.
    pub(crate) next_row: u32,
    /// Where the next one begins in the image.
    pub(crate) place: usize,
}

impl Model for NodesRead {
    ghost use Rattle.chew_spec_image.specs.ReadNodes as spec;

    ghost Value = { spec.NodesRead };

    ghost view = { λ read. record { code = read.code; next_child = read.next_child; next_row = read.next_row; place = read.place } };

    ghost inverse = { λ value. record { code = value.code; next_child = value.next_child; next_row = value.next_row; place = value.place } };
}

impl NodesRead {
    /// Before node 0.
    pub(crate) fn at_root() -> NodesRead
        ensures { result ≡ at_root }
    {
        NodesRead {
            code: 0,
            next_child: 1,
            next_row: 0,
            place: HEADER_LEN,
        }
    }

    /// One node more.
    pub(crate) fn past(&self, node: &Node) -> NodesRead
        requires children { self.now.next_child + node.now.children < 2 ^ 32 }
        requires rows { self.now.next_row + node.now.rows < 2 ^ 32 }
        requires place { self.now.place + 16 < 2 ^ 64 }
        ensures { result ≡ past_node self.now node.now }
    {
        NodesRead {
            code: node.code,
            next_child: self.next_child + node.children as u32,
            next_row: self.next_row + node.rows,
            place: self.place + NODE_LEN,
        }
    }

    /// The fault of a field of the next node, by its offset there.
    pub(crate) fn fault(&self, offset: usize) -> ImageFault
        requires { self.now.place + offset < 2 ^ 64 }
        ensures { result.place ≡ self.now.place + offset }
    {
        ImageFault {
            place: (self.place + offset) as u64,
        }
    }

    /// The first fault of node 0.
    pub(crate) fn check_root(&self, counts: &Counts, node: &Node) -> Result<(), ImageFault>
        requires { self.now.place + 16 < 2 ^ 64 }
        ensures ok { IfOk result (λ _. root_fault counts.now self.now node.now ≡ None) }
        ensures children { OnOk result (self.now.next_child + node.now.children ≤ counts.now.nodes) }
        ensures rows { OnOk result (node.now.rows ≡ 0) }
        ensures err { IfErr result (λ fault. root_fault counts.now self.now node.now ≡ Some fault.place) }
    {
        if node.code != 0 {
            return Err(self.fault(0));
        }
        if u64::from(self.next_child) + u64::from(node.children) > u64::from(counts.nodes) {
            return Err(self.fault(2));
        }
        if node.first_child != self.next_child {
            return Err(self.fault(4));
        }
        if node.rows != 0 {
            return Err(self.fault(8));
        }
        if node.first_row != self.next_row {
            return Err(self.fault(12));
        }
        Ok(())
    }

    /// Whether the next node may have this code.
    fn code_fits(&self, first: bool, code: u16) -> bool
        ensures { result ≡ (is_code code && (first || nat_lt self.now.code code)) }
    {
        if Syllable::from_code(code).is_none() {
            return false;
        }
        first || self.code < code
    }

    /// The first fault of another node, by how many codes its key has, and whether it is the first child.
    pub(crate) fn check_node(
        &self,
        counts: &Counts,
        len: u32,
        first: bool,
        node: &Node,
    ) -> Result<(), ImageFault>
        requires { self.now.place + 16 < 2 ^ 64 }
        ensures ok { IfOk result (λ _. node_fault counts.now len first self.now node.now ≡ None) }
        ensures children { OnOk result (self.now.next_child + node.now.children ≤ counts.now.nodes) }
        ensures rows { OnOk result (self.now.next_row + node.now.rows ≤ counts.now.rows) }
        ensures err { IfErr result (λ fault. node_fault counts.now len first self.now node.now ≡ Some fault.place) }
    {
        if !self.code_fits(first, node.code) {
            return Err(self.fault(0));
        }
        if u64::from(self.next_child) + u64::from(node.children) > u64::from(counts.nodes) {
            return Err(self.fault(2));
        }
        if len >= KEY_LIMIT as u32 && node.children != 0 {
            return Err(self.fault(2));
        }
        if node.first_child != self.next_child {
            return Err(self.fault(4));
        }
        if u64::from(self.next_row) + u64::from(node.rows) > u64::from(counts.rows) {
            return Err(self.fault(8));
        }
        if node.rows == 0 && node.children == 0 {
            return Err(self.fault(8));
        }
        if node.first_row != self.next_row {
            return Err(self.fault(12));
        }
        Ok(())
    }
}

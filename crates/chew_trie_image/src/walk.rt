ghost use Rattle.std.specs.Prelude.{◌≡◌, ℕ, suc, ◌+◌, ◌-◌, ◌*◌, ◌<◌, ◌≤◌, ◌^◌, List, [], ◌∷◌, ◌++◌, IfOk, IfErr, OnOk, None, Ok, Some, length, drop, sum_by};
ghost use Rattle.chew_spec_image.specs.Fields.{node_at, nodes_at};
ghost use Rattle.chew_spec_image.specs.ReadNodes.{Due, due_under};
ghost use Rattle.chew_spec_image.specs.Reading.{image_place, rows_place};
ghost use Rattle.chew_trie_image.specs.Walk.{IsWalk, due_of_children, fault_ahead, fault_behind, fault_of_rows, fault_once_read};

use crate::counts::HEADER_LEN;
use crate::fault::ImageFault;
use crate::fields::row_at;
use crate::node::{NODE_LEN, node_at};
use crate::nodes_read::NodesRead;
use crate::parts::Parts;
use crate::rows_read::RowsRead;

/// The nodes come by the lengths of their keys: which node is the first whose key is longer than those before it.
#[derive(Clone, Copy)]
struct Level {
    /// How many codes the keys of the children of the nodes before it have.
    len: u32,
    /// Where it begins.
    end: usize,
}

/// The nodes and their rows that were checked so far.
#[derive(Drop)]
pub(crate) struct Walk<'a> {
    pub(crate) nodes: NodesRead,
    pub(crate) rows: RowsRead<'a>,
    /// The first fault of these rows, which is told only where no node has one.
    pub(crate) fault: Option<ImageFault>,
}

/// The next rows, which are all those of a key of so many codes.
fn check_rows<'a>(
    parts: &Parts<'a>,
    len: u32,
    count: u32,
    read: &mut RowsRead<'a>,
) -> Result<(), ImageFault>
    requires { read.old.place + 20 * count ≤ length parts.now.bytes.now }
    ensures place { IfOk result (λ _. read.new.place ≡ read.old.place + 20 * count) }
    ensures ok { IfOk result (λ _. (key : List ℕ) (later : List Due) (seen : ℕ) → length key ≡ len → seen + count ≤ parts.now.counts.rows
        → fault_of_rows parts.now.bytes.now parts.now.counts seen read.old (due_under key count ++ later)
        ≡ fault_of_rows parts.now.bytes.now parts.now.counts (seen + count) read.new later) }
    ensures err { IfErr result (λ fault. (key : List ℕ) (later : List Due) (seen : ℕ) → length key ≡ len → seen + count ≤ parts.now.counts.rows
        → fault_of_rows parts.now.bytes.now parts.now.counts seen read.old (due_under key count ++ later) ≡ Some fault.place) }
{
    for i in 0..count {
        let row = row_at(parts.bytes, read.place);
        read.check_row(parts.text(), len, i == 0, &row)?;
        *read = read.past(parts.text(), &row);
    }
    Ok(())
}

/// The same where an earlier row may have had a fault.
fn check_rows_behind<'a>(parts: &Parts<'a>, len: u32, count: u32, walk: &mut Walk<'a>)
    requires { walk.old.fault ≡ None → walk.old.rows.place + 20 * count ≤ length parts.now.bytes.now }
    ensures nodes { walk.new.nodes ≡ walk.old.nodes }
    ensures place { walk.new.fault ≡ None → (walk.old.fault ≡ None) × (walk.new.rows.place ≡ walk.old.rows.place + 20 * count) }
    ensures same { (key : List ℕ) (later : List Due) (seen : ℕ) → length key ≡ len → seen + count ≤ parts.now.counts.rows
        → fault_behind parts.now.bytes.now parts.now.counts seen walk.old.fault walk.old.rows (due_under key count ++ later)
        ≡ fault_behind parts.now.bytes.now parts.now.counts (seen + count) walk.new.fault walk.new.rows later }
{
    if walk.fault.is_some() {
        return;
    }
    match check_rows(parts, len, count, &mut walk.rows) {
        Ok(()) => {}
        Err(fault) => walk.fault = Some(fault),
    }
}

/// The next node, as a child whose key has so many codes, and its rows.
fn check_child<'a>(
    parts: &Parts<'a>,
    len: u32,
    first: bool,
    walk: &mut Walk<'a>,
) -> Result<(), ImageFault>
    requires walk { IsWalk parts.now.counts walk.old.nodes walk.old.fault walk.old.rows }
    requires within { walk.old.nodes.place + 16 ≤ rows_place parts.now.counts }
    ensures walk { OnOk result (IsWalk parts.now.counts walk.new.nodes walk.new.fault walk.new.rows) }
    ensures place { OnOk result (walk.new.nodes.place ≡ walk.old.nodes.place + 16) }
    ensures children { OnOk result (walk.new.nodes.next_child ≡ walk.old.nodes.next_child + (node_at parts.now.bytes.now walk.old.nodes.place).children) }
    ensures ok { OnOk result ((key : List ℕ) (later : List Due) (left : ℕ) → suc (length key) ≡ len
        → fault_ahead parts.now.bytes.now parts.now.counts walk.old.nodes walk.old.fault walk.old.rows
        (record { key = key; first = first } ∷ later) (suc left)
        ≡ fault_ahead parts.now.bytes.now parts.now.counts walk.new.nodes walk.new.fault walk.new.rows
        (later ++ due_of_children key (nodes_at parts.now.bytes.now walk.old.nodes.place 1)) left) }
    ensures err { IfErr result (λ fault. (key : List ℕ) (later : List Due) (left : ℕ) → suc (length key) ≡ len
        → fault_ahead parts.now.bytes.now parts.now.counts walk.old.nodes walk.old.fault walk.old.rows
        (record { key = key; first = first } ∷ later) (suc left) ≡ Some fault.place) }
{
    let node = node_at(parts.bytes, walk.nodes.place);
    walk.nodes.check_node(&parts.counts, len, first, &node)?;
    walk.nodes = walk.nodes.past(&node);
    check_rows_behind(parts, len, node.rows, walk);
    Ok(())
}

/// The children of a node, whose keys have so many codes, and their rows.
fn check_children<'a>(
    parts: &Parts<'a>,
    len: u32,
    count: u16,
    walk: &mut Walk<'a>,
) -> Result<(), ImageFault>
    requires walk { IsWalk parts.now.counts walk.old.nodes walk.old.fault walk.old.rows }
    requires within { walk.old.nodes.place + 16 * count ≤ rows_place parts.now.counts }
    ensures walk { OnOk result (IsWalk parts.now.counts walk.new.nodes walk.new.fault walk.new.rows) }
    ensures place { OnOk result (walk.new.nodes.place ≡ walk.old.nodes.place + 16 * count) }
    ensures children { OnOk result
        (walk.new.nodes.next_child ≡ walk.old.nodes.next_child + sum_by (λ node. node.children) (nodes_at parts.now.bytes.now walk.old.nodes.place count)) }
    ensures ok { OnOk result ((key : List ℕ) (later : List Due) (left : ℕ) → suc (length key) ≡ len → count ≤ left
        → fault_ahead parts.now.bytes.now parts.now.counts walk.old.nodes walk.old.fault walk.old.rows (due_under key count ++ later) left
        ≡ fault_ahead parts.now.bytes.now parts.now.counts walk.new.nodes walk.new.fault walk.new.rows
        (later ++ due_of_children key (nodes_at parts.now.bytes.now walk.old.nodes.place count)) (left - count)) }
    ensures err { IfErr result (λ fault. (key : List ℕ) (later : List Due) (left : ℕ) → suc (length key) ≡ len → count ≤ left
        → fault_ahead parts.now.bytes.now parts.now.counts walk.old.nodes walk.old.fault walk.old.rows (due_under key count ++ later) left ≡ Some fault.place) }
{
    for i in 0..count {
        check_child(parts, len, i == 0, walk)?;
    }
    Ok(())
}

/// Node 0.
fn check_root<'a>(parts: &Parts<'a>) -> Result<Walk<'a>, ImageFault>
    ensures walk { IfOk result (λ walk. IsWalk parts.now.counts walk.nodes walk.fault walk.rows) }
    ensures place { IfOk result (λ walk. walk.nodes.place ≡ 36) }
    ensures children { IfOk result (λ walk. walk.nodes.next_child ≡ 1 + (node_at parts.now.bytes.now 20).children) }
    ensures ok { IfOk result
        (λ walk. image_place parts.now.bytes.now
        ≡ fault_ahead parts.now.bytes.now parts.now.counts walk.nodes walk.fault walk.rows
        (due_under [] (node_at parts.now.bytes.now 20).children) (parts.now.counts.nodes - 1)) }
    ensures err { IfErr result (λ fault. image_place parts.now.bytes.now ≡ Some fault.place) }
{
    let root = node_at(parts.bytes, HEADER_LEN);
    let before = NodesRead::at_root();
    before.check_root(&parts.counts, &root)?;
    Ok(Walk {
        nodes: before.past(&root),
        rows: RowsRead::at_rows(&parts.counts),
        fault: None,
    })
}

/// The level of the next node, which begins at a place, where all nodes up to another were read.
fn level_at(level: Level, place: usize, seen: usize) -> Level
    requires { level.len + 1 < 2 ^ 32 }
    ensures next { level.end ≡ place → (result.len ≡ level.len + 1) × (result.end ≡ seen) }
    ensures same { (level.end ≡ place → ⊥) → (result.len ≡ level.len) × (result.end ≡ level.end) }
{
    if level.end == place {
        return Level {
            len: level.len + 1,
            end: seen,
        };
    }
    level
}

/// All nodes and their rows.
pub(crate) fn check_nodes<'a>(parts: &Parts<'a>) -> Result<Walk<'a>, ImageFault>
    ensures ok { IfOk result
        (λ walk. image_place parts.now.bytes.now ≡ fault_once_read parts.now.bytes.now parts.now.counts walk.nodes.next_row walk.fault walk.rows (Ok [])) }
    ensures rows { IfOk result (λ walk. walk.nodes.next_row ≤ parts.now.counts.rows) }
    ensures err { IfErr result (λ fault. image_place parts.now.bytes.now ≡ Some fault.place) }
{
    let mut walk = check_root(parts)?;
    let mut level = Level {
        len: 0,
        end: HEADER_LEN,
    };
    for i in 0..parts.counts.nodes {
        let place = HEADER_LEN + NODE_LEN * i as usize;
        if place == walk.nodes.place {
            return Err(walk.nodes.fault(0));
        }
        level = level_at(level, place, walk.nodes.place);
        let children = node_at(parts.bytes, place).children;
        check_children(parts, level.len, children, &mut walk)?;
    }
    Ok(walk)
}

//! The paths of the leaves.

ghost use Rattle.std.specs.Prelude.{◌≡◌, ◌∷◌, ◌++◌, [], map, decimal, IfOk, OnOk};
ghost use Rattle.san_flat.specs.Paths.{name_of, path_text, step_text};
ghost use Rattle.san_tree.specs.Places.{child_of, node_at};

use itoa::Buffer;
use san_base::{Name, NoMemory};
use san_check::Model;
use san_net::Path;
use san_tree::{Instance, Node};
use std::alloc::Global;

fn push_name(text: &mut Vec<u8>, children: &[(Name, u32)], child: u32) -> Result<(), NoMemory>
    ensures { OnOk result (text.new.items ≡ text.old.items ++ name_of children.now child) }
{
    if let Some((name, _)) = children.get(child as usize) {
        text.extend_from_slice(name.as_bytes())?;
    }
    Ok(())
}

/// Adds the number of a copy, as `[k]`.
fn push_copy(text: &mut Vec<u8>, copy: u32) -> Result<(), NoMemory>
    ensures { OnOk result (text.new.items ≡ text.old.items ++ 91 ∷ decimal copy ++ 93 ∷ []) }
{
    let mut buffer = Buffer::new();
    text.push(b'[')?;
    text.extend_from_slice(buffer.format(copy).as_bytes())?;
    text.push(b']')?;
    Ok(())
}

/// Adds what a child's path has behind that of its node.
fn push_step(text: &mut Vec<u8>, node: &Node, child: u32) -> Result<(), NoMemory>
    ensures { OnOk result (text.new.items ≡ text.old.items ++ step_text node.now child) }
{
    match node {
        Node::Leaf { .. } => Ok(()),
        Node::Join { children, .. } => {
            text.push(b'.')?;
            push_name(text, children.as_slice(), child)
        }
        Node::Rep { .. } => push_copy(text, child),
    }
}

fn push_step_at(text: &mut Vec<u8>, nodes: &[Node], n: u32, child: u32) -> Result<(), NoMemory>
    ensures { OnOk result (text.new.items
        ≡ text.old.items ++ step_text (node_at nodes.now n) child) }
{
    match nodes.get(n as usize) {
        Some(node) => push_step(text, node, child),
        None => Ok(()),
    }
}

fn child_at(nodes: &[Node], n: u32, child: u32) -> u32
    ensures { result ≡ child_of (node_at nodes.now n) child }
{
    match nodes.get(n as usize) {
        Some(node) => node.child(child),
        None => 0,
    }
}

/// The path of a leaf.
fn path_of(alloc: Global, model: &Model, path: &[u32]) -> Result<Path, NoMemory>
    ensures { IfOk result (λ text. text ≡ path_text model.now.system model.now.tree.nodes
        model.now.tree.root path.now) }
{
    let mut text = Vec::from_slice(alloc, model.system().as_bytes())?;
    let nodes = model.tree().nodes.as_slice();
    let mut n = model.tree().root;
    'steps: for child in path {
        push_step_at(&mut text, nodes, n, *child)?;
        n = child_at(nodes, n, *child);
    }
    Ok(Path::new(text))
}

/// The paths of the leaves.
pub(crate) fn paths_of(
    alloc: Global,
    model: &Model,
    leaves: &[Instance],
) -> Result<Vec<Path>, NoMemory>
    ensures { IfOk result (λ paths. paths.items ≡ map (λ leaf. path_text model.now.system
        model.now.tree.nodes model.now.tree.root leaf.path) leaves.now) }
{
    let mut paths = Vec::with_capacity(alloc, leaves.len())?;
    'leaves: for leaf in leaves {
        paths.push(path_of(alloc, model, leaf.path.as_slice())?)?;
    }
    Ok(paths)
}

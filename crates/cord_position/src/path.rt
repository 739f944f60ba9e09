//! The path from a rope's root to the leaf that holds a place.

ghost use Rattle.std.specs.Prelude.{◌≡◌, ◌↔◌, ◌<◌, ◌≤◌, ◌+◌, ◌-◌, Some, length, IsTrue};
ghost use Rattle.smallvec.specs.SmallVec.{small_vec_len};
ghost use Rattle.rope_node.specs.declared.limits.TheConstants.{TEXT_LIMIT};
ghost use Rattle.rope_node.specs.Table.{len_at};
ghost use Rattle.cord_position.specs.Steps.{IsLeafStep, IsPath, IsStepAt, StepHolds, left_step, right_step};

use rope_node::{NodeId, NodeSpace, NodeView};
use smallvec::SmallVec;

/// The rope's bytes from place `first` on, `len` of them, are the node's from its byte `skipped` on.
#[derive(Clone, Copy, Debug)]
pub struct Step {
    pub node: NodeId,
    pub first: u64,
    pub skipped: u64,
    pub len: u64,
}

impl Default for Step {
    ghost is_default = { λ x. (x.first ≡ 0) × (x.len ≡ 0) };

    fn default() -> Step {
        Step {
            node: NodeId(0),
            first: 0,
            skipped: 0,
            len: 0,
        }
    }
}

/// A step to a concatenation, from which the path goes on to the left or to the right child.
#[derive(Clone, Copy, Debug)]
pub struct Fork {
    pub step: Step,
    pub l: NodeId,
    pub r: NodeId,
    /// How many bytes the left child has.
    pub left: u64,
}

impl Default for Fork {
    ghost is_default = { λ x. x.left ≡ 0 };

    fn default() -> Fork {
        Fork {
            step: Step::default(),
            l: NodeId(0),
            r: NodeId(0),
            left: 0,
        }
    }
}

/// The forks from the root on, each in a part of the one before it. A node is at most 64 deep, so they are at most 65.
pub type Path = SmallVec<Fork, 65>;

/// Whether the place is one of the step's bytes.
#[inline]
pub fn holds(step: Step, place: u64) -> bool
    ensures { IsTrue result ↔ StepHolds step place }
{
    step.first <= place && place - step.first < step.len
}

/// What the child that holds the place has of a fork's step.
fn side_of(fork: Fork, place: u64) -> Step
    requires holds { StepHolds fork.step place }
    requires limit { fork.step.skipped + fork.step.len < TEXT_LIMIT }
    ensures left { fork.step.skipped + (place - fork.step.first) < fork.left
        → result ≡ left_step fork.step fork.l fork.left }
    ensures right { fork.left ≤ fork.step.skipped + (place - fork.step.first)
        → result ≡ right_step fork.step fork.r fork.left }
{
    let step = fork.step;
    let cut = fork.left.saturating_sub(step.skipped);
    if place - step.first < cut {
        Step {
            node: fork.l,
            first: step.first,
            skipped: step.skipped,
            len: step.len.min(cut),
        }
    } else {
        Step {
            node: fork.r,
            first: step.first + cut,
            skipped: step.skipped.saturating_sub(fork.left),
            len: step.len - cut,
        }
    }
}

/// Takes the forks that do not hold the place off the path's end, and gives the step from the last one that does to the
/// child that holds it. Where none does, that is the root's.
fn climb<S: NodeSpace>(space: &S, root: NodeId, path: &mut Path, place: u64) -> Step
    requires there { root.0 < length (S.table space.now).nodes }
    requires inside { place < len_at (S.table space.now) root.0 }
    requires path { IsPath (S.table space.now) (Some root) path.old }
    ensures path { IsPath (S.table space.now) (Some root) path.new }
    ensures step { IsStepAt (S.table space.now) (Some root) (small_vec_len path.new) result }
    ensures holds { StepHolds result place }
{
    // The table is sound, as its count says.
    let _count = space.count();
    'up: while let Some(fork) = path.pop() {
        if holds(fork.step, place) {
            path.push_reserved(fork);
            return side_of(fork, place);
        }
    }
    Step {
        node: root,
        first: 0,
        skipped: 0,
        len: space.len(root),
    }
}

/// Goes down from a step that holds the place to a leaf's, and puts the forks between them on the path: the
/// concatenations of which the step has bytes of both children.
fn descend<S: NodeSpace>(space: &S, root: NodeId, path: &mut Path, from: Step, place: u64) -> Step
    requires path { IsPath (S.table space.now) (Some root) path.old }
    requires step { IsStepAt (S.table space.now) (Some root) (small_vec_len path.old) from }
    requires holds { StepHolds from place }
    ensures path { IsPath (S.table space.now) (Some root) path.new }
    ensures leaf { IsLeafStep (S.table space.now) (Some root) result }
    ensures holds { StepHolds result place }
{
    let mut step = from;
    'down: loop {
        match space.node(step.node) {
            NodeView::Cat { l, r } => {
                let left = space.left_len(step.node, l);
                let fork = Fork { step, l, r, left };
                step = side_of(fork, place);
                if step.len < fork.step.len {
                    path.push_reserved(fork);
                }
            }
            NodeView::Sub { b, i } => {
                step.node = b;
                step.skipped += i;
            }
            NodeView::Lit { .. } | NodeView::Src { .. } | NodeView::Fun => return step,
        }
    }
}

/// Leads the path to the leaf that holds the place, from where it leaves the path, and gives the last step.
#[inline(never)]
pub fn seek<S: NodeSpace>(space: &S, root: NodeId, path: &mut Path, place: u64) -> Step
    requires there { root.0 < length (S.table space.now).nodes }
    requires inside { place < len_at (S.table space.now) root.0 }
    requires path { IsPath (S.table space.now) (Some root) path.old }
    ensures path { IsPath (S.table space.now) (Some root) path.new }
    ensures leaf { IsLeafStep (S.table space.now) (Some root) result }
    ensures holds { StepHolds result place }
{
    let from = climb(space, root, path, place);
    descend(space, root, path, from, place)
}

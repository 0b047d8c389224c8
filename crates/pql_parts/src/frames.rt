//! Stores what is open around a filter, with the innermost last, and the depth of the least query.
//!
//! The depth is at least a floor, and exceeds the innermost region's filter by a number of levels. Both numbers are stored. Each
//! frame also keeps the numbers of the frames before it, which hold again once it closes.
ghost use Rattle.std.specs.Prelude.{◌≡◌, ◌≤◌, ◌+◌, ℕ, [], ◌∷◌, OnOk, MatchOption};
ghost use Rattle.pql_machine.specs.Depth as deep;
ghost use Rattle.pql_parts.specs.Heights as spec;
ghost use Rattle.pql_parts.specs.Levels as level;
ghost use Rattle.pql_parts.specs.Parts.{pending_of};

use crate::build::{Arms, DEEP, Pending};
use ast_tree::{Name, Selection};
use std::alloc::{AllocError, Global};
use std::marker::Model;

/// The left side of `in`, and the level on its right side up to its columns. It is an operand, with the pending filters and the
/// negations before it.
#[derive(Drop)]
pub struct Right {
    pub left: Vec<Name>,
    pub entity: Name,
    pub shown: Selection,
    pub pending: Pending,
    pub nots: usize,
}

/// What is open: an operand, with the pending filters and the negations before it.
#[derive(Drop)]
pub enum Frame {
    Parens(Pending, usize),
    Implicit(Name, Pending, usize),
    Inner(Right),
}

/// Drops a right side of `in`.
pub fn let_right_go(_right: Right) {}

/// The least query is at least `floor` deep, and `level` deeper than the innermost region's filter, which has at least height
/// `bare`. Numbers above 100 are stored as 101.
#[derive(Clone, Copy)]
pub(crate) struct Depth {
    pub level: usize,
    pub floor: usize,
    pub bare: usize,
}

/// A frame, and the depth of the frames before it.
#[derive(Drop)]
pub(crate) struct Opened {
    pub frame: Frame,
    pub below: Depth,
}

/// What is open. Contracts see the machine's frames, the innermost first.
#[derive(Drop)]
pub struct Frames {
    list: Vec<Opened>,
    depth: Depth,
}

impl Model for Frames {
    ghost use Rattle.std.specs.Prelude.{List, reverse};
    ghost use Rattle.pql_machine.specs.Machine.{Frame};

    ghost Value = { List Frame };

    ghost use Rattle.std.specs.Coded.{codes, coded_list};
    ghost use Rattle.query_spec.specs.Code.{coded_filter};
    ghost use Rattle.pql_parts.specs.FrameCode.{coded_frame};

    ghost coded = { coded_list (coded_frame (Prim.hlevel codes) (Prim.hlevel codes) (coded_filter (Prim.hlevel codes))) };

    ghost use Rattle.pql_parts.specs.Levels.{open_frames, AreLevel, IsDepth};

    ghost view = { λ a. open_frames (reverse a.list.items) };

    ghost invariant = { λ a. IsDepth (open_frames (reverse a.list.items)) a.depth × AreLevel (reverse a.list.items) };
}

fn over(arms: &Arms) -> usize
    ensures { result ≡ level.over arms.now.filters }
{
    if arms.is_empty() { 0 } else { 1 }
}

// The levels above an operand of a region that is itself under `above` levels.
fn operand_level(above: usize, pending: &Pending, nots: usize) -> usize
    requires { above ≤ 101 }
    ensures { result ≡ spec.capped (level.operand_level above (pending_of pending.now) nots) }
{
    (above + over(&pending.any) + over(&pending.all) + nots.min(DEEP)).min(DEEP)
}

// The depth of the filters before that operand.
fn operand_floor(above: usize, pending: &Pending) -> usize
    requires { above ≤ 101 }
    ensures { result ≡ spec.capped (level.operand_floor above (pending_of pending.now)) }
{
    let groups = above + over(&pending.any);
    let before = groups + pending.any.tallest;
    let beside = groups + over(&pending.all) + pending.all.tallest;
    before.max(beside).min(DEEP)
}

// The depth after one more frame opens. `braces` is 1 for braces and 0 for parentheses.
fn within(depth: Depth, pending: &Pending, nots: usize, braces: usize) -> Depth
    requires level { depth.level ≤ 101 }
    requires braces { braces ≤ 1 }
    ensures { result ≡ level.within depth (pending_of pending.now) nots braces }
{
    Depth {
        level: (operand_level(depth.level, pending, nots) + braces).min(DEEP),
        floor: depth
            .floor
            .max(operand_floor(depth.level, pending))
            .min(DEEP),
        bare: 1 - braces,
    }
}

fn entered(depth: Depth, frame: &Frame) -> Depth
    requires { depth.level ≤ 101 }
    ensures { result ≡ level.entered depth (level.frame_of frame.now) }
{
    match frame {
        Frame::Parens(pending, nots) => within(depth, pending, *nots, 0),
        Frame::Implicit(_, pending, nots) => within(depth, pending, *nots, 1),
        Frame::Inner(right) => within(depth, &right.pending, right.nots, 1),
    }
}

impl Frames {
    ghost use Rattle.pql_parts.specs.Levels.{frame_of, bare};

    pub fn new(alloc: Global) -> Frames
        ensures { result ≡ [] }
    {
        Frames {
            list: Vec::new(alloc),
            depth: Depth {
                level: 0,
                floor: 0,
                bare: 0,
            },
        }
    }

    #[tactic(auto, using(crate::proofs::DepthLaws::pushed, crate::proofs::DepthLaws::pushed_view))]
    pub fn push(&mut self, frame: Frame) -> Result<(), AllocError>
        ensures { OnOk result (self.new ≡ frame_of frame ∷ self.old) }
    {
        let below = self.depth;
        let depth = entered(below, &frame);
        self.list.push(Opened { frame, below })?;
        self.depth = depth;
        Ok(())
    }

    /// Closes and returns the innermost frame.
    #[tactic(auto, using(crate::proofs::DepthLaws::popped, crate::proofs::DepthLaws::pushed_view))]
    pub fn pop(&mut self) -> Option<Frame>
        ensures { MatchOption result (self.old ≡ []) (λ f. self.old ≡ frame_of f ∷ self.new) }
    {
        match self.list.pop() {
            None => None,
            Some(Opened { frame, below }) => {
                self.depth = below;
                Some(frame)
            }
        }
    }

    /// The depth of the least query if the innermost region's filter has this height.
    #[tactic(auto, using(crate::proofs::DepthLaws::depth_told))]
    pub fn depth_of(&self, height: usize) -> usize
        requires { height ≤ 101 }
        ensures { result ≡ spec.capped (deep.depth_of self.now height) }
    {
        (self.depth.level + height).max(self.depth.floor).min(DEEP)
    }

    /// The least height of what the innermost braces or parentheses contain.
    pub fn bare(&self) -> usize
        ensures { result ≡ bare self.now }
    {
        self.depth.bare
    }
}

//! Nodes. Contracts of code see them as those of the definitions, by the functions of specs/NodeView.

use bm_syntax::{Name, Path, Pred};

/// A choice at a position, or a branch.
pub enum Node {
    /// Where the choice stands, and the numbers of its branches in order.
    Choice {
        position: Path,
        branches: Vec<u32>,
    },
    /// The parties that the branch asks, each once and outermost first, its lock as a block height, and what it does.
    Branch {
        path: Path,
        asks: Vec<Name>,
        lock: u32,
        core: Core,
    },
}

impl Drop for Node {
    fn drop(self) {
        match self {
            Node::Choice {
                position: _,
                branches: _,
            }
            | Node::Branch {
                path: _,
                asks: _,
                lock: _,
                core: _,
            } => {}
        }
    }
}

/// What a branch does.
pub enum Core {
    /// Goes on with the choice of number `next`.
    PutReveal {
        puts: Vec<Name>,
        reveals: Vec<Name>,
        test: Pred,
        next: u32,
    },
    Withdraw {
        party: Name,
    },
    /// The value of each part in satoshi, and the number of its choice.
    Split {
        parts: Vec<(u64, u32)>,
    },
}

impl Drop for Core {
    fn drop(self) {
        match self {
            Core::PutReveal {
                puts: _,
                reveals: _,
                test: _,
                next: _,
            }
            | Core::Withdraw { party: _ }
            | Core::Split { parts: _ } => {}
        }
    }
}

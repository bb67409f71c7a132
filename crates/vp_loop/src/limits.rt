//! The limits of a macroblock's edges.

ghost use Rattle.std.specs.Prelude.{◌≡◌};
ghost use Rattle.vp_loop.specs.Edges.{edge_limits, macroblock_step, subblock_step};

use crate::lines::{EdgeKind, LineStep};
use crate::strength::Level;

/// The filter of a frame (RFC 6386, chapters 15.2 and 15.3).
#[derive(Clone, Copy)]
pub(crate) enum FilterKind {
    /// The simple filter, of luma alone.
    Simple,
    /// The normal filter.
    Normal,
}

/// The limits of the edges of a macroblock that is filtered: those of its [`Level`], with types for its zeros.
#[derive(Clone, Copy)]
pub(crate) struct EdgeLimits {
    /// The kind of filter.
    pub(crate) kind: FilterKind,
    /// The edge limit of macroblock edges.
    pub(crate) macroblock: u8,
    /// The edge limit of subblock edges, if they are filtered.
    pub(crate) subblock: Option<u8>,
    /// The interior limit. Unused by the simple filter.
    pub(crate) interior: u8,
    /// The threshold of high edge variance. Unused by the simple filter.
    pub(crate) hev: u8,
}

impl EdgeLimits {
    /// The limits of a macroblock of this level, or `None` if it isn't filtered.
    #[inline(always)]
    pub(crate) fn of(level: Level) -> Option<EdgeLimits>
        ensures { result ≡ edge_limits level }
    {
        if level.edge == 0 {
            return None;
        }
        Some(EdgeLimits {
            kind: if level.interior == 0 {
                FilterKind::Simple
            } else {
                FilterKind::Normal
            },
            macroblock: level.edge,
            subblock: if level.inner == 0 {
                None
            } else {
                Some(level.inner)
            },
            interior: level.interior,
            hev: level.hev,
        })
    }

    /// The line step of macroblock edges.
    #[inline(always)]
    pub(crate) fn macroblock_step(self) -> LineStep
        ensures { result ≡ macroblock_step self }
    {
        LineStep {
            kind: match self.kind {
                FilterKind::Simple => EdgeKind::Simple,
                FilterKind::Normal => EdgeKind::Macroblock,
            },
            limit: self.macroblock,
            interior: self.interior,
            hev: self.hev,
        }
    }

    /// The line step of subblock edges with this edge limit.
    #[inline(always)]
    pub(crate) fn subblock_step(self, limit: u8) -> LineStep
        ensures { result ≡ subblock_step self limit }
    {
        LineStep {
            kind: match self.kind {
                FilterKind::Simple => EdgeKind::Simple,
                FilterKind::Normal => EdgeKind::Subblock,
            },
            limit,
            interior: self.interior,
            hev: self.hev,
        }
    }
}

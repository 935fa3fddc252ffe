//! The order of backups.
ghost use Rattle.std.specs.Prelude.{◌↔◌, IsTrue};
ghost use Rattle.rm_base.specs.Choice.{ComesFirst};

use crate::numbers::Scn;

/// Whether x, an id and a checkpoint, has a greater checkpoint than y, or the same and no lesser id.
pub fn comes_first(x: (u32, Scn), y: (u32, Scn)) -> bool
    ensures { IsTrue result ↔ ComesFirst x y }
{
    y.1 < x.1 || (y.1 == x.1 && y.0 <= x.0)
}

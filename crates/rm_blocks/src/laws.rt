//! What the definitions of a datafile in place mean.
ghost use Rattle.std.specs.Prelude.{ℕ, ◌≡◌, List, Some};
ghost use Rattle.rm_base.specs.declared.block.Change.{Change};
ghost use Rattle.rm_history.specs.{Agrees.{BaseAgrees}, History.{IsHistory}, World.{file_of}, declared.world.Datafile.{Datafile}};
ghost use Rattle.rm_history.specs.declared.world.World.{World};
ghost use Rattle.rm_blocks.specs.File.{base_of, created};

/// A datafile as it was created agrees with each history of its database.
pub fn a_created_file_agrees()
    ensures { (w : World) (h : List Change) (inc f : ℕ) (d : Datafile) → IsHistory w h → file_of w f ≡ Some d → BaseAgrees w h (base_of (created f inc d.creation d.blocks)) }
{}

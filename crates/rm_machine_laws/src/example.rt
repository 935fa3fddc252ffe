//! The premises of the theorems can be met, also where a database branched off.
ghost use Rattle.std.specs.Prelude.{[], ◌∷◌};
ghost use Rattle.rm_base.specs.Content.{padded, zero_block};
ghost use Rattle.rm_history.specs.{Evidence.{Agrees}, FirstGap.{HasGap, IsTarget}, History.{IsHistory}, Known.{Determined}};
ghost use Rattle.rm_history.specs.Unknown.{IsWorld};
ghost use Rattle.rm_machine_laws.specs.Branched.{both, branched, two};

/// A database that branched off, its history and evidence that agrees with it meet all that the theorems ask for. At hand are a copy
/// of the incarnation that was left, and a level 1 of the other. Until SCN 5 both blocks are determined: the first by a row of the
/// level 1, the second by one of the copy and since the level 1 does not list it. Until SCN 6 the second has a gap at 5.
pub fn the_premises_can_be_met_on_a_branch()
    ensures world { IsWorld branched }
    ensures history { IsHistory branched both }
    ensures agrees { Agrees branched both two }
    ensures listed { IsTarget branched 2 5 1 0 × Determined branched two 2 5 1 0 3 (padded (66 ∷ [])) }
    ensures unlisted { IsTarget branched 2 5 1 1 × Determined branched two 2 5 1 1 1 zero_block }
    ensures target { IsTarget branched 2 6 1 1 }
    ensures gap { HasGap branched two 2 6 1 1 2 5 }
{}

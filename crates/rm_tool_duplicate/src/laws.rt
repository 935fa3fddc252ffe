//! What a duplicate is good for.
ghost use Rattle.std.specs.Prelude.{◌≡◌, List, None, Option, Some, ℕ};
ghost use Rattle.rm_apply.specs.{Recover.{FindsGap, TellsAll, outside}, declared.recovering.Recovered.{Recovered}};
ghost use Rattle.rm_base.specs.Store.{Held};
ghost use Rattle.rm_catalog.specs.{Rules.{HasDatabase, IsCatalog}, Trees.{nodes}, declared.record.Record.{Record}};
ghost use Rattle.rm_catalog_typed.specs.TypedCatalog.{records_of};
ghost use Rattle.rm_dup.specs.{Copies.{made_of}, Entries.{AreLater, nothing, restored}, declared.database.Duplicate.{Duplicate}};
ghost use Rattle.rm_evidence.specs.declared.evidence.InPlace.{InPlace};
ghost use Rattle.rm_history.specs.Tree.{IsThere};
ghost use Rattle.rm_lang_words.specs.Duplicate.{DuplicateSaid};
ghost use Rattle.rm_machine.specs.{Effect.{Outcome}, Laws.{IsMomentOf}, Loading.{IsLoaded}, Machine.{DigestsTell}, Recovery.{in_place}, Rest.{PartsTell, Rest}, State.{at_moment, world}};
ghost use Rattle.rm_machine.specs.Restore.{RestoresAt, restored as with_restored};
ghost use Rattle.rm_machine.specs.declared.state.State.{State};
ghost use Rattle.rm_machine_laws.specs.Holds.{HoldsRest};
ghost use Rattle.rm_plan.specs.declared.plan.Gap.{Gap};
ghost use Rattle.rm_tool_opening.specs.Opening.{FromRest};
ghost use Rattle.rm_tool_duplicate.specs.{Asked.{Sides, target_inc}, Duplicated.{IsPlaceOf}, Ended.{EndsInText, EndsStopped, IsAllOrNone, IsCarriedOut}, Resting.{IsTrueCopy}};

use rm_dup::laws::{a_duplicate_comes_back, a_duplicate_is_the_source};

/// The records of a duplicate that was made, whether or not its lines could be written, are those of a database, and valid. When it is opened
/// first, nothing is in place, and what a RESTORE to its end, at whatever moment, then puts in place are exactly its copies. Over these records,
/// at whatever later moment, and its store, with nothing in place or with the copies restored, a recovery to incarnation 1 at its end is in range
/// and finds no gap. Where digests tell of the source, it brings back exactly the datafiles that existed at the target, numbered from 1 on, each
/// with the rows that the source's history made of it there.
pub fn a_duplicate_is_its_source()
    ensures records { (x : DuplicateSaid) (a b : Sides) (d : Duplicate) (rs : List Record) → IsCarriedOut x a b d
        → b.target ≡ Some rs → (rs ≡ d.records) × IsCatalog rs × HasDatabase rs }
    ensures first { (x : DuplicateSaid) (a b : Sides) (d : Duplicate) (to : Held) (s : State) → IsCarriedOut x a b d
        → b.target ≡ Some (records_of s.catalog) → IsLoaded to s → in_place s ≡ nothing }
    ensures range { (x : DuplicateSaid) (a b : Sides) (d : Duplicate) (rs : List Record) → IsCarriedOut x a b d → b.target ≡ Some rs
        → IsThere (nodes rs) 1 × (outside (nodes rs) 1 x.until ≡ None) }
    ensures restored { (x : DuplicateSaid) (a b : Sides) (d : Duplicate) (to : Held) (s : State) (moment : ℕ) (o : Outcome)
        → IsCarriedOut x a b d → b.to ≡ Some to → b.target ≡ Some (records_of s.catalog) → IsLoaded to s → IsMomentOf s moment
        → (restores : RestoresAt (at_moment s moment) to None x.until o)
        → in_place (with_restored (at_moment s moment) restores.back.files) ≡ restored d.pieces }
    ensures no_gap { (x : DuplicateSaid) (a b : Sides) (d : Duplicate) (to : Held) (rs later : List Record) (place : InPlace) (gap : Gap)
        → IsCarriedOut x a b d → b.to ≡ Some to → b.target ≡ Some rs → AreLater rs later → IsPlaceOf d place
        → ¬ FindsGap (Some to) later place 1 x.until gap }
    ensures blocks { (x : DuplicateSaid) (a b : Sides) (d : Duplicate) (to : Held) (rs later : List Record) (place : InPlace)
        → (is : IsCarriedOut x a b d) → b.to ≡ Some to → b.target ≡ Some rs → AreLater rs later → IsPlaceOf d place
        → FromRest a.from a.source (λ m. DigestsTell m → (back : Recovered) → TellsAll (Some to) later place 1 x.until back
        → back.files ≡ made_of (world is.makes.state) m.history (target_inc x is.makes.state) x.until d.from) }
{
    a_duplicate_comes_back();
    a_duplicate_is_the_source();
}

/// A duplicate of a database at rest is one too, so that a session over it is one of which `run` speaks. From whatever database at rest the source's
/// store and records hold, where digests tell of the source: the duplicate's store and records hold one. No name of it was given by HOST, so
/// digests tell of it, and its history made of its datafiles, at the target, exactly what the source's history made of those that they were.
pub fn a_duplicate_rests()
    ensures rests { (x : DuplicateSaid) (a b : Sides) (d : Duplicate) (to : Held) (rs : List Record) → (is : IsCarriedOut x a b d)
        → b.to ≡ Some to → b.target ≡ Some rs → FromRest a.from a.source (λ m. DigestsTell m
        → (r : Rest) × HoldsRest (Some to) (Some rs) r × PartsTell r × IsTrueCopy (world is.makes.state) m.history (target_inc x is.makes.state) x.until d r) }
{}

/// However a duplicate ended early, its number has the records that it had, or those of the whole duplicate, which was made and all of it carried
/// out. In the first case its store may have some of the copies.
pub fn a_stop_leaves_all_or_none()
    ensures stopped { (x : DuplicateSaid) (a b : Sides) (before now : Option (List ℕ)) → EndsStopped x a b before now → IsAllOrNone x a b }
    ensures untold { (x : DuplicateSaid) (a b : Sides) (before now : Option (List ℕ)) → EndsInText x a b before now → IsAllOrNone x a b }
{}

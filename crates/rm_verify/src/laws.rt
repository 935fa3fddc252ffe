//! What the definitions of the crosscheck and of validation mean together.
ghost use Rattle.std.specs.Prelude.{◌≡◌, ◌↔◌, Bool, List, Contains, IsTrue, Some};
ghost use Rattle.rm_base.specs.{Store.{Held}, declared.kinds.{Bad.TheVariants.{Missing}, Class.{Class}, Status.{Status}}};
ghost use Rattle.rm_base.specs.declared.kinds.Status.TheVariants.{Available, Expired};
ghost use Rattle.rm_catalog.specs.{Rules.{IsCatalog}, declared.record.Record.{Record}};
ghost use Rattle.rm_evidence.specs.Available.{IsSkipped};
ghost use Rattle.rm_verify.specs.{Classes.{is_of, object_in}, Crosscheck.{IsChecked, stands_in, status_after}};
ghost use Rattle.rm_verify.specs.declared.object.Expected.{Expected};

/// Of the records of a class that count as available, those that a crosscheck calls expired are those that validation
/// calls missing.
pub fn what_expires_is_missing()
    ensures { (held : Held) (rs : List Record) (class : Class) (r : Record) (x : Expected) → IsCatalog rs → Contains rs r → IsTrue (is_of class r) → object_in r ≡ Some x → x.status ≡ Available → IsChecked (stands_in held) rs class x.id Expired ↔ IsSkipped held rs x.id Missing }
{}

/// A second crosscheck of the same store changes nothing.
pub fn a_second_crosscheck_changes_nothing()
    ensures { (status : Status) (stands : Bool) → status_after (status_after status stands) stands ≡ status_after status stands }
{}

//! What is so of the scripts that give no name of an object.
ghost use Rattle.std.specs.Prelude.{ℕ, ◌≡◌, [], List, Some};
ghost use Rattle.rm_base.specs.Store.{Answers, Held};
ghost use Rattle.rm_machine_laws.specs.Holds.{HoldsRest, nothing};
ghost use Rattle.rm_machine.specs.{Machine.{Machine}, Rest.{PartsTell, Rest, Wakes}};
ghost use Rattle.rm_report.specs.declared.line.Reply.{Reply};
ghost use Rattle.rm_lang_token.specs.declared.token.Token.{Token};
ghost use Rattle.rm_tool.specs.Run.{IsHonestAlong, GiveNoName};

/// Where no statement gives a name of an object, as HOST REMOVE and CATALOG do, the world is honest along every run from a
/// machine of which no name was touched, and nothing is left to assume. The machine before the first statement ever is such a one.
pub fn the_world_is_honest_where_no_name_is_given()
    ensures untouched { (first : Machine) → first.touched ≡ [] → (answers : Answers) (ss : List (ℕ × List Token)) (replies : List Reply) → GiveNoName ss → IsHonestAlong first answers ss replies }
    ensures script { (objects : Held) (first : Machine) → Wakes (nothing objects) first → (answers : Answers) (ss : List (ℕ × List Token)) (replies : List Reply) → GiveNoName ss → IsHonestAlong first answers ss replies }
{}

/// Where no name was touched, digests tell of a saved site.
pub fn digests_tell_of_an_untouched_site()
    ensures { (r : Rest) → r.touched ≡ [] → PartsTell r }
{}

/// Over an empty keeper a database at rest is held: there is none, and nothing was ever written.
pub fn an_empty_keeper_holds_nothing()
    ensures { (objects : Held) → HoldsRest (Some objects) (Some []) (nothing objects) }
{}

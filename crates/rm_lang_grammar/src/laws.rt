//! What the notation of the grammar means.
ghost use Rattle.std.specs.Prelude.{◌≡◌, ◌++◌, [], List, Some, true, ℕ};
ghost use Rattle.rm_lang_token.specs.declared.token.Token.{Token as TokenOf};
ghost use Rattle.rm_lang_grammar.specs.{Grammar.{Grammar, Values, Spells}, Reading.{read}, Clear.{clear}};
ghost use Rattle.rm_lang_grammar.specs.{Forms.{Form, IsByOne, command_in, are_apart}, Blocks.{IsBlock, block_at, are_led}};
ghost use Rattle.rm_lang_grammar.specs.Spelling.{spelled, valid, AreFaithful};

/// What is read is spelled so.
pub fn what_is_read_is_spelled()
    ensures { (g : Grammar) (ts rest : List TokenOf) (vs : Values g) → read g ts ≡ Some (vs, rest) → Spells g vs ts rest }
{}

/// Of a line that is clear each spelling is read, as what it spells.
pub fn what_is_spelled_is_read()
    ensures { (g : Grammar) (ts : List TokenOf) (vs : Values g) → clear g [] ≡ true → Spells g vs ts [] → read g ts ≡ Some (vs, []) }
{}

/// The commands that forms read are theirs.
pub fn what_forms_read_is_theirs<C>()
    ensures { (fs : List (Form C)) (ts rest : List TokenOf) (c : C) → command_in fs ts ≡ Some (c, rest) → IsByOne fs c ts rest }
{}

/// Forms that are apart read each of their commands.
pub fn what_is_theirs_is_read<C>()
    ensures { (fs : List (Form C)) (ts rest : List TokenOf) (c : C) → are_apart fs ≡ true → IsByOne fs c ts rest → command_in fs ts ≡ Some (c, rest) }
{}

/// By forms that are apart one command at most is at the front of a token list.
pub fn one_command<C>()
    ensures { (fs : List (Form C)) (ts r s : List TokenOf) (c d : C) → are_apart fs ≡ true → IsByOne fs c ts r → IsByOne fs d ts s → (c ≡ d) × (r ≡ s) }
{}

/// What is read of a block is a block.
pub fn what_is_read_is_a_block<C>()
    ensures { (k : List ℕ) (fs : List (Form C)) (ts rest : List TokenOf) (cs : List C) → block_at k fs ts ≡ Some (cs, rest) → IsBlock k fs cs ts rest }
{}

/// A block of forms that are apart, each of which begins with a word, is read as what it is.
pub fn a_block_is_read<C>()
    ensures { (k : List ℕ) (fs : List (Form C)) (ts rest : List TokenOf) (cs : List C) → are_apart fs ≡ true → are_led fs ≡ true → IsBlock k fs cs ts rest → block_at k fs ts ≡ Some (cs, rest) }
{}

/// What is valid is spelled by its tokens.
pub fn what_is_valid_is_spelled()
    ensures { (g : Grammar) (vs : Values g) (rest : List TokenOf) → valid g vs ≡ true → Spells g vs (spelled g vs ++ rest) rest }
{}

/// What is spelled is valid, where each kind of string keeps what it shows.
pub fn what_is_spelled_is_valid()
    ensures { (g : Grammar) → AreFaithful g → (vs : Values g) (ts rest : List TokenOf) → Spells g vs ts rest → valid g vs ≡ true }
{}

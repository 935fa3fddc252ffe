//! The records that RECOVER COPY tells as skipped.
ghost use Rattle.std.specs.Prelude.{◌≡◌, filter};
ghost use Rattle.rm_step_copies.specs.Skipped.{is_of_copies};

use rm_base::{Bad, Kind, Seq};
use rm_machine::State;

// Whether the record of the id is one of an image copy or a level 1 with the tag.
fn is_of_copies(state: &State, tag: &str, id: u32) -> bool
    ensures { result ≡ is_of_copies state.now tag.now id }
{
    match state.catalog.piece(id) {
        Some(piece) => (piece.copy || piece.kind == Kind::Level1) && piece.tag.as_str() == tag,
        None => false,
    }
}

/// Of records, by their ids, those of an image copy or a level 1 with the tag.
pub(crate) fn keep_of_copies(state: &State, tag: &str, skipped: Seq<(u32, Bad)>) -> Seq<(u32, Bad)>
    ensures { result ≡ filter (λ x. is_of_copies state.now tag.now x.0) skipped }
{
    let mut kept = skipped.into_vec();
    kept.retain(|x| is_of_copies(state, tag, x.0));
    Seq::from_vec(kept)
}

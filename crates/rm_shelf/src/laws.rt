//! Whatever is done at a desk as at any keeper, the other numbers of its shelf stay: the form in which a run
//! over a desk says so. The proof of the outer function picks what is noted, and the inner one has it.
ghost use Rattle.rm_shelf.specs.Shelved.{IsNoted, OthersStay};

use crate::desk::{Desk, Noted};
use crate::shelf::Shelf;
use rm_catalog::{Edit, Keeper, KeeperFail};
use std::marker::Brand;

// Any call that takes a keeper, of which nothing is known.
fn use_keeper<C: Keeper>(keeper: &mut C, edits: &[Edit]) -> Result<(), KeeperFail> {
    let _ = keeper.load()?;
    keeper.apply(edits)
}

fn use_noted<H: Shelf + Drop, B: Noted>(shelf: H, number: u32, edits: &[Edit]) -> H
    requires { IsNoted B.noted number (H.shelved shelf) }
    ensures { IsNoted B.noted number (H.shelved result) }
{
    let mut desk: Desk<H, B> = Desk::new(shelf, number);
    let _ = use_keeper(&mut desk, edits);
    desk.close()
}

/// A call that takes any keeper, made at a desk of this number, leaves the records of all other numbers.
pub fn a_desk_leaves_the_other_numbers<H: Shelf + Drop>(shelf: H, number: u32, edits: &[Edit]) -> H
    ensures { OthersStay number (H.shelved shelf) (H.shelved result) }
{
    use_noted::<H, Brand>(shelf, number, edits)
}

//! CONFIGURE RETENTION POLICY
ghost use Rattle.std.specs.Prelude.{◌≡◌, IfOk, None, OnOk, Option, true};
ghost use Rattle.rm_base.specs.Store.{Held};
ghost use Rattle.rm_catalog.specs.Facts.{IsPolicy};
ghost use Rattle.rm_machine.specs.{Configure.{policy_of, policy_refusal, retention_refusal, with_policy}, Hands.{Hands}, Sound.{IsSound}};
ghost use Rattle.rm_machine.specs.{Step.{IsStatement}, Upkeep.{with_catalog}};
ghost use Rattle.rm_catalog_typed.specs.Changes.{EditsFollow};
ghost use Rattle.rm_lang_statement.specs.{IsCommand.{is_retention}, declared.command.Command.TheVariants.{Retention}};

use rm_base::{Limit, NoMemory, Policy, Refusal};
use rm_catalog::{BaseEntry, Edit};
use rm_lang_statement::RetentionForm;
use rm_machine::handed::of_line;
use rm_machine::room::lacks_ids;
use rm_machine::{Handed, State};
use rm_report::Line;
use std::alloc::Global;

// Why a policy is refused, if it is.
fn policy_refusal(form: RetentionForm) -> Option<Refusal>
    ensures { result ≡ policy_refusal form }
{
    match form {
        RetentionForm::Window(days) if days > 36_500 => Some(Refusal::Rm11(Limit::WindowDays)),
        RetentionForm::Redundancy(count) if count > 1_000 => {
            Some(Refusal::Rm11(Limit::Redundancy))
        }
        _ => None,
    }
}

/// Why CONFIGURE RETENTION POLICY is refused, if it is: too few object ids are left, the window has more than 36,500
/// days, or the redundancy is more than 1,000 (RM-11).
pub fn retention_refusal(state: &State, form: RetentionForm) -> Option<Refusal>
    requires sound { IsSound state.now }
    ensures value { result ≡ retention_refusal state.now form }
{
    if lacks_ids(state, 0) {
        Some(Refusal::Rm11(Limit::ObjectIds))
    } else {
        policy_refusal(form)
    }
}

// The policy that a form asks for, which is in its range.
fn policy_of(form: RetentionForm) -> Policy
    requires command { is_retention form ≡ true }
    requires accepted { policy_refusal form ≡ None }
    ensures value { result ≡ policy_of form }
    ensures range { IsPolicy result }
{
    match form {
        RetentionForm::Window(days) => Policy::Window(days as u32),
        RetentionForm::Redundancy(count) => Policy::Redundancy(count as u32),
        RetentionForm::Nothing => Policy::Nothing,
        RetentionForm::Clear => Policy::Redundancy(1),
    }
}

// Sets the policy, and no other base fact.
fn set_policy(state: &mut State, edits: &mut Vec<Edit>, policy: Policy) -> Result<(), NoMemory>
    requires sound { IsSound state.old }
    requires range { IsPolicy policy }
    ensures value { OnOk result (state.new ≡ with_catalog state.old (with_policy state.old.catalog policy)) }
    ensures edits { OnOk result (EditsFollow edits.old.items edits.new.items state.old.catalog state.new.catalog) }
{
    let base = BaseEntry {
        policy,
        ..state.catalog.base()
    };
    state.catalog.set_base(edits, base)
}

/// CONFIGURE RETENTION POLICY: the policy is the one of the form, and CLEAR is REDUNDANCY 1. An error is want of memory;
/// then nothing is said of the state and the edits.
pub fn configure_retention(
    alloc: Global,
    state: &mut State,
    edits: &mut Vec<Edit>,
    form: RetentionForm,
) -> Result<Handed, NoMemory>
    requires command { IsStatement (Retention form) }
    requires sound { IsSound state.old }
    requires accepted { retention_refusal state.old form ≡ None }
    ensures hands { IfOk result (λ x. (held : Option Held) → Hands held state.old (Retention form) x state.new) }
    ensures edits { OnOk result (EditsFollow edits.old.items edits.new.items state.old.catalog state.new.catalog) }
{
    let policy = policy_of(form);
    let handed = of_line(alloc, Line::Retention { policy })?;
    set_policy(state, edits, policy)?;
    Ok(handed)
}

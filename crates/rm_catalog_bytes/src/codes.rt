//! The codes of truth values, statuses, kinds and policies.
ghost use Rattle.std.specs.Prelude.{◌≡◌, ◌≢◌, Bool, IfSome, IfNone};
ghost use Rattle.rm_base.specs.declared.kinds.{Kind.{Kind}, Status.{Status}, Policy.{Policy}};
ghost use Rattle.rm_catalog_bytes.specs.Spelling.{flag, status_code, kind_code, policy_code, policy_number};

use rm_base::{Kind, Policy, Status};

pub(crate) fn flag(value: bool) -> u8
    ensures { result ≡ flag value }
{
    if value { 1 } else { 0 }
}

pub(crate) fn status_code(status: Status) -> u8
    ensures { result ≡ status_code status }
{
    match status {
        Status::Available => 1,
        Status::Unavailable => 2,
        Status::Expired => 3,
    }
}

pub(crate) fn kind_code(kind: Kind) -> u8
    ensures { result ≡ kind_code kind }
{
    match kind {
        Kind::Full => 1,
        Kind::Level0 => 2,
        Kind::Level1 => 3,
        Kind::Place => 4,
    }
}

pub(crate) fn policy_code(policy: Policy) -> u8
    ensures { result ≡ policy_code policy }
{
    match policy {
        Policy::Window(_) => 1,
        Policy::Redundancy(_) => 2,
        Policy::Nothing => 3,
    }
}

pub(crate) fn policy_number(policy: Policy) -> u32
    ensures { result ≡ policy_number policy }
{
    match policy {
        Policy::Window(n) | Policy::Redundancy(n) => n,
        Policy::Nothing => 0,
    }
}

pub(crate) fn flag_of(code: u8) -> Option<bool>
    ensures some { IfSome result (λ b. flag b ≡ code) }
    ensures none { IfNone result ((b : Bool) → flag b ≢ code) }
{
    match code {
        0 => Some(false),
        1 => Some(true),
        _ => None,
    }
}

pub(crate) fn status_of(code: u8) -> Option<Status>
    ensures some { IfSome result (λ s. status_code s ≡ code) }
    ensures none { IfNone result ((s : Status) → status_code s ≢ code) }
{
    match code {
        1 => Some(Status::Available),
        2 => Some(Status::Unavailable),
        3 => Some(Status::Expired),
        _ => None,
    }
}

pub(crate) fn kind_of(code: u8) -> Option<Kind>
    ensures some { IfSome result (λ k. kind_code k ≡ code) }
    ensures none { IfNone result ((k : Kind) → kind_code k ≢ code) }
{
    match code {
        1 => Some(Kind::Full),
        2 => Some(Kind::Level0),
        3 => Some(Kind::Level1),
        4 => Some(Kind::Place),
        _ => None,
    }
}

pub(crate) fn policy_of(code: u8, n: u32) -> Option<Policy>
    ensures code { IfSome result (λ p. policy_code p ≡ code) }
    ensures number { IfSome result (λ p. policy_number p ≡ n) }
    ensures none { IfNone result ((p : Policy) → policy_code p ≡ code → policy_number p ≢ n) }
{
    match code {
        1 => Some(Policy::Window(n)),
        2 => Some(Policy::Redundancy(n)),
        3 if n == 0 => Some(Policy::Nothing),
        _ => None,
    }
}

//! What is so of each script of the drill.
ghost use Rattle.std.specs.Prelude.{ℕ, ◌≤◌, length};
ghost use Rattle.rm_drill.specs.Script.{script_text};

/// The script of each number is within the bytes that a script may have.
pub fn a_script_is_short()
    ensures { (number : ℕ) → length (script_text number) ≤ 4194304 }
{}

//! What holds of the definition.

ghost use Rattle.std.specs.Prelude.{◌≡◌, ◌≤◌, ◌+◌, ℕ, Bool, List, length};
ghost use Rattle.jsh_cut.specs.declared.held.Held.{Held};
ghost use Rattle.jsh_cut.specs.Commands.{before_exit, commands, cut_line, exits, has_exit, held_text, without_exit};

/// What is held has at most the bytes of what was held before, of the line, and one more.
pub fn held_texts_are_bounded()
    ensures { (before : Held) (line : List ℕ) → length (held_text (cut_line before line).held) ≤ length (held_text before) + length line + 1 }
{}

/// Of an input's commands the exit is the last one, and it is there once the input has ended or a line exits.
pub fn exits_end_commands()
    ensures without { (bytes : List ℕ) (ended : Bool) → without_exit (commands bytes ended) ≡ before_exit bytes ended }
    ensures has { (bytes : List ℕ) (ended : Bool) → has_exit (commands bytes ended) ≡ exits bytes ended }
{}

// Laws of what words call for.
ghost use Rattle.std.specs.Prelude.{◌≡◌, ◌⊎◌, ◌↔◌, true, false, List, [], ◌∷◌, codes};
ghost use Rattle.clap.specs.Words.{Text, fault_of};
ghost use Rattle.command_line.specs.declared.commands.Command.{Command};
ghost use Rattle.command_line.specs.Numbers.{may_be_left_out};
ghost use Rattle.command_line.specs.Commands.{IsCallOf, IsTaken, IsUsage, Spells, arguments_of, numbers_of, plain_app, said_by};

/// The same words call for one command at most, and not where they are refused.
///
/// Commands that one word names have the same arguments, and are told apart by their numbers.
pub fn law_one_reading()
    ensures one { (words : List Text) (a b : Command) →
        IsCallOf words a → IsCallOf words b → a ≡ b }
    ensures not_both { (words : List Text) (command : Command) →
        IsCallOf words command → IsUsage words → ⊥ }
    ensures arguments { (a b : Command) →
        (said_by a).0 ≡ (said_by b).0 → arguments_of a ≡ arguments_of b }
    ensures numbers { (a b : Command) →
        (said_by a).0 ≡ (said_by b).0 → numbers_of a ≡ numbers_of b → a ≡ b }
{}

/// The plainest words for a command are words that clap promises to take, and call for no other.
///
/// The command's word alone is such a list, or a fault where an argument may not be left out.
pub fn law_plain_words()
    ensures alone { (command : Command) →
        may_be_left_out (arguments_of command) ≡ true → IsTaken ((said_by command).0 ∷ []) }
    ensures wanting { (command : Command) →
        may_be_left_out (arguments_of command) ≡ false → IsUsage ((said_by command).0 ∷ []) }
    ensures taken { (words : List Text) (command : Command) →
        Spells words command → IsTaken words }
    ensures spelled { (words : List Text) (a b : Command) →
        IsCallOf words a → Spells words b → a ≡ b }
{}

/// A command without arguments takes no further word, but for one `--`.
pub fn law_further_words()
    ensures { (name : Text) (rest : List Text) →
        (fault_of (plain_app name) (name ∷ rest) ≡ []) ↔ ((rest ≡ []) ⊎ (rest ≡ codes "--" ∷ [])) }
{}

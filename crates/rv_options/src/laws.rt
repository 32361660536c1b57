//! Laws of the words of the command line: `clap`'s meaning covers them, and help is answered.
ghost use Rattle.std.specs.Prelude.{◌≡◌, [], ◌∷◌, List, codes, true};
ghost use Rattle.clap.specs.Faults.{is_simple_and_free};
ghost use Rattle.clap.specs.Words.{Text, fault_of};
ghost use Rattle.clap.specs.declared.error.kind.ErrorKind.TheVariants.{DisplayHelp};
ghost use Rattle.rv_options.specs.Board.{board_app};
ghost use Rattle.rv_options.specs.Usage.{usage_app};
ghost use Rattle.rv_options.specs.declared.usage.Usage.{Usage};

/// Law: the command is one of those of which `clap`'s meaning says the matches and the errors. So what
/// `read_words` ensures by them says something of all words.
pub fn words_have_a_meaning()
    ensures { is_simple_and_free board_app ≡ true }
{}

/// Law: so is the command of each usage. So what `parse_words` ensures says something of all words of every program.
pub fn usages_have_a_meaning()
    ensures { (usage : Usage) → is_simple_and_free (usage_app usage) ≡ true }
{}

/// Law: `--help` or `-h` in the first place asks for help, whatever follows.
pub fn help_is_answered()
    ensures long { (program : Text) (more : List Text)
        → fault_of board_app (program ∷ codes "--help" ∷ more) ≡ DisplayHelp ∷ [] }
    ensures short { (program : Text) (more : List Text)
        → fault_of board_app (program ∷ codes "-h" ∷ more) ≡ DisplayHelp ∷ [] }
{}

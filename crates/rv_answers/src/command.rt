//! The commands of the lab by their words, with their help.
ghost use Rattle.std.specs.Prelude.{◌≡◌};
ghost use Rattle.std.specs.List.{list_any};
ghost use Rattle.std.specs.Option.{option_map};
ghost use Rattle.std.specs.Str.{bytes_eq};
ghost use Rattle.rv_base.specs.Words.{words};
ghost use Rattle.rv_answers.specs.Commands.{command_named, commands, help_word};
ghost use Rattle.rv_answers.specs.Support.Commands.{named, named_in};

use rv_base::first_word;

/// A command that moves the board, after which an empty line takes a single step.
#[derive(Clone, Copy)]
pub enum Move {
    /// `c`
    Go,
    /// `finish`
    Finish,
    /// `until`
    Until,
    /// `trace`
    Trace,
    /// `u`
    Back,
}

/// What a line asks for.
#[derive(Clone, Copy)]
pub enum Command {
    Step,
    Over,
    NextC,
    Moves(Move),
    Where,
    Backtrace,
    List,
    Break,
    Clear,
    Registers,
    ControlRegister,
    Memory,
    Instruction,
    Traps,
    Edges,
    Why,
    Check,
    Profile,
    Display,
    Undisplay,
    Watch,
    Unwatch,
    Devices,
    Receive,
    Line,
    Save,
    Reload,
    Monitor,
    Help,
    Quit,
    /// An empty line: the last step or list command again.
    Again,
    /// What an empty line does after a command that moved the board, or at first: a single step.
    StepOnce,
    /// A comment.
    Nothing,
    /// A line whose first word is no command.
    Unknown,
    /// A line of more than 1,024 bytes.
    TooLong,
}

/// A command with its help.
#[derive(Clone, Copy)]
pub(crate) struct CommandRow {
    /// The command.
    pub(crate) command: Command,
    /// The command with its operands.
    pub(crate) form: &'static str,
    /// An example.
    pub(crate) example: &'static str,
    /// What it does.
    pub(crate) does: &'static str,
}

/// Gives a macro what stands behind its name, and then the commands, in the order of the help.
///
/// A row is a command with its words, of which the first is that of the help, and the others are as other tools have
/// them; then the command with its operands, an example, and what it does.
macro_rules! table {
    ($rows:ident $given:tt) => {
        $rows! {
            $given
            (Step "s" ["step" "si"] "s [N]" "s 5" "takes N steps, or one")
            (Moves(Go) "c" ["continue" "run" "go"] "c [N]" "c 500"
                "goes on up to a breakpoint, for N steps at most (1000000 without N)")
            (Over "next" ["n" "ni"] "next" "next" "goes on past the line here, and past the calls that it makes")
            (NextC "nextc" [] "nextc" "nextc"
                "goes on to the next place of the C source, past calls: to a label as `main.16` of tools/cc")
            (Moves(Finish) "finish" ["fin"] "finish" "finish"
                "goes on until the present function or handler has returned")
            (Moves(Until) "until" [] "until WHAT [N]" "until [0x80001000] != 0"
                "goes on until `trap`, `console`, a line or an address, `REG` or `[ADDR]` changes, or `REG = V` (also != < <= > >=) holds, for N steps at most (1000000 without N)")
            (Moves(Trace) "trace" [] "trace [N]" "trace 20"
                "takes N steps (10 without N), and tells each: its line, and what it changed")
            (Moves(Back) "u" ["undo" "back"] "u [N|until WHAT]" "u 3"
                "goes N steps back, or back to before the last command, or to the last step before now after which WHAT held")
            (Where "w" ["where"] "w" "w" "tells where the program is")
            (Backtrace "bt" ["backtrace"] "bt" "bt"
                "tells by which calls and traps the program came here, as far as the code tells it")
            (List "l" ["list"] "l [WHERE] [N]" "l main 5"
                "lists N lines of the source (11 without N) round a line, an address or a name, or here")
            (Break "b" ["break"] "b [WHERE [if WHAT] [after N]]" "b 12 after 3"
                "sets a breakpoint at a line, an address or a name, which stops a run only if WHAT holds, as in `until`, and from the Nth such time on; or lists them, and what is watched")
            (Clear "d" ["delete" "clear"] "d WHERE" "d 12" "clears a breakpoint")
            (Registers "r" ["reg" "regs" "registers"] "r [REG]" "r sp"
                "shows the registers, with a star where the last command changed one")
            (ControlRegister "p" [] "p CSR" "p mstatus" "shows a control register, and what its bits say")
            (Memory "m" ["mem" "x"] "m WHERE [N] [w|t]" "m sp 8 w"
                "shows N bytes of memory (64 without N, at most 4096), N words with `w`, the text with `t`")
            (Instruction "i" [] "i [WHERE]" "i 0x80000010" "shows an instruction")
            (Traps "t" ["traps"] "t" "t" "shows the last traps with their lines")
            (Edges "e" [] "e N" "e 24" "shows how many edges of source N are pending")
            (Why "why" [] "why [REG|WHERE [N]]" "why a0"
                "explains the first trap that met no handler, or else the last trap; of a register or a word, tells the last step that wrote it (before step N), and alone after that the one before")
            (Check "check" [] "check [N]" "check"
                "runs a copy from reset on, up to the halt, for N steps at most (1000000 without N), and tells each breach of the calling convention")
            (Profile "profile" [] "profile [N]" "profile"
                "runs a copy from reset on, up to the halt, for N steps at most (1000000 without N), and tells how many steps each function and each line took")
            (Display "display" [] "display REG|WHERE" "display a0"
                "shows a register or a word, and from then on after each command that moved the board")
            (Undisplay "undisplay" [] "undisplay [WHAT]" "undisplay a0"
                "ends what was asked for by `display WHAT`, or all of it")
            (Watch "watch" [] "watch [REG|WHERE]" "watch a0"
                "has each run stop after the first step that changes a register or a word; or lists what is watched")
            (Unwatch "unwatch" [] "unwatch [REG|WHERE]" "unwatch a0"
                "ends what was asked for by `watch`, of one or of all")
            (Devices "dev" [] "dev" "dev" "shows timer, serial port, interrupts and protection")
            (Receive "rx" [] "rx TEXT|HH .." "rx \"hi\\n\""
                "has the serial port receive a text between quotes, or bytes in hexadecimal, now")
            (Line "line" [] "line N V" "line 5 1"
                "makes the line of interrupt source N high (V is 1) or low (V is 0), now")
            (Save "save" [] "save [NAME]" "save lesson"
                "shows what was done as a timed list and commands for rvboard, or writes them to NAME.input and NAME.commands")
            (Reload "reload" [] "reload" "reload"
                "reads the source again and begins anew, with the same breakpoints by their lines, watches, inputs and displays")
            (Monitor "monitor" [] "monitor LINE" "monitor m 0x80000000 16"
                "does a command exactly as rvboard's monitor does")
            (Help "help" ["h"] "help [COMMAND]" "help until" "shows the commands, or one with an example")
            (Quit "q" ["exit" "quit"] "q" "q" "ends the lab")
        }
    };
}

/// Expands to the rows of the commands by their words.
macro_rules! rows_by_words {
    (() $((
        $command:ident $(($moves:ident))? $word:literal [$($other:literal)*] $form:literal $example:literal $does:literal
    ))*) => {
        [$((
            concat!($word $(, " ", $other)*),
            CommandRow {
                command: Command::$command $((Move::$moves))?,
                form: $form,
                example: $example,
                does: $does,
            },
        ),)*]
    };
}

/// Expands to the word of a command in the help.
macro_rules! word_of {
    (($given:ident) $(($command:ident $(($moves:ident))? $word:literal $($help:tt)*))*) => {
        match $given {
            $(Command::$command $((Move::$moves))? => $word,)*
            Command::Again | Command::StepOnce | Command::Nothing | Command::Unknown | Command::TooLong => "",
        }
    };
}

/// The commands by their words.
static COMMANDS: [(&str, CommandRow); 34] = table!(rows_by_words());

/// Returns the commands by their words. A long table is read in one place, since each costs its whole proof.
#[tactic(auto, unfolding(crate::specs::Commands::commands))]
pub(crate) fn commands() -> &'static [(&'static str, CommandRow)]
    ensures { named result.now ≡ commands }
{
    &COMMANDS
}

/// Returns whether a word is among those of a text.
fn has(text: &[u8], word: &[u8]) -> bool
    ensures { result ≡ list_any (bytes_eq word.now) (words text.now) }
{
    let Some((first, rest)) = first_word(text) else {
        return false;
    };
    word == first || has(rest, word)
}

/// Returns the row of a word in a table.
fn row_in(table: &'static [(&'static str, CommandRow)], word: &[u8]) -> Option<CommandRow>
    ensures { option_map (λ r. r.command) result ≡ named_in word.now (named table.now) }
{
    let [row, rest @ ..] = table else {
        return None;
    };
    if has(row.0.as_bytes(), word) {
        return Some(row.1);
    }
    row_in(rest, word)
}

/// Returns the row of a command by its word.
pub(crate) fn command_row(word: &[u8]) -> Option<CommandRow>
    ensures { option_map (λ r. r.command) result ≡ command_named word.now }
{
    row_in(commands(), word)
}

/// Returns the command that a word names.
pub fn command_named(word: &[u8]) -> Option<Command>
    ensures { result ≡ command_named word.now }
{
    Some(command_row(word)?.command)
}

/// Returns the word of a command in the help. What no word asks for has none.
#[tactic(auto, unfolding(crate::specs::Commands::help_word))]
pub fn command_word(command: Command) -> &'static str
    ensures { result.now ≡ help_word command }
{
    table!(word_of(command))
}

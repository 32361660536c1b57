//! Commands of the monitor.
ghost use Rattle.std.specs.Prelude.{◌≡◌, true, None, IfOk, OnErr, OnOk};
ghost use Rattle.rv_answers.specs.declared.answer.Answer.TheVariants as answers;
ghost use Rattle.rv_lab.specs.Commands.{monitor_next, with_session};
ghost use Rattle.rv_lab.specs.Support.Short.{Executes, monitored_run};
ghost use Rattle.rv_lab.specs.declared.order.Order.TheVariants as orders;
ghost use Rattle.rv_monitor.specs.Commands as monitor;
ghost use Rattle.rv_monitor.specs.Commands.{command_in};
ghost use Rattle.rv_program.specs.Program.{value_of};

use crate::lab::{Done, Lab, Next};
use rv_answers::{Answer, Many};
use rv_base::NoMemory;
use rv_commands::{Command, SymbolLookup, read_command};
use rv_monitor::Next as Monitored;
use rv_program::Program;
use rv_runs::{Goal, Plan};

/// The symbols of a program, for the addresses in commands.
#[derive(Drop)]
struct ProgramSymbols<'a>(&'a Program);

impl<'a> SymbolLookup for ProgramSymbols<'a> {
    ghost symbols = { λ symbols. value_of symbols.0.now.symbols };

    fn symbol(&self, name: &[u8]) -> Option<i64> {
        self.0.symbol(name)
    }
}

/// Returns the plan of a run whose end the monitor tells.
fn monitored(goal: Goal, left: u64) -> Plan
    ensures { result ≡ record { goal = goal; left = left; is_monitored = true } }
{
    Plan {
        goal,
        left,
        is_monitored: true,
    }
}

/// Answers what the monitor printed.
fn printed(text: Vec<u8>) -> Answer
    ensures { result ≡ answers.Monitor text.items }
{
    Answer::Monitor(Many::of(text))
}

impl Lab {
    /// Returns the run that a line of the monitor asks for, if it does.
    #[tactic(auto, using(crate::proofs::Obeyed::no_run))]
    pub(crate) fn monitored_run(&self, line: &[u8]) -> Option<Plan>
        ensures { result ≡ monitored_run line.now self.now.recording.session }
    {
        let session = self.recording.session();
        let limit = session.limit();
        match read_command(line, &ProgramSymbols(session.program()))? {
            Command::Step { count } => Some(monitored(Goal::Count, count)),
            Command::Go { count } => Some(monitored(Goal::Break, count.unwrap_or(limit))),
            _ => None,
        }
    }

    /// Executes a command of the monitor that takes no step, and answers what it prints.
    #[tactic(auto, using(crate::proofs::Obeyed::looks_refused, crate::proofs::Obeyed::more_follows, crate::proofs::Obeyed::quit_follows))]
    fn monitor_look(&mut self, line: &[u8]) -> Result<Done, NoMemory>
        requires { monitored_run line.now self.old.recording.session ≡ None }
        ensures next { IfOk result
            (λ d. d.next ≡ monitor_next (command_in line.now self.old.recording.session)) }
        ensures others { OnOk result (self.new ≡ with_session self.old self.new.recording.session) }
        ensures leaves { OnOk result (monitor.Leaves (command_in line.now self.old.recording.session)
            self.old.recording.session self.new.recording.session) }
        ensures answers { IfOk result
            (λ d. d.answer ≡ answers.Monitor (monitor.answer (command_in line.now self.old.recording.session)
            self.old.recording.session self.new.recording.session)) }
        ensures err { OnErr result (self.new ≡ self.old) }
    {
        let mut text = Vec::new(self.alloc);
        let next = self.recording.command(line, &mut text)?;
        let answer = printed(text);
        match next {
            Monitored::More => Ok(Done::more(answer)),
            Monitored::Quit => Ok(Done {
                next: Next::Quit,
                answer,
            }),
        }
    }

    /// Executes `monitor`: a run goes in pieces, as the lab's do.
    pub(crate) fn monitor_command(&mut self, operands: &[u8]) -> Result<Done, NoMemory>
        ensures { Executes (orders.Monitor operands.now) self.old self.new result }
    {
        match self.monitored_run(operands) {
            Some(plan) => self.start(plan),
            None => self.monitor_look(operands),
        }
    }
}

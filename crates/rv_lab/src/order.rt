//! What a command line asks for, its operands read.
ghost use Rattle.std.specs.Prelude.{◌≡◌, ◌<◌, [], if◌then◌else◌, is_some, IfOk};
ghost use Rattle.rv_base.specs.Words.{words};
ghost use Rattle.rv_answers.specs.declared.command.Command.TheVariants as command;
ghost use Rattle.rv_answers.specs.declared.answer.Why.TheVariants as why;
ghost use Rattle.rv_answers.specs.declared.command.Move.TheVariants as moves;
ghost use Rattle.rv_lab.specs.Answers.{refused};
ghost use Rattle.rv_lab.specs.Orders.{again_order, back_order, back_until, break_at, break_order, command_order, condition_text, guard_order, help_order, here, list_order, list_round, next_order, nextc_order, or_refused, save_order, steps_order, watch_one, why_order};
ghost use Rattle.rv_lab.specs.Words.{count_of};
ghost use Rattle.rv_operands.specs.Operands.{leading, line_number};
ghost use Rattle.rv_lab.specs.Commands.{planned};
ghost use Rattle.rv_lab.specs.State.{board, listing};
ghost use Rattle.rv_lab.specs.declared.order.Order.TheVariants as orders;

use crate::command::CommandLine;
use crate::lab::Lab;
use crate::operands::{count_or, passes};
use crate::places::line_at;
use crate::run::{MOST_STEPS, MOST_TRACED, USUAL_STEPS, USUAL_TRACED, planned};
use crate::source::{Excerpt, MOST_LINES, USUAL_LINES};
use crate::trail::Trail;
use crate::watch::MOST_WATCHED;
use rv_answers::{Answer, Command, Many, Move, Why, command_named, push};
use rv_base::{NoMemory, first_word, has_word};
use rv_operands::{
    Leading, line_number, only_word, operands_of, read_bytes_inputs, trimmed, without_last,
};
use rv_recording::{Condition, LAST_STEP, Span, Watched};
use rv_runs::{Goal, Guard, Plan, place_of};
use rv_timeline::{Input, line_input};
use rv_why::last_met;

/// What a command line asks for.
#[derive(Drop)]
pub(crate) enum Order {
    /// To take a single step.
    Once,
    /// To take some steps.
    Steps(u64),
    /// To begin a run.
    Run(Plan),
    /// To go back by some steps.
    Back(u64),
    /// To list lines of the source, and whether they follow those that were listed last.
    List(Excerpt, bool),
    /// To make the address of a guard a breakpoint.
    Break(Guard),
    /// To remove a breakpoint.
    Clear(u32),
    /// To watch a register or a word.
    Watch(Watched),
    /// To watch one no more, or none.
    Unwatch(Option<Watched>),
    /// To give the board inputs before its next step.
    Give(Many<Input>),
    /// To do what a line asks the monitor for.
    Monitor(Many<u8>),
    /// To save what was done, under a name or as an answer.
    Save(Option<Many<u8>>),
    /// To explain a trap.
    Explain,
    /// To tell the last write of what is followed.
    Origin(Trail),
    /// To end the lab.
    Quit,
    /// Nothing but this answer.
    Answered(Answer),
}

/// Returns the condition of `b` as it was given, by what follows it.
fn condition_text<'a>(operands: &'a [u8], rest: &[u8]) -> &'a [u8]
    ensures { result.now ≡ condition_text operands.now (words rest.now) }
{
    let text = operands_of(operands_of(operands));
    if has_word(rest) {
        return trimmed(without_last(without_last(text)));
    }
    trimmed(text)
}

/// Returns the order for a number of steps.
fn steps_order(count: u64) -> Order
    ensures { result ≡ steps_order count }
{
    if count == 1 {
        return Order::Once;
    }
    Order::Steps(count)
}

impl Lab {
    /// Returns a copy of some bytes.
    pub(crate) fn copied(&self, bytes: &[u8]) -> Result<Many<u8>, NoMemory>
        ensures { IfOk result (λ m. m ≡ bytes.now) }
    {
        Ok(Many::of(Vec::from_slice(self.alloc, bytes)?))
    }

    /// Refuses operands.
    fn refuse(&self, command: Command, text: &[u8], why: Why) -> Result<Order, NoMemory>
        ensures { IfOk result (λ o. o ≡ orders.Answered (refused command text.now why)) }
    {
        Ok(Order::Answered(self.refused(command, text, why)?))
    }

    /// Reads the operands of `s`.
    #[tactic(auto, unfolding(crate::specs::Orders::command_order))]
    fn step_order(&self, operands: &[u8]) -> Result<Order, NoMemory>
        ensures { IfOk result (λ o. o ≡ command_order command.Step [] operands.now self.now) }
    {
        match count_or(operands, 1, MOST_STEPS) {
            Some(count) => Ok(steps_order(count)),
            None => self.refuse(Command::Step, operands, Why::NoSteps),
        }
    }

    /// Reads how many steps a run takes at most that goes on for something.
    fn goal_order(
        &self,
        moves: Move,
        operands: &[u8],
        goal: Goal,
        usual: u64,
        most: u64,
    ) -> Result<Order, NoMemory>
        requires { most < 10000000000 }
        ensures { IfOk result (λ o. o ≡ or_refused (count_of usual most (words operands.now))
            (λ n. orders.Run (planned goal n)) (refused (command.Moves moves) operands.now why.NoSteps)) }
    {
        match count_or(operands, usual, most) {
            Some(most) => Ok(Order::Run(planned(goal, most))),
            None => self.refuse(Command::Moves(moves), operands, Why::NoSteps),
        }
    }

    /// Reads the operands of `until`.
    #[tactic(auto, unfolding(crate::specs::Orders::command_order))]
    fn until_order(&self, operands: &[u8]) -> Result<Order, NoMemory>
        ensures { IfOk result (λ o. o ≡ command_order (command.Moves moves.Until) [] operands.now self.now) }
    {
        let Leading { condition, rest } = self.scope().leading(operands);
        let Some(condition) = condition else {
            return self.refuse(Command::Moves(Move::Until), operands, Why::NoCondition);
        };
        match count_or(rest, USUAL_STEPS, MOST_STEPS) {
            Some(most) => Ok(Order::Run(planned(Goal::Until(condition), most))),
            None => self.refuse(Command::Moves(Move::Until), operands, Why::NoSteps),
        }
    }

    /// Reads the condition of `u until`, which stands in `text`.
    #[tactic(auto, unfolding(crate::specs::Orders::back_until))]
    fn back_until(&self, operands: &[u8], text: &[u8]) -> Result<Order, NoMemory>
        ensures { IfOk result (λ o. o ≡ back_until operands.now self.now (leading (listing self.now) (board self.now) (words text.now))) }
    {
        let Leading { condition, rest } = self.scope().leading(text);
        let (Some(condition), false) = (condition, has_word(rest)) else {
            return self.refuse(Command::Moves(Move::Back), operands, Why::NoCondition);
        };
        let now = self.recording.steps();
        match last_met(&self.recording, condition, now.saturating_sub(1))? {
            Some(before) => Ok(Order::Back(now.saturating_sub(before.saturating_add(1)))),
            None => self.refuse(Command::Moves(Move::Back), operands, Why::NeverMet),
        }
    }

    /// Reads the operands of `u`.
    #[tactic(auto, unfolding(crate::specs::Orders::back_order))]
    fn back_order(&self, operands: &[u8]) -> Result<Order, NoMemory>
        ensures { IfOk result (λ o. o ≡ back_order operands.now (words operands.now) self.now) }
    {
        if let Some((word, rest)) = first_word(operands)
            && word == b"until".as_slice()
        {
            return self.back_until(operands, rest);
        }
        let usual = self.recording.steps().saturating_sub(self.last.steps);
        match count_or(operands, usual, LAST_STEP) {
            Some(count) => Ok(Order::Back(count)),
            None => self.refuse(Command::Moves(Move::Back), operands, Why::NoSteps),
        }
    }

    /// Reads the operands of a command that moves the board.
    #[tactic(auto, unfolding(crate::specs::Orders::command_order))]
    fn move_order(&self, moves: Move, operands: &[u8]) -> Result<Order, NoMemory>
        ensures { IfOk result (λ o. o ≡ command_order (command.Moves moves) [] operands.now self.now) }
    {
        match moves {
            Move::Go => {
                let goal = self.last.resumes;
                self.goal_order(moves, operands, goal, USUAL_STEPS, MOST_STEPS)
            }
            Move::Finish => Ok(Order::Run(planned(Goal::Out(1, None), USUAL_STEPS))),
            Move::Until => self.until_order(operands),
            Move::Trace => {
                self.goal_order(moves, operands, Goal::Trace, USUAL_TRACED, MOST_TRACED)
            }
            Move::Back => self.back_order(operands),
        }
    }

    /// Reads how many lines round one are listed.
    fn list_round(&self, rest: &[u8], line: usize) -> Result<Order, NoMemory>
        ensures { IfOk result (λ o. o ≡ list_round (words rest.now) line) }
    {
        match count_or(rest, USUAL_LINES, MOST_LINES) {
            Some(count) => Ok(Order::List(Excerpt::round(line, count), false)),
            None => self.refuse(Command::List, b"", Why::NoCount),
        }
    }

    /// Reads the operands of `l`.
    #[tactic(auto, unfolding(crate::specs::Orders::list_order))]
    fn list_order(&self, operands: &[u8]) -> Result<Order, NoMemory>
        ensures { IfOk result (λ o. o ≡ list_order (words operands.now) self.now) }
    {
        let Some((word, rest)) = first_word(operands) else {
            let here = line_at(self.listing(), self.board().pc());
            return self.list_round(operands, here.unwrap_or(1));
        };
        if let Some(line) = line_number(word) {
            return self.list_round(rest, line as usize);
        }
        let Some(address) = self.scope().address(word) else {
            return self.refuse(Command::List, word, Why::NoAddress);
        };
        match line_at(self.listing(), address) {
            Some(line) => self.list_round(rest, line),
            None => self.refuse(Command::List, b"", Why::NoLine(address)),
        }
    }

    /// Refuses a word that is no address of a breakpoint.
    fn refuse_place(&self, command: Command, word: &[u8]) -> Result<Order, NoMemory>
        ensures { IfOk result (λ o. o ≡ orders.Answered (refused command word.now
            (if is_some (line_number word.now) then why.NoBytesThere else why.NoAddress))) }
    {
        if line_number(word).is_some() {
            return self.refuse(command, word, Why::NoBytesThere);
        }
        self.refuse(command, word, Why::NoAddress)
    }

    /// Reads the words that follow a breakpoint at a word, or its condition, which was given as `given`.
    #[tactic(auto, unfolding(crate::specs::Orders::break_at))]
    fn break_at(
        &self,
        operands: &[u8],
        word: &[u8],
        condition: Option<Condition>,
        given: &[u8],
        rest: &[u8],
    ) -> Result<Order, NoMemory>
        ensures { IfOk result (λ o. o ≡ break_at operands.now word.now self.now condition given.now (words rest.now)) }
    {
        let Some(passes) = passes(rest) else {
            return self.refuse(Command::Break, operands, Why::NoHits);
        };
        let Some(address) = self.scope().break_place(word) else {
            return self.refuse_place(Command::Break, word);
        };
        let text = self.copied(given)?;
        Ok(Order::Break(Guard {
            address,
            condition,
            text,
            passes,
        }))
    }

    /// Reads the condition of a breakpoint at a word, which stands in `text`.
    #[tactic(auto, unfolding(crate::specs::Orders::guard_order))]
    fn guard_order(&self, operands: &[u8], word: &[u8], text: &[u8]) -> Result<Order, NoMemory>
        ensures { IfOk result (λ o. o ≡ guard_order operands.now word.now self.now (leading (listing self.now) (board self.now) (words text.now))) }
    {
        let Leading { condition, rest } = self.scope().leading(text);
        match condition {
            None | Some(Condition::Trap) => {
                self.refuse(Command::Break, operands, Why::NoCondition)
            }
            condition => {
                let given = condition_text(operands, rest);
                self.break_at(operands, word, condition, given, rest)
            }
        }
    }

    /// Reads the operands of `b`.
    #[tactic(auto, unfolding(crate::specs::Orders::break_order))]
    fn break_order(&self, operands: &[u8]) -> Result<Order, NoMemory>
        ensures { IfOk result (λ o. o ≡ break_order operands.now (words operands.now) self.now) }
    {
        let Some((word, rest)) = first_word(operands) else {
            return Ok(Order::Answered(self.breakpoints_answer()?));
        };
        if let Some((second, text)) = first_word(rest)
            && second == b"if".as_slice()
        {
            return self.guard_order(operands, word, text);
        }
        self.break_at(operands, word, None, b"", rest)
    }

    /// Reads the operands of `d`.
    #[tactic(auto, unfolding(crate::specs::Orders::command_order))]
    fn clear_order(&self, operands: &[u8]) -> Result<Order, NoMemory>
        ensures { IfOk result (λ o. o ≡ command_order command.Clear [] operands.now self.now) }
    {
        let Some(word) = only_word(operands) else {
            return self.refuse(Command::Clear, b"", Why::NotOne);
        };
        match self.scope().break_place(word) {
            Some(address) => Ok(Order::Clear(address)),
            None => self.refuse_place(Command::Clear, word),
        }
    }

    /// Returns the order to watch a register or a word, of 16 at most.
    fn watch_one(&self, watched: Watched) -> Result<Order, NoMemory>
        ensures { IfOk result (λ o. o ≡ watch_one watched self.now) }
    {
        if place_of(&self.watches, &watched).is_none() && self.watches.len() >= MOST_WATCHED {
            return self.refuse(Command::Watch, b"", Why::TooMany);
        }
        Ok(Order::Watch(watched))
    }

    /// Reads the operands of `watch`.
    #[tactic(auto, unfolding(crate::specs::Orders::command_order, crate::specs::Orders::watched_order))]
    fn watch_order(&self, operands: &[u8]) -> Result<Order, NoMemory>
        ensures { IfOk result (λ o. o ≡ command_order command.Watch [] operands.now self.now) }
    {
        if !has_word(operands) {
            return Ok(Order::Answered(Answer::Watches(self.watches_of()?)));
        }
        let Some(word) = only_word(operands) else {
            return self.refuse(Command::Watch, b"", Why::NotOne);
        };
        match self.scope().followed(word) {
            Some(watched) => self.watch_one(watched),
            None => self.refuse(Command::Watch, word, Why::NoAddress),
        }
    }

    /// Reads the operands of `unwatch`.
    #[tactic(auto, unfolding(crate::specs::Orders::command_order, crate::specs::Orders::watched_order))]
    fn unwatch_order(&self, operands: &[u8]) -> Result<Order, NoMemory>
        ensures { IfOk result (λ o. o ≡ command_order command.Unwatch [] operands.now self.now) }
    {
        if !has_word(operands) {
            return Ok(Order::Unwatch(None));
        }
        let Some(word) = only_word(operands) else {
            return self.refuse(Command::Unwatch, b"", Why::NotOne);
        };
        match self.scope().followed(word) {
            Some(watched) => Ok(Order::Unwatch(Some(watched))),
            None => self.refuse(Command::Unwatch, word, Why::NoAddress),
        }
    }

    /// Reads the operands of `rx`.
    #[tactic(auto, unfolding(crate::specs::Orders::command_order))]
    fn receive_order(&self, operands: &[u8]) -> Result<Order, NoMemory>
        ensures { IfOk result (λ o. o ≡ command_order command.Receive [] operands.now self.now) }
    {
        let inputs = read_bytes_inputs(self.alloc, operands)?.unwrap_or(Vec::new(self.alloc));
        if inputs.is_empty() {
            return self.refuse(Command::Receive, operands, Why::NoBytes);
        }
        Ok(Order::Give(Many::of(inputs)))
    }

    /// Reads the operands of `line`.
    #[tactic(auto, unfolding(crate::specs::Orders::command_order))]
    fn line_order(&self, operands: &[u8]) -> Result<Order, NoMemory>
        ensures { IfOk result (λ o. o ≡ command_order command.Line [] operands.now self.now) }
    {
        let Some(input) = line_input(operands) else {
            return self.refuse(Command::Line, operands, Why::NoLevel);
        };
        let mut inputs = Vec::new(self.alloc);
        push(&mut inputs, input)?;
        Ok(Order::Give(Many::of(inputs)))
    }

    /// Reads the operands of `save`.
    #[tactic(auto, unfolding(crate::specs::Orders::save_order))]
    fn save_order(&self, operands: &[u8]) -> Result<Order, NoMemory>
        ensures { IfOk result (λ o. o ≡ save_order operands.now (words operands.now)) }
    {
        if !has_word(operands) {
            return Ok(Order::Save(None));
        }
        match only_word(operands) {
            Some(name) => Ok(Order::Save(Some(self.copied(name)?))),
            None => self.refuse(Command::Save, operands, Why::NotOne),
        }
    }

    /// Reads the operands of `help`.
    #[tactic(auto, unfolding(crate::specs::Orders::help_order))]
    fn help_order(&self, operands: &[u8]) -> Result<Order, NoMemory>
        ensures { IfOk result (λ o. o ≡ help_order operands.now (words operands.now)) }
    {
        if !has_word(operands) {
            return Ok(Order::Answered(Answer::Help(None)));
        }
        match only_word(operands).and_then(|name| command_named(name)) {
            Some(command) => Ok(Order::Answered(Answer::Help(Some(command)))),
            None => self.refuse(Command::Help, operands, Why::NoCommand),
        }
    }

    /// Reads the operands of `why`.
    #[tactic(auto, unfolding(crate::specs::Orders::why_order))]
    fn why_order(&self, operands: &[u8]) -> Result<Order, NoMemory>
        ensures { IfOk result (λ o. o ≡ why_order (words operands.now) self.now) }
    {
        let Some((word, rest)) = first_word(operands) else {
            return Ok(match self.last.trail {
                Some(trail) => Order::Origin(trail),
                None => Order::Explain,
            });
        };
        let Some(watched) = self.scope().followed(word) else {
            return self.refuse(Command::Why, word, Why::NoAddress);
        };
        match count_or(rest, LAST_STEP + 1, LAST_STEP) {
            Some(count) => {
                let steps = count.saturating_sub(1);
                Ok(Order::Origin(Trail { watched, steps }))
            }
            None => self.refuse(Command::Why, word, Why::NoSteps),
        }
    }

    /// Reads a line of the monitor.
    #[tactic(auto, unfolding(crate::specs::Orders::command_order))]
    fn monitor_order(&self, line: &[u8]) -> Result<Order, NoMemory>
        ensures { IfOk result (λ o. o ≡ command_order command.Monitor [] line.now self.now) }
    {
        Ok(Order::Monitor(self.copied(line)?))
    }

    /// Returns the line at pc, if there is one.
    fn here(&self) -> Option<Span>
        ensures { result ≡ here self.now }
    {
        let listing = self.listing();
        let line = line_at(listing, self.board().pc())?;
        let address = listing.address(line)?;
        let size = listing.bytes(line).len();
        Some(Span { address, size })
    }

    /// Returns the order of `next`: to go on past the line at pc.
    fn next_order(&self) -> Order
        ensures { result ≡ next_order self.now }
    {
        Order::Run(planned(Goal::Out(0, self.here()), USUAL_STEPS))
    }

    /// Returns the order of `nextc`.
    #[tactic(auto, unfolding(crate::specs::Orders::nextc_order))]
    fn nextc_order(&self) -> Result<Order, NoMemory>
        ensures { IfOk result (λ o. o ≡ nextc_order self.now) }
    {
        if self.marks.is_empty() {
            return self.refuse(Command::NextC, b"", Why::NoMarks);
        }
        Ok(Order::Run(planned(Goal::Mark(0), USUAL_STEPS)))
    }

    /// Returns what an empty line asks for.
    fn again_order(&self) -> Result<Order, NoMemory>
        ensures { IfOk result (λ o. o ≡ again_order self.now.again self.now) }
    {
        match self.last.command {
            Command::Step => Ok(steps_order(self.last.count)),
            Command::StepOnce => Ok(Order::Once),
            Command::Over => Ok(self.next_order()),
            Command::NextC => self.nextc_order(),
            Command::List => {
                let after = self.last.listed;
                let count = USUAL_LINES as usize;
                Ok(Order::List(Excerpt { after, count }, true))
            }
            _ => Ok(Order::Answered(Answer::Nothing)),
        }
    }

    /// Returns what a line asks for.
    ///
    /// # Errors
    ///
    /// `NoMemory` if memory runs out.
    #[tactic(auto, unfolding(crate::specs::Orders::command_order))]
    pub(crate) fn read_order(&self, line: CommandLine<'_>) -> Result<Order, NoMemory>
        ensures { IfOk result (λ o. o ≡ command_order line.entry.command line.entry.word.now line.entry.operands.now self.now) }
    {
        match line.command {
            Command::Step => self.step_order(line.operands),
            Command::Over => Ok(self.next_order()),
            Command::NextC => self.nextc_order(),
            Command::Moves(moves) => self.move_order(moves, line.operands),
            Command::List => self.list_order(line.operands),
            Command::Break => self.break_order(line.operands),
            Command::Clear => self.clear_order(line.operands),
            Command::Watch => self.watch_order(line.operands),
            Command::Unwatch => self.unwatch_order(line.operands),
            Command::Receive => self.receive_order(line.operands),
            Command::Line => self.line_order(line.operands),
            Command::Save => self.save_order(line.operands),
            Command::Monitor => self.monitor_order(line.operands),
            Command::Why => self.why_order(line.operands),
            Command::Help => self.help_order(line.operands),
            Command::Quit => Ok(Order::Quit),
            Command::Again => self.again_order(),
            Command::Unknown => Ok(Order::Answered(Answer::NoCommand(self.copied(line.word)?))),
            Command::TooLong => Ok(Order::Answered(Answer::TooLong)),
            command => Ok(Order::Answered(self.look_answer(command, line.operands)?)),
        }
    }
}

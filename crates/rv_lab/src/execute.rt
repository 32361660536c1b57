//! The execution of an order.
ghost use Rattle.std.specs.Prelude.{◌≡◌, None};
ghost use Rattle.rv_lab.specs.Support.Short.{Executes};
ghost use Rattle.rv_lab.specs.declared.lab.Next.TheVariants as after;
ghost use Rattle.rv_lab.specs.declared.order.Order.TheVariants as orders;

use crate::lab::{Done, Lab, Next};
use crate::order::Order;
use crate::source::Excerpt;
use rv_answers::Answer;
use rv_base::NoMemory;

impl Done {
    /// Returns an answer after which another command follows.
    pub(crate) fn more(answer: Answer) -> Done
        ensures { result ≡ record { next = after.More; answer = answer } }
    {
        Done {
            next: Next::More,
            answer,
        }
    }
}

impl Lab {
    /// Lists lines of the source, and keeps where the list ends.
    #[tactic(auto, using(crate::proofs::Obeyed::kept))]
    fn list(&mut self, excerpt: Excerpt, follows: bool) -> Result<Done, NoMemory>
        ensures { Executes (orders.List excerpt follows) self.old self.new result }
    {
        let answer = self.rows_answer(excerpt, follows)?;
        self.keep_listed(excerpt);
        Ok(Done::more(answer))
    }

    /// Executes an order, and returns its answer and what follows.
    #[tactic(auto, using(crate::proofs::Obeyed::as_known, crate::proofs::Obeyed::kept))]
    pub(crate) fn execute(&mut self, order: Order) -> Result<Done, NoMemory>
        requires { self.old.plan ≡ None }
        ensures { Executes order self.old self.new result }
    {
        match order {
            Order::Once => self.step_once(),
            Order::Steps(count) => self.run_steps(count),
            Order::Run(plan) => self.start(plan),
            Order::Back(count) => self.back(count),
            Order::List(excerpt, follows) => self.list(excerpt, follows),
            Order::Break(guard) => self.set_break(guard),
            Order::Clear(address) => self.clear_break(address),
            Order::Watch(watched) => self.set_watch(watched),
            Order::Unwatch(watched) => self.unwatch(watched),
            Order::Give(inputs) => self.give_inputs(inputs.items()),
            Order::Monitor(line) => self.monitor_command(line.items()),
            Order::Save(name) => self.save(name),
            Order::Explain => self.explained(),
            Order::Origin(trail) => self.origin(trail),
            Order::Quit => Ok(Done {
                next: Next::Quit,
                answer: Answer::Nothing,
            }),
            Order::Answered(answer) => Ok(Done::more(answer)),
        }
    }
}

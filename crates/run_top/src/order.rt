//! What the words ask for.
ghost use Rattle.std.specs.Prelude.{◌≡◌, ◌⊎◌, IfErr, IfOk};
ghost use Rattle.run_top.specs.Words.{AskFor, AskForNothing, IsOrderInRange, order_in};

use crate::Answer;
use flow_query::Query;
use flow_words::{Command, RunOptions, WordsError, read_words};
use std::alloc::Global;

/// What the words ask for.
#[derive(Clone, Copy, Debug, PartialEq, Eq)]
pub enum Order {
    /// To run the flow.
    Run(RunOptions),
    /// To try a flow of so many files out in memory.
    Trial { count: u64 },
    /// To answer a query of its store.
    Ask(Query),
}

/// What the words behind the program's name ask for. Else the answer: they ask for nothing, or memory was wanting.
pub fn order_of(alloc: Global, words: &[String]) -> Result<Order, Answer>
    ensures order { IfOk result (AskFor words.now) }
    ensures range { IfOk result IsOrderInRange }
    ensures refused { IfErr result (λ answer. ((answer ≡ Answer.Usage) × AskForNothing words.now)
        ⊎ (answer ≡ Answer.Memory)) }
{
    match read_words(alloc, words) {
        Ok(command) => Ok(order_in(command)),
        Err(WordsError::Usage) => Err(Answer::Usage),
        Err(WordsError::Memory) => Err(Answer::Memory),
    }
}

// What a command asks for.
fn order_in(command: Command) -> Order
    ensures { result ≡ order_in command }
{
    match command {
        Command::Run(options) => Order::Run(options),
        Command::Trial { count, .. } => Order::Trial { count },
        Command::Lineage(id) => Order::Ask(Query::Lineage(id)),
        Command::Content(id) => Order::Ask(Query::Content(id)),
        Command::Queues => Order::Ask(Query::Queues),
        Command::Events => Order::Ask(Query::Events),
        Command::Check => Order::Ask(Query::Check),
    }
}

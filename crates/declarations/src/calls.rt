// The calls on a book. Each answers as its questions say, leaves exactly the defined state, and carries a history of the book
// on by one event.
ghost use Rattle.std.specs.Prelude.{◌≡◌, [], length, None};
ghost use Rattle.register.specs.Asking.{ask_answer};
ghost use Rattle.register.specs.Contents.{new_contents};
ghost use Rattle.register.specs.Tables.{lengths_of};
ghost use Rattle.declarations.specs.Books.{state, state_of, BookLoads, BookSettles, after_open, after_keep, after_withdraw, after_ask, EndsTrial};
ghost use Rattle.declarations.specs.Histories.{opens, keeps, withdraws, asks as asks-event};
ghost use Rattle.declarations.specs.Telling.{Tells, Goes, LoadGoes, SettleGoes};
ghost use Rattle.declarations.specs.Trials.{open_answer, spend_answer};

use crate::book::Book;
use crate::ticket::{Mark, NotOpen, Ticket, Unopened};
use chains::decomposer::Decomposer;
use register::refusal::{NotAsked, Unloaded};
use register::register::Register;
use register::tables::Tables;
use settling::outcome::{Settled, Unsettled};
use std::alloc::Global;

/// How many trials a book counts.
pub const MOST_TRIALS: u32 = 4_294_967_295;

impl Book {
    /// A book with nothing entered over these tables: sets pool, names and links to 0 and the others to 65,535 throughout.
    pub fn new(number: u32, tables: Tables) -> Book
        ensures after { state_of result ≡ state (new_contents number (lengths_of tables)) 0 None 0 }
        ensures told { Tells [] result }
    {
        Book {
            register: Register::new(number, tables),
            opened: 0,
            mark: None,
            asks: 0,
        }
    }

    /// Loads the shipped text, then the own one: enters what their lines declare, or refuses and changes nothing at all.
    pub fn load(&mut self, heap: Global, shipped: &[u8], own: &[u8]) -> Result<(), Unloaded>
        ensures loads { BookLoads (state_of self.old) shipped.now own.now result (state_of self.new) }
        ensures told { LoadGoes (state_of self.old) shipped.now own.now result (state_of self.new) }
    {
        self.register.load(heap, shipped, own)
    }

    /// Begins a trial and hands out its ticket.
    pub fn open(&mut self) -> Result<Ticket, Unopened>
        ensures answer { result ≡ open_answer (state_of self.old).contents.number (state_of self.old).mark (state_of self.old).opened }
        ensures after { state_of self.new ≡ after_open (state_of self.old) result }
        ensures told { Goes (state_of self.old) (opens result) (state_of self.new) }
    {
        if self.mark.is_some() {
            return Err(Unopened::TrialOpen);
        }
        if self.opened >= MOST_TRIALS {
            return Err(Unopened::NoMoreTrials);
        }
        let mark = Mark {
            types: self.register.names().count(),
            links: self.register.numbered().link_count(),
        };
        let trial = self.opened + 1;
        self.opened = trial;
        self.mark = Some(mark);
        Ok(Ticket {
            book: self.register.numbered().number(),
            trial,
        })
    }

    // Ends the trial of a ticket, and answers what was entered when it began.
    fn end_trial(&mut self, ticket: Ticket) -> Result<Mark, NotOpen>
        ensures { EndsTrial (state_of self.old) ticket result (state_of self.new) }
    {
        let Some(mark) = self.mark else {
            return Err(NotOpen { ticket });
        };
        if ticket.book != self.register.numbered().number() || ticket.trial != self.opened {
            return Err(NotOpen { ticket });
        }
        let Ticket { book: _, trial: _ } = ticket;
        self.mark = None;
        Ok(mark)
    }

    /// Takes the ticket and ends the trial; what was entered in it stays.
    pub fn keep(&mut self, ticket: Ticket) -> Result<(), NotOpen>
        ensures answer { result ≡ spend_answer (state_of self.old).contents.number (state_of self.old).mark (state_of self.old).opened ticket }
        ensures after { state_of self.new ≡ after_keep (state_of self.old) result }
        ensures told { Goes (state_of self.old) (keeps ticket result) (state_of self.new) }
    {
        self.end_trial(ticket)?;
        Ok(())
    }

    /// Takes the ticket, ends the trial, and takes back every type and link that was entered since it began: their places
    /// are 0 again.
    pub fn withdraw(&mut self, ticket: Ticket) -> Result<(), NotOpen>
        ensures answer { result ≡ spend_answer (state_of self.old).contents.number (state_of self.old).mark (state_of self.old).opened ticket }
        ensures after { state_of self.new ≡ after_withdraw (state_of self.old) result }
        ensures told { Goes (state_of self.old) (withdraws ticket result) (state_of self.new) }
    {
        let mark = self.end_trial(ticket)?;
        self.register.take_back(mark.types, mark.links).unwrap();
        Ok(())
    }

    /// Settles what is in force, with a loop table, working memory and a decomposer.
    pub fn settle<D: Decomposer>(
        &mut self,
        decomposer: &D,
        table: &mut [u16],
        scratch: &mut [u16],
    ) -> Result<Settled, Unsettled>
        ensures settles { BookSettles (D.Decomposer.gives decomposer.now) (state_of self.old) table.old scratch.old result (state_of self.new) table.new scratch.new }
        ensures told { SettleGoes (D.Decomposer.gives decomposer.now) (state_of self.old) (length table.old) (length scratch.old) result (state_of self.new) }
    {
        self.register.settle(decomposer, table, scratch)
    }

    /// Whether the first type descends from the second, by their names. Counts the questions that it answers.
    pub fn ask(&mut self, first: &[u8], second: &[u8]) -> Result<bool, NotAsked>
        ensures answer { result ≡ ask_answer (state_of self.old).contents first.now second.now }
        ensures after { state_of self.new ≡ after_ask (state_of self.old) result }
        ensures told { Goes (state_of self.old) (asks-event first.now second.now result) (state_of self.new) }
    {
        let said = self.register.ask(first, second)?;
        self.asks = self.asks.saturating_add(1);
        Ok(said)
    }
}

// A list of calls on a new book: the call that carries the law.
ghost use Rattle.std.specs.Prelude.{◌≡◌, IfOk};
ghost use Rattle.declarations.specs.Books.{state_of};
ghost use Rattle.declarations.specs.Running.{ticket_of, stub_of, came_back, LoadMoves, OpenMoves, KeepMoves, WithdrawMoves, SettleMoves, AskMoves, CallMoves, Ran, setup_for};

use crate::book::Book;
use crate::call::{Answer, Call, Stub, TableSizes};
use crate::ticket::{NotOpen, Ticket};
use chains::decomposer::Decomposer;
use descent::answerer::Answerer;
use register::refusal::Unloaded;
use register::tables::Tables;
use std::alloc::{AllocError, Global};

/// A book after a list of calls, and what each of them answered.
#[derive(Drop)]
pub struct Outcome {
    pub book: Book,
    pub answers: Vec<Answer>,
}

impl Stub {
    // The ticket of these two numbers. No `From`, which every host could call: it would make tickets.
    fn to_ticket(self) -> Ticket
        ensures { result ≡ ticket_of self }
    {
        Ticket {
            book: self.book,
            trial: self.trial,
        }
    }
}

impl Ticket {
    // The two numbers of the ticket, which is spent. No `From`, which every host could call: it would spend tickets.
    fn into_stub(self) -> Stub
        ensures { result ≡ stub_of self }
    {
        let Ticket { book, trial } = self;
        Stub { book, trial }
    }
}

fn load(heap: Global, book: &mut Book, shipped: &[u8], own: &[u8]) -> Result<Answer, AllocError>
    ensures { IfOk result (λ a. LoadMoves (state_of book.old) shipped.now own.now a (state_of book.new)) }
{
    match book.load(heap, shipped, own) {
        Ok(()) => Ok(Answer::Load(Ok(()))),
        Err(Unloaded::Refused(refusal)) => Ok(Answer::Load(Err(refusal))),
        Err(Unloaded::NoMemory) => Err(AllocError),
    }
}

fn open(book: &mut Book) -> Answer
    ensures { OpenMoves (state_of book.old) result (state_of book.new) }
{
    Answer::Open(book.open().map(|ticket| ticket.into_stub()))
}

// The answer of a keep or a withdraw, with the numbers of the ticket that came back.
fn came_back(spent: Result<(), NotOpen>) -> Result<(), Stub>
    ensures { result ≡ came_back spent }
{
    spent.map_err(|refusal| {
        let NotOpen { ticket } = refusal;
        ticket.into_stub()
    })
}

// Two functions: a keep and a withdraw leave the book differently, and each says so in its contract.
fn keep(book: &mut Book, stub: Stub) -> Answer
    ensures { KeepMoves (state_of book.old) stub result (state_of book.new) }
{
    Answer::Keep(came_back(book.keep(stub.to_ticket())))
}

fn withdraw(book: &mut Book, stub: Stub) -> Answer
    ensures { WithdrawMoves (state_of book.old) stub result (state_of book.new) }
{
    Answer::Withdraw(came_back(book.withdraw(stub.to_ticket())))
}

fn ask(book: &mut Book, first: &[u8], second: &[u8]) -> Answer
    ensures { AskMoves (state_of book.old) first.now second.now result (state_of book.new) }
{
    Answer::Ask(book.ask(first, second))
}

fn settle<D: Decomposer>(
    heap: Global,
    book: &mut Book,
    decomposer: &D,
    table: usize,
    scratch: usize,
) -> Result<Answer, AllocError>
    ensures { IfOk result (λ a. SettleMoves (D.Decomposer.gives decomposer.now) (state_of book.old) table scratch a (state_of book.new)) }
{
    let mut loop_table = vec![in heap; 0u16; table]?;
    let mut memory = vec![in heap; 0u16; scratch]?;
    let settled = book.settle(decomposer, &mut loop_table, &mut memory);
    Ok(Answer::Settle(settled))
}

// Makes one call on a book.
fn answer_to<D: Decomposer>(
    heap: Global,
    book: &mut Book,
    call: &Call<D>,
) -> Result<Answer, AllocError>
    ensures { IfOk result (λ a. CallMoves D.Decomposer.gives (state_of book.old) call.now a (state_of book.new)) }
{
    match call {
        Call::Load { shipped, own } => load(heap, book, shipped, own),
        Call::Open => Ok(open(book)),
        Call::Keep(stub) => Ok(keep(book, *stub)),
        Call::Withdraw(stub) => Ok(withdraw(book, *stub)),
        Call::Settle {
            decomposer,
            table,
            scratch,
        } => settle(heap, book, decomposer, *table, *scratch),
        Call::Ask { first, second } => Ok(ask(book, first, second)),
    }
}

/// Runs a list of calls on a new book over tables of these sizes. The calls and their answers make a history that keeps the law,
/// for every decomposer `D`, and for every answerer `A` by which the links of the book may be trimmed after it.
pub fn run<D: Decomposer, A: Answerer>(
    heap: Global,
    number: u32,
    sizes: TableSizes,
    calls: &[Call<D>],
) -> Result<Outcome, AllocError>
    ensures { IfOk result (λ o. Ran D.Decomposer.gives A.Answerer.count A.Answerer.relates (setup_for number sizes) calls.now o.answers.items o.book) }
{
    let tables = Tables::with_sizes(heap, sizes)?;
    let mut book = Book::new(number, tables);
    let mut answers = Vec::new(heap);
    for call in calls {
        let answer = answer_to(heap, &mut book, call)?;
        answers.push(answer)?;
    }
    Ok(Outcome { book, answers })
}

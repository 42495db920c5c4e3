//! The answers of one worker.
ghost use Rattle.std.specs.Prelude.{◌≡◌, ◌+◌, ◌^◌, ◌<◌, [], ◌++◌, ◌∷◌, IfOk, length, vec_len};
ghost use Rattle.bt_gang.specs.Numbered.{numbered, present};

use std::alloc::{AllocError, Global};
use std::collections::LinkedList;

/// The result of a job, with the job's number.
#[derive(Drop)]
pub struct Answer<D, F> {
    pub number: usize,
    pub value: Result<D, F>,
}

/// Room for the answer of one job, with a second list for its number. The room stays with its job, and then joins the list of the
/// worker that ran the job. A run therefore allocates it once for each job, for any number of workers.
#[derive(Drop)]
pub struct AnswerRoom<D, F> {
    answer: LinkedList<Option<Answer<D, F>>>,
    number: LinkedList<usize>,
    ghost one_answer: { length answer ≡ 1 },
    ghost one_number: { length number ≡ 1 },
}

// A list of one value.
fn list_of_one<T: Drop>(alloc: Global, value: T) -> Result<LinkedList<T>, AllocError>
    ensures { IfOk result (λ list. list ≡ value ∷ []) }
{
    let mut list = LinkedList::new(alloc);
    match list.push_back(value) {
        Ok(()) => Ok(list),
        Err(_) => Err(AllocError),
    }
}

// Replaces the only value of a list.
fn put_first<T: Drop>(list: &mut LinkedList<T>, value: T)
    requires { length list.old ≡ 1 }
    ensures { list.new ≡ value ∷ [] }
{
    match list.front_mut() {
        Some(place) => *place = value,
        None => unreachable!(),
    }
}

// Moves one list to the end of another.
fn join<T: Drop>(list: &mut LinkedList<T>, more: LinkedList<T>)
    requires { length list.old + length more < 2 ^ 63 }
    ensures { list.new ≡ list.old ++ more }
{
    let mut more = more;
    match list.append(&mut more) {
        Ok(()) => {}
        Err(_) => unreachable!(),
    }
}

impl<D: Drop, F: Drop> AnswerRoom<D, F> {
    // Room without an answer.
    fn new(alloc: Global) -> Result<AnswerRoom<D, F>, AllocError> {
        let answer = list_of_one(alloc, None)?;
        let number = list_of_one(alloc, 0)?;
        Ok(AnswerRoom { answer, number })
    }
}

/// Room for this many answers.
pub(crate) fn answer_rooms<D: Drop, F: Drop>(
    alloc: Global,
    n: usize,
) -> Result<Vec<AnswerRoom<D, F>>, AllocError>
    ensures { IfOk result (λ rooms. vec_len rooms ≡ n) }
{
    let mut rooms = Vec::with_capacity(alloc, n)?;
    for _ in 0..n {
        rooms.push_reserved(AnswerRoom::new(alloc)?);
    }
    Ok(rooms)
}

/// The number of answers of a worker is below this limit. No memory holds that many.
const LIMIT: usize = 1 << 63;

/// The answers of one worker, in the order of its runs, and a second list of their numbers. `spare` more answers may be added, each in the
/// room of its job.
#[derive(Drop)]
pub struct Answers<D, F> {
    pub list: LinkedList<Option<Answer<D, F>>>,
    pub numbers: LinkedList<usize>,
    pub spare: usize,
    ghost room: { length list + spare < 2 ^ 63 },
    ghost space: { length numbers + spare < 2 ^ 63 },
    ghost same: { numbers ≡ numbered (present list) },
}

impl<D: Drop, F: Drop> Answers<D, F> {
    /// No answers, with this many to come. It takes no memory. It returns an `Err` only for a number that no list can reach.
    pub fn new(alloc: Global, n: usize) -> Result<Answers<D, F>, AllocError>
        ensures { IfOk result (λ a. (present a.list ≡ []) × (a.spare ≡ n)) }
    {
        if n >= LIMIT {
            return Err(AllocError);
        }
        Ok(Answers {
            list: LinkedList::new(alloc),
            numbers: LinkedList::new(alloc),
            spare: n,
        })
    }

    /// Adds an answer at the end, in the room of its job.
    pub fn add(&mut self, room: AnswerRoom<D, F>, number: usize, value: Result<D, F>)
        requires { 0 < self.old.spare }
        ensures spare { self.new.spare + 1 ≡ self.old.spare }
        ensures list { present self.new.list ≡ present self.old.list ++ record { number = number; value = value } ∷ [] }
    {
        let AnswerRoom {
            mut answer,
            number: mut own_number,
        } = room;
        put_first(&mut answer, Some(Answer { number, value }));
        put_first(&mut own_number, number);
        self.spare -= 1;
        join(&mut self.numbers, own_number);
        join(&mut self.list, answer);
    }
}

//! Pieces of work that are held until others are done.
use gtfs_rows::number_of;
use std::alloc::{AllocError, Global};
use std::sync::atomic::{AtomicBool, Ordering};
use tb_base::{Gate, Memory, Work};

// How often it is looked whether a piece of work is done for which another one has to wait: the
// more, the later it is told of threads that don't run at once that they don't.
const PATIENT: u32 = 2_000_000_000;

// The same where it won't be.
const IMPATIENT: u32 = 20_000_000;

/// A piece of work that is held until another one is done, as a line of a case says.
#[derive(Drop)]
pub struct Hold {
    held: Work,
    until: Work,
    /// Whether the other one has to be done while it is held.
    pub is_met: bool,
    /// The line.
    pub text: String,
}

// The number with which a text begins, and what stands behind it.
fn number_in(text: &str) -> Option<(u32, &str)> {
    let (number, rest) = text.split_once(' ').unwrap_or((text, ""));
    Some((number_of(number.as_bytes())?, rest))
}

// The piece of work with which a text begins, and what stands behind it.
fn work_in(text: &str) -> Option<(Work, &str)> {
    let (name, rest) = text.split_once(' ')?;
    let (number, rest) = number_in(rest)?;
    match name {
        "piece" => Some((Work::Piece(number), rest)),
        "publication" => Some((Work::Publication(number), rest)),
        "request" => {
            let (line, rest) = number_in(rest)?;
            Some((Work::Request { lane: number, line }, rest))
        }
        _ => None,
    }
}

impl Hold {
    /// What a line says, as `piece 0 piece 1`; none where it has no meaning.
    pub fn of_text(alloc: Global, text: &str, is_met: bool) -> Result<Option<Hold>, AllocError> {
        let Some((held, rest)) = work_in(text) else {
            return Ok(None);
        };
        match work_in(rest) {
            Some((until, "")) => {
                let text = String::from_str(alloc, text)?;
                Ok(Some(Hold {
                    held,
                    until,
                    is_met,
                    text,
                }))
            }
            _ => Ok(None),
        }
    }
}

// Who holds a piece of work, and notes what comes of it.
#[derive(Drop)]
struct Holder {
    held: Work,
    until: Work,
    looks: u32,
    is_done: AtomicBool,
    is_let_on: AtomicBool,
}

impl Holder {
    fn new(hold: &Hold) -> Holder {
        Holder {
            held: hold.held,
            until: hold.until,
            looks: if hold.is_met { PATIENT } else { IMPATIENT },
            is_done: AtomicBool::new(false),
            is_let_on: AtomicBool::new(false),
        }
    }

    // Holds whoever calls until the other piece of work is done, or for so many looks.
    fn wait(&self) {
        for _turn in 0..self.looks {
            if self.is_done.load(Ordering::SeqCst) {
                self.is_let_on.store(true, Ordering::SeqCst);
                return;
            }
        }
    }
}

/// A gate that holds pieces of work.
#[derive(Drop)]
pub struct Holding {
    holders: Vec<Holder>,
}

impl Holding {
    /// A gate that holds what lines of a case say.
    pub fn new(alloc: Global, holds: &[Hold]) -> Result<Holding, Memory> {
        let mut holders = Vec::new(alloc);
        for hold in holds {
            holders.push(Holder::new(hold))?;
        }
        Ok(Holding { holders })
    }

    /// Which of these pieces of work were let on while they were held.
    pub fn met(&self, alloc: Global) -> Result<Vec<bool>, Memory> {
        let mut met = Vec::new(alloc);
        for holder in self.holders.iter() {
            met.push(holder.is_let_on.load(Ordering::SeqCst))?;
        }
        Ok(met)
    }
}

impl Gate for Holding {
    fn begin(&self, work: Work) {
        for holder in self.holders.iter() {
            if holder.held == work {
                holder.wait();
            }
        }
    }

    fn done(&self, work: Work) {
        for holder in self.holders.iter() {
            if holder.until == work {
                holder.is_done.store(true, Ordering::SeqCst);
            }
        }
    }
}

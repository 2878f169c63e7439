//! Orders as a register lists them, and a reader over the register's own bytes.
ghost use Rattle.register.specs.Tails.{Tail};

use crate::fault::Fault;
use crate::field::HEAD_BYTES;
use crate::place::read_order;
use terms::{Draft, Ticket};

/// A part of the register, and the place of its first byte, counted from 0.
#[derive(Clone, Copy, Drop)]
pub struct Part<'a> {
    pub bytes: &'a [u8],
    pub place: usize,
}

/// An order: the place of its first byte, counted from 0, its identifier, and its ticket in numbers.
#[derive(Clone, Copy, Drop)]
pub struct Listed<'a> {
    pub place: usize,
    pub identifier: Part<'a>,
    pub draft: Draft,
}

/// What is left to read is always the end of the register, so that a place can be told of it.
#[derive(Drop)]
pub struct Reader<'a> {
    register: &'a [u8],
    rest: &'a [u8],
    ghost end: { Tail register.now rest.now },
}

impl Listed<'_> {
    ghost use Rattle.std.specs.Prelude.{◌≡◌};
    ghost use Rattle.register.specs.Faults.{listed_ticket, ticket_or_fault};

    /// A ticket that is refused is a fault of layer 3, at the order's place.
    pub fn ticket(&self) -> Result<Ticket, Fault>
        ensures { ticket_or_fault result ≡ listed_ticket self.now.place self.now.draft }
    {
        let place = self.place;
        Ticket::new(self.draft).map_err(|refusal| Fault::Ticket(refusal, place))
    }
}

impl<'a> Reader<'a> {
    ghost use Rattle.std.specs.Prelude.{OnSome, length, ◌<◌, ◌≡◌};
    ghost use Rattle.register.specs.Parts.{Placed, next_read};
    ghost use Rattle.register.specs.Readers.{register_of, rest_of};
    ghost use Rattle.register.specs.Reading.{read_next};

    pub fn new(register: &'a [u8]) -> Reader<'a>
        ensures register { register_of result ≡ register.now }
        ensures rest { rest_of result ≡ register.now }
    {
        Reader {
            register,
            rest: register,
        }
    }

    /// The next order, or the fault that ends the reading; nothing at the register's end.
    pub fn next_order(&mut self) -> Option<Result<Listed<'a>, Fault>>
        ensures order { next_read result (rest_of self.new) ≡ read_next (length (register_of self.old)) (rest_of self.old) }
        ensures register { register_of self.new ≡ register_of self.old }
        ensures shorter { OnSome result (length (rest_of self.new) < length (rest_of self.old)) }
        ensures places { Placed (register_of self.old) (rest_of self.old) result (rest_of self.new) }
    {
        if self.rest.is_empty() {
            return None;
        }
        match read_order(self.register.len(), self.rest) {
            Ok((identifier, draft, rest)) => {
                let place = self.register.len() - self.rest.len();
                let identifier = Part {
                    bytes: identifier,
                    place: place + HEAD_BYTES,
                };
                self.rest = rest;
                Some(Ok(Listed {
                    place,
                    identifier,
                    draft,
                }))
            }
            Err(fault) => {
                self.rest = &[];
                Some(Err(fault))
            }
        }
    }
}

impl<'a> Iterator for Reader<'a> {
    ghost use Rattle.std.specs.Iterator.{at_most};
    ghost use Rattle.std.specs.Prelude.{OnSome, length, ◌<◌, ◌≡◌};
    ghost use Rattle.register.specs.Parts.{Placed, next_read};
    ghost use Rattle.register.specs.Readers.{register_of, rest_of};
    ghost use Rattle.register.specs.Reading.{read_next};

    type Item = Result<Listed<'a>, Fault>;

    ghost next_gives = { λ before next after. (next_read next (rest_of after) ≡ read_next (length (register_of before)) (rest_of before))
        × (register_of after ≡ register_of before)
        × OnSome next (length (rest_of after) < length (rest_of before))
        × Placed (register_of before) (rest_of before) next (rest_of after) };

    ghost remaining = { λ reader. at_most (length (rest_of reader)) };

    fn next(&mut self) -> Option<Result<Listed<'a>, Fault>> {
        self.next_order()
    }
}

use anyhow::Context;
use book::{Answer, Call};
use day_file::{BadLine, Command, Expected, Frame, SLIP_PLACES};
use register::Reader;
use std::alloc::{AllocError, Global};
use std::fs;
use terms::{Quote, Ticket};

/// A day file as a list of calls. Questions alter nothing and are passed over, and so is what makes no call: a ticket or a quote
/// that is refused. A register that is loaded stands as the entries that it makes.
#[derive(Drop)]
pub struct Day {
    pub quote: Quote,
    /// how many lines the tape has room for
    pub lines: usize,
    pub calls: Vec<Call>,
    /// those that may run out of places for slips
    pub loads: Vec<Load>,
}

/// A load of the day: where its entries stand in the list of calls, from begin to before end, and how many tickets are refused,
/// which make no call.
#[derive(Clone, Copy, Drop)]
pub struct Load {
    pub begin: usize,
    pub end: usize,
    pub refused_tickets: usize,
}

impl Load {
    /// Whether it has more orders than there are places: no other load leaves a slip without one.
    fn may_run_out(&self) -> bool {
        let entries = self.end.saturating_sub(self.begin);
        self.refused_tickets.saturating_add(entries) > SLIP_PLACES
    }

    /// Each ticket and each entry that is refused takes a place. One slip more stops the load, and no order behind it is entered.
    pub fn runs_out(&self, answers: &[Answer]) -> bool {
        let own = answers.get(self.begin..self.end).unwrap_or(&[]);
        let refused_entries = own
            .iter()
            .filter(|answer| matches!(answer, Answer::Refused(_)))
            .count();
        self.refused_tickets.saturating_add(refused_entries) > SLIP_PLACES
    }
}

fn entry(
    heap: Global,
    time: u64,
    id: &[u8],
    ticket: Ticket,
    calls: &mut Vec<Call>,
) -> Result<(), AllocError> {
    let id = id.to_vec(heap)?;
    Ok(calls.push(Call::Entry { time, id, ticket })?)
}

fn entries(
    heap: Global,
    time: u64,
    register: &[u8],
    calls: &mut Vec<Call>,
) -> Result<Load, AllocError> {
    let begin = calls.len();
    let mut refused_tickets = 0usize;
    for order in Reader::new(register).filter_map(|order| order.ok()) {
        match order.ticket() {
            Ok(ticket) => entry(heap, time, order.identifier.bytes, ticket, calls)?,
            Err(_) => refused_tickets = refused_tickets.saturating_add(1),
        }
    }
    Ok(Load {
        begin,
        end: calls.len(),
        refused_tickets,
    })
}

fn add(heap: Global, command: &Command, calls: &mut Vec<Call>) -> Result<(), AllocError> {
    match command {
        Command::Entry { time, id, draft } => {
            if let Ok(ticket) = Ticket::new(*draft) {
                entry(heap, *time, id, ticket, calls)?;
            }
        }
        Command::Cancel { time, id } => calls.push(Call::Cancel {
            time: *time,
            id: id.to_vec(heap)?,
        })?,
        Command::Quote { time, bid, offer } => {
            if let Ok(quote) = Quote::new(*bid, *offer) {
                calls.push(Call::Quote { time: *time, quote })?;
            }
        }
        Command::Tick { time } => calls.push(Call::Tick { time: *time })?,
        _ => {}
    }
    Ok(())
}

/// The lines up to the close or the end. None where there is no book: no command opens one, or its quote is not lawful.
pub fn read_day(rt: &HostRuntime, text: &[u8]) -> anyhow::Result<Option<Day>> {
    let heap = rt.alloc();
    let mut frame = Frame::default();
    let Some(opening) = frame.open(text)? else {
        return Ok(None);
    };
    let Ok(quote) = opening.quote else {
        return Ok(None);
    };
    let mut calls = Vec::new(heap);
    let mut loads = Vec::new(heap);
    let taken = frame.line() as usize;
    for line in text.split(|byte| *byte == b'\n').skip(taken) {
        match frame.command(line)? {
            None => {}
            Some(Command::Close) => break,
            Some(Command::Load { time, file }) => {
                let number = frame.line();
                let file = std::str::from_utf8(file).map_err(|_| BadLine {
                    number,
                    expected: Expected::Load,
                })?;
                let register = fs::read(rt, file).context(format_args!(
                    "line {number}: cannot read {file}"
                ))?;
                let load = entries(heap, time, register.as_slice(), &mut calls)?;
                if load.may_run_out() {
                    loads.push(load)?;
                }
            }
            Some(command) => add(heap, &command, &mut calls)?,
        }
    }
    Ok(Some(Day {
        quote,
        lines: opening.lines,
        calls,
        loads,
    }))
}
